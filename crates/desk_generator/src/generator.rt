//! The steps of the generator, and the whole run.

ghost use Rattle.std.specs.Prelude.{◌≡◌, ◌≤◌, IfOk, OnOk};
ghost use Rattle.wire_values.specs.declared.counts.TheConstants.{CASE_LIMIT};
ghost use Rattle.desk_generator.specs.Desks.{each, register, file, revise, generated_state};

use crate::acts::{determine, first_day, notice, put_airport, put_runway, put_visual};
use crate::asking::Generator;
use crate::draws::Draws;
use filing_desk::Clerk;
use grid_exact::NoMemory;
use oe_keeper::NoKeeper;
use std::alloc::Global;

/// The greatest number of airports; there are as many as cases, up to this.
pub const MOST_AIRPORTS: u32 = 200;

/// The greatest number of cases.
pub const COUNT_LIMIT: u32 = 20_000;

impl Generator {
    /// Draws an airport and registers it, with its runway.
    #[tactic(auto, unfolding(crate::specs::Desks::register))]
    fn register(&mut self, number: u32) -> Result<(), NoMemory>
        ensures { OnOk result (self.new ≡ register number self.old) }
    {
        let airport = self.draws.airport(number);
        self.ask(put_airport(&airport))?;
        self.ask(put_runway(&airport))
    }

    /// Draws a structure, files its notice and has its case determined.
    #[tactic(auto, unfolding(crate::specs::Desks::file))]
    fn file(&mut self, number: u32) -> Result<(), NoMemory>
        requires least { 1 ≤ number }
        requires most { number ≤ CASE_LIMIT }
        ensures { OnOk result (self.new ≡ file number self.old) }
    {
        let filing = self.draws.structure();
        self.ask(notice(&filing))?;
        let finding = self.finding(&filing);
        self.ask(determine(number, finding))
    }

    /// Draws an airport again, and makes its runway visual where the airport's number is odd.
    #[tactic(auto, unfolding(crate::specs::Desks::revise))]
    fn revise(&mut self, number: u32) -> Result<(), NoMemory>
        ensures { OnOk result (self.new ≡ revise number self.old) }
    {
        let airport = self.draws.airport(number);
        if number % 2 == 1 {
            return self.ask(put_visual(&airport));
        }
        Ok(())
    }

    /// Draws and registers `count` airports.
    #[tactic(auto, using(crate::proofs::CourseFacts::each_first, crate::proofs::CourseFacts::each_next, crate::proofs::CourseFacts::each_last))]
    fn register_all(&mut self, count: u32) -> Result<(), NoMemory>
        ensures { OnOk result (self.new ≡ each register count 1 self.old) }
    {
        for done in 0..count {
            self.register(done + 1)?;
        }
        Ok(())
    }

    /// Draws `count` structures, files their notices and has their cases determined.
    #[tactic(auto, using(crate::proofs::CourseFacts::each_first, crate::proofs::CourseFacts::each_next, crate::proofs::CourseFacts::each_last))]
    fn file_all(&mut self, count: u32) -> Result<(), NoMemory>
        requires { count ≤ CASE_LIMIT }
        ensures { OnOk result (self.new ≡ each file count 1 self.old) }
    {
        for done in 0..count {
            self.file(done + 1)?;
        }
        Ok(())
    }

    /// Draws `count` airports again, and makes the runway of every other one visual.
    #[tactic(auto, using(crate::proofs::CourseFacts::each_first, crate::proofs::CourseFacts::each_next, crate::proofs::CourseFacts::each_last))]
    fn revise_all(&mut self, count: u32) -> Result<(), NoMemory>
        ensures { OnOk result (self.new ≡ each revise count 1 self.old) }
    {
        for done in 0..count {
            self.revise(done + 1)?;
        }
        Ok(())
    }
}

/// Generates a desk of `count` cases with the draws from `seed`, and returns its clerk.
///
/// # Errors
///
/// `NoMemory` where memory was refused.
pub fn generated(alloc: Global, seed: u64, count: u32) -> Result<Clerk<NoKeeper>, NoMemory>
    requires { count ≤ COUNT_LIMIT }
    ensures { IfOk result (λ c. c.state ≡ generated_state seed count) }
{
    let airports = count.min(MOST_AIRPORTS);
    let mut generator = Generator {
        alloc,
        draws: Draws::new(seed),
        asked: 0,
        clerk: Clerk::unkept(alloc),
    };
    generator.ask(first_day())?;
    generator.register_all(airports)?;
    generator.file_all(count)?;
    generator.draws = Draws::new(seed);
    generator.revise_all(airports)?;
    Ok(generator.clerk)
}
