//! Lists of findings that were evaluated before the decision that uses them.

ghost use Rattle.std.specs.Prelude.{◌≡◌, ◌&&◌, nat_le, true, Some, None, IfOk, option_copied, option_map};
ghost use Rattle.desk_machine.specs.Evaluations.{evaluation_of, same_site};
ghost use Rattle.desk_machine.specs.States.{State};
ghost use Rattle.desk_tables.specs.Reachable.{IsTold};

use airfields::Filing;
use case_records::KeptList;
use finding_lists::Findings;
use grid_exact::NoMemory;
use std::alloc::Global;
use std::marker::Model;

/// The list of findings of a structure that was evaluated before, over an older version of the register, with the number of that version:
/// that of the last entry whose changes it has. The list fits in a row.
#[derive(Drop)]
pub struct Evaluated {
    filing: Filing,
    number: u64,
    list: Findings,
}

impl Model for Evaluated {
    ghost use Rattle.std.specs.Prelude.{Some};
    ghost use Rattle.desk_machine.specs.Evaluations.{Given};
    ghost use Rattle.desk_tables.specs.Reachable.{IsTold};

    ghost Value = { Given };

    ghost view = { λ e. record { filing = e.filing; last = e.number; list = e.list } };

    ghost invariant = { λ e. IsTold
        (Some (record { filing = e.filing; last = e.number; list = e.list })) };
}

impl Evaluated {
    /// This list of this structure, evaluated over the version of this number.
    pub fn new(filing: Filing, number: u64, list: Findings) -> Evaluated
        requires { IsTold (Some (record { filing = filing; last = number; list = list })) }
        ensures { result ≡ record { filing = filing; last = number; list = list } }
    {
        Evaluated {
            filing,
            number,
            list,
        }
    }

    /// Whether an act that evaluates this structure is made on it where `p` is the number of the last published entry.
    pub fn fits(&self, filing: &Filing, p: u64) -> bool
        ensures { result ≡ (same_site self.now.filing filing.now && nat_le self.now.last p) }
    {
        self.filing == *filing && self.number <= p
    }

    /// A copy of the list, with its number.
    pub fn kept(&self, alloc: Global) -> Result<KeptList, NoMemory>
        ensures { IfOk result (λ kept. kept ≡ record { last = self.now.last; list = self.now.list }) }
    {
        Ok(KeptList {
            last: self.number,
            list: self.list.copy(alloc)?,
        })
    }

    /// Shows to a proof that the list fits in a row.
    fn told(&self)
        ensures { IsTold (Some self.now) }
    {
        let _ = &self.list;
    }
}

/// Whether an act that evaluates this structure, if it evaluates one, is surely not made on the given list.
#[tactic(auto, using(crate::proofs::Giving::not_given))]
pub fn is_own(structure: Option<Filing>, p: u64, given: Option<&Evaluated>) -> bool
    ensures { result ≡ true → (s : State)
        → option_map (evaluation_of s p (option_copied given.entry)) structure
        ≡ option_map (evaluation_of s p None) structure }
{
    let Some(evaluated) = given else {
        return true;
    };
    match structure {
        Some(filing) => !evaluated.fits(&filing, p),
        None => true,
    }
}

/// Shows to a proof that a given list, if there is one, fits in a row.
pub fn given_told(given: Option<&Evaluated>)
    ensures { IsTold (option_copied given.entry) }
{
    match given {
        Some(list) => list.told(),
        None => {}
    }
}
