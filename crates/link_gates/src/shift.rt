//! Workers in threads of their own, each where one can be made.

ghost use Rattle.std.specs.Prelude.{◌≡◌, ◌≤◌, ◌<◌, ◌+◌, ◌*◌, ◌^◌, false, ℕ, Option, All, IfSome, map, length};
ghost use Rattle.std.specs.Thread.{IsSend, IsSync};
ghost use Rattle.link_gates.specs.Teams.{together};

use crate::Worked;
use std::sync::Wait;
use std::thread::{Threads, join};

/// The most links that one worker serves.
pub const TURN_LIMIT: u64 = 1_000_000;

/// The work of one thread. It names neither port nor link: where a function calls itself in the closures of `join`, a
/// trait with an associated type gets no proof.
pub trait Shift {
    /// The number of links that it serves where no port fails, where told.
    ghost serves: { Self → Option ℕ };

    /// Its port does not fail.
    ghost IsSteady: { Self → Type 0 };

    /// Serves the links.
    fn work<R: Wait>(&mut self, rt: &R) -> Worked
        ensures most { result.served ≤ TURN_LIMIT }
        ensures count { result.failed ≡ false
            → IfSome (serves self.old) (λ n. result.served ≡ n) }
        ensures steady { IsSteady self.old → result.failed ≡ false };
}

/// Works all shifts, each in a thread of its own where one can be made. Returns what they did together.
#[tactic(auto, using(crate::proofs::TeamFacts::together_halves, crate::proofs::TeamFacts::together_one))]
#[cycle(work)]
pub fn work_all<S: Shift + Send, R: Threads + Wait + Sync>(rt: &R, shifts: &mut [S]) -> Worked
    requires few { length shifts.old < 2 ^ 32 }
    ensures most { result.served ≤ length shifts.old * TURN_LIMIT }
    ensures count { result.failed ≡ false
        → IfSome (together (map S.serves shifts.old)) (λ n. result.served ≡ n) }
    ensures steady { All S.IsSteady shifts.old → result.failed ≡ false }
{
    if shifts.is_empty() {
        return Worked {
            served: 0,
            failed: false,
        };
    }
    if shifts.len() == 1 {
        return shifts[0].work(rt);
    }
    let (left, right) = shifts.split_at_mut(shifts.len() / 2);
    let (a, b) = join(
        rt,
        || -> Worked
            requires { IsSync R.row × IsSend S.row × (length left.now < 2 ^ 32) }
            ensures { (result.served ≤ length left.entry.now * TURN_LIMIT)
                × (result.failed ≡ false → IfSome (together (map S.serves left.entry.now))
                (λ n. result.served ≡ n)) × (All S.IsSteady left.entry.now → result.failed ≡ false) }
        { work_all(rt, left) },
        || -> Worked
            requires { IsSync R.row × IsSend S.row × (length right.now < 2 ^ 32) }
            ensures { (result.served ≤ length right.entry.now * TURN_LIMIT)
                × (result.failed ≡ false → IfSome (together (map S.serves right.entry.now))
                (λ n. result.served ≡ n)) × (All S.IsSteady right.entry.now → result.failed ≡ false) }
        { work_all(rt, right) },
    );
    added(a, b)
}

/// What two parts did together.
fn added(a: Worked, b: Worked) -> Worked
    requires fits { a.served + b.served < 2 ^ 64 }
    ensures served { result.served ≡ a.served + b.served }
    ensures left { result.failed ≡ false → a.failed ≡ false }
    ensures right { result.failed ≡ false → b.failed ≡ false }
    ensures none { a.failed ≡ false → b.failed ≡ false → result.failed ≡ false }
{
    Worked {
        served: a.served + b.served,
        failed: a.failed || b.failed,
    }
}
