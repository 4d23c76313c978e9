//! The change of the marks by an amendment of the register.

ghost use Rattle.std.specs.Prelude.{◌≡◌, ◌<◌, ℕ, IfOk, option_map};
ghost use Rattle.review_marks.specs.Books.{row_at, rows_after_commit, HasRoom};
ghost use Rattle.review_marks.specs.Shares.{AreHeld, change_of};
ghost use Rattle.review_marks.specs.Turns.{row_after_change, Shows};

use airport_register::Changed;
use grid_exact::{NoMemory, Steps};
use oe_findings::Sky;
use review_marks::{MarkBook, MarkChange};
use std::marker::Brand;
use std::sync::ledger::{Blank, Ledger};

/// The change of the marks after an amendment, whose steps are counted in the ledger that `blank` opens.
fn counted_change<L: Ledger>(
    marks: &mut MarkBook,
    sky: &Sky,
    changed: &Changed,
    blank: Blank,
) -> Result<MarkChange, NoMemory>
    requires held { AreHeld (change_of changed.now) }
    requires shows { Shows sky.now (change_of changed.now) }
    requires name { blank.name ≡ L.name }
    requires parts { blank.parts ≡ L.parts }
    requires some { 0 < L.parts }
    ensures same { marks.new ≡ marks.old }
    ensures room { IfOk result (λ c. HasRoom marks.old c) }
    ensures turned { IfOk result (λ c. (n : ℕ)
        → row_at (rows_after_commit c marks.old) n
        ≡ option_map (row_after_change sky.now (change_of changed.now)) (row_at marks.old n)) }
{
    marks.amended(sky, changed, &mut Steps::<L>::new(blank))
}

/// The change of the marks by an amendment of the register, after which the airfields are those of `sky`.
pub(crate) fn mark_change(
    marks: &mut MarkBook,
    sky: &Sky,
    changed: &Changed,
) -> Result<MarkChange, NoMemory>
    requires held { AreHeld (change_of changed.now) }
    requires shows { Shows sky.now (change_of changed.now) }
    ensures same { marks.new ≡ marks.old }
    ensures room { IfOk result (λ c. HasRoom marks.old c) }
    ensures turned { IfOk result (λ c. (n : ℕ)
        → row_at (rows_after_commit c marks.old) n
        ≡ option_map (row_after_change sky.now (change_of changed.now)) (row_at marks.old n)) }
{
    counted_change::<Brand>(marks, sky, changed, Blank::new(1))
}
