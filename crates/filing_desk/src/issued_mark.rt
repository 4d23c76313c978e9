//! The mark of a determination as it is issued, or issued in the place of another.

ghost use Rattle.std.specs.Prelude.{◌≡◌, ◌<◌, ◌≤◌, ℕ, true, IfOk, OnOk, length};
ghost use Rattle.oe_findings.specs.List.{findings_of};
ghost use Rattle.review_marks.specs.Books.{differs, row_at};
ghost use Rattle.review_marks.specs.declared.change.MarkChange.TheVariants as changes;

use crate::desk::Desk;
use airfields::Filing;
use finding_lists::Findings;
use grid_exact::{NoMemory, Steps};
use oe_findings::Sky;
use review_marks::{MarkBook, MarkChange};
use std::marker::Brand;
use std::sync::ledger::{Blank, Ledger};

/// The change of the marks by a case whose list is compared with the present one; the step is counted in the ledger that `blank` opens.
fn compared<L: Ledger>(
    marks: &mut MarkBook,
    number: u32,
    filing: &Filing,
    list: &Findings,
    sky: &Sky,
    blank: Blank,
) -> Result<MarkChange, NoMemory>
    requires name { blank.name ≡ L.name }
    requires parts { blank.parts ≡ L.parts }
    requires some { 0 < L.parts }
    ensures same { (n : ℕ) → row_at marks.new n ≡ row_at marks.old n }
    ensures room { OnOk result (number ≤ length marks.new) }
    ensures change { IfOk result (λ c. c ≡ changes.Added number
        (record {
          filing = filing.now;
          stored = list.now;
          marked = differs list.now (findings_of sky.now filing.now);
        })) }
{
    let mut steps = Steps::<L>::new(blank);
    if marks.has(number) {
        return marks.revised(number, filing, list, sky, &mut steps);
    }
    marks.added(number, filing, list, sky, &mut steps)
}

/// The change of the marks by a determination that is issued on this list: it is marked exactly where the list differs from that over the
/// present airfields. A list that is the desk's own is not computed a second time.
///
/// # Errors
///
/// `NoMemory` where memory was refused.
pub(crate) fn issued_mark(
    marks: &mut MarkBook,
    number: u32,
    filing: &Filing,
    list: &Findings,
    desk: &Desk,
    own: bool,
) -> Result<MarkChange, NoMemory>
    requires { own ≡ true → list.now ≡ findings_of desk.now.register filing.now }
    ensures same { (n : ℕ) → row_at marks.new n ≡ row_at marks.old n }
    ensures room { OnOk result (number ≤ length marks.new) }
    ensures change { IfOk result (λ c. c ≡ changes.Added number
        (record {
          filing = filing.now;
          stored = list.now;
          marked = differs list.now (findings_of desk.now.register filing.now);
        })) }
{
    if own {
        return marks.added_unmarked(number, filing, list);
    }
    compared::<Brand>(marks, number, filing, list, &desk.sky, Blank::new(1))
}
