//! Structures of cases, as a clerk has them.

ghost use Rattle.std.specs.Prelude.{◌≡◌};
ghost use Rattle.publishing_clerk.specs.Fronts.{IsFilingOf};

use crate::clerk::PublishingClerk;
use crate::opening::Opening;
use airfields::Filing;
use desk_machine::Entry;
use filing_desk::Clerk;
use oe_findings::Sky;
use oe_keeper::Keeper;
use std::marker::Model;
use std::snapshot::Snapshot;
use tree_versions::Note;

/// The structure of a case, if there is such a case, and a note of what is published. It cannot be copied, and only a clerk that is asked
/// makes one. Contracts also see the number of the case and the clerk.
#[derive(Drop)]
pub struct CaseFiling<K: Keeper, J: Opening> {
    number: Snapshot<u32>,
    clerk: Snapshot<Clerk<K>>,
    filing: Option<Filing>,
    note: Note<Entry, Sky, J>,
}

impl<K: Keeper, J: Opening> Model for CaseFiling<K, J> {
    ghost use Rattle.publishing_clerk.specs.Fronts.{IsFilingOf, FilingOf};

    ghost Value = { FilingOf K };

    ghost view = { λ s. record { number = s.number.value; clerk = s.clerk.value; filing = s.filing; note = s.note } };

    ghost invariant = { λ s. IsFilingOf J.opening
        (record { number = s.number.value; clerk = s.clerk.value; filing = s.filing; note = s.note }) };
}

impl<K: Keeper, J: Opening> CaseFiling<K, J> {
    /// The structure; `None` where there is no such case.
    pub fn filing(&self) -> Option<Filing>
        ensures filing { result ≡ self.now.filing }
        ensures case { IsFilingOf J.opening self.now }
    {
        self.filing
    }
}

/// Asks a clerk for the structure of the case of this number.
pub(crate) fn find<K: Keeper, J: Opening>(
    clerk: &mut PublishingClerk<K, J>,
    number: u32,
) -> CaseFiling<K, J>
    ensures number { result.number ≡ number }
    ensures clerk { result.clerk ≡ clerk.old.clerk }
    ensures note { result.note ≡ clerk.old.published }
    ensures case { IsFilingOf J.opening result }
    ensures same { clerk.new ≡ clerk.old }
{
    clerk.goes_on();
    let note = clerk.note();
    CaseFiling {
        number: Snapshot::of(&number),
        clerk: Snapshot::of(clerk.clerk()),
        filing: clerk.filing(number),
        note,
    }
}
