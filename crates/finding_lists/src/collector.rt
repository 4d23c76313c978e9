//! Receivers of the entries of a list of findings.

ghost use Rattle.std.specs.Prelude.{◌≡◌, ◌∷◌, ◌++◌, ℕ, [], List, OnOk, OnErr, IfOk, IfErr};
ghost use Rattle.finding_lists.specs.Orders.{merged_list};
ghost use Rattle.finding_lists.specs.declared.finding.Finding.{Finding as AFinding};

use crate::finding::Finding;
use crate::findings::Findings;
use crate::verdict::Verdict;
use grid_exact::NoMemory;

/// Receives the entries of a list of findings, one by one, in order.
pub trait Collector: Sized {
    /// The collector has taken these entries.
    ghost taken: { Self → List AFinding → Type 0 };

    /// The proposition that holds where a call fails.
    ghost fails: { Type 0 };

    /// Takes one more entry.
    fn take(&mut self, finding: Finding) -> Result<(), NoMemory>
        ensures taken { OnOk result ((list : List AFinding) → taken self.old list →
            taken self.new (list ++ finding ∷ [])) }
        ensures fails { OnErr result fails };

    /// Joins the entries of this collector and of another, in that order.
    fn join(self, rest: Self) -> Result<Self, NoMemory>
        ensures taken { IfOk result (λ all. (list more : List AFinding) → taken self list →
            taken rest more → taken all (list ++ more)) }
        ensures fails { IfErr result (λ _. fails) };

    /// The meaning of a place in the list of entries for the collector.
    ghost is_place: { ℕ → List AFinding → Type 0 };

    /// The place after all entries.
    fn place(&self) -> usize
        ensures { (list : List AFinding) → taken self.now list → is_place result list };

    /// Merges the entries from a place on into those before it, by the names of their airfields.
    fn settle(&mut self, from: usize) -> Result<(), NoMemory>
        ensures taken { OnOk result ((list more : List AFinding) → is_place from list →
            taken self.old (list ++ more) → taken self.new (merged_list list more)) }
        ensures fails { OnErr result fails };
}

impl Collector for Findings {
    ghost use Rattle.std.specs.Prelude.{◌≡◌, length, ⊤};

    ghost taken = { λ findings list. findings ≡ list };

    ghost is_place = { λ place list. place ≡ length list };

    ghost fails = { ⊤ };

    #[inline(always)]
    fn take(&mut self, finding: Finding) -> Result<(), NoMemory> {
        self.push(finding)?;
        Ok(())
    }

    fn join(self, rest: Findings) -> Result<Findings, NoMemory> {
        self.followed_by(rest)
    }

    #[inline(always)]
    fn place(&self) -> usize {
        self.len()
    }

    fn settle(&mut self, from: usize) -> Result<(), NoMemory> {
        self.settle_from(from)
    }
}

/// A verdict only counts entries; it needs no memory.
impl Collector for Verdict {
    ghost use Rattle.std.specs.Prelude.{◌≡◌, ⊤};
    ghost use Rattle.finding_lists.specs.Verdicts.{tally_of};

    ghost taken = { λ verdict list. verdict ≡ tally_of list };

    ghost is_place = { λ _ _. ⊤ };

    ghost fails = { ⊥ };

    #[inline(always)]
    fn take(&mut self, finding: Finding) -> Result<(), NoMemory> {
        if finding.rule.is_notice() {
            self.notice = true;
        } else {
            self.obstruction = true;
        }
        self.entries = self.entries.saturating_add(1);
        Ok(())
    }

    fn join(self, rest: Verdict) -> Result<Verdict, NoMemory> {
        Ok(Verdict {
            notice: self.notice || rest.notice,
            obstruction: self.obstruction || rest.obstruction,
            entries: self.entries.saturating_add(rest.entries),
        })
    }

    #[inline(always)]
    fn place(&self) -> usize {
        0
    }

    /// A verdict does not depend on the order of the entries.
    #[inline(always)]
    fn settle(&mut self, _from: usize) -> Result<(), NoMemory> {
        Ok(())
    }
}
