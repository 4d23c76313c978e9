//! The register with the surfaces of its airfields.

ghost use Rattle.std.specs.Prelude.{◌≡◌, ◌≢◌, ◌≤◌, ◌+◌, ◌↔◌, IsTrue, ℕ, [], None, Some, IfOk, IfErr, OnOk, OnErr, length, option_map};
ghost use Rattle.std.specs.Arc.{arc_value};
ghost use Rattle.airport_register.specs.Amendments.{amended_id, first_broken, after_amendment, list_with_replaced};
ghost use Rattle.airport_register.specs.Changes.{IsChange};
ghost use Rattle.surface_tree.specs.declared.square.TheConstants.{TOP_LEVEL};
ghost use Rattle.oe_findings.specs.List.{findings_of};
ghost use Rattle.grid_exact.specs.declared.point.Point.{Point as APoint};
ghost use Rattle.oe_findings.specs.Nearness.{AreNear, HasOneNear};
ghost use Rattle.finding_lists.specs.Verdicts.{is_obstruction, verdict_of};

use crate::notices::has_lone_entry;
use crate::screening::Screening;
use crate::surroundings::Surroundings;
use airfields::Filing;
use airport_register::{AmendRefusal, Amendment, Changed, Register};
use finding_lists::{Collector, Findings, Verdict};
use grid_exact::{NoMemory, Steps};
use height_rules::excess_499;
use notice_slopes::exempt;
use std::alloc::Global;
use std::marker::Model;
use std::sync::ledger::Ledger;

/// The register with the surfaces of its airfields, which contracts see as the list of the airfields in rising order of name. It never
/// changes.
pub struct Sky {
    register: Register,
    surroundings: Surroundings,
}

// By hand, so that no crate above proves again how what it holds is dropped.
impl Drop for Sky {
    fn drop(self) {
        let Sky {
            register: _,
            surroundings: _,
        } = self;
    }
}

impl Model for Sky {
    ghost use Rattle.std.specs.Prelude.{◌≡◌, List};
    ghost use Rattle.airfields.specs.declared.airfield.Airfield.{Airfield};

    ghost Value = { List Airfield };

    ghost view = { λ s. s.register };

    ghost invariant = { λ s. s.surroundings ≡ s.register };
}

impl Sky {
    /// A sky without airfields. It takes no memory.
    pub fn empty(alloc: Global) -> Sky
        ensures { result ≡ [] }
    {
        Sky {
            register: Register::empty(alloc),
            surroundings: Surroundings::empty(alloc),
        }
    }

    /// The sky for the airfields of a register.
    ///
    /// # Errors
    ///
    /// `NoMemory` where memory was refused.
    pub fn of(alloc: Global, register: &Register) -> Result<Sky, NoMemory>
        ensures { IfOk result (λ s. s ≡ register.now) }
    {
        Ok(Sky {
            register: register.share(alloc)?,
            surroundings: Surroundings::of(alloc, register)?,
        })
    }

    /// The same sky once more, which shares what it holds.
    ///
    /// # Errors
    ///
    /// `NoMemory` where memory was refused.
    pub fn share(&self, alloc: Global) -> Result<Sky, NoMemory>
        ensures { IfOk result (λ s. s ≡ self.now) }
    {
        Ok(Sky {
            register: self.register.share(alloc)?,
            surroundings: self.surroundings.share()?,
        })
    }

    /// The register.
    pub fn register(&self) -> &Register
        ensures { result.now ≡ self.now }
    {
        &self.register
    }

    /// The sky after an amendment of the register, and the result of the amendment. This sky is unchanged.
    ///
    /// # Errors
    ///
    /// The refusal of the first rule that the amendment breaks, in the order of the rules, or `NoMemory` where memory was refused.
    pub fn amended(&self, alloc: Global, a: &Amendment) -> Result<(Sky, Changed), AmendRefusal>
        ensures allowed { IfOk result (λ _. first_broken self.now a.now ≡ None) }
        ensures after { IfOk result (λ r. r.0 ≡ after_amendment self.now a.now) }
        ensures change { IfOk result (λ r. IsChange self.now r.0 (amended_id a.now) r.1) }
        ensures put { IfOk result (λ r. r.0 ≡ list_with_replaced (amended_id a.now)
            (option_map arc_value r.1.after) self.now) }
        ensures refused { IfErr result (λ e. e ≢ AmendRefusal.NoMemory
            → first_broken self.now a.now ≡ Some e) }
    {
        let mut register = self.register.share(alloc)?;
        let changed = register.amend(alloc, a)?;
        register.limits();
        let surroundings = self.surroundings.replaced(alloc, &changed)?;
        Ok((
            Sky {
                register,
                surroundings,
            },
            changed,
        ))
    }

    /// Shows to a proof that over each point there is one number of near surfaces, and so a limit of the steps of a search.
    pub fn near_number(&self)
        ensures { (x : APoint) → HasOneNear self.now x }
    {
        self.surroundings.near_number();
    }

    /// The findings of a structure over all airfields, which two collectors that have taken nothing gather: the standards, and the notice
    /// rules behind them.
    ///
    /// # Errors
    ///
    /// `NoMemory` where memory was refused.
    fn gathered<C: Collector + Drop, L: Ledger>(
        &self,
        standards: C,
        notices: C,
        filing: &Filing,
        steps: &mut Steps<L>,
    ) -> Result<C, NoMemory>
        requires standards { C.taken standards [] }
        requires notices { C.taken notices [] }
        ensures taken { IfOk result (λ c. C.taken c (findings_of self.now filing.now)) }
        ensures fails { IfErr result (λ _. C.fails) }
        ensures steps { steps.new ≤ steps.old + (TOP_LEVEL + 1) + length self.now }
        ensures near { (n : ℕ) → AreNear self.now filing.now.at n
            → steps.new ≤ steps.old + (TOP_LEVEL + 1) + n }
    {
        self.register.limits();
        let mut screening = Screening::new(standards, notices, filing);
        screening.begin();
        self.surroundings.visit(&mut screening, steps);
        screening.finish(&self.register)
    }

    /// Makes `list` the findings of a structure for all airfields: each standard and notice rule that it exceeds, in order, with the
    /// excess of its top over the surface or limit, in tenths of a foot, rounded down: 77.17(a)(1) and (2), the surfaces of 77.19 and
    /// 77.23, and the notice rules of 77.9. The memory of the list is reused.
    ///
    /// A step is one square of the search, or one airfield tested: at most `TOP_LEVEL + 1` squares, and at most as many airfields as
    /// there are surfaces near the structure.
    ///
    /// # Errors
    ///
    /// `NoMemory` where memory was refused; the list is then empty.
    pub fn find<L: Ledger>(
        &self,
        alloc: Global,
        list: &mut Findings,
        filing: &Filing,
        steps: &mut Steps<L>,
    ) -> Result<(), NoMemory>
        ensures found { OnOk result (list.new ≡ findings_of self.now filing.now) }
        ensures empty { OnErr result (list.new ≡ []) }
        ensures steps { steps.new ≤ steps.old + (TOP_LEVEL + 1) + length self.now }
        ensures near { (n : ℕ) → AreNear self.now filing.now.at n
            → steps.new ≤ steps.old + (TOP_LEVEL + 1) + n }
    {
        let room = std::mem::replace(list, Findings::new(alloc));
        let (standards, notices) = room.emptied(alloc);
        *list = self.gathered(standards, notices, filing, steps)?;
        Ok(())
    }

    /// The same findings as a new list.
    ///
    /// # Errors
    ///
    /// `NoMemory` where memory was refused.
    pub fn findings<L: Ledger>(
        &self,
        alloc: Global,
        filing: &Filing,
        steps: &mut Steps<L>,
    ) -> Result<Findings, NoMemory>
        ensures found { IfOk result (λ list. list ≡ findings_of self.now filing.now) }
        ensures steps { steps.new ≤ steps.old + (TOP_LEVEL + 1) + length self.now }
        ensures near { (n : ℕ) → AreNear self.now filing.now.at n
            → steps.new ≤ steps.old + (TOP_LEVEL + 1) + n }
    {
        self.gathered(Findings::new(alloc), Findings::new(alloc), filing, steps)
    }

    /// The verdict on that list. It takes no memory.
    pub fn verdict<L: Ledger>(&self, filing: &Filing, steps: &mut Steps<L>) -> Verdict
        ensures found { result ≡ verdict_of (findings_of self.now filing.now) }
        ensures steps { steps.new ≤ steps.old + (TOP_LEVEL + 1) + length self.now }
        ensures near { (n : ℕ) → AreNear self.now filing.now.at n
            → steps.new ≤ steps.old + (TOP_LEVEL + 1) + n }
    {
        self.register.limits();
        match self.gathered(Verdict::none(), Verdict::none(), filing, steps) {
            Ok(verdict) => verdict,
            Err(NoMemory) => unreachable!(),
        }
    }

    /// Whether that list has a standard of 77.17, 77.19 or 77.23. It takes no memory, and computes no further excesses once one is found.
    #[tactic(auto, using(crate::proofs::Standards::by_height, crate::proofs::Standards::by_airfields))]
    pub fn is_obstruction<L: Ledger>(&self, filing: &Filing, steps: &mut Steps<L>) -> bool
        ensures found { result ≡ is_obstruction (findings_of self.now filing.now) }
        ensures steps { steps.new ≤ steps.old + (TOP_LEVEL + 1) + length self.now }
        ensures near { (n : ℕ) → AreNear self.now filing.now.at n
            → steps.new ≤ steps.old + (TOP_LEVEL + 1) + n }
    {
        if excess_499(filing).is_some() {
            return true;
        }
        self.surroundings.exceeded(filing, steps)
    }

    /// Whether that list is empty: the structure has no standard that it exceeds, and no notice rule that it meets. It takes no memory,
    /// and computes no further excesses once one is found.
    pub fn is_clear<L: Ledger>(&self, filing: &Filing, steps: &mut Steps<L>) -> bool
        ensures found { IsTrue result ↔ findings_of self.now filing.now ≡ [] }
        ensures steps { steps.new ≤ steps.old + (TOP_LEVEL + 1) + length self.now }
        ensures near { (n : ℕ) → AreNear self.now filing.now.at n
            → steps.new ≤ steps.old + (TOP_LEVEL + 1) + n }
    {
        let is_due = exempt(filing).is_none();
        !has_lone_entry(&self.register, filing, is_due)
            && !self.surroundings.has_finding(filing, is_due, steps)
    }
}
