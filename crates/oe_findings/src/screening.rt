//! The screening of a structure: a visitor of the airfields over its point.

ghost use Rattle.std.specs.Prelude.{◌≡◌, ◌++◌, ◌∷◌, [], List, OnOk, OnErr, IfOk, IfErr, is_none, true, false};
ghost use Rattle.airfield_findings.specs.Entries.{of_airfield, slope_entries};
ghost use Rattle.finding_lists.specs.Orders.{merged_list};
ghost use Rattle.airfield_findings.specs.Prepared.{airfield_of};
ghost use Rattle.finding_lists.specs.declared.finding.Finding.{Finding as AFinding};
ghost use Rattle.airfield_findings.specs.declared.prepared.Prepared.{Prepared as APrepared};
ghost use Rattle.notice_slopes.specs.Exemptions.{exemption_of};
ghost use Rattle.oe_findings.specs.List.{findings_of};
ghost use Rattle.oe_findings.specs.Screenings.{HasGathered, HasSeen, Holds, slopes_by, standards_by};

use crate::notices::{put_on_airfield, rule_a};
use airfield_findings::{Prepared, no_field, put_airfield, put_entry, put_slope};
use airfields::Filing;
use airport_register::Register;
use finding_lists::{Collector, Rule};
use grid_exact::NoMemory;
use height_rules::{Structure, excess_200, excess_499};
use notice_slopes::exempt;
use surface_tree::Visitor;

/// The findings of a structure for the airfields visited so far: the standards, and the notice rules, which follow all standards. A visit
/// gives the large airfields first, in order of name, and then the small ones, whose entries are merged into those before.
///
/// The flags are stored last: between the collectors they would make the compiler copy the collectors in pieces, which is slower.
#[derive(Drop)]
pub(crate) struct Screening<C: Collector + Drop> {
    pub(crate) structure: Structure,
    pub(crate) standards: C,
    pub(crate) notices: C,
    pub(crate) is_due: bool,
    pub(crate) refused: bool,
}

impl<C: Collector + Drop> Screening<C> {
    /// A screening before its first test; both collectors are empty.
    #[inline(always)]
    pub(crate) fn new(standards: C, notices: C, filing: &Filing) -> Screening<C>
        ensures structure { result.structure ≡ filing.now }
        ensures due { result.is_due ≡ is_none (exemption_of filing.now) }
        ensures going { result.refused ≡ false }
        ensures standards { result.standards ≡ standards }
        ensures notices { result.notices ≡ notices }
    {
        Screening {
            structure: Structure::of(filing),
            is_due: exempt(filing).is_none(),
            standards,
            notices,
            refused: false,
        }
    }

    /// Collects the entries of the rules that depend on the structure alone.
    #[inline(always)]
    fn put_heights(&mut self) -> Result<(), NoMemory>
        requires standards { C.taken self.old.standards [] }
        requires notices { C.taken self.old.notices [] }
        ensures same { self.new.structure ≡ self.old.structure }
        ensures due { self.new.is_due ≡ self.old.is_due }
        ensures going { self.new.refused ≡ self.old.refused }
        ensures taken { OnOk result
            (Holds C.taken self.old.is_due self.new.standards self.new.notices
            (standards_by self.old.structure []) (slopes_by self.old.structure [])) }
        ensures fails { OnErr result C.fails }
    {
        let filing = self.structure.filing();
        put_entry(
            &mut self.standards,
            Rule::H499,
            no_field(),
            excess_499(filing),
        )?;
        if self.is_due {
            put_entry(
                &mut self.notices,
                rule_a(filing),
                no_field(),
                excess_200(filing),
            )?;
        }
        Ok(())
    }

    /// Starts the screening: collects the entries that depend on the structure alone. Both collectors are empty before.
    #[inline(always)]
    pub(crate) fn begin(&mut self)
        requires going { self.old.refused ≡ false }
        requires standards { C.taken self.old.standards [] }
        requires notices { C.taken self.old.notices [] }
        ensures same { self.new.structure ≡ self.old.structure }
        ensures due { self.new.is_due ≡ self.old.is_due }
        ensures seen { HasGathered C.taken C.fails self.old.structure self.old.is_due self.new.standards self.new.notices self.new.refused [] }
    {
        if self.put_heights().is_err() {
            self.refused = true;
        }
    }

    /// Appends the entries of one more large airfield.
    #[inline(always)]
    fn put_large(&mut self, prepared: &Prepared) -> Result<(), NoMemory>
        ensures same { self.new.structure ≡ self.old.structure }
        ensures due { self.new.is_due ≡ self.old.is_due }
        ensures going { self.new.refused ≡ self.old.refused }
        ensures taken { OnOk result ((standards notices : List AFinding)
            → Holds C.taken self.old.is_due self.old.standards self.old.notices standards notices
            → Holds C.taken self.new.is_due self.new.standards self.new.notices
            (standards ++ of_airfield self.old.structure (airfield_of prepared.now))
            (notices ++ slope_entries self.old.structure (airfield_of prepared.now))) }
        ensures fails { OnErr result C.fails }
    {
        put_airfield(&mut self.standards, &self.structure, prepared)?;
        if self.is_due {
            put_slope(&mut self.notices, &self.structure, prepared)?;
        }
        Ok(())
    }

    /// Merges the entries of one more small airfield into those before, by its name.
    #[inline(never)]
    fn put_small(&mut self, prepared: &Prepared) -> Result<(), NoMemory>
        ensures same { self.new.structure ≡ self.old.structure }
        ensures due { self.new.is_due ≡ self.old.is_due }
        ensures going { self.new.refused ≡ self.old.refused }
        ensures taken { OnOk result ((standards notices : List AFinding)
            → Holds C.taken self.old.is_due self.old.standards self.old.notices standards notices
            → Holds C.taken self.new.is_due self.new.standards self.new.notices
            (merged_list standards (of_airfield self.old.structure (airfield_of prepared.now)))
            (merged_list notices (slope_entries self.old.structure (airfield_of prepared.now)))) }
        ensures fails { OnErr result C.fails }
    {
        let standards = self.standards.place();
        put_airfield(&mut self.standards, &self.structure, prepared)?;
        self.standards.settle(standards)?;
        if self.is_due {
            let notices = self.notices.place();
            put_slope(&mut self.notices, &self.structure, prepared)?;
            self.notices.settle(notices)?;
        }
        Ok(())
    }

    /// Collects the entries of one more airfield.
    #[inline(always)]
    fn put(&mut self, prepared: &Prepared) -> Result<(), NoMemory>
        ensures same { self.new.structure ≡ self.old.structure }
        ensures due { self.new.is_due ≡ self.old.is_due }
        ensures going { self.new.refused ≡ self.old.refused }
        ensures taken { OnOk result ((items : List APrepared)
            → Holds C.taken self.old.is_due self.old.standards self.old.notices
            (standards_by self.old.structure items) (slopes_by self.old.structure items)
            → Holds C.taken self.new.is_due self.new.standards self.new.notices
            (standards_by self.old.structure (items ++ prepared.now ∷ []))
            (slopes_by self.old.structure (items ++ prepared.now ∷ []))) }
        ensures fails { OnErr result C.fails }
    {
        if prepared.is_small() {
            self.put_small(prepared)
        } else {
            self.put_large(prepared)
        }
    }

    /// Ends the screening: all entries in their order.
    ///
    /// # Errors
    ///
    /// `NoMemory` where memory was refused.
    #[inline(always)]
    pub(crate) fn finish(self, register: &Register) -> Result<C, NoMemory>
        requires due { self.is_due ≡ is_none (exemption_of self.structure) }
        requires seen { HasSeen C.taken C.fails self.structure self.is_due self.standards self.notices self.refused register.now }
        ensures taken { IfOk result (λ c. C.taken c (findings_of register.now self.structure)) }
        ensures fails { IfErr result (λ _. C.fails) }
    {
        if self.refused {
            return Err(NoMemory);
        }
        let mut notices = self.notices;
        if self.is_due {
            put_on_airfield(&mut notices, register, self.structure.filing())?;
        }
        self.standards.join(notices)
    }
}

impl<C: Collector + Drop> Visitor<Prepared> for Screening<C> {
    ghost use Rattle.std.specs.Prelude.{◌≡◌};
    ghost use Rattle.oe_findings.specs.Screenings.{HasGathered};

    ghost seen = { λ start s items. (s.structure ≡ start.structure) × (s.is_due ≡ start.is_due) × HasGathered C.taken C.fails s.structure s.is_due s.standards s.notices s.refused items };

    fn item(&mut self, item: &Prepared) {
        if self.refused {
            return;
        }
        if self.put(item).is_err() {
            self.refused = true;
        }
    }
}
