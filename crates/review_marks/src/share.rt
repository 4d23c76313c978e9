//! The entries that one airfield gives to a structure's list of findings.

ghost use Rattle.std.specs.Prelude.{◌≡◌, Some, None, IfOk, IfSome, option_map, is_some, false};
ghost use Rattle.std.specs.Arc.{arc_value};
ghost use Rattle.airfields.specs.declared.airfield.Airfield.{Airfield as AnAirfield};
ghost use Rattle.airfields.specs.Airfields.{IsHeld, category_of};
ghost use Rattle.airfields.specs.Sites.{IsSite};
ghost use Rattle.airfields.specs.Categories.{is_described};
ghost use Rattle.airfield_findings.specs.Prepared.{airfield_of};
ghost use Rattle.airfield_findings.specs.Entries.{field_key, of_airfield, slope_entries};
ghost use Rattle.review_marks.specs.Books.{differs};
ghost use Rattle.review_marks.specs.Near.{area_of, IsAround};
ghost use Rattle.review_marks.specs.Shares.{about, entries_by, findings_of_field, names, is_described_field, is_due as is_due_of, share_of, differ_shares, AirfieldChange, AreHeld, change_of, concerns};
ghost use Rattle.std.specs.Prelude.{if◌then◌else◌, []};

use crate::about::entries_about;
use crate::listing::differ;
use crate::near::{around, lies_in};
use airfield_findings::{Prepared, put_airfield, put_slope};
use airfields::{Airfield, FieldId, Filing};
use airport_register::Changed;
use finding_lists::{Finding, Findings, Rule, SurfaceKey};
use grid_exact::{Area, NoMemory};
use height_rules::Structure;
use notice_slopes::exempt;
use std::alloc::Global;
use std::marker::Model;
use std::sync::Arc;
use surface_tree::Placed;

/// An airfield with its surfaces, before or after a change, where there is one.
#[derive(Drop)]
pub(crate) struct Side {
    prepared: Option<Prepared>,
    is_described: bool,
    ghost described: { is_described ≡ is_described_field (option_map airfield_of prepared) },
}

/// Whether there is an airfield whose category 77.9(d) describes.
fn is_described_one(airfield: &Option<Arc<Airfield>>) -> bool
    ensures { result ≡ is_described_field (option_map arc_value airfield.now) }
{
    match airfield {
        Some(airfield) => airfield.category().described(),
        None => false,
    }
}

/// An airfield with its surfaces, computed once.
fn prepared(alloc: Global, airfield: &Option<Arc<Airfield>>) -> Result<Option<Prepared>, NoMemory>
    requires held { (f : AnAirfield) → option_map arc_value airfield.now ≡ Some f → IsHeld f }
    ensures { IfOk result (λ p. option_map airfield_of p ≡ option_map arc_value airfield.now) }
{
    match airfield {
        Some(airfield) => Ok(Some(Prepared::of(alloc, airfield)?)),
        None => Ok(None),
    }
}

/// Whether the airfield may give an entry to a structure at this point.
#[tactic(auto, using(crate::proofs::Reaching::nothing_standards, crate::proofs::Reaching::nothing_slope))]
fn is_reached(prepared: &Prepared, filing: &Filing) -> bool
    ensures standards { result ≡ false → of_airfield filing.now (airfield_of prepared.now) ≡ [] }
    ensures slope { result ≡ false → slope_entries filing.now (airfield_of prepared.now) ≡ [] }
{
    prepared.plot().area.has(&filing.at)
}

/// The entries of an airfield's standards.
fn standards_of(alloc: Global, prepared: &Prepared, filing: &Filing) -> Result<Findings, NoMemory>
    ensures { IfOk result (λ l. l ≡ of_airfield filing.now (airfield_of prepared.now)) }
{
    let mut list = Findings::new(alloc);
    put_airfield(&mut list, &Structure::of(filing), prepared)?;
    Ok(list)
}

/// The entries of an airfield's notice slope.
fn slope_of(alloc: Global, prepared: &Prepared, filing: &Filing) -> Result<Findings, NoMemory>
    ensures { IfOk result (λ l. l ≡ slope_entries filing.now (airfield_of prepared.now)) }
{
    let mut list = Findings::new(alloc);
    put_slope(&mut list, &Structure::of(filing), prepared)?;
    Ok(list)
}

impl Side {
    /// The airfield with its surfaces, computed once.
    ///
    /// # Errors
    ///
    /// `NoMemory` where memory was refused.
    pub(crate) fn of(alloc: Global, airfield: &Option<Arc<Airfield>>) -> Result<Side, NoMemory>
        requires held { (f : AnAirfield) → option_map arc_value airfield.now ≡ Some f → IsHeld f }
        ensures { IfOk result (λ s. option_map airfield_of s.prepared
            ≡ option_map arc_value airfield.now) }
    {
        let prepared = prepared(alloc, airfield)?;
        let is_described = is_described_one(airfield);
        Ok(Side {
            prepared,
            is_described,
        })
    }

    /// Whether it may give an entry to the list of a structure, judged by the structure's point.
    fn reaches(&self, filing: &Filing) -> bool
        ensures standards { result ≡ false → findings_of_field (of_airfield filing.now)
            (option_map airfield_of self.now.prepared) ≡ [] }
        ensures slope { result ≡ false → findings_of_field (slope_entries filing.now)
            (option_map airfield_of self.now.prepared) ≡ [] }
    {
        match &self.prepared {
            Some(prepared) => is_reached(prepared, filing),
            None => false,
        }
    }

    /// The area outside which it gives no entry, where there is an airfield.
    fn area(&self) -> Option<Area>
        ensures { result ≡ area_of self.now.prepared }
    {
        match &self.prepared {
            Some(prepared) => Some(prepared.plot().area),
            None => None,
        }
    }

    /// The entries of its standards.
    fn standards(&self, alloc: Global, filing: &Filing) -> Result<Findings, NoMemory>
        ensures { IfOk result (λ l. l ≡ findings_of_field (of_airfield filing.now)
            (option_map airfield_of self.now.prepared)) }
    {
        match &self.prepared {
            Some(prepared) => standards_of(alloc, prepared, filing),
            None => Ok(Findings::new(alloc)),
        }
    }

    /// The entries of its notice slope.
    fn slope(&self, alloc: Global, filing: &Filing) -> Result<Findings, NoMemory>
        ensures { IfOk result (λ l. l ≡ (if is_due_of filing.now then findings_of_field
            (slope_entries filing.now) (option_map airfield_of self.now.prepared) else [])) }
    {
        if exempt(filing).is_some() {
            return Ok(Findings::new(alloc));
        }
        match &self.prepared {
            Some(prepared) => slope_of(alloc, prepared, filing),
            None => Ok(Findings::new(alloc)),
        }
    }

    /// The entries that it gives to the list of a structure.
    fn share(&self, alloc: Global, id: &FieldId, filing: &Filing) -> Result<Share, NoMemory>
        ensures { IfOk result (λ s. s ≡ share_of id.now
            (option_map airfield_of self.now.prepared) filing.now) }
    {
        Ok(Share {
            standards: self.standards(alloc, filing)?,
            slope: self.slope(alloc, filing)?,
            is_on: is_on(id, filing) && self.is_described,
        })
    }
}

/// Whether the structure is on the airfield of this name.
pub(crate) fn is_on(id: &FieldId, filing: &Filing) -> bool
    ensures { result ≡ names id.now filing.now }
{
    match &filing.on {
        Some(on) => id == on,
        None => false,
    }
}

/// The entries of an airfield for a structure: its standards, its notice slope where notice is due, and whether 77.9(d) requires
/// notice of construction on it.
#[derive(Drop)]
pub(crate) struct Share {
    pub(crate) standards: Findings,
    pub(crate) slope: Findings,
    pub(crate) is_on: bool,
}

impl Share {
    /// Whether the other airfield gives other entries.
    fn differs(&self, other: &Share) -> bool
        ensures { result ≡ differ_shares self.now other.now }
    {
        differ(&self.standards, &other.standards)
            || differ(&self.slope, &other.slope)
            || (self.is_on && !other.is_on)
            || (!self.is_on && other.is_on)
    }

    /// The entries of the airfield of this name in the list of the structure.
    fn entries(self, id: &FieldId, filing: &Filing) -> Result<Findings, NoMemory>
        ensures { IfOk result (λ l. l ≡ entries_by id.now filing.now self) }
    {
        let is_told = exempt(filing).is_none() && self.is_on;
        let mut list = self.standards.followed_by(self.slope)?;
        if is_told {
            list.push(construction(id))?;
        }
        Ok(list)
    }
}

/// The entry of 77.9(d), construction on the airfield of this name.
fn construction(id: &FieldId) -> Finding
    ensures { result ≡ record { rule = Rule.NoticeD; key = field_key id.now 0; excess = 0 } }
{
    Finding {
        rule: Rule::NoticeD,
        key: SurfaceKey {
            field: Some(*id),
            runway: None,
            part: 0,
        },
        excess: 0,
    }
}

/// An airfield before and after a change, with their surfaces, and a box that contains the areas of both.
#[derive(Drop)]
pub(crate) struct FieldChange {
    id: FieldId,
    before: Side,
    after: Side,
    area: Option<Area>,
    ghost was_around: { IsAround area (area_of before.prepared) },
    ghost is_around: { IsAround area (area_of after.prepared) },
}

impl Model for FieldChange {
    ghost use Rattle.std.specs.Option.{option_map};
    ghost use Rattle.airfield_findings.specs.Prepared.{airfield_of};
    ghost use Rattle.review_marks.specs.Shares.{AirfieldChange};

    ghost Value = { AirfieldChange };

    ghost view = { λ c. record { id = c.id; was = option_map airfield_of c.before.prepared; is_now = option_map airfield_of c.after.prepared } };
}

impl FieldChange {
    /// A change of the register, with the surfaces of the airfield before and after it.
    ///
    /// # Errors
    ///
    /// `NoMemory` where memory was refused.
    pub(crate) fn of(alloc: Global, changed: &Changed) -> Result<FieldChange, NoMemory>
        requires held { AreHeld (change_of changed.now) }
        ensures { IfOk result (λ c. c ≡ change_of changed.now) }
    {
        let before = Side::of(alloc, &changed.before)?;
        let after = Side::of(alloc, &changed.after)?;
        let area = around(&before.area(), &after.area());
        Ok(FieldChange {
            id: changed.id,
            before,
            after,
            area,
        })
    }

    /// Whether the airfield may have an entry in the list of a structure, before or after the change: judged by the structure's
    /// point, or because the structure is on the airfield.
    #[tactic(auto, using(crate::proofs::Reaching::not_reached))]
    pub(crate) fn reaches(&self, filing: &Filing) -> bool
        ensures far { result ≡ false → concerns self.now filing.now ≡ false }
        ensures site { IsSite filing.now }
    {
        if !lies_in(&self.area, &filing.at) {
            return is_on(&self.id, filing);
        }
        self.before.reaches(filing) || self.after.reaches(filing) || is_on(&self.id, filing)
    }

    /// The entries that the airfield gives to the list of a structure now, where they differ from those before.
    pub(crate) fn new_share(
        &self,
        alloc: Global,
        filing: &Filing,
    ) -> Result<Option<Share>, NoMemory>
        ensures concerned { IfOk result (λ o. is_some o ≡ concerns self.now filing.now) }
        ensures share { IfOk result (λ o. IfSome o
            (λ s. s ≡ share_of self.now.id self.now.is_now filing.now)) }
    {
        let before = self.before.share(alloc, &self.id, filing)?;
        let after = self.after.share(alloc, &self.id, filing)?;
        if before.differs(&after) {
            return Ok(Some(after));
        }
        Ok(None)
    }

    /// Whether a stored list has other entries on the airfield than it gives now.
    pub(crate) fn contradicts(
        &self,
        alloc: Global,
        filing: &Filing,
        share: Share,
        stored: &Findings,
    ) -> Result<bool, NoMemory>
        ensures { IfOk result (λ b. b ≡ differs (about self.now.id stored.now)
            (entries_by self.now.id filing.now share)) }
    {
        let told = entries_about(alloc, &self.id, stored)?;
        let given = share.entries(&self.id, filing)?;
        Ok(differ(&told, &given))
    }
}
