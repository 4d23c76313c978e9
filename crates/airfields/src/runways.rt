//! The runways of one airport.

ghost use Rattle.std.specs.Prelude.{◌≡◌, ◌↔◌, [], length, slice_get, option_copied, is_some, IfOk, IsTrue, All};
ghost use Rattle.std.specs.List.{list_all, list_any};
ghost use Rattle.ordered_list.specs.Ordered.{Rises, put_by, removed_by};
ghost use Rattle.airfields.specs.Names.{name_cmp};
ghost use Rattle.airfields.specs.Runways.{name_of, has_near_ends, is_long, runway_at, IsProper, HasNearEnds};

use crate::names::RunwayName;
use crate::runway::Runway;
use grid_exact::{NoMemory, Point};
use ordered_list::OrderedList;
use std::alloc::Global;
use std::marker::Model;

/// Most runways of an airport.
pub const MOST_RUNWAYS: usize = 16;

/// Length in tenths of a foot above which a runway is long: 3,200 feet (77.9(b), 77.17(a)(2)).
pub const LONG_RUNWAY: u64 = 32_000;

/// The runways of one airport, which contracts see as their list in rising order of name.
#[derive(Drop)]
pub struct Runways {
    items: OrderedList<Runway>,
}

impl Model for Runways {
    ghost use Rattle.std.specs.Prelude.{List};
    ghost use Rattle.airfields.specs.declared.runway.Runway.{Runway};

    ghost Value = { List Runway };

    ghost view = { λ r. r.items };
}

impl Runway {
    /// Whether the runway is longer than 3,200 feet.
    fn is_long(&self) -> bool
        ensures { result ≡ is_long self.now }
    {
        self.square_length() > LONG_RUNWAY * LONG_RUNWAY
    }
}

impl Runways {
    /// No runways; it takes no memory.
    pub fn empty(alloc: Global) -> Runways
        ensures { result ≡ [] }
    {
        Runways {
            items: OrderedList::empty(alloc),
        }
    }

    /// The number of runways.
    pub fn len(&self) -> usize
        ensures { result ≡ length self.now }
    {
        self.items.len()
    }

    /// The runway at place `i` in order of name, counted from 0.
    pub fn get(&self, i: usize) -> Option<&Runway>
        ensures { option_copied result ≡ slice_get self.now i }
    {
        self.items.get(i)
    }

    /// The runways in order of name.
    pub fn as_slice(&self) -> &[Runway]
        ensures value { result.now ≡ self.now }
        ensures order { Rises name_cmp name_of self.now }
    {
        self.items.as_slice()
    }

    /// Whether there is a runway of this name.
    pub fn has(&self, name: &RunwayName) -> bool
        ensures { result ≡ is_some (runway_at self.now name.now) }
    {
        self.items.has(name)
    }

    /// Whether both ends of each runway are near enough to the reference point.
    pub fn have_near_ends(&self, arp: &Point) -> bool
        ensures value { result ≡ list_all (has_near_ends arp.now) self.now }
        ensures near { IsTrue result ↔ All (HasNearEnds arp.now) self.now }
    {
        self.items
            .as_slice()
            .iter()
            .all(|runway| runway.has_near_ends(arp))
    }

    /// Whether each runway is within all limits that do not depend on its airport.
    pub fn are_proper(&self) -> bool
        ensures { IsTrue result ↔ All IsProper self.now }
    {
        self.items
            .as_slice()
            .iter()
            .all(|runway| runway.is_proper())
    }

    /// Whether a runway is longer than 3,200 feet, which 77.9(b) and 77.17(a)(2) distinguish.
    pub fn has_long(&self) -> bool
        ensures { result ≡ list_any is_long self.now }
    {
        self.items.as_slice().iter().any(|runway| runway.is_long())
    }

    /// A copy.
    ///
    /// # Errors
    ///
    /// `NoMemory` where memory was refused.
    pub fn copy(&self, alloc: Global) -> Result<Runways, NoMemory>
        ensures copied { IfOk result (λ r. r ≡ self.now) }
    {
        Ok(Runways {
            items: self.items.copy(alloc)?,
        })
    }

    /// A copy with the runway put in its place, instead of the one with its name.
    ///
    /// # Errors
    ///
    /// `NoMemory` where memory was refused.
    pub fn with(&self, alloc: Global, runway: &Runway) -> Result<Runways, NoMemory>
        ensures put { IfOk result (λ r. r ≡ put_by name_cmp name_of runway.now self.now) }
    {
        let mut items = self.items.copy(alloc)?;
        items.put(*runway)?;
        Ok(Runways { items })
    }

    /// A copy without the runway of this name.
    ///
    /// # Errors
    ///
    /// `NoMemory` where memory was refused.
    pub fn without(&self, alloc: Global, name: &RunwayName) -> Result<Runways, NoMemory>
        ensures removed { IfOk result (λ r. r ≡ removed_by name_cmp name_of name.now self.now) }
    {
        let mut items = self.items.copy(alloc)?;
        items.remove(name);
        Ok(Runways { items })
    }
}
