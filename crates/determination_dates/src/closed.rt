//! Days on which the Federal government is closed.

ghost use Rattle.std.specs.Prelude.{◌≡◌, ◌↔◌, [], false, List, OnOk, OnErr, IsTrue};
ghost use Rattle.std.specs.List.{All};
ghost use Rattle.std.specs.List.Sorted.{IsStrictlySortedBy};
ghost use Rattle.jiff_core.specs.Date.{epoch_day};
ghost use Rattle.jiff_core.specs.declared.civil.date.Date.{Date as Plain};
ghost use Rattle.determination_dates.specs.Days.{IsLimited};
ghost use Rattle.determination_dates.specs.Closed.{date_cmp, is_closed, is_none_of, with_day, without_day, IsOpen};

use grid_exact::NoMemory;
use jiff::civil::Date;
use std::alloc::Global;
use std::collections::BTreeSet;
use std::marker::Model;

/// The days besides Saturdays and Sundays on which the government is closed (77.39(c)): a set of dates, which contracts see as their list
/// in rising order.
#[derive(Drop)]
pub struct ClosedDays {
    days: BTreeSet<Date>,
}

impl Model for ClosedDays {
    ghost use Rattle.std.specs.Prelude.{List};
    ghost use Rattle.jiff_core.specs.declared.civil.date.Date.{Date as Plain};
    ghost use Rattle.determination_dates.specs.Closed.{AreClosedDays};

    ghost Value = { List Plain };

    ghost view = { λ c. c.days.keys };

    ghost invariant = { λ c. AreClosedDays c.days.keys };
}

impl ClosedDays {
    /// No dates. It takes no memory.
    pub fn empty(alloc: Global) -> ClosedDays
        ensures { result ≡ [] }
    {
        ClosedDays {
            days: BTreeSet::new(alloc),
        }
    }

    /// Whether there are no dates.
    pub fn is_empty(&self) -> bool
        ensures { result ≡ is_none_of self.now }
    {
        self.days.is_empty()
    }

    /// Whether the date is in the set.
    pub fn has(&self, d: Date) -> bool
        ensures { result ≡ is_closed self.now (epoch_day d) }
    {
        self.days.contains(&d)
    }

    /// Adds the date; where it is in the set already, nothing changes.
    ///
    /// # Errors
    ///
    /// `NoMemory` where memory was refused; the set is then unchanged.
    pub fn with(&mut self, d: Date) -> Result<(), NoMemory>
        requires { IsLimited d }
        ensures added { OnOk result (self.new ≡ with_day d self.old) }
        ensures same { OnErr result (self.new ≡ self.old) }
    {
        match self.days.insert(d) {
            Ok(_) => Ok(()),
            Err(_) => Err(NoMemory),
        }
    }

    /// Removes the date; where it is not in the set, nothing changes. It takes no memory, and undoes `with` of a date that was not in the
    /// set.
    pub fn without(&mut self, d: Date)
        ensures taken { self.new ≡ without_day d self.old }
        ensures undone { (before : List Plain) → self.old ≡ with_day d before →
            is_closed before (epoch_day d) ≡ false → self.new ≡ before }
    {
        let _ = self.days.remove(&d);
    }

    /// For proofs: the dates stand in rising order and are within the limit.
    pub fn order(&self)
        ensures rising { IsStrictlySortedBy date_cmp self.now }
        ensures limited { All IsLimited self.now }
    {
        let _ = &self.days;
    }

    /// Whether the government is open on that day: it is no Saturday, no Sunday and not in the set.
    pub(crate) fn is_open(&self, d: Date) -> bool
        ensures { IsTrue result ↔ IsOpen self.now (epoch_day d) }
    {
        if d.to_plain().weekday().index() >= 5 {
            return false;
        }
        !self.has(d)
    }
}
