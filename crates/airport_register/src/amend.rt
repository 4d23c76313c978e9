//! Amendments of the register: the airfield that each amendment adds, changes or removes.

ghost use Rattle.std.specs.Prelude.{◌≡◌, ◌≢◌, IfOk, IfErr, OnErr, None, Some, IfSome, option_copied, option_map};
ghost use Rattle.std.specs.Arc.{arc_value};
ghost use Rattle.airfields.specs.Airfields.{id_of, IsHeld};
ghost use Rattle.airport_register.specs.Amendments.{airfield_at, amended_id, first_broken, after_amendment, list_with_replaced};
ghost use Rattle.airport_register.specs.Amendments.{runways_in, with_runways as with_runways_of};
ghost use Rattle.airport_register.specs.Changes.{IsChange};
ghost use Rattle.airfields.specs.declared.airfield.Airfield.TheVariants.{Airport as AnAirport};

use crate::amendment::{AmendRefusal, Amendment, Changed};
use crate::register::Register;
use airfields::{Airfield, Airport, Runways};
use grid_exact::NoMemory;
use std::alloc::Global;

impl From<NoMemory> for AmendRefusal {
    ghost use Rattle.std.specs.Prelude.{◌≡◌};
    ghost use Rattle.airport_register.specs.declared.amendment.AmendRefusal.TheVariants.{NoMemory};

    ghost from_gives = { λ _ e. e ≡ NoMemory };

    fn from(_: NoMemory) -> AmendRefusal {
        AmendRefusal::NoMemory
    }
}

/// A copy of the runways of an airport; empty where there is no airport.
fn runways_of(alloc: Global, field: Option<&Airfield>) -> Result<Runways, NoMemory>
    ensures { IfOk result (λ r. r ≡ runways_in (option_copied field.entry)) }
{
    match field {
        Some(Airfield::Airport(airport)) => airport.runways.copy(alloc),
        _ => Ok(Runways::empty(alloc)),
    }
}

/// The airport with these runways instead of its own.
fn with_runways(airport: &Airport, runways: Runways) -> Airfield
    ensures { result ≡ AnAirport (with_runways_of runways airport.now) }
{
    Airfield::Airport(Airport {
        id: airport.id,
        category: airport.category,
        arp: airport.arp,
        elevation: airport.elevation,
        runways,
    })
}

impl Register {
    /// The airfield under the amendment's name afterwards; `None` where it is removed. The amendment must break no rule.
    fn amended(&self, alloc: Global, a: &Amendment) -> Result<Option<Airfield>, NoMemory>
        requires { first_broken self.now a.now ≡ None }
        ensures after { IfOk result (λ o. after_amendment self.now a.now
            ≡ list_with_replaced (amended_id a.now) o self.now) }
        ensures held { IfOk result (λ o. IfSome o (λ f. IsHeld f)) }
        ensures named { IfOk result (λ o. IfSome o (λ f. id_of f ≡ amended_id a.now)) }
    {
        self.limits();
        match a {
            Amendment::PutAirport {
                id,
                category,
                arp,
                elevation,
            } => {
                let runways = runways_of(alloc, self.get(id))?;
                Ok(Some(Airfield::Airport(Airport {
                    id: *id,
                    category: *category,
                    arp: *arp,
                    elevation: *elevation,
                    runways,
                })))
            }
            Amendment::PutRunway { id, runway } => match self.get(id) {
                Some(Airfield::Airport(airport)) => {
                    let runways = airport.runways.with(alloc, runway)?;
                    Ok(Some(with_runways(airport, runways)))
                }
                _ => unreachable!(),
            },
            Amendment::DropRunway { id, name } => match self.get(id) {
                Some(Airfield::Airport(airport)) => {
                    let runways = airport.runways.without(alloc, name)?;
                    Ok(Some(with_runways(airport, runways)))
                }
                _ => unreachable!(),
            },
            Amendment::PutHeliport(heliport) => Ok(Some(Airfield::Heliport(*heliport))),
            Amendment::Drop(_) => Ok(None),
        }
    }

    /// Amends the register.
    ///
    /// # Errors
    ///
    /// The refusal of the first rule that the amendment breaks, in the order of the rules, or `NoMemory` where memory was refused. The
    /// register is then unchanged.
    pub fn amend(&mut self, alloc: Global, a: &Amendment) -> Result<Changed, AmendRefusal>
        ensures allowed { IfOk result (λ _. first_broken self.old a.now ≡ None) }
        ensures after { IfOk result (λ _. self.new ≡ after_amendment self.old a.now) }
        ensures change { IfOk result (λ c. IsChange self.old self.new (amended_id a.now) c) }
        ensures put { IfOk result (λ c. self.new
            ≡ list_with_replaced (amended_id a.now) (option_map arc_value c.after) self.old) }
        ensures refused { IfErr result (λ e. e ≢ AmendRefusal.NoMemory →
            first_broken self.old a.now ≡ Some e) }
        ensures same { OnErr result (self.new ≡ self.old) }
    {
        if let Some(refusal) = self.refusal(a) {
            return Err(refusal);
        }
        match self.amended(alloc, a)? {
            Some(field) => Ok(self.put(alloc, field)?),
            None => Ok(self.remove(alloc, a.id())?),
        }
    }
}
