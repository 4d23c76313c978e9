//! The row changes for an amendment of the register.

ghost use Rattle.std.specs.Prelude.{◌≡◌, ◌++◌, map, take, OnOk};
ghost use Rattle.airfields.specs.declared.runway.Runway.{Runway as Strip};
ghost use Rattle.desk_tables.specs.Changes.{amendment_changes, remove_runway};

use crate::ChangeList;
use airfields::{Airfield, Airport, FieldId, Runway, Runways};
use airport_register::{Amendment, Register};
use grid_exact::NoMemory;
use std::alloc::Global;

impl ChangeList {
    /// Deletes the rows of the airport's runways.
    fn remove_runways(
        &mut self,
        alloc: Global,
        id: &FieldId,
        runways: &[Runway],
    ) -> Result<(), NoMemory>
        ensures { OnOk result (self.new ≡ self.old ++ map (λ
            (r : Strip). remove_runway id.now r.name) runways.now) }
    {
        'runways: for runway in runways {
            self.remove_runway(alloc, id, &runway.name)?;
        }
        Ok(())
    }

    /// The row changes for an amendment of this register. An airfield is deleted with all of its runways.
    ///
    /// # Errors
    ///
    /// `NoMemory` where memory was refused.
    pub fn amend(
        &mut self,
        alloc: Global,
        register: &Register,
        a: &Amendment,
    ) -> Result<(), NoMemory>
        ensures { OnOk result (self.new ≡ self.old ++ amendment_changes register.now a.now) }
    {
        match a {
            Amendment::PutAirport {
                id,
                category,
                arp,
                elevation,
            } => {
                let airport = Airport {
                    id: *id,
                    category: *category,
                    arp: *arp,
                    elevation: *elevation,
                    runways: Runways::empty(alloc),
                };
                self.put_airfield(alloc, &Airfield::Airport(airport))
            }
            Amendment::PutRunway { id, runway } => self.put_runway(alloc, id, runway),
            Amendment::DropRunway { id, name } => self.remove_runway(alloc, id, name),
            Amendment::PutHeliport(heliport) => {
                self.put_airfield(alloc, &Airfield::Heliport(*heliport))
            }
            Amendment::Drop(id) => {
                self.remove_airfield(alloc, id)?;
                match register.get(id) {
                    Some(Airfield::Airport(airport)) => {
                        self.remove_runways(alloc, id, airport.runways.as_slice())
                    }
                    Some(Airfield::Heliport(_)) => Ok(()),
                    None => Ok(()),
                }
            }
        }
    }
}
