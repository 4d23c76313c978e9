//! The surfaces of an airfield.

ghost use Rattle.std.specs.Prelude.{◌≡◌, IfOk};
ghost use Rattle.airfields.specs.Airfields.{id_of, IsHeld, IsHeldHeliport};
ghost use Rattle.airfields.specs.declared.airfield.Airfield.TheVariants.{Heliport as AHeliport};
ghost use Rattle.airfield_findings.specs.Reaches.{IsInPlace};
ghost use Rattle.airfield_findings.specs.Surfaces.{airfield_with};

use crate::plots::heliport_plot;
use crate::prepared_airport::PreparedAirport;
use airfields::{Airfield, FieldId, Heliport};
use grid_exact::NoMemory;
use heliport_surfaces::Pad;
use std::alloc::Global;
use surface_tree::Plot;

/// The surfaces of an airfield.
#[derive(Drop)]
pub(crate) enum Surfaces {
    Airport(PreparedAirport),
    Heliport(Pad),
}

impl Surfaces {
    /// Prepares the surfaces of an airfield, and its plot.
    pub(crate) fn of(alloc: Global, airfield: &Airfield) -> Result<(Surfaces, Plot), NoMemory>
        requires held { IsHeld airfield.now }
        ensures airfield { IfOk result (λ s. airfield_with s.0 ≡ airfield.now) }
        ensures plot { IfOk result (λ s. IsInPlace s.1 airfield.now) }
    {
        match airfield {
            Airfield::Airport(airport) => {
                let (prepared, plot) = PreparedAirport::of(alloc, airport)?;
                Ok((Surfaces::Airport(prepared), plot))
            }
            Airfield::Heliport(heliport) => {
                let pad = Pad::of(heliport);
                let plot = pad_plot(heliport, &pad);
                Ok((Surfaces::Heliport(pad), plot))
            }
        }
    }

    /// The name of the airfield.
    pub(crate) fn id(&self) -> &FieldId
        ensures { result.now ≡ id_of (airfield_with self.now) }
    {
        match self {
            Surfaces::Airport(prepared) => &prepared.airport().id,
            Surfaces::Heliport(pad) => &pad.heliport().id,
        }
    }
}

/// The plot of a heliport with these surfaces.
fn pad_plot(heliport: &Heliport, pad: &Pad) -> Plot
    requires held { IsHeldHeliport heliport.now }
    requires pad { pad.now ≡ heliport.now }
    ensures { IsInPlace result (AHeliport heliport.now) }
{
    heliport_plot(heliport, &pad.areas())
}
