//! One version of the airfields.

ghost use Rattle.std.specs.Prelude.{◌≡◌};
ghost use Rattle.std.specs.Arc.{arc_value};
ghost use Rattle.oe_asof.specs.Versions.{version};

use oe_findings::Sky;
use std::marker::Model;
use std::sync::Arc;

/// The airfields, shared, as they stood after the entry of a number; seen as the two.
#[derive(Drop)]
pub(crate) struct KeptSky {
    number: u64,
    sky: Arc<Sky>,
}

impl Model for KeptSky {
    ghost use Rattle.std.specs.Arc.{arc_value};
    ghost use Rattle.oe_asof.specs.Versions.{Version, version};

    ghost Value = { Version };

    ghost view = { λ v. version v.number (arc_value v.sky) };
}

impl KeptSky {
    pub(crate) fn new(number: u64, sky: Arc<Sky>) -> KeptSky
        ensures { result ≡ version number (arc_value sky) }
    {
        KeptSky { number, sky }
    }

    /// The number of the entry.
    pub(crate) fn number(&self) -> u64
        ensures { result ≡ self.now.number }
    {
        self.number
    }

    /// The airfields.
    pub(crate) fn sky(&self) -> &Sky
        ensures { result.now ≡ self.now.airfields }
    {
        &self.sky
    }
}
