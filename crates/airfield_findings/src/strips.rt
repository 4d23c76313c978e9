//! The surfaces of an airport's runways.

ghost use Rattle.std.specs.Prelude.{◌≡◌, IfOk};
ghost use Rattle.std.specs.List.{All};
ghost use Rattle.airfields.specs.Runways.{IsProper};
ghost use Rattle.airfield_findings.specs.StripLists.{runways_of};

use airfields::Runway;
use grid_exact::NoMemory;
use imaginary_surfaces::Strip;
use std::alloc::Global;

/// The surfaces of runways, in order of the runways' names. Those of an only runway, the most frequent case, are stored in place, so that
/// a structure under them is tested without another memory access.
#[derive(Drop)]
pub(crate) enum Strips {
    Lone([Strip; 1]),
    Listed(Vec<Strip>),
}

/// The surfaces of runways, each prepared.
fn strips_of(alloc: Global, runways: &[Runway]) -> Result<Vec<Strip>, NoMemory>
    requires proper { All IsProper runways.now }
    ensures strips { IfOk result (λ s. s.items ≡ runways.now) }
{
    let mut strips = Vec::with_capacity(alloc, runways.len())?;
    for runway in runways {
        strips.push(Strip::of(runway))?;
    }
    Ok(strips)
}

impl Strips {
    /// The surfaces of these runways.
    pub(crate) fn of(alloc: Global, runways: &[Runway]) -> Result<Strips, NoMemory>
        requires proper { All IsProper runways.now }
        ensures strips { IfOk result (λ s. runways_of s ≡ runways.now) }
    {
        if runways.len() == 1 {
            return Ok(Strips::Lone([Strip::of(&runways[0])]));
        }
        Ok(Strips::Listed(strips_of(alloc, runways)?))
    }

    /// The surfaces as a slice.
    #[inline(always)]
    pub(crate) fn as_slice(&self) -> &[Strip]
        ensures value { result.now ≡ runways_of self.now }
    {
        match self {
            Strips::Lone(strip) => strip,
            Strips::Listed(strips) => strips.as_slice(),
        }
    }
}
