//! The lines of a runway and its class.

ghost use Rattle.std.specs.Prelude.{◌≡◌};
ghost use Rattle.runway_classes.specs.Class.{IsSized, HasSizes};
ghost use Rattle.airfields.specs.Runways.{IsProper};
ghost use Rattle.runway_lines.specs.Ends.{center_x, center_y, class_of, end_class_of};

use crate::end::End;
use crate::setbacks::extended;
use airfields::Runway;
use grid_exact::Start;
use runway_classes::{EndClass, RunwayClass, classify};

/// The center of the end of the primary surface at this end of a runway: 200 feet past a hard runway's end, else the end (77.19(c)).
pub fn center(runway: &Runway, end: End) -> Start
    requires proper { IsProper runway.now }
    ensures x { result.x ≡ center_x runway.now end }
    ensures y { result.y ≡ center_y runway.now end }
{
    let here = end.of(runway).at;
    if !runway.hard {
        return Start::at(&here);
    }
    let there = end.other().of(runway).at;
    extended(&here, &there, runway.square_length() as u128)
}

/// The class of a runway, over the approaches that its ends have or are planned for.
#[tactic(auto, using(crate::proofs::ClassFacts::not_refused, crate::proofs::ClassFacts::class_is))]
pub fn class(runway: &Runway) -> RunwayClass
    requires proper { IsProper runway.now }
    ensures value { result ≡ class_of runway.now }
    ensures sized { IsSized result }
{
    match classify(
        runway.utility,
        runway.end1.effective(),
        runway.end2.effective(),
    ) {
        Ok(class) => class,
        Err(_) => unreachable!(),
    }
}

/// The class of this end of a runway.
pub fn end_class(runway: &Runway, end: End) -> EndClass
    requires proper { IsProper runway.now }
    ensures value { result ≡ end_class_of runway.now end }
    ensures sized { HasSizes result }
{
    match end {
        End::One => class(runway).end1,
        End::Two => class(runway).end2,
    }
}
