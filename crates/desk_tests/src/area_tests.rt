//! The areas of the surfaces of a runway.

use airfields::{Runway, RunwayEnd, RunwayName};
use grid_exact::{Area, Point};
use imaginary_surfaces::Strip;
use runway_classes::ApproachKind;
use std::test::Fail;

/// A runway is outside its limits.
#[derive(Clone, Copy, Debug)]
struct OutsideLimits;

fn end(x: i64, kind: ApproachKind) -> Result<RunwayEnd, Fail> {
    Ok(RunwayEnd {
        at: Point::new(x, 0)?,
        z: 1_000,
        kind,
        planned: None,
    })
}

/// A hard runway of 10,000 feet from west to east, with a precision approach to its west end.
fn long_runway() -> Result<Runway, Fail> {
    Ok(Runway {
        name: RunwayName::new(b"09/27")?,
        utility: false,
        hard: true,
        end1: end(-50_000, ApproachKind::Precision)?,
        end2: end(50_000, ApproachKind::NonprecisionAbove)?,
    })
}

/// The surfaces of a runway that keeps its limits.
fn prepared(runway: &Runway) -> Result<Strip, OutsideLimits> {
    if !runway.is_proper() {
        return Err(OutsideLimits);
    }
    Ok(Strip::of(runway))
}

/// A box by its sides in the west, south, east and north.
fn sides(x0: i64, y0: i64, x1: i64, y1: i64) -> Area {
    Area { x0, y0, x1, y1 }
}

#[test]
fn boxes_of_a_runway(rt: HostRuntime) -> Result<(), Fail> {
    let strip = prepared(&long_runway()?)?;
    assert_eq!(rt; strip.centers(), ((-52_000, 0), (52_000, 0)));
    let areas = strip.areas(&sides(-192_000, -140_000, 192_000, 140_000));
    assert_eq!(rt; areas[0], sides(-52_000, -5_000, 52_000, 5_000));
    assert_eq!(rt; areas[1], sides(-552_000, -80_000, -52_000, 80_000));
    assert_eq!(rt; areas[2], sides(52_000, -17_500, 152_000, 17_500));
    assert_eq!(rt; areas[4], sides(-552_000, -140_000, 192_000, 140_000));
    Ok(())
}
