//! Readers for groups of fields that several rows share.

ghost use Rattle.std.specs.Prelude.{◌≡◌, ◌≢◌, ◌++◌, ◌∷◌, ℕ, ℤ, List, IfSome, IfNone};
ghost use Rattle.grid_exact.specs.declared.point.Point.{Point as Seen};
ghost use Rattle.std.specs.Fmt.{signed_decimal};
ghost use Rattle.whole_number.specs.Whole.{HasNineDigits};
ghost use Rattle.airfields.specs.declared.runway.RunwayEnd.{RunwayEnd as SomeEnd};
ghost use Rattle.wire_cursor.specs.Groups.{point_fields, end_fields};

use crate::parts::Parts;
use airfields::RunwayEnd;
use grid_exact::{COORDINATE_LIMIT, Point};
use whole_number::NUMBER_LIMIT;
use wire_values::Approaches;

/// Takes a whole number of at most nine digits.
pub(crate) fn whole(parts: &mut Parts<'_>) -> Option<i64>
    ensures took { IfSome result (λ z. parts.old ≡ signed_decimal z ∷ parts.new) }
    ensures short { IfSome result (λ z. HasNineDigits z) }
    ensures none { IfNone result ((z : ℤ) (rest : List (List ℕ)) → HasNineDigits z
        → parts.old ≢ signed_decimal z ∷ rest) }
{
    parts.number(-NUMBER_LIMIT, NUMBER_LIMIT)
}

/// Takes a point of the grid from the next two parts, x before y; `None` exactly where they are none.
pub fn point(parts: &mut Parts<'_>) -> Option<Point>
    ensures took { IfSome result (λ p. parts.old ≡ point_fields p ++ parts.new) }
    ensures none { IfNone result ((p : Seen) (rest : List (List ℕ))
        → parts.old ≢ point_fields p ++ rest) }
{
    let x = parts.number(-COORDINATE_LIMIT, COORDINATE_LIMIT)?;
    let y = parts.number(-COORDINATE_LIMIT, COORDINATE_LIMIT)?;
    Some(Point { x, y })
}

/// Takes an end of a runway.
pub(crate) fn runway_end(parts: &mut Parts<'_>) -> Option<RunwayEnd>
    ensures took { IfSome result (λ e. parts.old ≡ end_fields e ++ parts.new) }
    ensures short { IfSome result (λ e. HasNineDigits e.z) }
    ensures none { IfNone result ((e : SomeEnd) (rest : List (List ℕ)) → HasNineDigits e.z
        → parts.old ≢ end_fields e ++ rest) }
{
    let at = point(parts)?;
    let z = whole(parts)?;
    let approaches: Approaches = parts.take()?;
    Some(RunwayEnd {
        at,
        z,
        kind: approaches.kind,
        planned: approaches.planned,
    })
}
