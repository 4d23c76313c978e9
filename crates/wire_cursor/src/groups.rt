//! Groups of fields that several forms share.

ghost use Rattle.std.specs.Prelude.{◌+◌, IfOk, IfErr};
ghost use Rattle.wire_cursor.specs.Shape.{Took, Stops};
ghost use Rattle.wire_cursor.specs.Groups.{point_shape, point_fields, end_shape, site_shape, TookEnd, TookSite};

use crate::cursor::{BadField, Cursor};
use airfields::{ELEVATION_LEAST, ELEVATION_MOST, Filing, HEIGHT_LIMIT, RunwayEnd};
use grid_exact::{COORDINATE_LIMIT, Point};
use wire_values::Approaches;

/// Reads a point of the grid.
pub fn point(cursor: &mut Cursor<'_>) -> Result<Point, BadField>
    ensures took { IfOk result (λ p. Took point_shape (point_fields p) cursor.old cursor.new) }
    ensures stops { IfErr result (λ b. Stops point_shape cursor.old (b.before + 1)) }
{
    let x = cursor.number(-COORDINATE_LIMIT, COORDINATE_LIMIT)?;
    let y = cursor.number(-COORDINATE_LIMIT, COORDINATE_LIMIT)?;
    Ok(Point { x, y })
}

/// Reads an end of a runway.
pub fn runway_end(cursor: &mut Cursor<'_>) -> Result<RunwayEnd, BadField>
    ensures took { IfOk result (λ e. TookEnd e cursor.old cursor.new) }
    ensures stops { IfErr result (λ b. Stops end_shape cursor.old (b.before + 1)) }
{
    let at = point(cursor)?;
    let z = cursor.whole()?;
    let approaches: Approaches = cursor.take()?;
    Ok(RunwayEnd {
        at,
        z,
        kind: approaches.kind,
        planned: approaches.planned,
    })
}

/// Reads a structure.
pub fn structure(cursor: &mut Cursor<'_>) -> Result<Filing, BadField>
    ensures took { IfOk result (λ s. TookSite s cursor.old cursor.new) }
    ensures stops { IfErr result (λ b. Stops site_shape cursor.old (b.before + 1)) }
{
    let at = point(cursor)?;
    let terrain = cursor.number(ELEVATION_LEAST, ELEVATION_MOST)?;
    let height = cursor.number(0, HEIGHT_LIMIT)?;
    let kind = cursor.take()?;
    let mobile = cursor.mobile(kind)?;
    let flags = cursor.take()?;
    let on = cursor.take()?;
    Ok(Filing {
        at,
        ground: terrain,
        height,
        kind,
        mobile,
        flags,
        on,
    })
}
