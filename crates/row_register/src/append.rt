//! Writers for groups of fields that several rows share.

ghost use Rattle.std.specs.Prelude.{◌≡◌, ◌++◌, OnOk, OnErr, string_bytes};
ghost use Rattle.grid_exact.specs.Texts.{Extends};
ghost use Rattle.wire_values.specs.Commas.{with_commas};
ghost use Rattle.wire_cursor.specs.Groups.{point_fields, end_fields};

use airfields::RunwayEnd;
use grid_exact::{NoMemory, Point};
use wire_values::{Approaches, WholeNumber, append_next};

/// Appends a point, a comma before each coordinate.
///
/// # Errors
///
/// `NoMemory` where memory was refused; a part of it may then be appended.
#[tactic(auto, using(grid_exact::proofs::Extending::extending))]
pub fn append_point(text: &mut String, at: &Point) -> Result<(), NoMemory>
    ensures ok { OnOk result (string_bytes text.new
        ≡ string_bytes text.old ++ with_commas (point_fields at.now)) }
    ensures part { OnErr result (Extends (string_bytes text.old) (string_bytes text.new)) }
{
    append_next(text, &WholeNumber { value: at.x })?;
    append_next(text, &WholeNumber { value: at.y })
}

/// Appends an end of a runway, a comma before each field.
#[tactic(auto, using(grid_exact::proofs::Extending::extending))]
pub(crate) fn append_end(text: &mut String, end: &RunwayEnd) -> Result<(), NoMemory>
    ensures ok { OnOk result (string_bytes text.new
        ≡ string_bytes text.old ++ with_commas (end_fields end.now)) }
    ensures part { OnErr result (Extends (string_bytes text.old) (string_bytes text.new)) }
{
    append_point(text, &end.at)?;
    append_next(text, &WholeNumber { value: end.z })?;
    append_next(
        text,
        &Approaches {
            kind: end.kind,
            planned: end.planned,
        },
    )
}
