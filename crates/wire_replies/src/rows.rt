//! The rows of airfields.

ghost use Rattle.std.specs.Prelude.{◌≡◌, ◌++◌, OnOk, OnErr, string_bytes};
ghost use Rattle.grid_exact.specs.Texts.{Extends};
ghost use Rattle.wire_values.specs.Commas.{joined};
ghost use Rattle.wire_replies.specs.Rows.{point_text, airport_fields, heliport_fields, airfield_row};

use airfields::{Airfield, Airport, Heliport};
use grid_exact::{NoMemory, Point};
use wire_values::{WholeNumber, append_next, append_text};

// Appends a point, a comma before each coordinate.
#[tactic(auto, using(grid_exact::proofs::Extending::extending))]
fn append_point(text: &mut String, at: &Point) -> Result<(), NoMemory>
    ensures ok { OnOk result (string_bytes text.new ≡ string_bytes text.old ++ point_text at.now) }
    ensures part { OnErr result (Extends (string_bytes text.old) (string_bytes text.new)) }
{
    append_next(text, &WholeNumber { value: at.x })?;
    append_next(text, &WholeNumber { value: at.y })
}

// Appends the axis of a heliport, a comma before each coordinate.
#[tactic(auto, using(grid_exact::proofs::Extending::extending))]
fn append_axis(text: &mut String, heliport: &Heliport) -> Result<(), NoMemory>
    ensures ok { OnOk result (string_bytes text.new
        ≡ string_bytes text.old ++ point_text heliport.now.a ++ point_text heliport.now.b) }
    ensures part { OnErr result (Extends (string_bytes text.old) (string_bytes text.new)) }
{
    append_point(text, &heliport.a)?;
    append_point(text, &heliport.b)
}

// Appends the row of an airport.
#[tactic(auto, using(grid_exact::proofs::Extending::extending))]
fn append_airport(text: &mut String, airport: &Airport) -> Result<(), NoMemory>
    ensures ok { OnOk result (string_bytes text.new
        ≡ string_bytes text.old ++ joined (airport_fields airport.now)) }
    ensures part { OnErr result (Extends (string_bytes text.old) (string_bytes text.new)) }
{
    append_text(text, "airport")?;
    append_next(text, &airport.category)?;
    append_point(text, &airport.arp)?;
    let elevation = WholeNumber {
        value: airport.elevation,
    };
    append_next(text, &elevation)
}

// Appends the row of a heliport.
#[tactic(auto, using(grid_exact::proofs::Extending::extending))]
fn append_heliport(text: &mut String, heliport: &Heliport) -> Result<(), NoMemory>
    ensures ok { OnOk result (string_bytes text.new
        ≡ string_bytes text.old ++ joined (heliport_fields heliport.now)) }
    ensures part { OnErr result (Extends (string_bytes text.old) (string_bytes text.new)) }
{
    append_text(text, "heliport")?;
    append_next(text, &heliport.category)?;
    append_axis(text, heliport)?;
    let width = WholeNumber {
        value: heliport.width,
    };
    append_next(text, &width)?;
    let elevation = WholeNumber {
        value: heliport.elevation,
    };
    append_next(text, &elevation)
}

// Appends the row of an airfield.
pub(crate) fn append_row(text: &mut String, airfield: &Airfield) -> Result<(), NoMemory>
    ensures ok { OnOk result (string_bytes text.new
        ≡ string_bytes text.old ++ airfield_row airfield.now) }
    ensures part { OnErr result (Extends (string_bytes text.old) (string_bytes text.new)) }
{
    match airfield {
        Airfield::Airport(airport) => append_airport(text, airport),
        Airfield::Heliport(heliport) => append_heliport(text, heliport),
    }
}
