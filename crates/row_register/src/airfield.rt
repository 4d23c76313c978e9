//! The rows of airfields.

ghost use Rattle.std.specs.Prelude.{◌≡◌, ◌≢◌, ◌++◌, ◌∷◌, [], ℕ, ℤ, List, IfSome, IfNone, OnOk, OnErr, string_bytes, codes};
ghost use Rattle.std.specs.Fmt.{signed_decimal};
ghost use Rattle.whole_number.specs.Whole.{HasNineDigits};
ghost use Rattle.grid_exact.specs.Texts.{Extends};
ghost use Rattle.grid_exact.specs.declared.point.Point.{Point as SomePoint};
ghost use Rattle.airfields.specs.Names.{IsFieldId};
ghost use Rattle.airfields.specs.declared.airfield.Airport.{Airport as SomeAirport};
ghost use Rattle.airfields.specs.declared.airfield.Heliport.{Heliport as SomeHeliport};
ghost use Rattle.airfields.specs.declared.airfield.Airfield.{Airfield as SomeAirfield};
ghost use Rattle.wire_values.specs.Commas.{joined, with_commas};
ghost use Rattle.wire_cursor.specs.Groups.{point_fields};
ghost use Rattle.row_register.specs.Airfields.{airport_values, heliport_values, airfield_fields, airfield_key, airfield_row, IsPlainAirport, IsPlainHeliport, IsPlainAirfield, IsAirfieldRow};

use crate::append::append_point;
use crate::groups::{point, whole};
use crate::parts::Parts;
use airfields::{Airfield, Airport, FieldId, Heliport, Runways};
use grid_exact::{NoMemory, Point};
use std::alloc::Global;
use wire_values::{FieldValue, WholeNumber, append_next, append_text};

/// Appends the key of an airfield's row: its name.
///
/// # Errors
///
/// `NoMemory` where memory was refused.
pub fn append_airfield_key(text: &mut String, airfield: &Airfield) -> Result<(), NoMemory>
    ensures ok { OnOk result (string_bytes text.new
        ≡ string_bytes text.old ++ airfield_key airfield.now) }
    ensures part { OnErr result (Extends (string_bytes text.old) (string_bytes text.new)) }
{
    match airfield {
        Airfield::Airport(airport) => airport.id.append(text),
        Airfield::Heliport(heliport) => heliport.id.append(text),
    }
}

// Appends the fields of an airport, after the word `airport`.
#[tactic(auto, using(grid_exact::proofs::Extending::extending))]
fn append_airport(text: &mut String, airport: &Airport) -> Result<(), NoMemory>
    ensures ok { OnOk result (string_bytes text.new
        ≡ string_bytes text.old ++ with_commas (airport_values airport.now)) }
    ensures part { OnErr result (Extends (string_bytes text.old) (string_bytes text.new)) }
{
    append_next(text, &airport.category)?;
    append_point(text, &airport.arp)?;
    let elevation = WholeNumber {
        value: airport.elevation,
    };
    append_next(text, &elevation)
}

// Appends the axis of a heliport, a comma before each coordinate.
#[tactic(auto, using(grid_exact::proofs::Extending::extending))]
fn append_axis(text: &mut String, heliport: &Heliport) -> Result<(), NoMemory>
    ensures ok { OnOk result (string_bytes text.new
        ≡ string_bytes text.old ++ with_commas
        (point_fields heliport.now.a ++ point_fields heliport.now.b)) }
    ensures part { OnErr result (Extends (string_bytes text.old) (string_bytes text.new)) }
{
    append_point(text, &heliport.a)?;
    append_point(text, &heliport.b)
}

// Appends the width and the elevation of a heliport.
#[tactic(auto, using(grid_exact::proofs::Extending::extending))]
fn append_measures(text: &mut String, heliport: &Heliport) -> Result<(), NoMemory>
    ensures ok { OnOk result (string_bytes text.new
        ≡ string_bytes text.old ++ with_commas
        (signed_decimal heliport.now.width ∷ signed_decimal heliport.now.elevation ∷ [])) }
    ensures part { OnErr result (Extends (string_bytes text.old) (string_bytes text.new)) }
{
    let width = WholeNumber {
        value: heliport.width,
    };
    append_next(text, &width)?;
    let elevation = WholeNumber {
        value: heliport.elevation,
    };
    append_next(text, &elevation)
}

// Appends the fields of a heliport, after the word `heliport`.
#[tactic(auto, using(grid_exact::proofs::Extending::extending))]
fn append_heliport(text: &mut String, heliport: &Heliport) -> Result<(), NoMemory>
    ensures ok { OnOk result (string_bytes text.new
        ≡ string_bytes text.old ++ with_commas (heliport_values heliport.now)) }
    ensures part { OnErr result (Extends (string_bytes text.old) (string_bytes text.new)) }
{
    append_next(text, &heliport.category)?;
    append_axis(text, heliport)?;
    append_measures(text, heliport)
}

/// Appends the row of an airfield, without the runways of an airport.
///
/// # Errors
///
/// `NoMemory` where memory was refused; a part of the row may then be appended.
#[tactic(auto, using(grid_exact::proofs::Extending::extending))]
pub fn append_airfield_row(text: &mut String, airfield: &Airfield) -> Result<(), NoMemory>
    ensures ok { OnOk result (string_bytes text.new
        ≡ string_bytes text.old ++ airfield_row airfield.now) }
    ensures part { OnErr result (Extends (string_bytes text.old) (string_bytes text.new)) }
{
    match airfield {
        Airfield::Airport(airport) => {
            append_text(text, "airport")?;
            append_airport(text, airport)
        }
        Airfield::Heliport(heliport) => {
            append_text(text, "heliport")?;
            append_heliport(text, heliport)
        }
    }
}

// Reads an airport of this name, after the word `airport`.
fn airport(alloc: Global, id: FieldId, parts: &mut Parts<'_>) -> Option<Airport>
    ensures took { IfSome result (λ a. parts.old ≡ airport_values a) }
    ensures named { IfSome result (λ a. a.id ≡ id) }
    ensures plain { IfSome result IsPlainAirport }
    ensures none { IfNone result ((a : SomeAirport) → IsPlainAirport a
        → parts.old ≢ airport_values a) }
{
    let category = parts.take()?;
    let arp = point(parts)?;
    let elevation = whole(parts)?;
    if !parts.is_done() {
        return None;
    }
    Some(Airport {
        id,
        category,
        arp,
        elevation,
        runways: Runways::empty(alloc),
    })
}

// The axis of a heliport.
#[derive(Clone, Copy)]
struct AxisEnds {
    a: Point,
    b: Point,
}

fn axis(parts: &mut Parts<'_>) -> Option<AxisEnds>
    ensures took { IfSome result (λ x. parts.old
        ≡ point_fields x.a ++ point_fields x.b ++ parts.new) }
    ensures none { IfNone result ((a b : SomePoint) (rest : List (List ℕ))
        → parts.old ≢ point_fields a ++ point_fields b ++ rest) }
{
    let a = point(parts)?;
    let b = point(parts)?;
    Some(AxisEnds { a, b })
}

// The width and the elevation of a heliport.
#[derive(Clone, Copy)]
struct Measures {
    width: i64,
    elevation: i64,
}

fn width_and_elevation(parts: &mut Parts<'_>) -> Option<Measures>
    ensures took { IfSome result (λ m. parts.old
        ≡ signed_decimal m.width ∷ signed_decimal m.elevation ∷ parts.new) }
    ensures short { IfSome result (λ m. HasNineDigits m.width × HasNineDigits m.elevation) }
    ensures none { IfNone result ((w z : ℤ) (rest : List (List ℕ)) → HasNineDigits w
        → HasNineDigits z → parts.old ≢ signed_decimal w ∷ signed_decimal z ∷ rest) }
{
    let width = whole(parts)?;
    let elevation = whole(parts)?;
    Some(Measures { width, elevation })
}

// Reads a heliport of this name, after the word `heliport`.
fn heliport(id: FieldId, parts: &mut Parts<'_>) -> Option<Heliport>
    ensures took { IfSome result (λ h. parts.old ≡ heliport_values h) }
    ensures named { IfSome result (λ h. h.id ≡ id) }
    ensures plain { IfSome result IsPlainHeliport }
    ensures none { IfNone result ((h : SomeHeliport) → IsPlainHeliport h
        → parts.old ≢ heliport_values h) }
{
    let category = parts.take()?;
    let ends = axis(parts)?;
    let measures = width_and_elevation(parts)?;
    if !parts.is_done() {
        return None;
    }
    Some(Heliport {
        id,
        category,
        a: ends.a,
        b: ends.b,
        width: measures.width,
        elevation: measures.elevation,
    })
}

// Reads an airfield of this name.
fn airfield(alloc: Global, id: FieldId, parts: &mut Parts<'_>) -> Option<Airfield>
    ensures took { IfSome result (λ v. parts.old ≡ airfield_fields v) }
    ensures named { IfSome result (λ v. airfield_key v ≡ id) }
    ensures plain { IfSome result IsPlainAirfield }
    ensures none { IfNone result ((v : SomeAirfield) → IsPlainAirfield v
        → parts.old ≢ airfield_fields v) }
{
    let word = parts.next()?;
    if word == b"airport".as_slice() {
        let airport = airport(alloc, id, parts)?;
        return Some(Airfield::Airport(airport));
    }
    if word == b"heliport".as_slice() {
        let heliport = heliport(id, parts)?;
        return Some(Airfield::Heliport(heliport));
    }
    None
}

/// Reads the airfield of a row's key and text; `None` where they are not a row. An airport gets no runways here; each has its own row.
pub fn read_airfield_row(alloc: Global, key: &[u8], row: &[u8]) -> Option<Airfield>
    ensures some { IfSome result (λ v. IsAirfieldRow key.now row.now v) }
    ensures none { IfNone result ((v : SomeAirfield) → IsAirfieldRow key.now row.now v → ⊥) }
{
    let id: FieldId = FieldValue::parse(key)?;
    airfield(alloc, id, &mut Parts::new(row, b','))
}
