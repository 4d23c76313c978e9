//! The rows of runways.

ghost use Rattle.std.specs.Prelude.{◌≡◌, ◌≢◌, ◌++◌, ◌∷◌, [], ℕ, List, IfSome, IfNone, OnOk, OnErr, string_bytes};
ghost use Rattle.grid_exact.specs.Texts.{Extends};
ghost use Rattle.airfields.specs.Names.{IsFieldId, IsRunwayName};
ghost use Rattle.airfields.specs.declared.runway.Runway.{Runway as SomeRunway};
ghost use Rattle.row_register.specs.Runways.{runway_key_text, runway_key, runway_values, runway_row, IsPlainRunway, IsRunwayRow};
ghost use Rattle.row_register.specs.declared.runway.RunwayRow.{RunwayRow as Kept};

use crate::append::append_end;
use crate::groups::runway_end;
use crate::parts::Parts;
use airfields::{FieldId, Runway, RunwayName};
use grid_exact::NoMemory;
use wire_values::{FieldValue, Pavement, Weight, append_next, append_text};

/// A runway of an airport.
#[derive(Clone, Copy, Debug, PartialEq, Eq)]
pub struct RunwayRow {
    /// The name of the airport.
    pub id: FieldId,
    /// The runway.
    pub runway: Runway,
}

/// Appends the key of a runway's row: the names of the airport and of the runway.
///
/// # Errors
///
/// `NoMemory` where memory was refused; a part of the key may then be appended.
#[tactic(auto, using(grid_exact::proofs::Extending::extending))]
pub fn append_runway_key(text: &mut String, value: &RunwayRow) -> Result<(), NoMemory>
    ensures ok { OnOk result (string_bytes text.new
        ≡ string_bytes text.old ++ runway_key value.now) }
    ensures part { OnErr result (Extends (string_bytes text.old) (string_bytes text.new)) }
{
    value.id.append(text)?;
    append_text(text, " ")?;
    value.runway.name.append(text)
}

/// Appends the row of a runway.
///
/// # Errors
///
/// `NoMemory` where memory was refused; a part of the row may then be appended.
#[tactic(auto, using(grid_exact::proofs::Extending::extending))]
pub fn append_runway_row(text: &mut String, value: &RunwayRow) -> Result<(), NoMemory>
    ensures ok { OnOk result (string_bytes text.new
        ≡ string_bytes text.old ++ runway_row value.now) }
    ensures part { OnErr result (Extends (string_bytes text.old) (string_bytes text.new)) }
{
    let weight = Weight {
        utility: value.runway.utility,
    };
    weight.append(text)?;
    let pavement = Pavement {
        hard: value.runway.hard,
    };
    append_next(text, &pavement)?;
    append_end(text, &value.runway.end1)?;
    append_end(text, &value.runway.end2)
}

// The names in the key of a runway's row.
#[derive(Clone, Copy)]
struct BothNames {
    id: FieldId,
    name: RunwayName,
}

fn names(parts: &mut Parts<'_>) -> Option<BothNames>
    ensures took { IfSome result (λ n. parts.old ≡ n.id ∷ n.name ∷ []) }
    ensures named { IfSome result (λ n. IsFieldId n.id × IsRunwayName n.name) }
    ensures none { IfNone result ((id name : List ℕ) → IsFieldId id → IsRunwayName name
        → parts.old ≢ id ∷ name ∷ []) }
{
    let id = parts.take()?;
    let name = parts.take()?;
    if !parts.is_done() {
        return None;
    }
    Some(BothNames { id, name })
}

// Reads the names in a key.
fn names_of(key: &[u8]) -> Option<BothNames>
    ensures some { IfSome result (λ n. key.now ≡ runway_key_text n.id n.name) }
    ensures named { IfSome result (λ n. IsFieldId n.id × IsRunwayName n.name) }
    ensures none { IfNone result ((id name : List ℕ) → IsFieldId id → IsRunwayName name
        → key.now ≢ runway_key_text id name) }
{
    names(&mut Parts::new(key, b' '))
}

// Reads a runway of this name.
fn runway(name: RunwayName, parts: &mut Parts<'_>) -> Option<Runway>
    ensures took { IfSome result (λ r. parts.old ≡ runway_values r) }
    ensures named { IfSome result (λ r. r.name ≡ name) }
    ensures plain { IfSome result IsPlainRunway }
    ensures none { IfNone result ((r : SomeRunway) → IsPlainRunway r
        → parts.old ≢ runway_values r) }
{
    let weight: Weight = parts.take()?;
    let pavement: Pavement = parts.take()?;
    let end1 = runway_end(parts)?;
    let end2 = runway_end(parts)?;
    if !parts.is_done() {
        return None;
    }
    Some(Runway {
        name,
        utility: weight.utility,
        hard: pavement.hard,
        end1,
        end2,
    })
}

/// Reads the runway of a row's key and text; `None` where they are not a row.
pub fn read_runway_row(key: &[u8], row: &[u8]) -> Option<RunwayRow>
    ensures some { IfSome result (λ v. IsRunwayRow key.now row.now v) }
    ensures none { IfNone result ((v : Kept) → IsRunwayRow key.now row.now v → ⊥) }
{
    let names = names_of(key)?;
    let runway = runway(names.name, &mut Parts::new(row, b','))?;
    Some(RunwayRow {
        id: names.id,
        runway,
    })
}
