//! Names as values of fields.

ghost use Rattle.std.specs.Prelude.{◌≡◌, refl};
ghost use Rattle.airfields.specs.Names.{IsFieldId, IsRunwayName};
ghost use Rattle.wire_values.specs.Words.{IsWord, name_text, IsAirfieldName};
ghost use Rattle.wire_values.specs.Wanted.{WordWanted, FieldIdWanted, RunwayNameWanted, AirfieldWanted};

use crate::field_value::{FieldValue, append_text};
use crate::word::Word;
use airfields::{FieldId, RunwayName};
use grid_exact::NoMemory;

/// The name of an airfield as text. Its bytes are always ASCII, so no UTF-8 check is needed.
fn field_text(name: &FieldId) -> &str
    ensures { result.now ≡ name.now }
{
    unsafe { str::from_utf8_unchecked(name.as_bytes()) }
}

/// The name of a runway as text.
fn runway_text(name: &RunwayName) -> &str
    ensures { result.now ≡ name.now }
{
    unsafe { str::from_utf8_unchecked(name.as_bytes()) }
}

impl FieldValue for Word {
    ghost wanted = { WordWanted };

    ghost spelled = { λ v. v };

    ghost good = { IsWord };

    fn parse(text: &[u8]) -> Option<Word> {
        Word::new(text)
    }

    fn append(&self, text: &mut String) -> Result<(), NoMemory> {
        append_text(text, self.as_str())
    }

    ghost fits = { λ v h _. h };
}

impl FieldValue for FieldId {
    ghost wanted = { FieldIdWanted };

    ghost spelled = { λ v. v };

    ghost good = { IsFieldId };

    fn parse(text: &[u8]) -> Option<FieldId> {
        match FieldId::new(text) {
            Ok(name) => {
                let _bytes = name.as_bytes(); // tells what the name is made of
                Some(name)
            }
            Err(_) => None,
        }
    }

    fn append(&self, text: &mut String) -> Result<(), NoMemory> {
        append_text(text, field_text(self))
    }

    ghost fits = { λ v h _. h };
}

impl FieldValue for RunwayName {
    ghost wanted = { RunwayNameWanted };

    ghost spelled = { λ v. v };

    ghost good = { IsRunwayName };

    fn parse(text: &[u8]) -> Option<RunwayName> {
        match RunwayName::new(text) {
            Ok(name) => {
                let _bytes = name.as_bytes(); // tells what the name is made of
                Some(name)
            }
            Err(_) => None,
        }
    }

    fn append(&self, text: &mut String) -> Result<(), NoMemory> {
        append_text(text, runway_text(self))
    }

    ghost fits = { λ v h _. h };
}

/// The airfield that a structure is on, or a dash for none.
impl FieldValue for Option<FieldId> {
    ghost wanted = { AirfieldWanted };

    ghost spelled = { name_text };

    ghost good = { IsAirfieldName };

    fn parse(text: &[u8]) -> Option<Option<FieldId>> {
        if text == b"-".as_slice() {
            return Some(None);
        }
        match FieldId::new(text) {
            Ok(name) => {
                let _bytes = name.as_bytes(); // tells what the name is made of
                Some(Some(name))
            }
            Err(_) => None,
        }
    }

    fn append(&self, text: &mut String) -> Result<(), NoMemory> {
        match self {
            Some(name) => append_text(text, field_text(name)),
            None => append_text(text, "-"),
        }
    }

    ghost fits = { λ v h _. (v, refl, h) };
}
