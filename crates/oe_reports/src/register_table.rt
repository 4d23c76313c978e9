//! The table of airfields.

ghost use Rattle.std.specs.Prelude.{◌≡◌, ◌++◌, codes, OnOk, IfOk, string_bytes};
ghost use Rattle.std.specs.Fmt.{decimal, signed_decimal};
ghost use Rattle.oe_reports.specs.Columns.{at_right, at_left, gap};
ghost use Rattle.oe_reports.specs.Tables as spec;
ghost use Rattle.oe_reports.specs.declared.columns.TheConstants.{ID_WIDTH, KIND_WIDTH, ELEVATION_WIDTH, RUNWAYS_WIDTH};

use crate::columns::{
    ELEVATION_WIDTH, ID_WIDTH, KIND_WIDTH, RUNWAYS_WIDTH, append_gap, append_head, append_left,
    append_number, append_right, append_spaces,
};
use airfields::{Airfield, FieldId};
use airport_register::Register;
use grid_exact::{NoMemory, Text};
use itoa::Buffer;
use std::alloc::Global;
use wire_values::{FieldValue, ReportKind, WholeNumber, append_text};

/// Appends the columns of an airfield's name and kind, with the gap after each.
fn append_place(text: &mut String, id: &FieldId, kind: &str) -> Result<(), NoMemory>
    ensures { OnOk result (string_bytes text.new
        ≡ string_bytes text.old ++ at_left ID_WIDTH id.now ++ gap ++ at_left KIND_WIDTH kind.now ++ gap) }
{
    id.append(text)?;
    append_spaces(text, ID_WIDTH.saturating_sub(id.as_bytes().len()))?;
    append_gap(text)?;
    append_left(text, KIND_WIDTH, kind)?;
    append_gap(text)
}

/// Appends the columns of an elevation in tenths of a foot and of the number of runways, and the end of the line.
fn append_numbers(
    text: &mut String,
    elevation: &WholeNumber,
    runways: usize,
) -> Result<(), NoMemory>
    ensures { OnOk result (string_bytes text.new
        ≡ string_bytes text.old ++ at_right ELEVATION_WIDTH
        (signed_decimal elevation.now.value) ++ gap ++ at_right RUNWAYS_WIDTH
        (decimal runways) ++ codes "\n") }
{
    let mut buffer = Buffer::new();
    append_right(text, ELEVATION_WIDTH, buffer.format(elevation.value))?;
    append_gap(text)?;
    append_number(text, RUNWAYS_WIDTH, runways as u64)?;
    append_text(text, "\n")
}

/// Appends the line of an airfield.
fn append_airfield(text: &mut String, airfield: &Airfield) -> Result<(), NoMemory>
    ensures { OnOk result (string_bytes text.new
        ≡ string_bytes text.old ++ spec.airfield_line airfield.now) }
{
    match airfield {
        Airfield::Airport(airport) => {
            let elevation = WholeNumber {
                value: airport.elevation,
            };
            append_place(text, &airport.id, "airport")?;
            append_numbers(text, &elevation, airport.runways.len())
        }
        Airfield::Heliport(heliport) => {
            let elevation = WholeNumber {
                value: heliport.elevation,
            };
            append_place(text, &heliport.id, "heliport")?;
            append_numbers(text, &elevation, 0)
        }
    }
}

/// The report `airfields` of a register, in order of name. A heliport counts as having no runways.
///
/// # Errors
///
/// `NoMemory` where memory was refused.
pub fn airfield_table(alloc: Global, register: &Register) -> Result<Text, NoMemory>
    ensures { IfOk result (λ text. text ≡ spec.airfield_table register.now) }
{
    let mut text = String::new(alloc);
    append_head(&mut text, ReportKind::Airfields, register.len())?;
    for i in 0..register.len() {
        let Some(airfield) = register.nth(i) else {
            unreachable!();
        };
        append_airfield(&mut text, airfield)?;
    }
    Ok(Text::from_string(text))
}
