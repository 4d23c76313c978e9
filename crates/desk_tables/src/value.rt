//! The values of rows.

ghost use Rattle.std.specs.Prelude.{◌≡◌, IfOk, IfSome, IfNone};
ghost use Rattle.oe_keeper.specs.Kept.{place};
ghost use Rattle.desk_tables.specs.Planned.{plans_amendment, plans_act, plans_row};
ghost use Rattle.desk_tables.specs.Values.{IsRowOf};
ghost use Rattle.desk_tables.specs.declared.value.RowValue.{RowValue as Value};

use airfields::Airfield;
use airport_register::Amendment;
use grid_exact::NoMemory;
use oe_keeper::Table;
use row_cases::{FilingRow, read_filing_row};
use row_receipts::{ReceiptRow, read_receipt_row};
use row_register::{DeskRow, RunwayRow, read_airfield_row, read_desk_row, read_runway_row};
use std::alloc::Global;
use wire_requests::Act;

/// The value of a row of one of the five tables.
#[derive(Drop)]
pub enum RowValue {
    Airfield(Airfield),
    Runway(RunwayRow),
    Desk(DeskRow),
    Case(FilingRow),
    Request(ReceiptRow),
}

/// Whether an approach is planned in an amendment.
fn is_planned_by(amendment: &Amendment) -> bool
    ensures { result ≡ plans_amendment amendment.now }
{
    match amendment {
        Amendment::PutRunway { runway, .. } => runway.is_planned(),
        _ => false,
    }
}

/// Whether an approach is planned in an act.
fn is_planned_in(act: &Act) -> bool
    ensures { result ≡ plans_act act.now }
{
    match act {
        Act::Amend(amendment) => is_planned_by(amendment),
        _ => false,
    }
}

impl RowValue {
    /// Whether an approach is planned in it.
    pub(crate) fn is_planned(&self) -> bool
        ensures { result ≡ plans_row self.now }
    {
        match self {
            RowValue::Runway(row) => row.runway.is_planned(),
            RowValue::Request(row) => is_planned_in(&row.change.act),
            _ => false,
        }
    }
}

/// Reads the value of a row of this table under this key; `None` exactly where it is not a row of the table.
///
/// # Errors
///
/// `NoMemory` where memory was refused.
#[tactic(auto, using(crate::proofs::RowFacts::no_airfield, crate::proofs::RowFacts::no_runway, crate::proofs::RowFacts::no_desk, crate::proofs::RowFacts::no_case, crate::proofs::RowFacts::no_request))]
pub(crate) fn read_row(
    alloc: Global,
    table: Table,
    key: &str,
    row: &str,
) -> Result<Option<RowValue>, NoMemory>
    ensures some { IfOk result (λ o. IfSome o (λ v. IsRowOf ((place table, key.now), row.now) v)) }
    ensures none { IfOk result (λ o. IfNone o
        ((v : Value) → IsRowOf ((place table, key.now), row.now) v → ⊥)) }
{
    let key = key.as_bytes();
    let row = row.as_bytes();
    match table {
        Table::Airfield => match read_airfield_row(alloc, key, row) {
            Some(v) => Ok(Some(RowValue::Airfield(v))),
            None => Ok(None),
        },
        Table::Runway => match read_runway_row(key, row) {
            Some(v) => Ok(Some(RowValue::Runway(v))),
            None => Ok(None),
        },
        Table::Desk => match read_desk_row(key, row) {
            Some(v) => Ok(Some(RowValue::Desk(v))),
            None => Ok(None),
        },
        Table::Filing => match read_filing_row(alloc, key, row)? {
            Some(v) => Ok(Some(RowValue::Case(v))),
            None => Ok(None),
        },
        Table::Receipt => match read_receipt_row(alloc, key, row)? {
            Some(v) => Ok(Some(RowValue::Request(v))),
            None => Ok(None),
        },
    }
}
