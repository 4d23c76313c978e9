//! Opens a desk from its tables.

ghost use Rattle.std.specs.Prelude.{◌≡◌, IfOk, IfErr, OnOk};
ghost use Rattle.oe_keeper.specs.Kept.{place};
ghost use Rattle.desk_tables.specs.Desks.{IsSoundDesk, NamesBad, NamesBadHere, desk_of};
ghost use Rattle.desk_tables.specs.Opening.{Opens, ReadsAll, renewal};
ghost use Rattle.desk_tables.specs.Parts.{IsNext, entries_of as entries_in, with_row};
ghost use Rattle.desk_tables.specs.Values.{IsRowOf};
ghost use Rattle.desk_tables.specs.declared.value.RowValue.{RowValue as Value};

use crate::change_list::ChangeList;
use crate::counts::{Kind, count, put_wanting_rows, row_at};
use crate::layout::Layout;
use crate::part::Part;
use crate::renewal::{is_first, renew};
use crate::unread::{BadRow, Unread, Untaken};
use crate::value::read_row;
use airport_register::Register;
use case_records::KeptCase;
use desk_machine::Entry;
use determination_dates::ClosedDays;
use grid_exact::{NoMemory, Text};
use jiff::civil::Date;
use oe_keeper::{Table, Tables};
use row_cases::one_filing_row;
use row_receipts::one_receipt_row;
use row_register::{one_airfield_row, one_desk_row, one_runway_row};
use std::alloc::Global;

/// The data of a desk, read from its rows.
#[derive(Drop)]
pub struct OpenedDesk {
    /// The changes that bring the tables to the format of today; none where they are of it.
    pub renewal: ChangeList,
    pub register: Register,
    pub day: Option<Date>,
    pub closed: ClosedDays,
    /// The cases in order of number, from 1 on.
    pub cases: Vec<KeptCase>,
    /// The accepted requests in order of number.
    pub entries: Vec<Entry>,
}

/// Reads the row at an index, where it may come there.
#[tactic(auto, using(crate::proofs::RowFacts::sound_value))]
fn read_one(
    alloc: Global,
    part: &mut Part,
    layout: Layout,
    table: Table,
    key: &str,
    row: &str,
) -> Result<(), Untaken>
    ensures ok { OnOk result ((v : Value) × IsRowOf ((place table, key.now), row.now) v
        × IsNext layout part.old v × (part.new ≡ with_row v part.old)) }
    ensures bad { IfErr result (λ why. why ≡ Untaken.Bad → (v : Value)
        → IsRowOf ((place table, key.now), row.now) v → IsNext layout part.old v → ⊥) }
{
    one_airfield_row();
    one_runway_row();
    one_desk_row();
    one_filing_row();
    one_receipt_row();
    match read_row(alloc, table, key, row)? {
        Some(value) => part.take(alloc, layout, value),
        None => Err(Untaken::Bad),
    }
}

/// Reads all rows in their order. `is_old` says that the tables were of the format from before there were planned approaches.
fn read_all(alloc: Global, tables: &Tables, is_old: bool) -> Result<Part, Unread>
    ensures read { IfOk result (λ p. ReadsAll is_old tables.now p) }
    ensures bad { IfErr result (λ why. NamesBadHere is_old tables.now why) }
{
    let is_lone = tables.len() == 1;
    let layout = Layout { is_lone, is_old };
    let mut part = Part::unread(alloc, count(tables, Kind::In(Table::Receipt)))?;
    for i in 0..tables.len() {
        let (table, key, row) = row_at(tables, i);
        match read_one(alloc, &mut part, layout, table, key, row) {
            Ok(()) => {}
            Err(Untaken::Bad) => {
                let key = Text::from_str(alloc, key)?;
                return Err(Unread::Bad(BadRow { table, key }));
            }
            Err(Untaken::NoMemory) => return Err(Unread::NoMemory),
        }
    }
    Ok(part)
}

/// The entries in their order.
fn entries_of(alloc: Global, requests: Vec<Option<Entry>>) -> Result<Vec<Entry>, NoMemory>
    ensures { IfOk result (λ l. l.items ≡ entries_in requests.items) }
{
    let mut entries = Vec::new(alloc);
    for request in requests {
        match request {
            Some(entry) => entries.push(entry)?,
            None => {}
        }
    }
    Ok(entries)
}

/// Opens the desk with these rows.
///
/// Empty tables open as an empty desk. Tables of an older format open as the same tables in the format of today: no determination in them was
/// revised.
///
/// # Errors
///
/// `Bad` gives the first row, in order of table and key, that is not a row of a desk: its key or text does not have the form of its table,
/// it breaks a rule of the register after the rows before it, it is a case or a request with a wrong number, or an approach is planned in it
/// in tables from before there were planned approaches. A missing format row, and the missing day of a desk with a case, are given likewise. `NoMemory` where memory ran out.
pub fn read_desk(alloc: Global, tables: Tables) -> Result<OpenedDesk, Unread>
    ensures opened { IfOk result (λ d. Opens tables (desk_of d)) }
    ensures renewal { IfOk result (λ d. d.renewal ≡ renewal tables) }
    ensures sound { IfOk result (λ d. IsSoundDesk (desk_of d)) }
    ensures bad { IfErr result (λ why. NamesBad tables why) }
{
    // In one page each row is found at once, and all are read several times.
    let mut tables = tables.joined(alloc)?;
    let is_first = is_first(&tables);
    let renewal = renew(alloc, &mut tables)?;
    put_wanting_rows(alloc, &mut tables)?;
    let part = read_all(alloc, &tables, is_first)?;
    Ok(OpenedDesk {
        renewal,
        register: part.register,
        day: part.day,
        closed: part.closed,
        cases: part.cases,
        entries: entries_of(alloc, part.requests)?,
    })
}
