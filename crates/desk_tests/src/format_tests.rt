//! Tables of the formats from before there were planned approaches, and from before there were revisions.

use crate::command_tests::ran;
use desk_tables::ChangeList;
use filing_desk::Clerk;
use grid_exact::Text;
use oe_keeper::{FailList, KeepErr, Keeper, MemoryKeeper, RowChange, Table, Tables};
use row_register::DeskRow;
use std::alloc::Global;
use std::test::Fail;

/// The rows of an airport with a runway, and of a case with a determination, but for that of the format and that of the case.
const ROWS: [(Table, &str, &str); 8] = [
    (Table::Airfield, "AAA", "airport,public,0,0,1000"),
    (
        Table::Runway,
        "AAA 09/27",
        "other,hard,-50000,0,1000,P,50000,0,1000,NA",
    ),
    (Table::Desk, "now", "2026-01-15"),
    (
        Table::Receipt,
        "u 1",
        "1\nairport,u,1,AAA,public,0,0,1000\nairport",
    ),
    (
        Table::Receipt,
        "u 2",
        "2\nrunway,u,2,AAA,09/27,other,hard,-50000,0,1000,P,50000,0,1000,NA\nrunway",
    ),
    (Table::Receipt, "u 3", "3\nday,u,3,2026-01-15\nday"),
    (
        Table::Receipt,
        "u 4",
        "4\nfile,u,4,2026-03-01,-,-,normal,-,5280000,0,1000,2001,object,0,-,-\ncase,1,timely,-,-",
    ),
    (
        Table::Receipt,
        "u 5",
        "5\ndetermine,u,5,1,-\ndetermine,1,nohazard,4,2026-01-15,-,2026-01-15,2027-07-15,1,9a - - 1",
    ),
];

/// The row of the case before there were revisions.
const OLDER_CASE: &str =
    "2026-03-01,-,-,normal,-,5280000,0,1000,2001,object,0,-,-,2026-01-15,-,-,nohazard,4,2026-01-15,-,2026-01-15,-,-,-,0,1,9a - - 1";

/// The row of the case today.
const CASE: &str =
    "2026-03-01,-,-,normal,-,5280000,0,1000,2001,object,0,-,-,2026-01-15,-,-,nohazard,4,2026-01-15,-,2026-01-15,-,-,-,0,0,1,9a - - 1";

/// Puts a row.
fn put(alloc: Global, rows: &mut Tables, table: Table, key: &str, row: &str) -> Result<(), Fail> {
    let change = RowChange::Put {
        table,
        key: Text::from_str(alloc, key)?,
        row: Text::from_str(alloc, row)?,
    };
    Ok(rows.change(alloc, &change)?)
}

/// The rows in this format, with this row of the case.
fn tables(alloc: Global, format: &str, case: &str) -> Result<Tables, Fail> {
    let mut rows = Tables::empty(alloc);
    for (table, key, row) in ROWS {
        put(alloc, &mut rows, table, key, row)?;
    }
    put(alloc, &mut rows, Table::Desk, "format", format)?;
    put(alloc, &mut rows, Table::Filing, "000001", case)?;
    Ok(rows)
}

/// A keeper in memory that has the rows in this older format, and fails at these calls.
fn keeper(alloc: Global, format: &str, fails: &[u64]) -> Result<MemoryKeeper, Fail> {
    let mut list = FailList::new(alloc);
    for call in fails {
        list.push(*call)?;
    }
    let rows = tables(alloc, format, OLDER_CASE)?;
    Ok(MemoryKeeper::new(alloc, rows, list))
}

/// Whether two tables have the same rows.
fn are_same(a: &Tables, b: &Tables) -> bool {
    for i in 0..a.len() {
        if a.nth(i) != b.nth(i) {
            return false;
        }
    }
    a.len() == b.len()
}

/// One list of changes after the load brings the tables to the format of today, and nothing else changes.
#[test]
fn tables_are_brought_to_the_format_of_today(rt: HostRuntime) -> Result<(), Fail> {
    let alloc = rt.alloc();
    for format in ["1", "2"] {
        let clerk = Clerk::open(alloc, keeper(alloc, format, &[])?, None)?;
        let mut kept = clerk.into_keeper();
        let rows = kept.load(alloc, None)?;
        assert!(rt; are_same(&rows, &tables(alloc, "3", CASE)?));
        let (status, output) = ran(
            &rt,
            alloc,
            "desk --db x",
            "review\n",
            keeper(alloc, format, &[3])?,
        )?;
        assert_eq!(rt; status.number(), 0);
        assert!(rt; output.bytes() == b"review,0\n".as_slice());
    }
    Ok(())
}

/// Where the keeper fails at them, no desk is opened, and the rows stay as they were.
#[test]
fn the_change_of_the_format_fails(rt: HostRuntime) -> Result<(), Fail> {
    let alloc = rt.alloc();
    for format in ["1", "2"] {
        let (status, output) = ran(
            &rt,
            alloc,
            "desk --db x",
            "review\n",
            keeper(alloc, format, &[2])?,
        )?;
        assert_eq!(rt; status.number(), 5);
        assert!(rt; output.bytes().is_empty());
        let mut other = keeper(alloc, format, &[2])?;
        let before = other.load(alloc, None)?;
        let mut list = ChangeList::new(alloc);
        list.put_desk(alloc, &DeskRow::Format)?;
        let answer = other.apply(alloc, list.as_slice());
        assert!(rt; matches!(&answer, Err(KeepErr::Failed)));
        assert!(rt; are_same(&before, &other.load(alloc, None)?));
    }
    Ok(())
}
