//! Loads and changes of a store that holds the table, in terms of its known rows.

ghost use Rattle.std.specs.Prelude.{◌≡◌, ◌⊎◌, false, IfOk, OnOk, OnErr};
ghost use Rattle.sqlite.specs.Held.{state};
ghost use Rattle.sqlite.specs.State.{HasCleanDisk};
ghost use Rattle.sqlite_trees.specs.Tree.{Trees};
ghost use Rattle.oe_keeper.specs.Kept.{Kept, rows_after_changes};
ghost use Rattle.oe_sqlite.specs.Model.{AreRows, TellsIn, IsHeld, StaysIn, StaysSilentIn};

use crate::stop::Stop;
use crate::store::load_rows;
use crate::transaction::apply;
use oe_keeper::{RowChange, Tables};
use sqlite::{Alter, Connection};
use std::alloc::Global;

/// Loads all rows of the table.
///
/// # Errors
///
/// `Refused` where the store refuses, `BadRow` where a row cannot stand in the table, `NotReady` within a transaction, `NoMemory` where
/// memory ran out. The rows stay as they were.
pub fn load_again<S: Alter>(alloc: Global, conn: &mut Connection<S>) -> Result<Tables, Stop>
    ensures held { IsHeld (state S.Store conn.old) → IsHeld (state S.Store conn.new) }
    ensures rows { IsHeld (state S.Store conn.old)
        → IfOk result (λ rows. (now : Kept) → TellsIn (state S.Store conn.new) now → now ≡ rows) }
    ensures stays { StaysIn (state S.Store conn.old) (state S.Store conn.new) }
    ensures silent { IsHeld (state S.Store conn.old)
        → StaysSilentIn (state S.Store conn.old) (state S.Store conn.new) }
    ensures mode { conn.old.in_transaction ≡ false → conn.new.in_transaction ≡ false }

    // a crash leaves the rows as they were
    ensures crash { HasCleanDisk (state S.Store conn.new) → conn.old.in_transaction ≡ false
        → (before : Kept) → TellsIn (state S.Store conn.old) before
        → (db : Trees) → (state S.Store conn.new).may_leave db → AreRows db before }
{
    if !conn.is_autocommit() {
        return Err(Stop::NotReady);
    }
    let _live = conn.schema();
    load_rows(alloc, conn)
}

/// Makes all the changes, in order, or none of them, in one transaction.
///
/// # Errors
///
/// `Refused` where the store refuses, `NotReady` within a transaction, `NoMemory` where memory ran out. The rows then stay as they were.
pub fn change_told<S: Alter>(conn: &mut Connection<S>, changes: &[RowChange]) -> Result<(), Stop>
    ensures held { IsHeld (state S.Store conn.old) → IsHeld (state S.Store conn.new) }
    ensures all { OnOk result ((before now : Kept) → TellsIn (state S.Store conn.old) before
        → TellsIn (state S.Store conn.new) now → now ≡ rows_after_changes before changes.now) }
    ensures none { OnErr result (StaysIn (state S.Store conn.old) (state S.Store conn.new)) }
    ensures silent { IsHeld (state S.Store conn.old)
        → StaysSilentIn (state S.Store conn.old) (state S.Store conn.new) }
    ensures mode { conn.old.in_transaction ≡ false → conn.new.in_transaction ≡ false }

    // a crash leaves the rows as they were or with all the changes
    ensures crash { HasCleanDisk (state S.Store conn.new) → conn.old.in_transaction ≡ false
        → (before : Kept) → TellsIn (state S.Store conn.old) before
        → (db : Trees) → (state S.Store conn.new).may_leave db
        → AreRows db before ⊎ AreRows db (rows_after_changes before changes.now) }
{
    if !conn.is_autocommit() {
        return Err(Stop::NotReady);
    }
    let _live = conn.schema();
    apply(conn, changes)?;
    Ok(())
}
