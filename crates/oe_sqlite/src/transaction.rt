//! The SQL texts that store and delete a row, run within one transaction.

ghost use Rattle.std.specs.Prelude.{◌≡◌, ◌⊎◌, ◌≤◌, false, IsTrue, OnOk, OnErr, pos};
ghost use Rattle.std.specs.FinMap as map;
ghost use Rattle.sqlite.specs.Held.{state};
ghost use Rattle.sqlite.specs.State.{HasCleanDisk, KeepsCommit};
ghost use Rattle.sqlite.specs.Effect.{IsDatabase};
ghost use Rattle.sqlite_trees.specs.Tree.{Trees};
ghost use Rattle.sqlite_trees.specs.View.{doubt};
ghost use Rattle.oe_keeper.specs.Kept.{Kept, rows_after_change, rows_after_changes, place};
ghost use Rattle.oe_sqlite.specs.Model.{Holds, AreRows};

use oe_keeper::{RowChange, Table};
use sqlite::{Alter, Connection, Error, Transaction, params};

const PUT: &str =
    "INSERT INTO kept (t, k, v) VALUES (?1, ?2, ?3) ON CONFLICT (t, k) DO UPDATE SET v = excluded.v";

const REMOVE: &str = "DELETE FROM kept WHERE t = ?1 AND k = ?2";

/// A table's index, as column `t` holds it.
fn number(table: Table) -> i64
    ensures { result ≡ pos (place table) }
{
    i64::from(table.place())
}

/// Stores a row under its key, and replaces a row that is already there.
fn put<S: Alter>(
    tx: &mut Transaction<'_, S>,
    table: Table,
    key: &str,
    row: &str,
) -> Result<(), Error>
    ensures same_reference { tx.new.conn.ghost_name ≡ tx.old.conn.ghost_name }
    ensures puts { HasCleanDisk (state S.Store tx.new.conn.now)
        → IsTrue tx.old.conn.now.in_transaction
        → OnOk result ((tables : Kept) → Holds (state S.Store tx.old.conn.now) tables
        → Holds (state S.Store tx.new.conn.now)
        (map.insert tables (place table, key.now) row.now)) }
    ensures clean { doubt (state S.Store tx.old.conn.now).is_clean ≤ doubt
        (state S.Store tx.new.conn.now).is_clean }
    ensures inside { HasCleanDisk (state S.Store tx.new.conn.now)
        → IsTrue tx.old.conn.now.in_transaction
        → OnOk result (IsTrue tx.new.conn.now.in_transaction) }
    ensures kept { HasCleanDisk (state S.Store tx.new.conn.now)
        → IsTrue tx.old.conn.now.in_transaction
        → KeepsCommit (state S.Store tx.old.conn.now) (state S.Store tx.new.conn.now) }
    ensures sound { HasCleanDisk (state S.Store tx.new.conn.now)
        → IsTrue tx.old.conn.now.in_transaction
        → OnOk result ((tables : Kept) → Holds (state S.Store tx.old.conn.now) tables
        → IsDatabase (state S.Store tx.new.conn.now).now) }
    ensures crash { HasCleanDisk (state S.Store tx.new.conn.now) → (db : Trees)
        → (state S.Store tx.new.conn.now).may_leave db
        → (state S.Store tx.old.conn.now).may_leave db }
{
    let t = number(table);
    tx.execute(PUT, params![t, key, row])?;
    Ok(())
}

/// Deletes the row under the key, if there is one.
fn remove<S: Alter>(tx: &mut Transaction<'_, S>, table: Table, key: &str) -> Result<(), Error>
    ensures same_reference { tx.new.conn.ghost_name ≡ tx.old.conn.ghost_name }
    ensures removes { HasCleanDisk (state S.Store tx.new.conn.now)
        → IsTrue tx.old.conn.now.in_transaction
        → OnOk result ((tables : Kept) → Holds (state S.Store tx.old.conn.now) tables
        → Holds (state S.Store tx.new.conn.now) (map.remove tables (place table, key.now))) }
    ensures clean { doubt (state S.Store tx.old.conn.now).is_clean ≤ doubt
        (state S.Store tx.new.conn.now).is_clean }
    ensures inside { HasCleanDisk (state S.Store tx.new.conn.now)
        → IsTrue tx.old.conn.now.in_transaction
        → OnOk result (IsTrue tx.new.conn.now.in_transaction) }
    ensures kept { HasCleanDisk (state S.Store tx.new.conn.now)
        → IsTrue tx.old.conn.now.in_transaction
        → KeepsCommit (state S.Store tx.old.conn.now) (state S.Store tx.new.conn.now) }
    ensures sound { HasCleanDisk (state S.Store tx.new.conn.now)
        → IsTrue tx.old.conn.now.in_transaction
        → OnOk result ((tables : Kept) → Holds (state S.Store tx.old.conn.now) tables
        → IsDatabase (state S.Store tx.new.conn.now).now) }
    ensures crash { HasCleanDisk (state S.Store tx.new.conn.now) → (db : Trees)
        → (state S.Store tx.new.conn.now).may_leave db
        → (state S.Store tx.old.conn.now).may_leave db }
{
    let t = number(table);
    tx.execute(REMOVE, params![t, key])?;
    Ok(())
}

/// Makes one change.
fn make<S: Alter>(tx: &mut Transaction<'_, S>, change: &RowChange) -> Result<(), Error>
    ensures same_reference { tx.new.conn.ghost_name ≡ tx.old.conn.ghost_name }
    ensures changes { HasCleanDisk (state S.Store tx.new.conn.now)
        → IsTrue tx.old.conn.now.in_transaction
        → OnOk result ((tables : Kept) → Holds (state S.Store tx.old.conn.now) tables
        → Holds (state S.Store tx.new.conn.now) (rows_after_change tables change.now)) }
    ensures clean { doubt (state S.Store tx.old.conn.now).is_clean ≤ doubt
        (state S.Store tx.new.conn.now).is_clean }
    ensures inside { HasCleanDisk (state S.Store tx.new.conn.now)
        → IsTrue tx.old.conn.now.in_transaction
        → OnOk result (IsTrue tx.new.conn.now.in_transaction) }
    ensures kept { HasCleanDisk (state S.Store tx.new.conn.now)
        → IsTrue tx.old.conn.now.in_transaction
        → KeepsCommit (state S.Store tx.old.conn.now) (state S.Store tx.new.conn.now) }
    ensures sound { HasCleanDisk (state S.Store tx.new.conn.now)
        → IsTrue tx.old.conn.now.in_transaction
        → OnOk result ((tables : Kept) → Holds (state S.Store tx.old.conn.now) tables
        → IsDatabase (state S.Store tx.new.conn.now).now) }
    ensures crash { HasCleanDisk (state S.Store tx.new.conn.now) → (db : Trees)
        → (state S.Store tx.new.conn.now).may_leave db
        → (state S.Store tx.old.conn.now).may_leave db }
{
    match change {
        RowChange::Put { table, key, row } => put(tx, *table, key.as_str(), row.as_str()),
        RowChange::Remove { table, key } => remove(tx, *table, key.as_str()),
    }
}

/// Makes the changes, in order, up to one that is refused.
fn change_all<S: Alter>(tx: &mut Transaction<'_, S>, changes: &[RowChange]) -> Result<(), Error>
    ensures same_reference { tx.new.conn.ghost_name ≡ tx.old.conn.ghost_name }
    ensures changes { HasCleanDisk (state S.Store tx.new.conn.now)
        → IsTrue tx.old.conn.now.in_transaction
        → OnOk result ((tables : Kept) → Holds (state S.Store tx.old.conn.now) tables
        → Holds (state S.Store tx.new.conn.now) (rows_after_changes tables changes.now)) }
    ensures clean { doubt (state S.Store tx.old.conn.now).is_clean ≤ doubt
        (state S.Store tx.new.conn.now).is_clean }
    ensures inside { HasCleanDisk (state S.Store tx.new.conn.now)
        → IsTrue tx.old.conn.now.in_transaction
        → OnOk result (IsTrue tx.new.conn.now.in_transaction) }
    ensures kept { HasCleanDisk (state S.Store tx.new.conn.now)
        → IsTrue tx.old.conn.now.in_transaction
        → KeepsCommit (state S.Store tx.old.conn.now) (state S.Store tx.new.conn.now) }
    ensures sound { HasCleanDisk (state S.Store tx.new.conn.now)
        → IsTrue tx.old.conn.now.in_transaction
        → OnOk result ((tables : Kept) → Holds (state S.Store tx.old.conn.now) tables
        → IsDatabase (state S.Store tx.old.conn.now).now
        → IsDatabase (state S.Store tx.new.conn.now).now) }
    ensures crash { HasCleanDisk (state S.Store tx.new.conn.now) → (db : Trees)
        → (state S.Store tx.new.conn.now).may_leave db
        → (state S.Store tx.old.conn.now).may_leave db }
{
    'changes: for it in changes {
        make(tx, it)?;
    }
    Ok(())
}

/// Makes all the changes, in order, or none of them.
pub(crate) fn apply<S: Alter>(conn: &mut Connection<S>, changes: &[RowChange]) -> Result<(), Error>
    requires { conn.old.in_transaction ≡ false }
    ensures all { HasCleanDisk (state S.Store conn.new)
        → OnOk result ((tables : Kept) → Holds (state S.Store conn.old) tables
        → Holds (state S.Store conn.new) (rows_after_changes tables changes.now)) }
    ensures none { HasCleanDisk (state S.Store conn.new) → IsTrue (state S.Store conn.new).is_open
        → OnErr result ((tables : Kept) → Holds (state S.Store conn.old) tables
        → Holds (state S.Store conn.new) tables) }
    ensures mode { conn.new.in_transaction ≡ false }
    ensures clean { doubt (state S.Store conn.old).is_clean ≤ doubt
        (state S.Store conn.new).is_clean }
    ensures open { HasCleanDisk (state S.Store conn.new) → IsTrue (state S.Store conn.new).is_open
        → IsTrue (state S.Store conn.old).is_open }
    ensures crash { HasCleanDisk (state S.Store conn.new) → IsDatabase (state S.Store conn.old).now
        → (tables : Kept) → Holds (state S.Store conn.old) tables
        → (db : Trees) → (state S.Store conn.new).may_leave db
        → (state S.Store conn.old).may_leave db
        ⊎ AreRows db (rows_after_changes tables changes.now) }
{
    let _settled = conn.is_autocommit();
    let mut tx = conn.transaction();
    change_all(&mut tx, changes)?;
    tx.commit()?;
    Ok(())
}
