//! The first load of a store that was just opened.

ghost use Rattle.std.specs.Prelude.{◌≡◌, ◌≤◌, false, IsTrue, IfOk, OnOk};
ghost use Rattle.std.specs.FinMap as maps;
ghost use Rattle.sqlite.specs.Effect.{IsDatabase};
ghost use Rattle.sqlite.specs.Held.{state};
ghost use Rattle.sqlite.specs.State.{HasCleanDisk};
ghost use Rattle.sqlite_trees.specs.View.{IsShaped, doubt};
ghost use Rattle.sqlite_trees.specs.declared.store.Shape.TheVariants.{Table};
ghost use Rattle.oe_sqlite.specs.Model.{Holds, tables_in};
ghost use Rattle.oe_sqlite.specs.Shape.{kept_schema, no_schema};

use crate::schema::has_shape;
use crate::stop::Stop;
use crate::store::{create, is_blank, load_blank, load_rows};
use oe_keeper::Tables;
use sqlite::{Alter, Connection};
use sqlite_trees::store::Store;
use std::alloc::Global;

/// Opens the same store once more, which shows that its rowids rise.
///
/// # Errors
///
/// `Refused` where the store refuses, `NotReady` where it is broken, `NoMemory` where memory ran out.
fn opened_again<S: Alter + Drop>(alloc: Global, conn: Connection<S>) -> Result<Connection<S>, Stop>
    ensures shaped { IfOk result (λ c. HasCleanDisk (state S.Store c)
        → (state S.Store c).now.schema ≡ kept_schema
        → IsShaped Table ((state S.Store c).now.trees 0)) }
    ensures same { IfOk result (λ c. HasCleanDisk (state S.Store c)
        → ((state S.Store c).now.trees ≡ (state S.Store conn).committed.trees)
        × IsDatabase (state S.Store c).now) }
    ensures clean { IfOk result (λ c. doubt (state S.Store conn).is_clean ≤ doubt
        (state S.Store c).is_clean) }
{
    let mut store = conn.into_store();
    store.rollback();
    if store.is_broken() {
        return Err(Stop::NotReady);
    }
    match Connection::over(alloc, store) {
        Ok(conn) => Ok(conn),
        Err((error, _)) => Err(error.into()),
    }
}

/// Loads the rows of the table, and whether the store is that one table.
fn load_shaped<S: Alter>(alloc: Global, conn: &mut Connection<S>) -> Result<(Tables, bool), Stop>
    requires { HasCleanDisk (state S.Store conn.old)
        → (state S.Store conn.old).now.schema ≡ kept_schema
        → IsShaped Table ((state S.Store conn.old).now.trees 0) }
    ensures told { HasCleanDisk (state S.Store conn.new) → IsTrue (state S.Store conn.new).is_open
        → IfOk result (λ r. IsTrue r.1 → Holds (state S.Store conn.new) r.0) }
    ensures shaped { IfOk result (λ r. (state S.Store conn.new).now.schema ≡ kept_schema
        → IsTrue r.1) }
    ensures mode { OnOk result (conn.new.in_transaction ≡ false) }
    ensures was { (state S.Store conn.old).now.schema ≡ kept_schema
        → IfOk result (λ r. IsTrue r.1) }
    ensures rows { HasCleanDisk (state S.Store conn.new) → IsTrue (state S.Store conn.new).is_open
        → (state S.Store conn.old).now.schema ≡ kept_schema
        → IfOk result (λ r. tables_in ((state S.Store conn.old).now.trees 0) ≡ r.0) }
    ensures clean { doubt (state S.Store conn.old).is_clean ≤ doubt
        (state S.Store conn.new).is_clean }
{
    if !conn.is_autocommit() {
        return Err(Stop::NotReady);
    }
    let is_told = has_shape(conn.schema());
    let tables = load_rows(alloc, conn)?;
    // a read changes no schema
    if has_shape(conn.schema()) != is_told {
        return Err(Stop::NotReady);
    }
    Ok((tables, is_told))
}

/// The result of a first load.
#[derive(Drop)]
pub struct Opened<S: Alter> {
    /// The store.
    pub conn: Connection<S>,
    /// Its rows.
    pub tables: Tables,
    /// Whether the store is that one table and nothing else, as this crate makes it: from then on its rows are known.
    pub is_told: bool,
}

/// Loads the rows of a store that was just opened, and makes its table where it is missing. A store that was not empty is read and checked
/// once more. From then on its rows are known exactly where it is that one table and nothing else.
///
/// # Errors
///
/// `Refused` where the store refuses, `BadRow` where a row cannot stand in the table, `NotReady` within a transaction or on a broken
/// store, `NoMemory` where memory ran out. The store is then closed.
pub fn load_opened<S: Alter + Drop>(alloc: Global, conn: Connection<S>) -> Result<Opened<S>, Stop>
    ensures told { IfOk result (λ r. HasCleanDisk (state S.Store r.conn)
        → IsTrue (state S.Store r.conn).is_open → IsTrue r.is_told
        → Holds (state S.Store r.conn) r.tables) }
    ensures blank { (state S.Store conn).now.schema ≡ no_schema
        → IfOk result (λ r. IsTrue r.is_told) }
    ensures shaped { IfOk result (λ r. (state S.Store r.conn).now.schema ≡ kept_schema
        → IsTrue r.is_told) }
    ensures none { (state S.Store conn).now.schema ≡ no_schema
        → IfOk result (λ r. HasCleanDisk (state S.Store r.conn) → r.tables ≡ maps.empty) }
    ensures rows { (state S.Store conn).now.schema ≡ kept_schema
        → (state S.Store conn).now ≡ (state S.Store conn).committed
        → IfOk result (λ r. HasCleanDisk (state S.Store r.conn)
        → IsTrue (state S.Store r.conn).is_open
        → IsTrue r.is_told × (tables_in ((state S.Store conn).now.trees 0) ≡ r.tables)) }
    ensures clean { IfOk result (λ r. doubt (state S.Store conn).is_clean ≤ doubt
        (state S.Store r.conn).is_clean) }
    ensures mode { IfOk result (λ r. r.conn.in_transaction ≡ false) }
{
    let mut conn = conn;
    if is_blank(conn.schema()) {
        let tables = load_blank(alloc, &mut conn)?;
        return Ok(Opened {
            conn,
            tables,
            is_told: true,
        });
    }
    create(&mut conn)?;
    let mut conn = opened_again(alloc, conn)?;
    let (tables, is_told) = load_shaped(alloc, &mut conn)?;
    Ok(Opened {
        conn,
        tables,
        is_told,
    })
}
