//! The SQL texts that make the table and read it.

ghost use Rattle.std.specs.Prelude.{◌≡◌, ◌↔◌, ◌≤◌, false, IsTrue, IfOk, OnOk};
ghost use Rattle.std.specs.FinMap as maps;
ghost use Rattle.sqlite.specs.Held.{state};
ghost use Rattle.sqlite.specs.State.{HasCleanDisk, IsUnchanged};
ghost use Rattle.sqlite_trees.specs.Tree.{Trees};
ghost use Rattle.sqlite_trees.specs.View.{doubt};
ghost use Rattle.oe_keeper.specs.Kept.{Kept};
ghost use Rattle.oe_sqlite.specs.Model.{Holds};
ghost use Rattle.oe_sqlite.specs.Shape.{kept_schema, no_schema};

use crate::rows::tables_of;
use crate::stop::Stop;
use oe_keeper::Tables;
use sqlite::{Alter, Connection, Error};
use sqlite_schema::schema::Schema;
use std::alloc::Global;

const CREATE: &str =
    "CREATE TABLE IF NOT EXISTS kept (t INTEGER NOT NULL CHECK (t >= 0 AND t <= 4), k TEXT NOT NULL, v TEXT NOT NULL, PRIMARY KEY (t, k)) STRICT";

const SELECT: &str = "SELECT t, k, v FROM kept ORDER BY t, k";

/// Whether a schema is empty.
pub(crate) fn is_blank(schema: &Schema) -> bool
    ensures { IsTrue result ↔ (schema.now ≡ no_schema) }
{
    schema.tables.len() == 0 && schema.indexes.len() == 0 && schema.views.len() == 0
}

/// Makes the table, where it is missing.
pub(crate) fn create<S: Alter>(conn: &mut Connection<S>) -> Result<(), Error>
    ensures makes { HasCleanDisk (state S.Store conn.new)
        → OnOk result ((state S.Store conn.old).now.schema ≡ no_schema
        → Holds (state S.Store conn.new) maps.empty) }
    ensures stays { HasCleanDisk (state S.Store conn.new)
        → OnOk result ((state S.Store conn.old).now.schema ≡ kept_schema
        → IsUnchanged (state S.Store conn.old) (state S.Store conn.new)) }
    ensures clean { doubt (state S.Store conn.old).is_clean ≤ doubt
        (state S.Store conn.new).is_clean }
{
    conn.execute(CREATE, &[])?;
    Ok(())
}

/// The rows of the table.
pub(crate) fn load_rows<S: Alter>(alloc: Global, conn: &mut Connection<S>) -> Result<Tables, Stop>
    requires { conn.old.in_transaction ≡ false }
    ensures rows { HasCleanDisk (state S.Store conn.new)
        → IfOk result (λ rows. (tables : Kept) → Holds (state S.Store conn.old) tables
        → tables ≡ rows) }
    ensures still { HasCleanDisk (state S.Store conn.new) → IsTrue (state S.Store conn.new).is_open
        → (tables : Kept) → Holds (state S.Store conn.old) tables
        → Holds (state S.Store conn.new) tables }
    ensures open { HasCleanDisk (state S.Store conn.new) → IsTrue (state S.Store conn.new).is_open
        → IsTrue (state S.Store conn.old).is_open }
    ensures clean { doubt (state S.Store conn.old).is_clean ≤ doubt
        (state S.Store conn.new).is_clean }
    ensures mode { conn.new.in_transaction ≡ false }
    ensures crash { HasCleanDisk (state S.Store conn.new) → (tables : Kept)
        → Holds (state S.Store conn.old) tables → (db : Trees)
        → (state S.Store conn.new).may_leave db → (state S.Store conn.old).may_leave db }
{
    let _settled = conn.is_autocommit();
    let rows = conn.query_all(SELECT, &[])?;
    tables_of(alloc, rows.as_slice())
}

/// The rows of an empty store, once its table is made.
pub(crate) fn load_blank<S: Alter>(alloc: Global, conn: &mut Connection<S>) -> Result<Tables, Stop>
    requires { (state S.Store conn.old).now.schema ≡ no_schema }
    ensures told { HasCleanDisk (state S.Store conn.new) → IsTrue (state S.Store conn.new).is_open
        → IfOk result (λ rows. Holds (state S.Store conn.new) rows) }
    ensures none { HasCleanDisk (state S.Store conn.new) → IfOk result (λ rows. rows ≡ maps.empty) }
    ensures mode { OnOk result (conn.new.in_transaction ≡ false) }
    ensures clean { doubt (state S.Store conn.old).is_clean ≤ doubt
        (state S.Store conn.new).is_clean }
{
    create(conn)?;
    if !conn.is_autocommit() {
        return Err(Stop::NotReady);
    }
    load_rows(alloc, conn)
}
