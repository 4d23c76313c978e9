//! The state in which a store with known rows leaves its files.

ghost use Rattle.std.specs.Prelude.{◌≡◌, ◌≤◌, false};
ghost use Rattle.sqlite_wal.specs.Recovery.{Image};
ghost use Rattle.sqlite_wal.specs.Files.{outcomes};
ghost use Rattle.sqlite_trees.specs.Tree.{Trees};
ghost use Rattle.sqlite_trees.specs.View.{IsClean, doubt};
ghost use Rattle.sqlite_store.specs.FileStore.{view, files as store_files};
ghost use Rattle.sqlite.specs.Files.{file_state, HoldsDatabase};
ghost use Rattle.oe_keeper.specs.Kept.{Kept};
ghost use Rattle.oe_sqlite.specs.Model.{TellsIn};
ghost use Rattle.oe_sqlite.specs.FileRows.{HoldsRows};

use sqlite::{Connection, FileStore};
use sqlite_disk::Disk;

/// Ends the connection and returns its store. Whatever a crash could leave of the two files while no transaction was open holds its
/// rows, and so does what it can leave of them now. Where the connection had failed, that is a database that it could leave.
pub(crate) fn leave_rows<D: Disk + Drop>(conn: Connection<FileStore<D>>) -> FileStore<D>
    ensures before { IsClean (view result) → conn.in_transaction ≡ false → (rows : Kept)
        → TellsIn (file_state conn) rows
        → (image : Image) → outcomes D.Disk (store_files conn.store).0
        (store_files conn.store).1 image → HoldsRows image rows }
    ensures after { IsClean (view result) → conn.in_transaction ≡ false → (rows : Kept)
        → TellsIn (file_state conn) rows
        → (image : Image) → outcomes D.Disk (store_files result).0 (store_files result).1 image
        → HoldsRows image rows }
    ensures found { IsClean (view result) → (image : Image)
        → outcomes D.Disk (store_files result).0 (store_files result).1 image
        → ∥ ((db : Trees) × (file_state conn).may_leave db × HoldsDatabase image db) ∥₁ }
    ensures clean { doubt (file_state conn).is_clean ≤ doubt (view result).is_clean }
{
    let _live = conn.schema();
    let _settled = conn.is_autocommit();
    conn.into_store()
}
