//! From one keeper to the next over the same files.

ghost use Rattle.std.specs.Prelude.{◌≡◌, ◌⊎◌, false, IfSome};
ghost use Rattle.sqlite_store.specs.FileStore.{view, files as store_files};
ghost use Rattle.sqlite_trees.specs.View.{IsClean};
ghost use Rattle.sqlite_wal.specs.Files.{outcomes};
ghost use Rattle.oe_keeper.specs.Kept.{Kept, rows_after_changes};
ghost use Rattle.oe_sqlite.specs.declared.place.Place.TheVariants.{Nowhere};
ghost use Rattle.oe_sqlite.specs.Places.{TellsWith, IsCleanAt};

use crate::keeper::StoreKeeper;
use crate::opens::Opens;
use oe_keeper::{Keeper, RowChange, Tables};
use sqlite::FileStore;
use std::alloc::Global;

/// Ends a keeper and loads the next one. Where the next opener finds what the disk may have left of the files, also after a crash, the
/// known rows of the ended keeper are those of the next: its first load returns them.
pub fn told_again<O: Opens, P: Opens>(
    alloc: Global,
    ended: StoreKeeper<O>,
    next: StoreKeeper<P>,
    path: &str,
) -> Option<(FileStore<O::Disk>, StoreKeeper<P>, Tables)>
    ensures { IfSome result (λ r. IsClean (view r.0) → next.place ≡ Nowhere → next.is_told ≡ false
        → outcomes O.Disk.Disk (store_files r.0).0 (store_files r.0).1 (P.Opens.image next.opener)
        → (rows : Kept) → TellsWith ended.is_told ended.place rows → IsCleanAt r.1.place
        → TellsWith r.1.is_told r.1.place rows × (r.2 ≡ rows)) }
{
    let mut next = next;
    let store = ended.leave()?;
    match next.load(alloc, Some(path)) {
        Ok(tables) => Some((store, next, tables)),
        Err(_) => None,
    }
}

/// As above, where the ended keeper was applying changes, wherever its disk stopped: the next keeper's rows are those before the changes
/// or those with all of them.
pub fn told_after_crash<O: Opens, P: Opens>(
    alloc: Global,
    ended: StoreKeeper<O>,
    changes: &[RowChange],
    next: StoreKeeper<P>,
    path: &str,
) -> Option<(FileStore<O::Disk>, StoreKeeper<P>, Tables)>
    ensures { IfSome result (λ r. IsClean (view r.0) → next.place ≡ Nowhere → next.is_told ≡ false
        → outcomes O.Disk.Disk (store_files r.0).0 (store_files r.0).1 (P.Opens.image next.opener)
        → (before : Kept) → TellsWith ended.is_told ended.place before → IsCleanAt r.1.place
        → ∥ ((rows : Kept) × ((rows ≡ before) ⊎ (rows ≡ rows_after_changes before changes.now))
        × TellsWith r.1.is_told r.1.place rows × (r.2 ≡ rows)) ∥₁) }
{
    let mut ended = ended;
    let mut next = next;
    let _made = ended.apply(alloc, changes);
    let store = ended.leave()?;
    match next.load(alloc, Some(path)) {
        Ok(tables) => Some((store, next, tables)),
        Err(_) => None,
    }
}
