//! The store in which the rows are held.

ghost use Rattle.std.specs.Prelude.{◌≡◌, ◌⊎◌, IsTrue, IfOk, IfSome, OnOk, OnErr, MatchResult};
ghost use Rattle.sqlite_wal.specs.Files.{outcomes};
ghost use Rattle.sqlite_wal.specs.Recovery.{Image};
ghost use Rattle.sqlite_store.specs.FileStore.{view, files as store_files};
ghost use Rattle.sqlite_trees.specs.View.{IsClean};
ghost use Rattle.sqlite_trees.specs.Tree.{Trees};
ghost use Rattle.sqlite.specs.Files.{HoldsDatabase};
ghost use Rattle.oe_keeper.specs.Kept.{Kept, rows_after_changes};
ghost use Rattle.oe_sqlite.specs.Model.{AreRows};
ghost use Rattle.oe_sqlite.specs.FileRows.{HoldsRows};
ghost use Rattle.oe_keeper.specs.Keeping.{Stays, StaysSilent, HasAll};
ghost use Rattle.oe_sqlite.specs.Places.{TellsAt, IsHeldAt, IsBlankAt, IsShapedAt, IsFoundAt, LoadsAt, MayLeaveAt};
ghost use Rattle.oe_sqlite.specs.Places.{IsInMemory, IsStore, StaysAt};

use crate::leave::leave_rows;
use crate::reopened::{Opened, load_opened};
use crate::stop::Stop;
use crate::told::{change_told, load_again};
use oe_keeper::{RowChange, Tables};
use sqlite::{Connection, FileStore, MemStore};
use sqlite_disk::Disk;
use std::alloc::Global;

/// No store yet, one in memory, or one in a file.
#[derive(Drop)]
pub enum Place<D: Disk> {
    Nowhere,
    Memory(Connection<MemStore>),
    File(Connection<FileStore<D>>),
}

impl<D: Disk + Drop> Place<D> {
    /// Loads the rows of a place that was just opened, and whether they are known from now on.
    pub(crate) fn load_first(self, alloc: Global) -> Result<(Place<D>, Tables, bool), Stop>
        ensures held { IfOk result (λ r. IsTrue r.2 → IsHeldAt r.0) }
        ensures rows { IfOk result (λ r. IsTrue r.2 → (now : Kept) → TellsAt r.0 now → now ≡ r.1) }
        ensures blank { IsBlankAt self → IfOk result (λ r. IsTrue r.2) }
        ensures shaped { IfOk result (λ r. IsShapedAt r.0 → IsTrue r.2) }
        ensures found { (image : Image) → IsFoundAt image self
            → IfOk result (λ r. LoadsAt image r.0 r.2 r.1) }
        ensures placed { IfOk result (λ r. StaysAt self r.0) }
        ensures memory { IsInMemory self → IfOk result (λ r. IsTrue r.2 → TellsAt r.0 r.1) }
    {
        match self {
            Place::Memory(conn) => {
                let Opened {
                    conn,
                    tables,
                    is_told,
                } = load_opened(alloc, conn)?;
                Ok((Place::Memory(conn), tables, is_told))
            }
            Place::File(conn) => {
                let Opened {
                    conn,
                    tables,
                    is_told,
                } = load_opened(alloc, conn)?;
                Ok((Place::File(conn), tables, is_told))
            }
            Place::Nowhere => Err(Stop::NotReady),
        }
    }

    /// Loads the rows of a place that was opened before.
    pub(crate) fn load_again(&mut self, alloc: Global) -> Result<Tables, Stop>
        ensures held { IsHeldAt self.old → IsHeldAt self.new }
        ensures rows { IsHeldAt self.old → IfOk result (λ rows. (now : Kept) → TellsAt self.new now
            → now ≡ rows) }
        ensures stays { Stays TellsAt self.old self.new }
        ensures silent { IsHeldAt self.old → StaysSilent TellsAt self.old self.new }
        ensures placed { StaysAt self.old self.new }
        ensures stored { OnOk result (IsStore self.old) }
        ensures memory { IsInMemory self.old → (before : Kept) → TellsAt self.old before
            → TellsAt self.new before × IfOk result (λ rows. rows ≡ before) }
    {
        match self {
            Place::Memory(conn) => load_again(alloc, conn),
            Place::File(conn) => load_again(alloc, conn),
            Place::Nowhere => Err(Stop::NotReady),
        }
    }

    /// Makes all the changes, in order, or none of them.
    pub(crate) fn change(&mut self, changes: &[RowChange]) -> Result<(), Stop>
        ensures held { IsHeldAt self.old → IsHeldAt self.new }
        ensures all { OnOk result (HasAll TellsAt self.old self.new changes.now) }
        ensures none { OnErr result (Stays TellsAt self.old self.new) }
        ensures silent { IsHeldAt self.old → StaysSilent TellsAt self.old self.new }
        ensures crash { IsHeldAt self.old → (before : Kept) → TellsAt self.old before
            → (db : Trees) → MayLeaveAt self.new db
            → AreRows db before ⊎ AreRows db (rows_after_changes before changes.now) }
        ensures placed { StaysAt self.old self.new }
        ensures stored { OnOk result (IsStore self.old) }
        ensures memory { IsInMemory self.old → (before : Kept) → TellsAt self.old before
            → MatchResult result (λ _. TellsAt self.new (rows_after_changes before changes.now))
            (λ _. TellsAt self.new before) }
    {
        match self {
            Place::Memory(conn) => change_told(conn, changes),
            Place::File(conn) => change_told(conn, changes),
            Place::Nowhere => Err(Stop::NotReady),
        }
    }

    /// Ends the place, and copies the log of its file into the database where nothing stops that.
    pub(crate) fn close(self) {
        if let Place::File(conn) = self {
            let _closed = conn.close();
        }
    }

    /// Ends the place and returns the store of its file, if it has one and no transaction is open.
    pub(crate) fn leave(self) -> Option<FileStore<D>>
        ensures rows { IfSome result (λ it. IsClean (view it) → (rows : Kept) → TellsAt self rows
            → (image : Image) → outcomes D.Disk (store_files it).0 (store_files it).1 image
            → HoldsRows image rows) }
        ensures found { IfSome result (λ it. IsClean (view it) → (image : Image)
            → outcomes D.Disk (store_files it).0 (store_files it).1 image
            → ∥ ((db : Trees) × MayLeaveAt self db × HoldsDatabase image db) ∥₁) }
    {
        match self {
            Place::File(conn) => {
                if !conn.is_autocommit() {
                    return None;
                }
                Some(leave_rows(conn))
            }
            _ => None,
        }
    }
}
