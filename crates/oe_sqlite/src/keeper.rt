//! The keeper.

ghost use Rattle.std.specs.Prelude.{◌≡◌, ◌⊎◌, true, false, None, Err, IsTrue, IsSome, IfOk, IfSome, OnOk, OnErr, MatchResult};
ghost use Rattle.sqlite_wal.specs.Files.{outcomes};
ghost use Rattle.sqlite_wal.specs.Recovery.{Image};
ghost use Rattle.sqlite_store.specs.FileStore.{view, files as store_files};
ghost use Rattle.sqlite_trees.specs.View.{IsClean};
ghost use Rattle.sqlite_trees.specs.Tree.{Trees};
ghost use Rattle.sqlite.specs.Files.{HoldsDatabase};
ghost use Rattle.oe_keeper.specs.Kept.{Kept, rows_after_changes};
ghost use Rattle.oe_sqlite.specs.Model.{AreRows};
ghost use Rattle.oe_sqlite.specs.FileRows.{HoldsRows};
ghost use Rattle.oe_keeper.specs.Keeping.{HasCause, IfFailed, Stays, StaysSilent, HasAll};
ghost use Rattle.oe_sqlite.specs.declared.place.Place.TheVariants.{Nowhere};
ghost use Rattle.oe_sqlite.specs.Places.{TellsWith, IsHeldAt, IsBlankAt, IsCleanAt, IsShapedAt, IsFoundAt, LoadsAt, MayLeaveAt, told_once};
ghost use Rattle.oe_sqlite.specs.Places.{IsInMemory, IsPlacedBy, IsStore, StaysAt};

use crate::opens::{HostFiles, Opens};
use crate::place::Place;
use crate::stop::Stop;
use oe_keeper::{KeepErr, Keeper, RowChange, Tables};
use sqlite::{Connection, FileStore};
use std::alloc::Global;
use std::mem;

/// A keeper over the files of the machine.
pub type SqliteKeeper<'a> = StoreKeeper<HostFiles<'a>>;

/// A keeper over one SQLite store, which holds all rows in its table `kept`. Its rows are known from the first load on that found the
/// store to be that one table and nothing else; in memory this is always so.
pub struct StoreKeeper<O: Opens> {
    opener: O,
    place: Place<O::Disk>,
    is_told: bool,
    faults: u64,
    ghost held: { ∥ (IsTrue is_told → IsHeldAt place) ∥₁ },
}

/// Its end closes the file of its store.
impl<O: Opens> Drop for StoreKeeper<O> {
    fn drop(self) {
        let StoreKeeper {
            opener: _,
            place,
            is_told: _,
            faults: _,
        } = self;
        place.close();
    }
}

/// The keeper's error where its store stopped. All but `NoMemory` is a fault, and is counted.
fn count(faults: &mut u64, stop: Stop) -> KeepErr
    ensures { HasCause {T = Unit {0}} faults.old faults.new (Err result) }
{
    if stop == Stop::NoMemory {
        return KeepErr::NoMemory;
    }
    *faults = faults.saturating_add(1);
    KeepErr::Failed
}

impl<'a> StoreKeeper<HostFiles<'a>> {
    /// A keeper without a store yet. Its first `load` opens a file through `rt`, or a store in memory.
    pub fn new(rt: &'a HostRuntime) -> SqliteKeeper<'a>
        ensures place { result.place ≡ Nowhere }
        ensures untold { result.is_told ≡ false }
    {
        StoreKeeper::over(HostFiles::new(rt))
    }
}

impl<O: Opens> StoreKeeper<O> {
    /// A keeper without a store yet. Its first `load` opens one with the opener, or in memory.
    pub fn over(opener: O) -> StoreKeeper<O>
        ensures opener { result.opener ≡ opener }
        ensures place { result.place ≡ Nowhere }
        ensures untold { result.is_told ≡ false }
    {
        StoreKeeper {
            opener,
            place: Place::Nowhere,
            is_told: false,
            faults: 0,
        }
    }

    /// Opens the store of a place.
    fn open(&mut self, alloc: Global, path: Option<&str>) -> Result<Place<O::Disk>, Stop>
        ensures faults { self.new.faults ≡ self.old.faults }
        ensures told { self.new.is_told ≡ self.old.is_told }
        ensures place { self.new.place ≡ self.old.place }
        ensures memory { path.entry ≡ None → IfOk result IsBlankAt }
        ensures file { IsSome path.entry → IfOk result (λ p. IsFoundAt
            (O.Opens.image self.old.opener) p) }
        ensures placed { IfOk result (IsPlacedBy path.entry) }
    {
        match path {
            Some(path) => Ok(Place::File(self.opener.open(path)?)),
            None => Ok(Place::Memory(Connection::open_in_memory(alloc)?)),
        }
    }

    /// Loads the rows of a keeper whose rows are not known yet. Its store is opened anew, and closed where it cannot be read.
    fn load_untold(&mut self, alloc: Global, path: Option<&str>) -> Result<Tables, Stop>
        requires { self.old.is_told ≡ false }
        ensures faults { self.new.faults ≡ self.old.faults }
        ensures rows { IfOk result (λ rows. (now : Kept)
            → TellsWith self.new.is_told self.new.place now → now ≡ rows) }
        ensures untold { OnErr result (self.new.is_told ≡ false) }
        ensures memory { self.old.place ≡ Nowhere → path.entry ≡ None
            → IfOk result (λ rows. TellsWith self.new.is_told self.new.place rows) }
        ensures opened { self.old.place ≡ Nowhere
            → OnOk result (IsPlacedBy path.entry self.new.place) }
        ensures placed { OnOk result (StaysAt self.old.place self.new.place) }
        ensures shaped { OnOk result (IsShapedAt self.new.place → IsTrue self.new.is_told) }
        ensures file { self.old.place ≡ Nowhere → IsSome path.entry
            → IfOk result (λ rows. LoadsAt
            (O.Opens.image self.old.opener) self.new.place self.new.is_told rows) }
    {
        let opened = match mem::replace(&mut self.place, Place::Nowhere) {
            Place::Nowhere => self.open(alloc, path)?,
            place => place,
        };
        let (place, tables, is_told) = opened.load_first(alloc)?;
        self.place = place;
        self.is_told = is_told;
        Ok(tables)
    }

    /// Loads the rows of the store, and opens it where there is none yet.
    fn load_all(&mut self, alloc: Global, path: Option<&str>) -> Result<Tables, Stop>
        ensures faults { self.new.faults ≡ self.old.faults }
        ensures rows { IfOk result (λ rows. (now : Kept)
            → TellsWith self.new.is_told self.new.place now → now ≡ rows) }
        ensures stays { Stays (λ k. TellsWith k.is_told k.place) self.old self.new }
        ensures silent { OnErr result (StaysSilent
            (λ k. TellsWith k.is_told k.place) self.old self.new) }
        ensures memory { self.old.place ≡ Nowhere → path.entry ≡ None
            → IfOk result (λ rows. TellsWith self.new.is_told self.new.place rows) }
        ensures opened { self.old.place ≡ Nowhere
            → OnOk result (IsPlacedBy path.entry self.new.place) }
        ensures placed { OnOk result (StaysAt self.old.place self.new.place) }
        ensures again { IsInMemory self.old.place → (before : Kept)
            → TellsWith self.old.is_told self.old.place before
            → TellsWith self.new.is_told self.new.place before
            × IfOk result (λ rows. rows ≡ before) }
        ensures still { IsTrue self.old.is_told → IsTrue self.new.is_told }
        ensures shaped { OnOk result (IsShapedAt self.new.place → IsTrue self.new.is_told) }
        ensures file { self.old.place ≡ Nowhere → self.old.is_told ≡ false → IsSome path.entry
            → IfOk result (λ rows. LoadsAt
            (O.Opens.image self.old.opener) self.new.place self.new.is_told rows) }
    {
        if self.is_told {
            self.place.load_again(alloc)
        } else {
            self.load_untold(alloc, path)
        }
    }

    /// Ends the keeper and returns the store of its file, if it has one. The files hold its known rows, whatever a crash leaves of them.
    pub fn leave(self) -> Option<FileStore<O::Disk>>
        ensures rows { IfSome result (λ it. IsClean (view it) → (rows : Kept)
            → TellsWith self.is_told self.place rows
            → (image : Image) → outcomes O.Disk.Disk (store_files it).0 (store_files it).1 image
            → HoldsRows image rows) }
        ensures found { IfSome result (λ it. IsClean (view it) → (image : Image)
            → outcomes O.Disk.Disk (store_files it).0 (store_files it).1 image
            → ∥ ((db : Trees) × MayLeaveAt self.place db × HoldsDatabase image db) ∥₁) }
    {
        let StoreKeeper {
            opener: _,
            place,
            is_told: _,
            faults: _,
        } = self;
        place.leave()
    }

    /// Makes all the changes, in order, or none of them.
    fn change_all(&mut self, changes: &[RowChange]) -> Result<(), Stop>
        ensures faults { self.new.faults ≡ self.old.faults }
        ensures all { OnOk result (HasAll
            (λ k. TellsWith k.is_told k.place) self.old self.new changes.now) }
        ensures none { OnErr result (Stays (λ k. TellsWith k.is_told k.place) self.old self.new) }
        ensures silent { StaysSilent (λ k. TellsWith k.is_told k.place) self.old self.new }
        ensures still { IsTrue self.old.is_told → IsTrue self.new.is_told }
        ensures crash { (before : Kept) → TellsWith self.old.is_told self.old.place before
            → (db : Trees) → MayLeaveAt self.new.place db
            → ∥ (AreRows db before ⊎ AreRows db (rows_after_changes before changes.now)) ∥₁ }
        ensures placed { StaysAt self.old.place self.new.place }
        ensures stored { OnOk result (IsStore self.old.place) }
        ensures memory { IsInMemory self.old.place → (before : Kept)
            → TellsWith self.old.is_told self.old.place before
            → MatchResult result (λ _. TellsWith self.new.is_told self.new.place
            (rows_after_changes before changes.now))
            (λ _. TellsWith self.new.is_told self.new.place before) }
    {
        self.place.change(changes)
    }
}

impl<O: Opens> Keeper for StoreKeeper<O> {
    ghost Tells = { λ k. TellsWith k.is_told k.place };

    ghost faults = { λ k. k.faults };

    ghost Finds = { λ k place rows. Unit {0} };

    ghost IsLoaded = { λ k. Unit {0} };

    ghost IsSteady = { λ k. ⊥ };

    fn load(&mut self, alloc: Global, place: Option<&str>) -> Result<Tables, KeepErr>
        ensures found { IfOk result (λ rows. Unit {0}) }
        ensures rows { IfOk result (λ rows. (now : Kept)
            → TellsWith self.new.is_told self.new.place now → now ≡ rows) }
        ensures stays { Stays (λ k. TellsWith k.is_told k.place) self.old self.new }
        ensures silent { OnErr result (StaysSilent
            (λ k. TellsWith k.is_told k.place) self.old self.new) }
        ensures loaded { OnOk result ∥ Unit {0} ∥₁ }
        ensures cause { HasCause self.old.faults self.new.faults result }
        ensures steady { ⊥ → ⊥ }
        ensures unfailing { ⊥ → IfFailed result ⊥ }

        // The first load opens a store, in memory where there is no path, and in a file where there is one. A later load keeps to it.
        ensures opened { self.old.place ≡ Nowhere
            → OnOk result (IsPlacedBy place.entry self.new.place) }
        ensures placed { OnOk result (StaysAt self.old.place self.new.place) }

        // In memory the rows that the first load gives are known from then on, and a later load gives the known rows.
        ensures memory { self.old.place ≡ Nowhere → place.entry ≡ None
            → IfOk result (λ rows. TellsWith self.new.is_told self.new.place rows) }
        ensures again { IsInMemory self.old.place → (before : Kept)
            → TellsWith self.old.is_told self.old.place before
            → TellsWith self.new.is_told self.new.place before
            × IfOk result (λ rows. rows ≡ before) }

        // The first load of a file gives the rows that the file held. Known rows stay known, and those of a store that is the one table are known while
        // it is clean.
        ensures still { IsTrue self.old.is_told → IsTrue self.new.is_told }
        ensures file { self.old.place ≡ Nowhere → self.old.is_told ≡ false → IsSome place.entry
            → IfOk result (λ rows. LoadsAt
            (O.Opens.image self.old.opener) self.new.place self.new.is_told rows) }
        ensures tells { OnOk result (IsShapedAt self.new.place → IsCleanAt self.new.place
            → ∥ ((rows : Kept) × TellsWith self.new.is_told self.new.place rows) ∥₁) }
    {
        match self.load_all(alloc, place) {
            Ok(tables) => Ok(tables),
            Err(stop) => Err(count(&mut self.faults, stop)),
        }
    }

    fn apply(&mut self, _alloc: Global, changes: &[RowChange]) -> Result<(), KeepErr>
        ensures all { OnOk result (HasAll
            (λ k. TellsWith k.is_told k.place) self.old self.new changes.now) }
        ensures none { OnErr result (Stays (λ k. TellsWith k.is_told k.place) self.old self.new) }
        ensures silent { StaysSilent (λ k. TellsWith k.is_told k.place) self.old self.new }
        ensures loaded { ∥ Unit {0} ∥₁ }
        ensures cause { HasCause self.old.faults self.new.faults result }
        ensures steady { ⊥ → ⊥ }
        ensures unfailing { ⊥ → IfFailed result ⊥ }
        ensures still { IsTrue self.old.is_told → IsTrue self.new.is_told }

        // Only a keeper that has a store answers Ok, and it keeps to that store. In memory its known rows are then those with all the changes, and after
        // an error those before.
        ensures stored { OnOk result (IsStore self.old.place) }
        ensures placed { StaysAt self.old.place self.new.place }
        ensures memory { IsInMemory self.old.place → (before : Kept)
            → TellsWith self.old.is_told self.old.place before
            → MatchResult result (λ _. TellsWith self.new.is_told self.new.place
            (rows_after_changes before changes.now))
            (λ _. TellsWith self.new.is_told self.new.place before) }

        // A crash leaves the rows as they were or with all the changes.
        ensures crash { (before : Kept) → TellsWith self.old.is_told self.old.place before
            → (db : Trees) → MayLeaveAt self.new.place db
            → ∥ (AreRows db before ⊎ AreRows db (rows_after_changes before changes.now)) ∥₁ }
    {
        match self.change_all(changes) {
            Ok(()) => Ok(()),
            Err(stop) => Err(count(&mut self.faults, stop)),
        }
    }

    fn keeps(&self) -> bool
        ensures { result ≡ true }
    {
        true
    }

    ghost one = { λ k a b p q. told_once k.place a b p.1 q.1 };
}
