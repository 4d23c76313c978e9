//! The keeper.

ghost use Rattle.std.specs.Prelude.{◌≡◌, ◌≤◌, ◌<◌, ◌^◌, true, false, List, IfOk, OnOk, OnErr, length, option_copied};
ghost use Rattle.crash_disks.specs.Crash.{LeavesDuring, HasCause};
ghost use Rattle.oe_journal.specs.Frames.{rows_of};
ghost use Rattle.oe_keeper.specs.declared.change.RowChange.{RowChange as Change};
ghost use Rattle.std.proofs.Common.{◌∙◌, sym};
ghost use Rattle.oe_keeper.specs.Kept.{Kept, rows_after_changes};
ghost use Rattle.oe_keeper.specs.Keeping as keeping;
ghost use Rattle.oe_journal.specs.Results.{IfNoMemory};
ghost use Rattle.oe_journal.specs.Journal.{IsTelling, TellsNothing, IsLoadedOver, IsFresh, IsReloaded, IsOpened, LoadsFrom};
ghost use Rattle.oe_journal.specs.Journal.{FindsOver, CutsOver, acknowledged_by, MayStandIn, MayStandAfter};
ghost use Rattle.oe_journal.specs.Standing.{IsReady, IsUnappended, IsAppended, IsWritten, IsFrame};

use crate::marks::OPEN_GATE;
use crate::mending::mend;
use crate::reading::read_rows;
use crate::steps::{settle, stage};
use crate::writing::frame_of;
use crash_disks::{Disk, Failed, write_synced};
use oe_keeper::{KeepErr, Keeper, RowChange, Tables};
use std::alloc::Global;

/// Keeps the tables as frames of a file.
pub struct JournalKeeper<D: Disk> {
    disk: D,
    end: u64,
    is_open: bool,
    is_told: bool,
    to_settle: bool,
}

// By hand, so that no crate above proves again how what it holds is dropped.
impl<D: Disk + Drop> Drop for JournalKeeper<D> {
    fn drop(self) {
        let JournalKeeper {
            disk: _,
            end: _,
            is_open: _,
            is_told: _,
            to_settle: _,
        } = self;
    }
}

impl<D: Disk> JournalKeeper<D> {
    /// A keeper over the disk, which was not opened yet. It takes no memory.
    pub fn new(disk: D) -> JournalKeeper<D>
        ensures disk { result.disk ≡ disk }
        ensures closed { result.is_open ≡ false }
        ensures silent { result.is_told ≡ false }
        ensures settled { result.to_settle ≡ false }
    {
        JournalKeeper {
            disk,
            end: 0,
            is_open: false,
            is_told: false,
            to_settle: false,
        }
    }

    /// The disk as it stands.
    pub fn into_disk(self) -> D
        ensures { result ≡ self.disk }
    {
        let JournalKeeper {
            disk,
            end: _,
            is_open: _,
            is_told: _,
            to_settle: _,
        } = self;
        disk
    }

    /// Writes the frame behind the frames that count: what stands behind its gate, then the gate.
    fn append(&mut self, frame: &[u8]) -> Result<(), Failed>
        requires some { 0 < length frame.now }
        requires ready { D.IsTold
            → IsReady (D.content self.old.disk) (D.MayLeave self.old.disk) self.old.end
            self.old.to_settle }
        requires bound { self.old.end ≤ 2 ^ 62 }
        ensures bound { self.new.end ≤ 2 ^ 62 }
        ensures open { self.new.is_open ≡ self.old.is_open }
        ensures told { self.new.is_told ≡ self.old.is_told }
        ensures settled { OnOk result (self.new.to_settle ≡ false) }
        ensures place { OnErr result (self.new.end ≡ self.old.end) }
        ensures unappended { D.IsTold → (changes : List Change) → IsFrame frame.now changes
            → OnErr result
            (IsUnappended self.old.end changes self.old.to_settle (D.content self.old.disk)
            (D.MayLeave self.old.disk) self.new.to_settle (D.content self.new.disk)
            (D.MayLeave self.new.disk)) }
        ensures appended { D.IsTold → (changes : List Change) → IsFrame frame.now changes
            → OnOk result
            (IsAppended self.old.end changes (D.content self.old.disk) self.new.end
            (D.content self.new.disk) (D.MayLeave self.new.disk)) }
        ensures time { D.IsTold → D.TellsPast → (changes : List Change) → IsFrame frame.now changes
            → LeavesDuring D.moment D.LeftSince self.old.disk self.new.disk
            (λ c. MayStandAfter D.content D.MayLeave self.old changes (rows_of c)) }
        ensures cause { HasCause (D.faults self.old.disk) (D.faults self.new.disk) result }
    {
        settle(&mut self.disk, self.end, &mut self.to_settle)?;
        stage(&mut self.disk, self.end, frame)?;
        self.to_settle = true;
        write_synced(&mut self.disk, self.end, &[OPEN_GATE])?;
        self.to_settle = false;
        self.end += (frame.len() - 1) as u64;
        Ok(())
    }

    /// Reads the rows of the open file again, and mends its end.
    fn reload(&mut self, alloc: Global) -> Result<Tables, KeepErr>
        ensures open { self.new.is_open ≡ self.old.is_open }
        ensures loaded { OnOk result
            ((self.new.is_told ≡ true) × (self.new.to_settle ≡ false) × (self.new.end ≤ 2 ^ 62)) }
        ensures rows { D.IsTold → IfOk result (λ rows. rows ≡ rows_of (D.content self.old.disk)) }
        ensures mended { D.IsTold
            → OnOk result (IsReloaded D.content D.MayLeave self.old self.new) }
        ensures silent { OnErr result (self.new.is_told ≡ true → self.old.is_told ≡ true) }
        ensures untold { keeping.IfFailed result (self.new.is_told ≡ false) }
        ensures same { D.IsTold
            → OnErr result (self.new.is_told ≡ true
            → D.content self.new.disk ≡ D.content self.old.disk) }
        ensures kept { IfNoMemory result (self.new.is_told ≡ self.old.is_told) }
        ensures stands { D.IsTold → (rows : Kept) → MayStandIn D.MayLeave self.new rows
            → MayStandIn D.MayLeave self.old rows }
        ensures time { D.IsTold → D.TellsPast
            → LeavesDuring D.moment D.LeftSince self.old.disk self.new.disk
            (λ c. MayStandIn D.MayLeave self.old (rows_of c)) }
        ensures cause { keeping.HasCause (D.faults self.old.disk) (D.faults self.new.disk) result }
    {
        match read_rows(alloc, &mut self.disk) {
            Ok((tables, end, is_empty)) => {
                self.to_settle = false;
                self.is_told = false;
                if mend(&mut self.disk, end, is_empty).is_err() {
                    return Err(KeepErr::Failed);
                }
                self.end = end;
                self.is_told = true;
                Ok(tables)
            }
            Err(KeepErr::NoMemory) => Err(KeepErr::NoMemory),
            Err(KeepErr::Failed) => {
                self.is_told = false;
                Err(KeepErr::Failed)
            }
        }
    }

    /// Opens the place, unless that was done before.
    fn open(&mut self, place: Option<&str>) -> Result<(), KeepErr>
        ensures opened { OnOk result (self.new.is_open ≡ true) }
        ensures again { self.old.is_open ≡ true → OnOk result (self.new ≡ self.old) }
        ensures first { self.old.is_open ≡ false
            → OnOk result (IsOpened D.Opens self.old (option_copied place.entry) self.new) }
        ensures failed { OnErr result ((self.old.is_open ≡ false) × (self.new.is_open ≡ false)) }
        ensures unopened { OnErr result
            (D.FailsToOpen self.old.disk (option_copied place.entry) self.new.disk) }
        ensures cause { keeping.HasCause (D.faults self.old.disk) (D.faults self.new.disk) result }
    {
        if !self.is_open {
            if self.disk.open(place).is_err() {
                return Err(KeepErr::Failed);
            }
            self.is_open = true;
            self.is_told = false;
            self.to_settle = false;
        }
        Ok(())
    }
}

impl<D: Disk> Keeper for JournalKeeper<D> {
    ghost Tells = { λ k. IsTelling D.IsTold D.content k };

    ghost faults = { λ k. D.faults k.disk };

    ghost Finds = { λ k place rows. D.IsTold → FindsOver D.Opens D.content k place rows };

    ghost IsLoaded = { λ k. IsLoadedOver D.IsTold D.content D.MayLeave k };

    ghost IsSteady = { λ k. ⊥ };

    /// Finds the rows of the file, and cuts away what stands behind their frames. Where it answers Ok no other
    /// rows may come to stand afterwards. A crash at any moment of the call, of a first one from the moment when
    /// the disk was open, leaves rows that might have stood before it.
    ///
    /// # Errors
    ///
    /// `Failed` only where the disk's count of faults rose; no rows are told then until a load answers Ok.
    /// `NoMemory` where memory was refused; what was told is told still.
    fn load(&mut self, alloc: Global, place: Option<&str>) -> Result<Tables, KeepErr>
        ensures found { IfOk result (λ rows. D.IsTold
            → FindsOver D.Opens D.content self.old (option_copied place.entry) rows) }
        ensures rows { IfOk result (λ rows. (now : Kept) → IsTelling D.IsTold D.content self.new now
            → now ≡ rows) }
        ensures stays { keeping.Stays (IsTelling D.IsTold D.content) self.old self.new }
        ensures silent { OnErr result
            (keeping.StaysSilent (IsTelling D.IsTold D.content) self.old self.new) }
        ensures loaded { OnOk result ∥ IsLoadedOver D.IsTold D.content D.MayLeave self.new ∥₁ }
        ensures cause { keeping.HasCause (D.faults self.old.disk) (D.faults self.new.disk) result }
        ensures steady { ⊥ → ⊥ }
        ensures unfailing { ⊥ → keeping.IfFailed result ⊥ }
        ensures tells { D.IsTold
            → IfOk result (λ rows. IsTelling D.IsTold D.content self.new rows) }
        ensures untold { keeping.IfFailed result (TellsNothing D.IsTold D.content self.new) }
        ensures open { self.old.is_open ≡ true → self.new.is_open ≡ true }
        ensures kept { IfNoMemory result ((rows : Kept) → IsTelling D.IsTold D.content self.old rows
            → IsTelling D.IsTold D.content self.new rows) }
        ensures acknowledges { D.IsTold
            → IfOk result (λ rows. acknowledged_by D.content self.new ≡ rows) }
        ensures stands { D.IsTold
            → IfOk result (λ rows. (r : Kept) → MayStandIn D.MayLeave self.new r → r ≡ rows) }
        ensures file { D.IsTold → OnOk result
            (CutsOver D.Opens D.content self.old (option_copied place.entry) self.new) }
        ensures fresh { D.IsTold → OnOk result (IsFresh D.content D.MayLeave self.new) }
        ensures crash { D.IsTold → self.old.is_open ≡ true
            → LoadsFrom D.TellsPast D.MayLeave D.moment D.LeftSince self.old.disk self.old.to_settle
            self.old.end self.new }
        ensures first_crash { D.IsTold → self.old.is_open ≡ false → self.new.is_open ≡ true
            → (opened : D) × D.Opens self.old.disk (option_copied place.entry) opened
            × LoadsFrom D.TellsPast D.MayLeave D.moment D.LeftSince opened false self.old.end
            self.new }
        ensures unopened { self.old.is_open ≡ false → self.new.is_open ≡ false
            → D.FailsToOpen self.old.disk (option_copied place.entry) self.new.disk }
    {
        self.open(place)?;
        self.reload(alloc)
    }

    /// Makes all the changes, in order, or none of them. Where it answers Ok only the rows with them may come to
    /// stand afterwards. A crash at any moment of the call leaves rows that might have stood before it, or the
    /// acknowledged ones with all the changes.
    ///
    /// # Errors
    ///
    /// `Failed` only where the disk's count of faults rose; the rows then stand with the changes or without,
    /// and are not told until a load answers Ok. `NoMemory` where memory was refused, before the disk was
    /// called.
    fn apply(&mut self, alloc: Global, changes: &[RowChange]) -> Result<(), KeepErr>
        requires { ∥ IsLoadedOver D.IsTold D.content D.MayLeave self.old ∥₁ }
        ensures all { OnOk result
            (keeping.HasAll (IsTelling D.IsTold D.content) self.old self.new changes.now) }
        ensures tells { D.IsTold
            → OnOk result ((rows : Kept) → IsTelling D.IsTold D.content self.old rows
            → IsTelling D.IsTold D.content self.new (rows_after_changes rows changes.now)) }
        ensures none { OnErr result (keeping.Stays (IsTelling D.IsTold D.content) self.old self.new) }
        ensures silent { keeping.StaysSilent (IsTelling D.IsTold D.content) self.old self.new }
        ensures loaded { ∥ IsLoadedOver D.IsTold D.content D.MayLeave self.new ∥₁ }
        ensures cause { keeping.HasCause (D.faults self.old.disk) (D.faults self.new.disk) result }
        ensures steady { ⊥ → ⊥ }
        ensures unfailing { ⊥ → keeping.IfFailed result ⊥ }
        ensures acknowledged { D.IsTold
            → OnOk result
            (acknowledged_by D.content self.new ≡ rows_after_changes
            (acknowledged_by D.content self.old) changes.now) }
        ensures unacknowledged { D.IsTold
            → OnErr result (acknowledged_by D.content self.new ≡ acknowledged_by D.content self.old) }
        ensures file { D.IsTold
            → OnOk result
            (IsWritten self.old.end changes.now (D.content self.old.disk) self.new.end
            (D.content self.new.disk)) }
        ensures stands { D.IsTold
            → OnOk result ((rows : Kept) → MayStandIn D.MayLeave self.new rows
            → rows ≡ rows_after_changes (acknowledged_by D.content self.old) changes.now) }
        ensures may_stand { D.IsTold → (rows : Kept) → MayStandIn D.MayLeave self.new rows
            → MayStandAfter D.content D.MayLeave self.old changes.now rows }
        ensures crash { D.IsTold → D.TellsPast
            → LeavesDuring D.moment D.LeftSince self.old.disk self.new.disk
            (λ c. MayStandAfter D.content D.MayLeave self.old changes.now (rows_of c)) }
        ensures untold { keeping.IfFailed result (TellsNothing D.IsTold D.content self.new) }
        ensures untouched { IfNoMemory result (self.new ≡ self.old) }
    {
        let frame = frame_of(alloc, changes)?;
        match self.append(frame.as_slice()) {
            Ok(()) => Ok(()),
            Err(_) => {
                self.is_told = false; // The next load finds what stands.
                Err(KeepErr::Failed)
            }
        }
    }

    fn keeps(&self) -> bool
        ensures { result ≡ true }
    {
        true
    }

    ghost one = { λ k a b p q. p.rows_are ∙ sym q.rows_are };
}
