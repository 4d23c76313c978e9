//! A write and a cut, each followed by a sync.

ghost use Rattle.std.specs.Prelude.{◌≡◌, ◌≤◌, ◌+◌, ◌^◌, IfOk, OnOk, length, take};
ghost use Rattle.crash_disks.specs.Bytes.{Holds, Torn, Cut};
ghost use Rattle.crash_disks.specs.Crash.{Only, After, Follows, LeavesDuring, HasCause};

use crate::disk::{Disk, Failed};

/// Writes the bytes at the place, and syncs.
///
/// # Errors
///
/// `Failed` only where the disk's count of faults rose.
pub fn write_synced<D: Disk>(disk: &mut D, at: u64, bytes: &[u8]) -> Result<(), Failed>
    requires { D.IsTold → at ≤ length (D.content disk.old) }
    ensures written { D.IsTold
        → OnOk result (Holds (D.content disk.old) at bytes.now (D.content disk.new)) }
    ensures durable { D.IsTold → OnOk result (Only (D.content disk.new) (D.MayLeave disk.new)) }
    ensures bound { OnOk result (at + length bytes.now ≤ 2 ^ 62) }
    ensures crash { D.IsTold
        → Follows (Torn at (length bytes.now)) (D.MayLeave disk.old) (D.MayLeave disk.new) }
    ensures time { D.IsTold → D.TellsPast
        → LeavesDuring D.moment D.LeftSince disk.old disk.new
        (After (Torn at (length bytes.now)) (D.MayLeave disk.old)) }
    ensures cause { HasCause (D.faults disk.old) (D.faults disk.new) result }
{
    disk.write_at(at, bytes)?;
    disk.sync()
}

/// Cuts the file to a length, and syncs.
///
/// # Errors
///
/// `Failed` only where the disk's count of faults rose.
pub fn cut_synced<D: Disk>(disk: &mut D, len: u64) -> Result<(), Failed>
    requires { D.IsTold → len ≤ length (D.content disk.old) }
    ensures cut { D.IsTold → OnOk result (D.content disk.new ≡ take len (D.content disk.old)) }
    ensures durable { D.IsTold → OnOk result (Only (D.content disk.new) (D.MayLeave disk.new)) }
    ensures crash { D.IsTold → Follows (Cut len) (D.MayLeave disk.old) (D.MayLeave disk.new) }
    ensures time { D.IsTold → D.TellsPast
        → LeavesDuring D.moment D.LeftSince disk.old disk.new
        (After (Cut len) (D.MayLeave disk.old)) }
    ensures cause { HasCause (D.faults disk.old) (D.faults disk.new) result }
{
    disk.cut(len)?;
    disk.sync()
}
