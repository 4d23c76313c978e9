//! The two steps before a gate is opened: an earlier gate is settled, and the frame is staged.

ghost use Rattle.std.specs.Prelude.{◌≡◌, ◌≤◌, ◌+◌, ◌^◌, ◌<◌, true, false, OnOk, OnErr, length, drop};
ghost use Rattle.crash_disks.specs.Crash.{LeavesDuring, HasCause};
ghost use Rattle.oe_journal.specs.Frames.{rows_of};
ghost use Rattle.oe_journal.specs.Standing.{MayStand, IsReady, StaysReady, IsStagedAt};

use crate::marks::CLOSED_GATE;
use crash_disks::{Disk, Failed, write_synced};

/// Closes the gate where an earlier call may have opened it.
pub(crate) fn settle<D: Disk>(disk: &mut D, end: u64, to_settle: &mut bool) -> Result<(), Failed>
    requires ready { D.IsTold
        → IsReady (D.content disk.old) (D.MayLeave disk.old) end to_settle.old }
    ensures stays { D.IsTold
        → StaysReady end to_settle.old (D.content disk.old) (D.MayLeave disk.old) to_settle.new
        (D.content disk.new) (D.MayLeave disk.new) }
    ensures settled { OnOk result (to_settle.new ≡ false) }
    ensures behind { D.IsTold
        → OnOk result (drop (end + 1) (D.content disk.new) ≡ drop (end + 1) (D.content disk.old)) }
    ensures time { D.IsTold → D.TellsPast
        → LeavesDuring D.moment D.LeftSince disk.old disk.new
        (λ c. MayStand to_settle.old end (D.MayLeave disk.old) (rows_of c)) }
    ensures cause { HasCause (D.faults disk.old) (D.faults disk.new) result }
{
    if *to_settle {
        write_synced(disk, end, &[CLOSED_GATE])?;
        *to_settle = false;
    }
    Ok(())
}

/// Writes what stands behind the frame's gate, and leaves the gate closed.
pub(crate) fn stage<D: Disk>(disk: &mut D, end: u64, frame: &[u8]) -> Result<(), Failed>
    requires ready { D.IsTold → IsReady (D.content disk.old) (D.MayLeave disk.old) end false }
    requires bound { end ≤ 2 ^ 62 }
    requires some { 0 < length frame.now }
    ensures staged { D.IsTold
        → OnOk result
        (IsStagedAt end (drop 1 frame.now) (D.content disk.old) (D.content disk.new)
        (D.MayLeave disk.new)) }
    ensures stays { D.IsTold
        → OnErr result
        (StaysReady end false (D.content disk.old) (D.MayLeave disk.old) false (D.content disk.new)
        (D.MayLeave disk.new)) }
    ensures bound { OnOk result (end + length frame.now ≤ 2 ^ 62) }
    ensures time { D.IsTold → D.TellsPast
        → LeavesDuring D.moment D.LeftSince disk.old disk.new
        (λ c. MayStand false end (D.MayLeave disk.old) (rows_of c)) }
    ensures cause { HasCause (D.faults disk.old) (D.faults disk.new) result }
{
    write_synced(disk, end + 1, &frame[1..])
}
