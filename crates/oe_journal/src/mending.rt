//! The end of a file is mended: what stands behind the frames that count is cut away, and a closed gate is
//! written there.

ghost use Rattle.std.specs.Prelude.{◌≡◌, ◌≤◌, ◌<◌, ◌+◌, ◌^◌, List, ℕ, OnOk, length, take, nat_eq};
ghost use Rattle.crash_disks.specs.Crash.{Only, LeavesDuring, HasCause};
ghost use Rattle.oe_journal.specs.Frames.{rows_of, extent};
ghost use Rattle.oe_journal.specs.Standing.{IsMended};

use crate::marks::CLOSED_GATE;
use crash_disks::{Disk, Failed, cut_synced, write_synced};

/// Cuts the file behind the first gate that does not count, unless it is empty.
fn cut_behind<D: Disk>(disk: &mut D, end: u64, is_empty: bool) -> Result<(), Failed>
    requires durable { D.IsTold → Only (D.content disk.old) (D.MayLeave disk.old) }
    requires place { D.IsTold → end ≡ extent (D.content disk.old) }
    requires empty { D.IsTold → is_empty ≡ nat_eq (length (D.content disk.old)) 0 }
    requires bound { end < 2 ^ 63 }
    ensures cut { D.IsTold
        → OnOk result (D.content disk.new ≡ take (end + 1) (D.content disk.old)) }
    ensures durable { D.IsTold → OnOk result (Only (D.content disk.new) (D.MayLeave disk.new)) }
    ensures rows { D.IsTold → (c : List ℕ) → D.MayLeave disk.new c
        → rows_of c ≡ rows_of (D.content disk.old) }
    ensures time { D.IsTold → D.TellsPast
        → LeavesDuring D.moment D.LeftSince disk.old disk.new
        (λ c. rows_of c ≡ rows_of (D.content disk.old)) }
    ensures cause { HasCause (D.faults disk.old) (D.faults disk.new) result }
{
    if !is_empty {
        cut_synced(disk, end + 1)?;
    }
    Ok(())
}

/// Mends the end of the file.
pub(crate) fn mend<D: Disk>(disk: &mut D, end: u64, is_empty: bool) -> Result<(), Failed>
    requires durable { D.IsTold → Only (D.content disk.old) (D.MayLeave disk.old) }
    requires place { D.IsTold → end ≡ extent (D.content disk.old) }
    requires empty { D.IsTold → is_empty ≡ nat_eq (length (D.content disk.old)) 0 }
    requires bound { end < 2 ^ 63 }
    ensures mended { D.IsTold
        → OnOk result (IsMended end (D.content disk.old) (D.content disk.new) (D.MayLeave disk.new)) }
    ensures rows { D.IsTold → (c : List ℕ) → D.MayLeave disk.new c
        → rows_of c ≡ rows_of (D.content disk.old) }
    ensures bound { OnOk result (end ≤ 2 ^ 62) }
    ensures time { D.IsTold → D.TellsPast
        → LeavesDuring D.moment D.LeftSince disk.old disk.new
        (λ c. rows_of c ≡ rows_of (D.content disk.old)) }
    ensures cause { HasCause (D.faults disk.old) (D.faults disk.new) result }
{
    cut_behind(disk, end, is_empty)?;
    write_synced(disk, end, &[CLOSED_GATE])
}
