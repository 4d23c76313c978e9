//! What a disk holds, read whole.

ghost use Rattle.std.specs.Prelude.{◌≡◌, ◌≤◌, ◌<◌, ◌^◌, IfOk, OnOk, length, take, nat_eq};
ghost use Rattle.crash_disks.specs.Crash.{Only, Stays, LeavesDuring};
ghost use Rattle.oe_keeper.specs.Keeping.{HasCause};
ghost use Rattle.oe_journal.specs.Frames.{rows_of, extent};
ghost use Rattle.oe_journal.specs.Results.{UnlessFailed};

use crate::frames::rows_in;
use crash_disks::Disk;
use oe_keeper::{KeepErr, Tables};
use std::alloc::Global;

/// Reads one piece more.
fn read_piece<D: Disk>(disk: &mut D, file: &mut Vec<u8>) -> Result<(), KeepErr>
    requires { D.IsTold → length file.old.items < length (D.content disk.old) }
    ensures grows { OnOk result (length file.old.items < length file.new.items) }
    ensures bytes { D.IsTold → file.old.items ≡ take (length file.old.items) (D.content disk.old)
        → OnOk result (file.new.items ≡ take (length file.new.items) (D.content disk.old)) }
    ensures content { D.IsTold → D.content disk.new ≡ D.content disk.old }
    ensures crash { D.IsTold → Stays (D.MayLeave disk.old) (D.MayLeave disk.new) }
    ensures time { D.IsTold → D.TellsPast
        → LeavesDuring D.moment D.LeftSince disk.old disk.new (D.MayLeave disk.old) }
    ensures cause { HasCause (D.faults disk.old) (D.faults disk.new) result }
{
    let mut buffer = [0; 4096];
    match disk.read_at(file.len() as u64, &mut buffer) {
        Ok(count) => {
            if file.extend_from_slice(&buffer[..count]).is_err() {
                return Err(KeepErr::NoMemory);
            }
            Ok(())
        }
        Err(_) => Err(KeepErr::Failed),
    }
}

/// All the bytes, of which there are so many.
fn read_all<D: Disk>(alloc: Global, disk: &mut D, size: u64) -> Result<Vec<u8>, KeepErr>
    requires { D.IsTold → size ≡ length (D.content disk.old) }
    ensures bytes { D.IsTold → IfOk result (λ v. v.items ≡ D.content disk.old) }
    ensures content { D.IsTold → D.content disk.new ≡ D.content disk.old }
    ensures crash { D.IsTold → Stays (D.MayLeave disk.old) (D.MayLeave disk.new) }
    ensures time { D.IsTold → D.TellsPast
        → LeavesDuring D.moment D.LeftSince disk.old disk.new (D.MayLeave disk.old) }
    ensures cause { HasCause (D.faults disk.old) (D.faults disk.new) result }
{
    let mut file = Vec::new(alloc);
    'pieces: while (file.len() as u64) < size {
        read_piece(disk, &mut file)?;
    }
    Ok(file)
}

/// All the bytes.
fn read_file<D: Disk>(alloc: Global, disk: &mut D) -> Result<Vec<u8>, KeepErr>
    ensures bytes { D.IsTold → IfOk result (λ v. v.items ≡ D.content disk.old) }
    ensures content { D.IsTold → D.content disk.new ≡ D.content disk.old }
    ensures crash { D.IsTold → Stays (D.MayLeave disk.old) (D.MayLeave disk.new) }
    ensures time { D.IsTold → D.TellsPast
        → LeavesDuring D.moment D.LeftSince disk.old disk.new (D.MayLeave disk.old) }
    ensures cause { HasCause (D.faults disk.old) (D.faults disk.new) result }
{
    match disk.size() {
        Ok(size) => read_all(alloc, disk, size),
        Err(_) => Err(KeepErr::Failed),
    }
}

/// The rows that the file stands for once it is on the disk, the place of the first gate that does not count,
/// and whether there are no bytes.
pub(crate) fn read_rows<D: Disk>(
    alloc: Global,
    disk: &mut D,
) -> Result<(Tables, u64, bool), KeepErr>
    ensures rows { D.IsTold
        → IfOk result
        (λ r. (r.0 ≡ rows_of (D.content disk.old)) × (r.1 ≡ extent (D.content disk.old))
        × (r.2 ≡ nat_eq (length (D.content disk.old)) 0)) }
    ensures bound { IfOk result (λ r. r.1 < 2 ^ 63) }
    ensures durable { D.IsTold → OnOk result (Only (D.content disk.new) (D.MayLeave disk.new)) }
    ensures content { D.IsTold → UnlessFailed result (D.content disk.new ≡ D.content disk.old) }
    ensures crash { D.IsTold → Stays (D.MayLeave disk.old) (D.MayLeave disk.new) }
    ensures time { D.IsTold → D.TellsPast
        → LeavesDuring D.moment D.LeftSince disk.old disk.new (D.MayLeave disk.old) }
    ensures cause { HasCause (D.faults disk.old) (D.faults disk.new) result }
{
    if disk.sync().is_err() {
        return Err(KeepErr::Failed);
    }
    let file = read_file(alloc, disk)?;
    let (tables, end) = rows_in(alloc, file.as_slice())?;
    Ok((tables, end as u64, file.is_empty()))
}
