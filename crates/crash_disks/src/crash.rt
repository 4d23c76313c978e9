//! One image that a crash may leave.

ghost use Rattle.std.specs.Prelude.{◌≡◌, ◌≤◌, ◌+◌, ◌++◌, ◌∷◌, true, IfOk, List, ℕ, length, take, drop};
ghost use Rattle.crash_disks.specs.Bytes.{Torn, Cut};
ghost use Rattle.crash_disks.specs.declared.step.Step.{Step as DoneStep};
ghost use Rattle.crash_disks.specs.Replay.{replay, fits, Leaves, InPlace};

use crate::bytes::with_patch;
use crate::step::Step;
use grid_exact::NoMemory;
use std::alloc::Global;
use std::collections::VecDeque;

/// The bytes after a write that was cut short, in the way that is picked.
fn tear(alloc: Global, bytes: &[u8], at: u64, patch: &[u8], pick: u64) -> Result<Vec<u8>, NoMemory>
    ensures { IfOk result (λ v. Torn at (length patch.now) bytes.now v.items) }
{
    if at > bytes.len() as u64 {
        return Ok(Vec::from_slice(alloc, bytes)?);
    }
    let place = at as usize;
    match pick % 4 {
        0 => Ok(Vec::from_slice(alloc, bytes)?),
        1 => with_patch(alloc, bytes, place, patch),
        2 => with_patch(alloc, bytes, place, &patch[..patch.len() / 2]),
        _ => {
            let mut ones = Vec::from_slice(alloc, patch)?;
            ones.fill(1);
            with_patch(alloc, bytes, place, ones.as_slice())
        }
    }
}

/// The bytes after a cut that was cut short, in the way that is picked.
fn fray(alloc: Global, bytes: &[u8], len: u64, pick: u64) -> Result<Vec<u8>, NoMemory>
    ensures { IfOk result (λ v. Cut len bytes.now v.items) }
{
    if len > bytes.len() as u64 || pick % 2 == 0 {
        return Ok(Vec::from_slice(alloc, bytes)?);
    }
    Ok(Vec::from_slice(alloc, &bytes[..len as usize])?)
}

/// One image that a crash after the call may leave, of one that a crash before it might have left.
fn left_after(
    alloc: Global,
    step: &Step,
    left: &[u8],
    read: &[u8],
    pick: u64,
) -> Result<Vec<u8>, NoMemory>
    ensures { IfOk result (λ v. (first : List ℕ) (older : List DoneStep)
        → read.now ≡ replay first older → Leaves first older left.now
        → Leaves first (step.now ∷ older) v.items) }
{
    match step {
        Step::Wrote { at, bytes } => tear(alloc, left, *at, bytes.as_slice(), pick),
        Step::Tore { at, bytes } => tear(alloc, left, *at, bytes.as_slice(), pick),
        Step::Cut { len } => fray(alloc, left, *len, pick),
        Step::Frayed { len } => fray(alloc, left, *len, pick),
        Step::Synced => Ok(Vec::from_slice(alloc, read)?),
    }
}

/// What a read gives after the call.
fn read_after(alloc: Global, step: &Step, read: &[u8]) -> Result<Vec<u8>, NoMemory>
    requires { InPlace step.now read.now }
    ensures { IfOk result (λ v. (first : List ℕ) (older : List DoneStep)
        → read.now ≡ replay first older → v.items ≡ replay first (step.now ∷ older)) }
{
    match step {
        Step::Wrote { at, bytes } => with_patch(alloc, read, *at as usize, bytes.as_slice()),
        Step::Cut { len } => Ok(Vec::from_slice(alloc, &read[..*len as usize])?),
        _ => Ok(Vec::from_slice(alloc, read)?),
    }
}

/// One image that a crash after the calls may leave.
pub(crate) fn left_by(
    alloc: Global,
    first: &[u8],
    steps: &VecDeque<Step>,
    pick: u64,
) -> Result<Vec<u8>, NoMemory>
    requires { fits first.now steps.now.items ≡ true }
    ensures { IfOk result (λ v. Leaves first.now steps.now.items v.items) }
{
    let mut left = Vec::from_slice(alloc, first)?;
    let mut read = Vec::from_slice(alloc, first)?;
    let mut pick = pick;
    let mut older = 0;
    'steps: while older < steps.len() {
        let step = &steps[steps.len() - 1 - older];
        let next = left_after(alloc, step, left.as_slice(), read.as_slice(), pick)?;
        read = read_after(alloc, step, read.as_slice())?;
        left = next;
        pick /= 4;
        older += 1;
    }
    Ok(left)
}
