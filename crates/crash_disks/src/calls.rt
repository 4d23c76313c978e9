//! What a call does, and which calls fail.

ghost use Rattle.std.specs.Prelude.{◌≡◌, ℕ, ◌≤◌, ◌+◌, ◌-◌, ◌^◌, ◌∷◌, ◌++◌, OnOk, OnErr, length, take, drop, min, Vec};
ghost use Rattle.std.specs.declared.alloc.Global.{Global as OfMemory};
ghost use Rattle.crash_disks.specs.declared.step.Step.TheVariants as steps_of;
ghost use Rattle.crash_disks.specs.Crash.{Rose};
ghost use Rattle.crash_disks.specs.Turns.{turn_at};

use crate::bytes::with_patch;
use crate::disk::Failed;
use crate::step::Step;
use grid_exact::NoMemory;
use oe_keeper::FailList;
use std::alloc::Global;
use std::collections::VecDeque;

const MOST: usize = 1 << 62;

/// What a call is to do.
#[derive(Clone, Copy, Debug, PartialEq, Eq)]
pub(crate) enum Turn {
    /// What it is for.
    Works,
    /// It fails, and may have done a part.
    Fails,
    /// It fails, and does nothing.
    Stopped,
}

/// Counts the call, and answers what it is to do.
pub(crate) fn next_turn(calls: &mut u64, fail: &FailList, stop: Option<u64>) -> Turn
    ensures counted { calls.new ≡ min (calls.old + 1) (2 ^ 64 - 1) }
    ensures turn { result ≡ turn_at fail.now stop calls.new }
{
    *calls = calls.saturating_add(1);
    if let Some(stop) = stop {
        if *calls >= stop {
            return Turn::Stopped;
        }
    }
    if fail.has(*calls) {
        Turn::Fails
    } else {
        Turn::Works
    }
}

/// Counts a fault.
pub(crate) fn fault(faults: &mut u64) -> Failed
    ensures later { faults.old ≤ faults.new }
    ensures rose { Rose faults.old faults.new }
{
    *faults = faults.saturating_add(1);
    Failed
}

/// Keeps the call, the newest first.
pub(crate) fn note(steps: &mut VecDeque<Step>, step: Step) -> Result<(), NoMemory>
    ensures ok { OnOk result (steps.new.items ≡ step ∷ steps.old.items) }
    ensures err { OnErr result (steps.new.items ≡ steps.old.items) }
{
    steps.push_front(step)?;
    Ok(())
}

/// Writes the source over the bytes.
pub(crate) fn write(
    alloc: Global,
    steps: &mut VecDeque<Step>,
    bytes: &mut Vec<u8>,
    at: u64,
    source: &[u8],
) -> Result<(), NoMemory>
    requires { at ≤ length bytes.old.items }
    ensures steps { OnOk result
        ((v : Vec ℕ OfMemory) × (v.items ≡ source.now)
        × (steps.new.items ≡ steps_of.Wrote at v ∷ steps.old.items)) }
    ensures steps_err { OnErr result (steps.new.items ≡ steps.old.items) }
    ensures bytes { OnOk result
        (bytes.new.items ≡ take at bytes.old.items ++ source.now ++ drop (at + length source.now)
        bytes.old.items) }
    ensures bytes_err { OnErr result (bytes.new.items ≡ bytes.old.items) }
    ensures bound { OnOk result (at + length source.now ≤ 2 ^ 62) }
{
    let place = at as usize;
    if place > MOST || source.len() > MOST - place {
        return Err(NoMemory);
    }
    let next = with_patch(alloc, bytes.as_slice(), place, source)?;
    let copy = Vec::from_slice(alloc, source)?;
    note(steps, Step::Wrote { at, bytes: copy })?;
    *bytes = next;
    Ok(())
}

/// Cuts the bytes.
pub(crate) fn cut(steps: &mut VecDeque<Step>, bytes: &mut Vec<u8>, len: u64) -> Result<(), NoMemory>
    requires { len ≤ length bytes.old.items }
    ensures steps { OnOk result (steps.new.items ≡ steps_of.Cut len ∷ steps.old.items) }
    ensures steps_err { OnErr result (steps.new.items ≡ steps.old.items) }
    ensures bytes { OnOk result (bytes.new.items ≡ take len bytes.old.items) }
    ensures bytes_err { OnErr result (bytes.new.items ≡ bytes.old.items) }
{
    note(steps, Step::Cut { len })?;
    bytes.truncate(len as usize);
    Ok(())
}

/// Hands out the first bytes from this place on.
pub(crate) fn hand_out(bytes: &[u8], buf: &mut [u8]) -> usize
    ensures count { result ≡ min (length bytes.now) (length buf.old) }
    ensures front { take result buf.new ≡ take result bytes.now }
{
    let count = bytes.len().min(buf.len());
    buf[..count].copy_from_slice(&bytes[..count]);
    count
}
