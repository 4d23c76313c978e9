//! The disk in memory.

ghost use Rattle.std.specs.Prelude.{◌≡◌, true, IfOk};
ghost use Rattle.crash_disks.specs.Replay.{replay, fits};

use crate::calls::{Turn, cut, fault, hand_out, next_turn, note, write};
use crate::crash::left_by;
use crate::disk::{Disk, Failed};
use crate::step::Step;
use grid_exact::NoMemory;
use oe_keeper::FailList;
use std::alloc::Global;
use std::collections::VecDeque;

/// A disk in memory. Its calls count from 1. It fails at the listed ones; the one numbered `stop` and all
/// later ones do nothing and fail. Want of memory is a fault too.
#[derive(Debug)]
pub struct MemoryDisk {
    alloc: Global,
    first: Vec<u8>,
    steps: VecDeque<Step>,
    bytes: Vec<u8>,
    fail: FailList,
    stop: Option<u64>,
    calls: u64,
    faults: u64,
    ghost held: { bytes.items ≡ replay first.items steps.items },
    ghost ran: { fits first.items steps.items ≡ true },
}

// By hand, so that no crate above proves again how what it holds is dropped.
impl Drop for MemoryDisk {
    fn drop(self) {
        let MemoryDisk {
            alloc: _,
            first: _,
            steps: _,
            bytes: _,
            fail: _,
            stop: _,
            calls: _,
            faults: _,
        } = self;
    }
}

impl MemoryDisk {
    ghost use Rattle.crash_disks.specs.Memory.{memory_bytes, may_leave, IsFresh, IsWhole};

    /// An empty disk, which was not called yet.
    pub fn new(alloc: Global, fail: FailList, stop: Option<u64>) -> MemoryDisk
        ensures { IsFresh result fail stop }
    {
        MemoryDisk {
            alloc,
            first: Vec::new(alloc),
            steps: VecDeque::new(alloc),
            bytes: Vec::new(alloc),
            fail,
            stop,
            calls: 0,
            faults: 0,
        }
    }

    /// What a read gives.
    pub fn bytes(&self) -> &[u8]
        ensures { result.now ≡ memory_bytes self.now }
    {
        &self.bytes
    }

    /// A disk without faults, not called yet, whose bytes are one image that a crash now may leave.
    ///
    /// # Errors
    ///
    /// `NoMemory` where memory was refused.
    pub fn crashed(self, alloc: Global, pick: u64) -> Result<MemoryDisk, NoMemory>
        ensures left { IfOk result (λ d. may_leave self (memory_bytes d)) }
        ensures all { IfOk result (λ d. IsWhole d) }
    {
        let left = left_by(alloc, self.first.as_slice(), &self.steps, pick)?;
        let bytes = Vec::from_slice(alloc, left.as_slice())?;
        Ok(MemoryDisk {
            alloc,
            first: left,
            steps: VecDeque::new(alloc),
            bytes,
            fail: FailList::new(alloc),
            stop: None,
            calls: 0,
            faults: 0,
        })
    }
}

impl Disk for MemoryDisk {
    ghost use Rattle.std.specs.Prelude.{length};
    ghost use Rattle.crash_disks.specs.Replay.{Leaves, LeftAfter};
    ghost use Rattle.crash_disks.specs.Memory.{HasSameBytes, IsCounted};
    ghost use Rattle.crash_disks.specs.Laws.{bytes_left, left_now, only_left_now};

    ghost IsTold = { Unit {0} };

    ghost TellsPast = { Unit {0} };

    ghost content = { λ d. d.bytes.items };

    ghost MayLeave = { λ d c. Leaves d.first.items d.steps.items c };

    ghost moment = { λ d. length d.steps.items };

    ghost LeftSince = { λ d t c. LeftAfter d.first.items d.steps.items t c };

    ghost faults = { λ d. d.faults };

    ghost Opens = { λ d place e. HasSameBytes d e };

    ghost FailsToOpen = { λ d place e. HasSameBytes d e };

    ghost Called = { IsCounted };

    ghost content_left = { λ d _. bytes_left d };

    ghost counts_now = { λ d t c _ le now. left_now d.first.items d.steps.items t c now };

    ghost only_now = { λ d c _ left. only_left_now d.first.items d.steps.items c left };

    fn open(&mut self, _place: Option<&str>) -> Result<(), Failed> {
        match next_turn(&mut self.calls, &self.fail, self.stop) {
            Turn::Works => Ok(()),
            _ => Err(fault(&mut self.faults)),
        }
    }

    fn size(&mut self) -> Result<u64, Failed> {
        match next_turn(&mut self.calls, &self.fail, self.stop) {
            Turn::Works if self.bytes.len() <= 1 << 62 => Ok(self.bytes.len() as u64),
            _ => Err(fault(&mut self.faults)),
        }
    }

    fn read_at(&mut self, at: u64, buf: &mut [u8]) -> Result<usize, Failed> {
        match next_turn(&mut self.calls, &self.fail, self.stop) {
            Turn::Works => Ok(hand_out(&self.bytes[at as usize..], buf)),
            _ => Err(fault(&mut self.faults)),
        }
    }

    fn write_at(&mut self, at: u64, bytes: &[u8]) -> Result<(), Failed> {
        match next_turn(&mut self.calls, &self.fail, self.stop) {
            Turn::Works => match write(self.alloc, &mut self.steps, &mut self.bytes, at, bytes) {
                Ok(()) => Ok(()),
                Err(_) => Err(fault(&mut self.faults)),
            },
            Turn::Fails => {
                if let Ok(copy) = bytes.to_vec(self.alloc) {
                    let _ = note(&mut self.steps, Step::Tore { at, bytes: copy });
                }
                Err(fault(&mut self.faults))
            }
            Turn::Stopped => Err(fault(&mut self.faults)),
        }
    }

    fn cut(&mut self, len: u64) -> Result<(), Failed> {
        match next_turn(&mut self.calls, &self.fail, self.stop) {
            Turn::Works => match cut(&mut self.steps, &mut self.bytes, len) {
                Ok(()) => Ok(()),
                Err(_) => Err(fault(&mut self.faults)),
            },
            Turn::Fails => {
                let _ = note(&mut self.steps, Step::Frayed { len });
                Err(fault(&mut self.faults))
            }
            Turn::Stopped => Err(fault(&mut self.faults)),
        }
    }

    fn sync(&mut self) -> Result<(), Failed> {
        match next_turn(&mut self.calls, &self.fail, self.stop) {
            Turn::Works => match note(&mut self.steps, Step::Synced) {
                Ok(()) => Ok(()),
                Err(_) => Err(fault(&mut self.faults)),
            },
            _ => Err(fault(&mut self.faults)),
        }
    }
}
