//! Links of two sessions that wait for one another.

use crate::links::{RESPONSE, link};
use oe_http::{Failed, FakeLink, Sink, Source, TwoWay};
use std::alloc::Global;
use std::sync::Arc;
use std::sync::atomic::{AtomicU64, Ordering};
use std::test::Fail;
use std::thread;

/// So often a link looks at the other's flag before it gives up.
const LOOKS: u64 = 10_000_000;

/// What the two links share: a bit for each that has begun its first write, and one for each that has taken its whole response.
pub(crate) type Flags = Arc<AtomicU64, Global>;

/// A link that holds its first write until the other's has begun. It gives up after so many looks.
#[derive(Drop)]
pub(crate) struct Meeting {
    link: FakeLink,
    flags: Flags,
    /// The flag of its first write.
    mine: u64,
    /// The flag of the other's first write.
    other: u64,
    /// The flag of its whole response.
    taken: u64,
    read_faults: u64,
    write_faults: u64,
}

impl Meeting {
    /// A link with one request, and with these flags.
    pub(crate) fn new(
        alloc: Global,
        flags: &Flags,
        mine: u64,
        other: u64,
        taken: u64,
    ) -> Result<Meeting, Fail> {
        Ok(Meeting {
            link: link(alloc)?,
            flags: Arc::try_clone(flags)?,
            mine,
            other,
            taken,
            read_faults: 0,
            write_faults: 0,
        })
    }
}

/// Waits until a flag is raised. Says whether it was.
fn was_raised(flags: &Flags, flag: u64) -> bool {
    for _ in 0..LOOKS {
        if flags.load(Ordering::SeqCst) & flag == flag {
            return true;
        }
        thread::yield_now();
    }
    false
}

impl Source for Meeting {
    ghost use Rattle.std.specs.Prelude.{ℕ, None};

    ghost left = { λ m. None };

    ghost faults = { λ m. m.read_faults };

    ghost Beside = { ℕ };

    ghost beside = { λ m. m.write_faults };

    fn read(&mut self, buf: &mut [u8]) -> Result<usize, Failed> {
        match self.link.read(buf) {
            Ok(count) => Ok(count),
            Err(failed) => {
                self.read_faults = self.read_faults.saturating_add(1);
                Err(failed)
            }
        }
    }
}

impl Sink for Meeting {
    ghost use Rattle.std.specs.Prelude.{ℕ, None};

    ghost held = { λ m. None };

    ghost faults = { λ m. m.write_faults };

    ghost Beside = { ℕ };

    ghost beside = { λ m. m.read_faults };

    fn write(&mut self, buf: &[u8]) -> Result<usize, Failed> {
        self.flags.fetch_or(self.mine, Ordering::SeqCst);
        if !was_raised(&self.flags, self.other) {
            self.write_faults = self.write_faults.saturating_add(1);
            return Err(Failed);
        }
        match self.link.write(buf) {
            Ok(count) => {
                if self.link.sink().bytes() == RESPONSE.as_bytes() {
                    self.flags.fetch_or(self.taken, Ordering::SeqCst);
                }
                Ok(count)
            }
            Err(failed) => {
                self.write_faults = self.write_faults.saturating_add(1);
                Err(failed)
            }
        }
    }
}

impl TwoWay for Meeting {
    ghost use Rattle.std.proofs.Common.{refl};

    ghost held_told = { λ a b e. refl };

    ghost write_faults_told = { λ a b e. e };

    ghost left_told = { λ a b e. refl };

    ghost read_faults_told = { λ a b e. e };
}
