//! A file whose crashes are part of its meaning: what a read gives, what a crash now may leave, and what a
//! crash at an earlier moment might have left. The trait, a disk in memory for tests, and a file of the
//! machine.
#![tactic(auto)]

mod bytes;
mod calls;
mod crash;
mod disk;
mod file;
mod memory;
mod step;
mod synced;

pub use disk::{Disk, Failed};
pub use file::FileDisk;
pub use memory::MemoryDisk;
pub use synced::{cut_synced, write_synced};
