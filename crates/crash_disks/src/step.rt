//! What was done to a disk.

/// A call of a disk that may change its bytes, or what a crash may leave of them.
#[derive(Debug, Drop)]
pub(crate) enum Step {
    /// The bytes were written at the place.
    Wrote { at: u64, bytes: Vec<u8> },
    /// A write of these bytes at the place failed.
    Tore { at: u64, bytes: Vec<u8> },
    /// The file was cut to this length.
    Cut { len: u64 },
    /// A cut to this length failed.
    Frayed { len: u64 },
    /// All was put on the disk.
    Synced,
}
