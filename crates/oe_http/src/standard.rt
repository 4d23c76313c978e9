//! Streams over those of std. The bytes of the system's streams are not known.

ghost use Rattle.std.specs.Prelude.{◌≡◌};

use crate::{Failed, Sink, Source};
use std::io::{Read, Write};

/// A reader of std, such as standard input, with a count of its faults.
#[derive(Drop)]
pub struct ReadSource<R: Read> {
    inner: R,
    faults: u64,
}

impl<R: Read> ReadSource<R> {
    /// A source over a reader, with no fault yet.
    pub fn new(inner: R) -> Self
        ensures reader { result.inner ≡ inner }
        ensures faults { result.faults ≡ 0 }
    {
        ReadSource { inner, faults: 0 }
    }
}

impl<R: Read> Source for ReadSource<R> {
    ghost left = { λ s. R.remaining s.inner };

    ghost faults = { λ s. s.faults };

    ghost Beside = { Unit {0} };

    ghost beside = { λ _. tt };

    fn read(&mut self, buf: &mut [u8]) -> Result<usize, Failed> {
        match self.inner.read(buf) {
            Ok(count) => Ok(count),
            Err(_) => {
                self.faults = self.faults.saturating_add(1);
                Err(Failed)
            }
        }
    }
}

/// A writer of std, such as standard output, with a count of its faults. A writer that takes none of the bytes of a piece
/// that is not empty has failed.
#[derive(Drop)]
pub struct WriteSink<W: Write> {
    inner: W,
    faults: u64,
}

impl<W: Write> WriteSink<W> {
    /// A sink over a writer, with no fault yet.
    pub fn new(inner: W) -> Self
        ensures writer { result.inner ≡ inner }
        ensures faults { result.faults ≡ 0 }
    {
        WriteSink { inner, faults: 0 }
    }
}

impl<W: Write> Sink for WriteSink<W> {
    ghost held = { λ s. W.contents s.inner };

    ghost faults = { λ s. s.faults };

    ghost Beside = { Unit {0} };

    ghost beside = { λ _. tt };

    fn write(&mut self, buf: &[u8]) -> Result<usize, Failed> {
        if buf.is_empty() {
            return Ok(0);
        }
        match self.inner.write(buf) {
            Ok(count) if count > 0 => Ok(count),
            _ => {
                self.faults = self.faults.saturating_add(1);
                Err(Failed)
            }
        }
    }
}
