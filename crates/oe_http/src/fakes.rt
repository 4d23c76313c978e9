//! Streams over memory that fail at chosen calls.

ghost use Rattle.std.specs.Prelude.{◌≡◌, ◌≤◌, ◌<◌, Some, IfOk, [], drop, take, min, length, is_err, vec_capacity};
ghost use Rattle.std.specs.Io.{ReadsAtMost, WritesAtMost};
ghost use Rattle.std.specs.Io.KnownBytes.{ReadConsumes, WriteAppends};
ghost use Rattle.oe_http.specs.Causes.{HasCause};

use crate::{Failed, Sink, Source};
use grid_exact::{Bytes, NoMemory};
use std::alloc::Global;

/// A source of these bytes, for tests, with a limit on the bytes of one read. It counts its reads from 1 and fails at the listed ones.
#[derive(Drop)]
pub struct FakeSource {
    bytes: Bytes,
    at: usize,
    most: usize,
    fail: Vec<u64>,
    calls: u64,
    faults: u64,
    ghost within: { at ≤ length bytes },
    ghost some: { 1 ≤ most },
}

impl FakeSource {
    ghost use Rattle.oe_http.specs.Fakes.{IsFreshSource, bytes_left};

    /// A source from which nothing was read yet.
    pub fn new(bytes: Bytes, most: usize, fail: Vec<u64>) -> Self
        requires some { 1 ≤ most }
        ensures left { bytes_left result ≡ bytes }
        ensures fresh { IsFreshSource result most fail.items }
    {
        FakeSource {
            bytes,
            at: 0,
            most,
            fail,
            calls: 0,
            faults: 0,
        }
    }
}

/// Copies the front of `bytes` into `buf`: at most `most` bytes, and no more than fit. Returns their number.
/// It is a function apart from `read`, where the terms of its slices are too long for the proof.
fn copy_front(buf: &mut [u8], bytes: &[u8], most: usize) -> usize
    ensures count { result ≡ min (min (length bytes.now) most) (length buf.old) }
    ensures front { take result buf.new ≡ take result bytes.now }
{
    let count = bytes.len().min(most).min(buf.len());
    buf[..count].copy_from_slice(&bytes[..count]);
    count
}

impl Source for FakeSource {
    ghost use Rattle.oe_http.specs.Fakes.{IsCountedSource, bytes_left, fails_read};

    ghost left = { λ s. Some (drop s.at s.bytes) };

    ghost faults = { λ s. s.faults };

    ghost Beside = { Unit {0} };

    ghost beside = { λ _. tt };

    fn read(&mut self, buf: &mut [u8]) -> Result<usize, Failed>
        ensures bound { ReadsAtMost result buf.new }
        ensures bytes { ReadConsumes (Some (bytes_left self.old))
            (Some (bytes_left self.new)) result buf.new }
        ensures same { tt {0} ≡ tt {0} }
        ensures cause { HasCause self.old.faults self.new.faults result }

        // It fails at exactly the listed calls, and hands out at most so many bytes.
        ensures counted { IsCountedSource self.old self.new }
        ensures exact { is_err result ≡ fails_read self.old }
        ensures most { IfOk result (λ count. count ≤ self.old.most) }
    {
        self.calls = self.calls.saturating_add(1);
        if self.fail.contains(&self.calls) {
            self.faults = self.faults.saturating_add(1);
            return Err(Failed);
        }
        let count = copy_front(buf, &self.bytes.as_slice()[self.at..], self.most);
        self.at += count;
        Ok(count)
    }
}

/// A sink with limited room, for tests. It counts its writes from 1. A write past the room fails, and so do the
/// listed ones.
#[derive(Drop)]
pub struct FakeSink {
    bytes: Vec<u8>,
    room: usize,
    fail: Vec<u64>,
    calls: u64,
    faults: u64,
    ghost within: { length bytes.items ≤ room },
    ghost open: { room ≤ vec_capacity bytes },
}

impl FakeSink {
    ghost use Rattle.oe_http.specs.Fakes.{IsFreshSink, bytes_held};

    /// A sink to which nothing was written yet.
    ///
    /// # Errors
    ///
    /// `NoMemory` where the room was refused.
    pub fn new(alloc: Global, room: usize, fail: Vec<u64>) -> Result<FakeSink, NoMemory>
        ensures empty { IfOk result (λ sink. bytes_held sink ≡ []) }
        ensures fresh { IfOk result (λ sink. IsFreshSink sink room fail.items) }
    {
        Ok(FakeSink {
            bytes: Vec::with_capacity(alloc, room)?,
            room,
            fail,
            calls: 0,
            faults: 0,
        })
    }

    /// The bytes that were written.
    pub fn bytes(&self) -> &[u8]
        ensures held { result.now ≡ bytes_held self.now }
    {
        &self.bytes
    }
}

impl Sink for FakeSink {
    ghost use Rattle.oe_http.specs.Fakes.{IsCountedSink, bytes_held, fails_write};

    ghost held = { λ s. Some s.bytes.items };

    ghost faults = { λ s. s.faults };

    ghost Beside = { Unit {0} };

    ghost beside = { λ _. tt };

    fn write(&mut self, buf: &[u8]) -> Result<usize, Failed>
        ensures bound { WritesAtMost result buf.now }
        ensures some { 0 < length buf.now → IfOk result (λ count. 1 ≤ count) }
        ensures bytes { WriteAppends (Some (bytes_held self.old))
            (Some (bytes_held self.new)) result buf.now }
        ensures same { tt {0} ≡ tt {0} }
        ensures cause { HasCause self.old.faults self.new.faults result }

        // It fails at exactly the listed calls and those past its room.
        ensures counted { IsCountedSink self.old self.new }
        ensures exact { is_err result ≡ fails_write self.old (length buf.now) }
    {
        self.calls = self.calls.saturating_add(1);
        let is_full = buf.len() > self.room.saturating_sub(self.bytes.len());
        if is_full
            || self.fail.contains(&self.calls)
            || self.bytes.extend_from_slice(buf).is_err()
        {
            self.faults = self.faults.saturating_add(1);
            return Err(Failed);
        }
        Ok(buf.len())
    }
}
