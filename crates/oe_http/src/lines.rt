//! The lines of a source. A line ends with a line feed, and the last one may end with the input.

ghost use Rattle.std.specs.Prelude.{◌≡◌, ◌≢◌, Option, ◌≤◌, ◌<◌, ◌+◌, List, ℕ, [], ◌++◌, true, false, IfOk, IfErr, OnOk, OnErr, length, slice_range, take, drop};
ghost use Rattle.std.specs.Str.Lines.{strip_carriage_return};
ghost use Rattle.std.specs.Io.KnownBytes.{Keeps};
ghost use Rattle.oe_http.specs.Lines.{GivesLine, TakesPart, HasFeed};
ghost use Rattle.oe_http.specs.Pending.{Pending, unread_bytes, most_left, Reads};
ghost use Rattle.oe_http.specs.Pieces.{TakesRaw, Turns, Kept, IsSized, FirstFeed, WholeLinesEnd, IsFilled};

use crate::{Failed, Source};
use grid_exact::{LINE_LIMIT, NoMemory};
use memchr::{memchr, memrchr};
use std::alloc::AllocError;
use std::marker::Model;

/// The greatest number of bytes in one read: 64 KiB.
pub const BLOCK_SIZE: usize = 65_536;

/// Once this many bytes were read from a source, no further read is made.
pub const INPUT_LIMIT: u64 = 1 << 40;

/// The greatest number of a line's bytes that are stored: one more than a line may have, for its carriage return.
const LONGEST: usize = LINE_LIMIT + 1;

/// Why no line could be read.
#[derive(Clone, Copy, Debug, PartialEq, Eq)]
pub enum ReadError {
    /// The source failed.
    Failed,
    /// [`INPUT_LIMIT`] bytes were read, and the source may have more.
    InputLong,
    /// Memory was refused.
    NoMemory,
}

impl From<Failed> for ReadError {
    ghost use Rattle.oe_http.specs.declared.lines.ReadError.TheVariants as errors;

    ghost from_gives = { λ _ e. e ≡ errors.Failed };

    fn from(_: Failed) -> Self {
        ReadError::Failed
    }
}

impl From<AllocError> for ReadError {
    ghost use Rattle.oe_http.specs.declared.lines.ReadError.TheVariants as errors;

    ghost from_gives = { λ _ e. e ≡ errors.NoMemory };

    fn from(_: AllocError) -> Self {
        ReadError::NoMemory
    }
}

impl From<NoMemory> for ReadError {
    ghost use Rattle.oe_http.specs.declared.lines.ReadError.TheVariants as errors;

    ghost from_gives = { λ _ e. e ≡ errors.NoMemory };

    fn from(_: NoMemory) -> Self {
        ReadError::NoMemory
    }
}

/// The next line, or the end.
#[derive(Clone, Copy, Debug, PartialEq, Eq)]
pub enum Next {
    /// A line of at most [`LINE_LIMIT`] bytes.
    Whole,
    /// A longer line.
    TooLong,
    /// No line: the input has ended.
    End,
}

/// How a line's bytes ended, and whether they were too many to store.
#[derive(Clone, Copy)]
struct RawLine {
    has_feed: bool,
    is_long: bool,
}

/// Appends bytes to a line, up to its limit. Returns whether the line is too long.
fn keep(line: &mut Vec<u8>, is_long: bool, piece: &[u8]) -> Result<bool, ReadError>
    ensures kept { IfOk result (λ long. (raw : List ℕ) → Kept line.old.items is_long raw
        → Kept line.new.items long (raw ++ piece.now)) }
    ensures length { OnOk result
        (length line.new.items ≤ length line.old.items + length piece.now) }
    ensures memory { IfErr result (λ e. e ≡ ReadError.NoMemory) }
{
    if is_long || piece.len() > LONGEST.saturating_sub(line.len()) {
        return Ok(true);
    }
    line.extend_from_slice(piece)?;
    Ok(false)
}

/// Removes the carriage return from the end of a line, if there is one.
fn strip_return(line: &mut Vec<u8>)
    ensures { line.new.items ≡ strip_carriage_return line.old.items }
{
    if line.as_slice().ends_with(b"\r") {
        line.truncate(line.len() - 1);
    }
}

/// Whether a line is within the limit.
fn sized(line: &[u8]) -> Next
    ensures { IsSized result line.now }
{
    if line.len() <= LINE_LIMIT {
        Next::Whole
    } else {
        Next::TooLong
    }
}

/// Classifies the bytes of a line.
#[tactic(auto, using(crate::proofs::LineFacts::gives_last, crate::proofs::LineFacts::gives_end))]
fn finish(raw: RawLine, line: &mut Vec<u8>) -> Next
    ensures line { (x y : Option (List ℕ)) → TakesRaw x y raw.has_feed raw.is_long line.old.items
        → GivesLine x y result line.new.items }
    ensures short { result ≡ Next.Whole → length line.new.items ≤ LINE_LIMIT }
    ensures some { result ≢ Next.End → raw.is_long ≡ false → raw.has_feed ≡ false
        → 0 < length line.old.items }
{
    if raw.is_long {
        return Next::TooLong;
    }
    if raw.has_feed {
        strip_return(line);
        return sized(line);
    }
    if line.is_empty() {
        return Next::End;
    }
    sized(line)
}

/// The index of the first line feed.
#[tactic(auto, using(crate::proofs::LineFacts::first_feed))]
fn first_feed(bytes: &[u8]) -> Option<usize>
    ensures feed { FirstFeed bytes.now result }
{
    memchr(b'\n', bytes)
}

/// The end of the last whole line.
#[tactic(auto, using(crate::proofs::FeedFacts::lines_end_at, crate::proofs::FeedFacts::lines_end_none))]
fn whole_lines_end(bytes: &[u8]) -> usize
    ensures { WholeLinesEnd bytes.now result }
{
    match memrchr(b'\n', bytes) {
        Some(at) => at + 1,
        None => 0,
    }
}

/// Reads the lines of a source, in blocks of [`BLOCK_SIZE`] bytes. Contracts see the bytes that were read and not yet
/// returned, and the number of bytes read.
#[derive(Drop)]
pub struct LineReader {
    block: [u8; BLOCK_SIZE],
    start: usize,
    end: usize,
    /// The end of the block's last whole line, so that `has_line` need not search.
    feeds: usize,
    taken: u64,
}

impl Model for LineReader {
    ghost use Rattle.std.specs.Prelude.{◌≤◌, ◌+◌, slice_range, take};
    ghost use Rattle.oe_http.specs.Pending.{Pending};
    ghost use Rattle.oe_http.specs.Pieces.{WholeLinesEnd};
    ghost use Rattle.oe_http.specs.declared.lines.TheConstants.{BLOCK_SIZE, INPUT_LIMIT};

    ghost Value = { Pending };

    ghost view = { λ r. record { bytes = slice_range r.block r.start r.end; taken = r.taken } };

    ghost invariant = { λ r. (r.start ≤ r.end) × (r.end ≤ BLOCK_SIZE) × (r.taken ≤ INPUT_LIMIT + BLOCK_SIZE) × WholeLinesEnd (take r.end r.block) r.feeds };
}

impl LineReader {
    /// A reader that has read nothing yet.
    pub fn new() -> Self
        ensures bytes { result.bytes ≡ [] }
        ensures taken { result.taken ≡ 0 }
    {
        LineReader {
            block: [0; BLOCK_SIZE],
            start: 0,
            end: 0,
            feeds: 0,
            taken: 0,
        }
    }

    /// Whether a whole line is pending, so that `next_line` returns without a read.
    pub fn has_line(&self) -> bool
        ensures yes { result ≡ true → HasFeed self.now.bytes }
        ensures no { result ≡ false → HasFeed self.now.bytes → ⊥ }
    {
        self.start < self.feeds
    }

    /// Reads the next line into `line`, which it empties first, without the line feed and without a carriage
    /// return before it. The bytes of a line of more than [`LINE_LIMIT`] bytes are dropped. The source is read only where no
    /// whole line is pending.
    ///
    /// # Errors
    ///
    /// `Failed` where the source fails, `InputLong` where [`INPUT_LIMIT`] bytes were read and more are needed: a part
    /// of a line is then lost, but no whole one. `NoMemory` where memory was refused.
    pub fn next_line<S: Source>(
        &mut self,
        source: &mut S,
        line: &mut Vec<u8>,
    ) -> Result<Next, ReadError>
        ensures line { IfOk result (λ n. GivesLine (unread_bytes self.old (S.left source.old))
            (unread_bytes self.new (S.left source.new)) n line.new.items) }
        ensures short { IfOk result (λ n. n ≡ Next.Whole → length line.new.items ≤ LINE_LIMIT) }
        ensures part { IfErr result (λ e. e ≢ ReadError.NoMemory
            → TakesPart (unread_bytes self.old (S.left source.old)) (S.left source.new)) }
        ensures still { HasFeed self.old.bytes → source.new ≡ source.old }
        ensures turns { IfOk result (λ n. n ≢ Next.End → most_left self.new < most_left self.old) }
        ensures beside { S.beside source.new ≡ S.beside source.old }
        ensures reads { Reads self.old self.new (S.left source.old) (S.left source.new)
            (S.faults source.old) (S.faults source.new) result }
    {
        line.clear();
        let raw = self.take_raw(source, line)?;
        Ok(finish(raw, line))
    }

    /// Reads the bytes of a line and its end. A block is read as soon as no byte is pending, so that the end of a line is
    /// searched among pending bytes only, even if the source returns one line per read.
    #[tactic(auto, using(crate::proofs::LineFacts::fell_none, crate::proofs::LineFacts::fell_on, crate::proofs::LineFacts::read_part, crate::proofs::LineFacts::has_some))]
    fn take_raw<S: Source>(
        &mut self,
        source: &mut S,
        line: &mut Vec<u8>,
    ) -> Result<RawLine, ReadError>
        requires { line.old.items ≡ [] }
        ensures raw { IfOk result (λ raw. TakesRaw (unread_bytes self.old (S.left source.old))
            (unread_bytes self.new (S.left source.new)) raw.has_feed raw.is_long line.new.items) }
        ensures part { IfErr result (λ e. e ≢ ReadError.NoMemory
            → TakesPart (unread_bytes self.old (S.left source.old)) (S.left source.new)) }
        ensures still { HasFeed self.old.bytes → source.new ≡ source.old }
        ensures turns { IfOk result (λ raw. Turns (most_left self.old)
            (most_left self.new) raw.has_feed raw.is_long line.new.items) }
        ensures beside { S.beside source.new ≡ S.beside source.old }
        ensures reads { Reads self.old self.new (S.left source.old) (S.left source.new)
            (S.faults source.old) (S.faults source.new) result }
    {
        let mut is_long = false;
        while self.fill(source)? {
            match first_feed(self.pending()) {
                Some(at) => {
                    let is_long = self.take_piece(at, line, is_long)?;
                    self.skip(1);
                    return Ok(RawLine {
                        has_feed: true,
                        is_long,
                    });
                }
                None => is_long = self.take_piece(self.pending().len(), line, is_long)?,
            }
        }
        Ok(RawLine {
            has_feed: false,
            is_long,
        })
    }

    /// The pending bytes.
    fn pending(&self) -> &[u8]
        ensures bytes { result.now ≡ self.now.bytes }
    {
        &self.block[self.start..self.end]
    }

    /// Drops the first `count` pending bytes.
    fn skip(&mut self, count: usize)
        requires { count ≤ length self.old.bytes }
        ensures bytes { self.new.bytes ≡ drop count self.old.bytes }
        ensures taken { self.new.taken ≡ self.old.taken }
    {
        self.start += count;
    }

    /// Moves the first pending bytes into a line. Returns whether the line is too long.
    fn take_piece(
        &mut self,
        count: usize,
        line: &mut Vec<u8>,
        is_long: bool,
    ) -> Result<bool, ReadError>
        requires { count ≤ length self.old.bytes }
        ensures kept { IfOk result (λ long. (raw : List ℕ) → Kept line.old.items is_long raw
            → Kept line.new.items long (raw ++ take count self.old.bytes)) }
        ensures length { OnOk result (length line.new.items ≤ length line.old.items + count) }
        ensures bytes { OnOk result (self.new.bytes ≡ drop count self.old.bytes) }
        ensures falls { OnOk result (most_left self.new + count ≡ most_left self.old) }
        ensures taken { self.new.taken ≡ self.old.taken }
        ensures memory { IfErr result (λ e. e ≡ ReadError.NoMemory) }
    {
        let is_long = keep(line, is_long, &self.pending()[..count])?;
        self.skip(count);
        Ok(is_long)
    }

    /// Reads a block where no byte is pending. Returns whether one is pending then. No byte is lost, even at a fault.
    #[tactic(auto, using(crate::proofs::FeedFacts::lines_end_empty))]
    fn fill<S: Source>(&mut self, source: &mut S) -> Result<bool, ReadError>
        ensures kept { Keeps (unread_bytes self.old (S.left source.old))
            (unread_bytes self.new (S.left source.new)) }
        ensures none { OnErr result (self.new.bytes ≡ []) }
        ensures still { 0 < length self.old.bytes
            → (self.new ≡ self.old) × (source.new ≡ source.old) }
        ensures found { IfOk result (λ found. IsFilled found self.new.bytes
            (unread_bytes self.new (S.left source.new))) }
        ensures turns { OnOk result (most_left self.new ≡ most_left self.old) }
        ensures beside { S.beside source.new ≡ S.beside source.old }
        ensures reads { Reads self.old self.new (S.left source.old) (S.left source.new)
            (S.faults source.old) (S.faults source.new) result }
    {
        if self.start < self.end {
            return Ok(true);
        }
        if self.taken >= INPUT_LIMIT {
            return Err(ReadError::InputLong);
        }
        self.start = 0;
        self.end = 0;
        self.feeds = 0;
        let count = source.read(&mut self.block)?;
        self.end = count;
        self.feeds = whole_lines_end(&self.block[..count]);
        self.taken += count as u64;
        Ok(count > 0)
    }
}
