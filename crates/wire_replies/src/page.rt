//! A fixed buffer that gathers the entries of a list, so that a text grows once for a page and not once for each part of an entry.

ghost use Rattle.std.specs.Prelude.{◌≡◌, ◌+◌, ◌/◌, ◌%◌, ◌<◌, ◌≤◌, ◌++◌, true, [], ◌∷◌, length, take, drop, OnOk, OnErr, string_bytes};
ghost use Rattle.std.specs.Fmt.{decimal};
ghost use Rattle.std.specs.List.{list_all};
ghost use Rattle.grid_exact.specs.Texts.{Extends};
ghost use Rattle.wire_replies.specs.Pages.{is_seven_bit, pair_text};
ghost use Rattle.wire_replies.specs.declared.page.TheConstants.{ROOM, SIZE};

use airfields::{FieldId, RunwayName};
use grid_exact::NoMemory;
use itoa::Buffer;
use std::marker::Model;
use wire_values::append_text;

// The size of a page in bytes.
pub(crate) const SIZE: usize = 512;

// The greatest size of one entry in bytes.
pub(crate) const ROOM: usize = 128;

// Bytes of text at the front of a fixed buffer. A function that puts a part reads the length once, before it writes: for all that
// the compiler knows the write could change the length, which would then be read again.
#[derive(Drop)]
pub(crate) struct Page {
    bytes: [u8; SIZE],
    len: usize,
}

impl Model for Page {
    ghost use Rattle.std.specs.Prelude.{ℕ, List, ◌≤◌, take};
    ghost use Rattle.std.specs.Str.{IsUtf8};
    ghost use Rattle.wire_replies.specs.declared.page.TheConstants.{SIZE};

    ghost Value = { List ℕ };

    ghost view = { λ p. take p.len p.bytes };

    ghost invariant = { λ p. (p.len ≤ SIZE) × IsUtf8 (take p.len p.bytes) };
}

// The two digits of each number below 100, one after the other.
static PAIRS: [u8; 200] =
    *b"00010203040506070809101112131415161718192021222324252627282930313233343536373839404142434445464748495051525354555657585960616263646566676869707172737475767778798081828384858687888990919293949596979899";

// The tens and the ones of a number of at most two digits.
#[inline(always)]
fn pair_digits(number: u64) -> (u8, u8)
    requires { number < 100 }
    ensures tens { result.0 ≡ 48 + number / 10 }
    ensures ones { result.1 ≡ 48 + number % 10 }
{
    let at = number as usize * 2;
    (PAIRS[at], PAIRS[at + 1])
}

// Four bytes of a text from an index on. They are copied through a local array, since a copy from one slice into another tests
// whether the two overlap.
#[inline(always)]
fn four_bytes(text: &[u8], from: usize) -> [u8; 4]
    requires { from + 4 ≤ length text.now }
    ensures { result ≡ take 4 (drop from text.now) }
{
    [text[from], text[from + 1], text[from + 2], text[from + 3]]
}

impl Page {
    // An empty page.
    pub(crate) fn new() -> Page
        ensures { result ≡ [] }
    {
        Page {
            bytes: [0; SIZE],
            len: 0,
        }
    }

    // Puts a text.
    #[inline(always)]
    fn put(&mut self, part: &str)
        requires { length self.old + length part.now ≤ SIZE }
        ensures { self.new ≡ self.old ++ part.now }
    {
        let end = self.len + part.len();
        self.bytes[self.len..end].copy_from_slice(part.as_bytes());
        self.len = end;
    }

    // Puts an ASCII byte.
    #[inline(always)]
    pub(crate) fn put_byte(&mut self, byte: u8)
        requires room { length self.old + 1 ≤ SIZE }
        requires ascii { byte < 128 }
        ensures put { self.new ≡ self.old ++ byte ∷ [] }
        ensures few { length self.new ≤ length self.old + 1 }
    {
        let at = self.len;
        self.bytes[at] = byte;
        self.len = at + 1;
    }

    // Puts a word of `len` bytes. All eight bytes are copied as one number, whatever the length.
    #[inline(always)]
    pub(crate) fn put_piece(&mut self, word: [u8; 8], len: usize)
        requires room { length self.old + 8 ≤ SIZE }
        requires few { len ≤ 8 }
        requires text { list_all is_seven_bit (take len word) ≡ true }
        ensures put { self.new ≡ self.old ++ take len word }
        ensures few { length self.new ≤ length self.old + 8 }
    {
        let at = self.len;
        self.bytes[at..at + 8].copy_from_slice(&word);
        self.len = at + len;
    }

    // Puts a text of four to eight bytes: its first four and its last four, which may overlap.
    #[inline(always)]
    fn put_two_parts(&mut self, part: &str)
        requires room { length self.old + 8 ≤ SIZE }
        requires least { 4 ≤ length part.now }
        requires most { length part.now ≤ 8 }
        ensures put { self.new ≡ self.old ++ part.now }
        ensures few { length self.new ≤ length self.old + 8 }
    {
        let at = self.len;
        let end = at + part.len();
        let first = four_bytes(part.as_bytes(), 0);
        let last = four_bytes(part.as_bytes(), part.len() - 4);
        self.bytes[at..at + 4].copy_from_slice(&first);
        self.bytes[end - 4..end].copy_from_slice(&last);
        self.len = end;
    }

    // Puts a name. Most have at least four bytes, which are copied as two numbers.
    #[inline(always)]
    fn put_name(&mut self, name: &str)
        requires room { length self.old + 8 ≤ SIZE }
        requires most { length name.now ≤ 8 }
        ensures put { self.new ≡ self.old ++ name.now }
        ensures few { length self.new ≤ length self.old + 8 }
    {
        if name.len() < 4 {
            self.put(name);
        } else {
            self.put_two_parts(name);
        }
    }

    // Puts the name of an airfield.
    #[inline(always)]
    pub(crate) fn put_field(&mut self, name: &FieldId)
        requires { length self.old + 8 ≤ SIZE }
        ensures put { self.new ≡ self.old ++ name.now }
        ensures few { length self.new ≤ length self.old + 8 }
    {
        self.put_name(unsafe { str::from_utf8_unchecked(name.as_bytes()) });
    }

    // Puts the name of a runway.
    #[inline(always)]
    pub(crate) fn put_runway(&mut self, name: &RunwayName)
        requires { length self.old + 8 ≤ SIZE }
        ensures put { self.new ≡ self.old ++ name.now }
        ensures few { length self.new ≤ length self.old + 8 }
    {
        self.put_name(unsafe { str::from_utf8_unchecked(name.as_bytes()) });
    }

    // Puts the tens and the ones of a number of at most two digits.
    #[inline(always)]
    fn put_pair(&mut self, number: u64)
        requires room { length self.old + 2 ≤ SIZE }
        requires short { number < 100 }
        ensures put { self.new ≡ self.old ++ pair_text number }
        ensures few { length self.new ≤ length self.old + 2 }
    {
        let (tens, ones) = pair_digits(number);
        self.put_byte(tens);
        self.put_byte(ones);
    }

    // Puts a number of at most two digits.
    #[inline(always)]
    fn put_first(&mut self, number: u64)
        requires room { length self.old + 2 ≤ SIZE }
        requires short { number < 100 }
        ensures put { self.new ≡ self.old ++ decimal number }
        ensures few { length self.new ≤ length self.old + 2 }
    {
        if number < 10 {
            self.put_byte(b'0' + number as u8);
        } else {
            self.put_pair(number);
        }
    }

    // Puts a number of three or four digits.
    #[inline(always)]
    fn put_hundreds(&mut self, number: u64)
        requires room { length self.old + 4 ≤ SIZE }
        requires least { 100 ≤ number }
        requires short { number < 10000 }
        ensures put { self.new ≡ self.old ++ decimal number }
        ensures few { length self.new ≤ length self.old + 4 }
    {
        self.put_first(number / 100);
        self.put_pair(number % 100);
    }

    // Puts a number of at most four digits, which most are.
    #[inline(always)]
    fn put_short(&mut self, number: u64)
        requires room { length self.old + 4 ≤ SIZE }
        requires short { number < 10000 }
        ensures put { self.new ≡ self.old ++ decimal number }
        ensures few { length self.new ≤ length self.old + 4 }
    {
        if number < 100 {
            self.put_first(number);
        } else {
            self.put_hundreds(number);
        }
    }

    // Puts a number of any length.
    #[inline(never)]
    fn put_long(&mut self, number: u64)
        requires room { length self.old + 20 ≤ SIZE }
        ensures put { self.new ≡ self.old ++ decimal number }
        ensures few { length self.new ≤ length self.old + 20 }
    {
        let mut buffer = Buffer::new();
        self.put(buffer.format(number));
    }

    // Puts a number.
    #[inline(always)]
    pub(crate) fn put_number(&mut self, number: u64)
        requires room { length self.old + 20 ≤ SIZE }
        ensures put { self.new ≡ self.old ++ decimal number }
        ensures few { length self.new ≤ length self.old + 20 }
    {
        if number < 10_000 {
            self.put_short(number);
        } else {
            self.put_long(number);
        }
    }

    // Appends the page to `text` and empties it.
    #[tactic(auto, using(grid_exact::proofs::Extending::extending))]
    pub(crate) fn flush(&mut self, text: &mut String) -> Result<(), NoMemory>
        ensures ok { OnOk result (string_bytes text.new ≡ string_bytes text.old ++ self.old) }
        ensures grown { Extends (string_bytes text.old) (string_bytes text.new) }
        ensures empty { OnOk result (self.new ≡ []) }
    {
        append_text(
            text,
            unsafe { str::from_utf8_unchecked(&self.bytes[..self.len]) },
        )?;
        self.len = 0;
        Ok(())
    }

    // Appends the page to `text` where it has no room for one more entry.
    #[tactic(auto, using(grid_exact::proofs::Extending::extending))]
    #[inline(always)]
    pub(crate) fn make_room(&mut self, text: &mut String) -> Result<(), NoMemory>
        ensures ok { OnOk result (string_bytes text.new ++ self.new
            ≡ string_bytes text.old ++ self.old) }
        ensures grown { Extends (string_bytes text.old) (string_bytes text.new) }
        ensures room { OnOk result (length self.new + ROOM ≤ SIZE) }
    {
        if self.len > SIZE - ROOM {
            self.flush(text)?;
        }
        Ok(())
    }
}
