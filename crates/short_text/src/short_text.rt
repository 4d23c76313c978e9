//! A text of few bytes.

ghost use Rattle.std.specs.Prelude.{◌≡◌, ◌<◌, ◌≤◌, min, MatchOption, length};
ghost use Rattle.std.specs.Ordering.{nat_cmp};
ghost use Rattle.std.specs.Cmp.Lexicographic.{slice_cmp};

use std::cmp::Ordering;
use std::marker::Model;

/// Most bytes of a short text, whatever its capacity: the length is stored in one byte.
pub const LONGEST: usize = 255;

/// A text of at most `MOST` bytes, stored in place.
#[derive(Clone, Copy)]
pub struct ShortText<const MOST: usize> {
    bytes: [u8; MOST],
    len: u8,
}

impl<const MOST: usize> Model for ShortText<MOST> {
    ghost use Rattle.std.specs.Prelude.{ℕ, List, length, take};
    ghost use Rattle.short_text.specs.Filling.{filled, IsFilled, filled_again};

    ghost Value = { List ℕ };

    ghost view = { λ t. take t.len t.bytes };

    ghost invariant = { λ t. IsFilled MOST t.bytes t.len };

    ghost inverse = { λ v. record { bytes = filled MOST v; len = length v } };

    ghost inverse_ok = { λ t h. filled_again MOST t.bytes t.len (λ (b : List ℕ) (l : ℕ). record { bytes = b; len = l }) h };
}

impl<const MOST: usize> ShortText<MOST> {
    /// The text, where it has at most `MOST` bytes and at most `LONGEST`; else `None`.
    pub fn new(text: &[u8]) -> Option<ShortText<MOST>>
        ensures exact { MatchOption result (min MOST LONGEST < length text.now)
            (λ t. t ≡ text.now) }
    {
        if text.len() > MOST {
            return None;
        }
        match u8::try_from(text.len()) {
            Ok(len) => {
                let mut bytes = [0u8; MOST];
                bytes[..text.len()].copy_from_slice(text);
                Some(ShortText { bytes, len })
            }
            Err(_) => None,
        }
    }

    /// The bytes of the text.
    pub fn as_bytes(&self) -> &[u8]
        ensures value { result.now ≡ self.now }
        ensures size { length self.now ≤ MOST }
    {
        &self.bytes[..usize::from(self.len)]
    }

    /// The order of the two texts, byte by byte; a text that is a prefix of another stands before it.
    pub fn compare(&self, other: &ShortText<MOST>) -> Ordering
        ensures order { result ≡ slice_cmp nat_cmp self.now other.now }
    {
        self.as_bytes().cmp(other.as_bytes())
    }
}
