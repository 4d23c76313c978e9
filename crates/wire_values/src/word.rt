//! Caller names and request keys.

ghost use Rattle.std.specs.Prelude.{◌≡◌, ◌↔◌, IsTrue, MatchOption};
ghost use Rattle.wire_values.specs.Words.{IsWordByte, IsWord};

use short_text::ShortText;
use std::marker::Model;

/// The greatest length of a word in bytes.
pub const WORD_LIMIT: usize = 16;

/// A caller's name or a request's key: 1 to `WORD_LIMIT` ASCII letters, digits, dots and underscores.
#[derive(Clone, Copy, Debug, PartialEq, Eq, PartialOrd, Ord)]
pub struct Word {
    text: ShortText<WORD_LIMIT>,
}

impl Model for Word {
    ghost use Rattle.std.specs.Prelude.{ℕ, List};
    ghost use Rattle.wire_values.specs.Words.{IsWord};

    ghost Value = { List ℕ };

    ghost view = { λ w. w.text };

    ghost invariant = { λ w. IsWord w.text };

    ghost inverse = { λ v. record { text = v } };
}

fn is_word_byte(byte: u8) -> bool
    ensures { IsTrue result ↔ IsWordByte byte }
{
    byte.is_ascii_alphanumeric() || byte == b'.' || byte == b'_'
}

impl Word {
    /// Parses a word; `None` exactly where `text` is not 1 to `WORD_LIMIT` ASCII letters, digits, dots and underscores.
    pub fn new(text: &[u8]) -> Option<Word>
        ensures exact { MatchOption result (¬ IsWord text.now) (λ w. w ≡ text.now) }
        ensures word { MatchOption result (Unit {0}) (λ _. IsWord text.now) }
    {
        for &byte in text {
            if !is_word_byte(byte) {
                return None;
            }
        }
        if text.is_empty() {
            return None;
        }
        match ShortText::new(text) {
            Some(text) => Some(Word { text }),
            None => None,
        }
    }

    /// The bytes of the word.
    pub fn as_bytes(&self) -> &[u8]
        ensures value { result.now ≡ self.now }
        ensures word { IsWord self.now }
    {
        self.text.as_bytes()
    }

    /// The word as text.
    pub fn as_str(&self) -> &str
        ensures value { result.now ≡ self.now }
        ensures word { IsWord self.now }
    {
        match str::from_utf8(self.text.as_bytes()) {
            Ok(text) => text,
            Err(_) => unreachable!(),
        }
    }
}
