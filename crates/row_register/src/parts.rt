//! Splits a text at separator bytes, part by part.

ghost use Rattle.std.specs.Prelude.{◌≡◌, ◌≢◌, ◌∷◌, ◌+◌, ◌<◌, ◌==◌, ◌↔◌, [], ℕ, ℤ, List, true, false, take, get_or, length, All, IsTrue, IfSome, IfNone};
ghost use Rattle.std.specs.Fmt.{signed_decimal};
ghost use Rattle.whole_number.specs.Whole.{HasNineDigits};
ghost use Rattle.wire_values.specs.Words.{IsBetween};
ghost use Rattle.row_register.specs.Parts.{parts_of, parts_left};

use std::marker::Model;
use wire_values::{FieldValue, number_within};

/// The rest of a text.
#[derive(Clone, Copy)]
enum Left<'a> {
    /// The text from the next part on.
    Text(&'a [u8]),
    /// Nothing.
    Nothing,
}

/// The parts of a text that are left to take, seen as their list. A text without a separator is one part.
#[derive(Drop)]
pub struct Parts<'a> {
    left: Left<'a>,
    separator: u8,
}

impl<'a> Model for Parts<'a> {
    ghost use Rattle.std.specs.Prelude.{List, ℕ};
    ghost use Rattle.row_register.specs.Parts.{parts_left};

    ghost Value = { List (List ℕ) };

    ghost view = { λ p. parts_left p.separator p.left };
}

// Whether a byte is the separator.
fn is_between(byte: u8, separator: u8) -> bool
    ensures { result ≡ (byte == separator) }
{
    byte == separator
}

// The index of the first separator.
fn first_place(text: &[u8], separator: u8) -> Option<usize>
    ensures before { IfSome result (λ at. All (λ b. (b == separator) ≡ false) (take at text.now)) }
    ensures within { IfSome result (λ at. at < length text.now) }
    ensures there { IfSome result (λ at. get_or text.now at 0 ≡ separator) }
    ensures none { IfNone result (All (λ b. (b == separator) ≡ false) text.now) }
{
    for (at, byte) in text.iter().enumerate() {
        if is_between(*byte, separator) {
            return Some(at);
        }
    }
    None
}

// The first part of a text, and the rest after its separator.
#[derive(Clone, Copy)]
struct First<'a> {
    part: &'a [u8],
    left: Left<'a>,
}

// Cuts a text at its first separator.
#[tactic(auto, using(crate::proofs::PartFacts::first_part, crate::proofs::PartFacts::only_part))]
fn cut<'a>(text: &'a [u8], separator: u8) -> First<'a>
    ensures { parts_of separator text.now ≡ result.part.now ∷ parts_left separator result.left }
{
    match first_place(text, separator) {
        Some(at) => {
            let (_, after) = text.split_at(at + 1);
            First {
                part: &text[..at],
                left: Left::Text(after),
            }
        }
        None => First {
            part: text,
            left: Left::Nothing,
        },
    }
}

impl<'a> Parts<'a> {
    /// All parts of a text between separators.
    pub fn new(text: &'a [u8], separator: u8) -> Parts<'a>
        ensures { result ≡ parts_of separator text.now }
    {
        Parts {
            left: Left::Text(text),
            separator,
        }
    }

    /// Takes the next part; `None` where none is left.
    pub fn next(&mut self) -> Option<&'a [u8]>
        ensures some { IfSome result (λ part. self.old ≡ part.now ∷ self.new) }
        ensures none { IfNone result (self.old ≡ []) }
    {
        match self.left {
            Left::Text(text) => {
                let first = cut(text, self.separator);
                self.left = first.left;
                Some(first.part)
            }
            Left::Nothing => None,
        }
    }
}

impl Parts<'_> {
    /// Whether no part is left. If one is left, it is taken.
    pub fn is_done(&mut self) -> bool
        ensures { IsTrue result ↔ self.old ≡ [] }
    {
        self.next().is_none()
    }

    /// Takes and parses the next part; `None` exactly where none is left or it spells no value. The part is taken in both cases.
    pub fn take<V: FieldValue>(&mut self) -> Option<V>
        ensures took { IfSome result (λ v. self.old ≡ V.spelled v ∷ self.new) }
        ensures good { IfSome result (λ v. V.good v) }
        ensures none { IfNone result ((v : V) (rest : List (List ℕ)) → V.good v
            → self.old ≢ V.spelled v ∷ rest) }
    {
        match self.next() {
            Some(text) => V::parse(text),
            None => None,
        }
    }

    /// Takes the next part as a whole number within the limits; `None` exactly where none is left or it spells none. The part
    /// is taken in both cases.
    pub fn number(&mut self, low: i64, high: i64) -> Option<i64>
        requires low { HasNineDigits low }
        requires high { HasNineDigits high }
        ensures took { IfSome result (λ z. self.old ≡ signed_decimal z ∷ self.new) }
        ensures within { IfSome result (λ z. IsBetween low high z) }
        ensures short { IfSome result (λ z. HasNineDigits z) }
        ensures none { IfNone result ((z : ℤ) (rest : List (List ℕ)) → IsBetween low high z
            → self.old ≢ signed_decimal z ∷ rest) }
    {
        match self.next() {
            Some(text) => number_within(text, low, high),
            None => None,
        }
    }
}
