//! The fields of a record, taken one after the other.

ghost use Rattle.std.specs.Prelude.{◌≡◌, ◌∷◌, [], ◌==◌, ◌<◌, ◌+◌, ◌^◌, true, false, take, get_or, length, All, IfSome, IfNone};
ghost use Rattle.std.specs.List.{slice_split};
ghost use Rattle.csv.specs.Records.{fields_of};

use csv::ByteRecord;
use std::marker::Model;

/// The fields of a record that are still to be taken.
#[derive(Clone, Copy)]
enum Left<'a> {
    /// The rest of a line without quotes, from the next field on, with commas between the fields.
    Text(&'a [u8]),
    /// No fields are left.
    Nothing,
    /// The fields of a row, from this place on.
    Row(&'a ByteRecord, usize),
}

/// The fields of a record that are still to be taken; contracts see it as their list.
///
/// A line without quotes is split as fields are taken; nothing is stored.
#[derive(Drop)]
pub struct Fields<'a> {
    left: Left<'a>,
}

impl<'a> Model for Fields<'a> {
    ghost use Rattle.std.specs.Prelude.{List, ℕ};
    ghost use Rattle.record_fields.specs.Fields.{fields_left};

    ghost Value = { List (List ℕ) };

    ghost view = { λ f. fields_left f.left };
}

// Whether a byte is the comma between two fields.
fn is_comma(byte: u8) -> bool
    ensures { result ≡ (byte == 44) }
{
    byte == b','
}

// The place of the first comma.
fn first_comma(text: &[u8]) -> Option<usize>
    ensures before { IfSome result (λ at. All (λ b. (b == 44) ≡ false) (take at text.now)) }
    ensures within { IfSome result (λ at. at < length text.now) }
    ensures comma { IfSome result (λ at. get_or text.now at 0 ≡ 44) }
    ensures none { IfNone result (All (λ b. (b == 44) ≡ false) text.now) }
{
    for (at, byte) in text.iter().enumerate() {
        if is_comma(*byte) {
            return Some(at);
        }
    }
    None
}

impl<'a> Fields<'a> {
    /// The fields of a text, split at its commas.
    #[tactic(auto, using(crate::proofs::PlainFacts::few_parts))]
    pub(crate) fn of_text(text: &'a [u8]) -> Fields<'a>
        ensures parts { result ≡ slice_split (λ b. b == 44) text.now }
        ensures few { length result < 2 ^ 64 }
    {
        Fields {
            left: Left::Text(text),
        }
    }

    /// The fields of a row.
    #[tactic(auto, using(crate::proofs::RowFacts::few_fields))]
    pub(crate) fn of_row(row: &'a ByteRecord) -> Fields<'a>
        ensures fields { result ≡ fields_of row.now }
        ensures few { length result < 2 ^ 64 }
    {
        let _ = row.len(); // a proof learns of the length of a row where it is asked
        Fields {
            left: Left::Row(row, 0),
        }
    }

    // The text up to its first comma; it and the comma are removed.
    #[inline(always)]
    #[tactic(auto, using(crate::proofs::PlainFacts::first_part, crate::proofs::PlainFacts::only_part))]
    fn cut(&mut self, text: &'a [u8]) -> &'a [u8]
        requires { self.old ≡ slice_split (λ b. b == 44) text.now }
        ensures { self.old ≡ result.now ∷ self.new }
    {
        match first_comma(text) {
            Some(at) => {
                let (_, after) = text.split_at(at + 1);
                self.left = Left::Text(after);
                &text[..at]
            }
            None => {
                self.left = Left::Nothing;
                text
            }
        }
    }

    /// Removes and returns the next field.
    #[inline(always)]
    #[tactic(auto, using(crate::proofs::RowFacts::row_next, crate::proofs::RowFacts::row_end))]
    pub fn next(&mut self) -> Option<&'a [u8]>
        ensures some { IfSome result (λ field. self.old ≡ field.now ∷ self.new) }
        ensures none { IfNone result (self.old ≡ []) }
        ensures end { IfNone result (self.new ≡ []) }
    {
        match self.left {
            Left::Text(text) => Some(self.cut(text)),
            Left::Nothing => None,
            Left::Row(row, taken) => {
                let field = row.get(taken)?;
                self.left = Left::Row(row, taken + 1);
                Some(field)
            }
        }
    }
}
