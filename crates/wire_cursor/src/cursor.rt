//! A cursor over the fields of a record.

ghost use Rattle.std.specs.Prelude.{◌≡◌, ◌∷◌, ◌+◌, [], pos, ◌<◌, ◌^◌, length, Some, is_some, IfSome, IfNone, IfOk, IfErr, OnOk};
ghost use Rattle.std.specs.Fmt.{signed_decimal};
ghost use Rattle.whole_number.specs.Whole.{HasNineDigits};
ghost use Rattle.airfields.specs.Sites.{greatest_mobile};
ghost use Rattle.wire_values.specs.Words.{kind_word, grant_word, optional_date, IsAnyLimited, IsBetween};
ghost use Rattle.wire_values.specs.Wanted.{Between, any_number, MobileWanted, CompletionWanted};
ghost use Rattle.wire_cursor.specs.Shape.{beginning, Steps, Took, Stops, IsBad};

use airfields::StructureKind;
use jiff::civil::Date;
use record_fields::Fields;
use std::marker::Model;
use whole_number::NUMBER_LIMIT;
use wire_values::{FieldValue, completion_date, number_within};

/// A field that does not fit its form.
#[derive(Clone, Copy)]
pub struct BadField {
    /// The number of fields before it.
    pub before: usize,
}

/// A cursor over the fields of a record, from first to last.
///
/// The calls that take a field are inlined: as real calls they pass the cursor's position through memory, measured as 3 percent of the
/// time of a line.
#[derive(Drop)]
pub struct Cursor<'a> {
    fields: Fields<'a>,
    before: &'a [u8],
    taken: usize,
}

impl<'a> Model for Cursor<'a> {
    ghost use Rattle.std.specs.Prelude.{length, ◌+◌, ◌<◌, ◌^◌};
    ghost use Rattle.wire_cursor.specs.Shape.{Place};

    ghost Value = { Place };

    ghost view = { λ c. record { before = c.before.now; rest = c.fields; number = c.taken + 1 } };

    ghost invariant = { λ c. c.taken + length c.fields < 2 ^ 64 };
}

impl<'a> Cursor<'a> {
    /// A cursor before the first field.
    pub fn new(fields: Fields<'a>) -> Cursor<'a>
        requires few { length fields < 2 ^ 64 }
        ensures { result ≡ beginning fields.entry }
    {
        Cursor {
            fields,
            before: b"",
            taken: 0,
        }
    }

    /// Takes the next field.
    #[inline(always)]
    pub fn next(&mut self) -> Option<&'a [u8]>
        ensures some { IfSome result (λ text. Steps text.now self.old self.new) }
        ensures none { IfNone result (self.old.rest ≡ []) }
    {
        match self.fields.next() {
            Some(text) => {
                self.before = text;
                self.taken += 1;
                Some(text)
            }
            None => None,
        }
    }
}

impl Cursor<'_> {
    /// Takes the next field and parses it.
    #[inline(always)]
    #[tactic(auto, using(crate::proofs::ShapeFacts::taking))]
    pub fn take<V: FieldValue>(&mut self) -> Result<V, BadField>
        ensures took { IfOk result (λ v. Took (V.wanted ∷ [])
            (V.spelled v ∷ []) self.old self.new) }
        ensures before { IfOk result (λ v. self.new.before ≡ V.spelled v) }
        ensures good { IfOk result (λ v. V.good v) }
        ensures stops { IfErr result (λ b. Stops (V.wanted ∷ []) self.old (b.before + 1)) }
    {
        let before = self.taken;
        let Some(text) = self.next() else {
            return Err(BadField { before });
        };
        match V::parse(text) {
            Some(value) => Ok(value),
            None => Err(BadField { before }),
        }
    }

    /// Takes the next field and parses a whole number within the limits.
    #[inline(always)]
    #[tactic(auto, using(crate::proofs::ShapeFacts::taking))]
    pub fn number(&mut self, low: i64, high: i64) -> Result<i64, BadField>
        requires low { HasNineDigits low }
        requires high { HasNineDigits high }
        ensures took { IfOk result (λ z. Took (Between low high ∷ [])
            (signed_decimal z ∷ []) self.old self.new) }
        ensures within { IfOk result (λ z. IsBetween low high z) }
        ensures short { IfOk result (λ z. HasNineDigits z) }
        ensures stops { IfErr result (λ b. Stops (Between low high ∷ []) self.old (b.before + 1)) }
    {
        let before = self.taken;
        let Some(text) = self.next() else {
            return Err(BadField { before });
        };
        match number_within(text, low, high) {
            Some(number) => Ok(number),
            None => Err(BadField { before }),
        }
    }

    /// Takes the next field and parses a whole number of at most nine digits.
    pub fn whole(&mut self) -> Result<i64, BadField>
        ensures took { IfOk result (λ z. Took (any_number ∷ [])
            (signed_decimal z ∷ []) self.old self.new) }
        ensures short { IfOk result (λ z. HasNineDigits z) }
        ensures stops { IfErr result (λ b. Stops (any_number ∷ []) self.old (b.before + 1)) }
    {
        self.number(-NUMBER_LIMIT, NUMBER_LIMIT)
    }

    /// Takes the height of the highest mobile object, in tenths of a foot, on a structure of the kind given by the field before.
    #[inline(always)]
    #[tactic(auto, using(crate::proofs::ShapeFacts::taking))]
    pub fn mobile(&mut self, kind: StructureKind) -> Result<i64, BadField>
        requires { self.old.before ≡ kind_word kind }
        ensures took { IfOk result (λ z. Took (MobileWanted ∷ [])
            (signed_decimal z ∷ []) self.old self.new) }
        ensures within { IfOk result (λ z. IsBetween (pos 0) (greatest_mobile kind) z) }
        ensures short { IfOk result (λ z. HasNineDigits z) }
        ensures stops { IfErr result (λ b. Stops (MobileWanted ∷ []) self.old (b.before + 1)) }
    {
        let before = self.taken;
        let Some(text) = self.next() else {
            return Err(BadField { before });
        };
        match number_within(text, 0, kind.mobile_most()) {
            Some(number) => Ok(number),
            None => Err(BadField { before }),
        }
    }

    /// Takes the completion date of a granted permit; `None` where the field before says that the permit is refused.
    #[tactic(auto, using(crate::proofs::ShapeFacts::taking, wire_values::proofs::DateNames::completion_fits, wire_values::proofs::DateNames::no_completion))]
    pub fn completion(&mut self, granted: bool) -> Result<Option<Date>, BadField>
        requires { self.old.before ≡ grant_word granted }
        ensures took { IfOk result (λ d. Took (CompletionWanted ∷ [])
            (optional_date d ∷ []) self.old self.new) }
        ensures limited { IfOk result (λ d. IsAnyLimited d) }
        ensures told { IfOk result (λ d. is_some d ≡ granted) }
        ensures stops { IfErr result (λ b. Stops (CompletionWanted ∷ []) self.old (b.before + 1)) }
    {
        let before = self.taken;
        let Some(text) = self.next() else {
            return Err(BadField { before });
        };
        match completion_date(text, granted) {
            Some(date) => Ok(date),
            None => Err(BadField { before }),
        }
    }

    /// Checks that no field is left.
    pub fn end(&mut self) -> Result<(), BadField>
        ensures none { OnOk result (self.old.rest ≡ []) }
        ensures bad { IfErr result (λ b. IsBad [] self.old (b.before + 1)) }
    {
        let before = self.taken;
        match self.next() {
            Some(_) => Err(BadField { before }),
            None => Ok(()),
        }
    }
}
