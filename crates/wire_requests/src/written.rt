//! Reads queries about structures, in one pass, from lines in canonical spelling.
//!
//! Most lines that a desk reads are such queries, written without quotes. Such a line is read here from first byte to last, each number
//! together with the comma after it. Every other line is left to the reader of records, which also finds the field
//! that is wrong.

ghost use Rattle.std.specs.Prelude.{◌≡◌, ◌∷◌, ◌++◌, ◌+◌, ◌<◌, take, drop, get_or, length, true, false, codes, if◌then◌else◌, IfSome};
ghost use Rattle.std.specs.Str.Parse.{AllDigits, digits_value};
ghost use Rattle.std.specs.Char.{digit_value};
ghost use Rattle.std.specs.Fmt.{decimal, signed_decimal};
ghost use Rattle.whole_number.specs.Whole.{HasNineDigits};
ghost use Rattle.wire_values.specs.Words.{IsBetween, flags_text, name_text, IsAirfieldName};
ghost use Rattle.wire_values.specs.Commas.{joined};
ghost use Rattle.wire_cursor.specs.Groups.{site_fields, IsValidSite};
ghost use Rattle.wire_requests.specs.Requests.{IsRecord};
ghost use Rattle.wire_requests.specs.declared.request.Request.TheVariants as requests;

use crate::request::Query;
use airfields::{
    ELEVATION_LEAST, ELEVATION_MOST, FieldId, Filing, Flags, HEIGHT_LIMIT, StructureKind,
};
use grid_exact::{COORDINATE_LIMIT, Point};
use wire_values::FieldValue;

// The digits at the front of a text, up to a comma.
#[derive(Clone, Copy)]
struct Front {
    // Their value.
    value: u32,
    // Their number.
    count: usize,
}

// The value of a digit.
#[tactic(auto, using(crate::proofs::WrittenFacts::is_digit))]
fn digit(byte: u8) -> Option<u8>
    ensures some { IfSome result (λ d. (digit_value byte < 10) × (d ≡ digit_value byte)) }
    ensures small { IfSome result (λ d. d < 10) }
{
    if byte < b'0' {
        return None;
    }
    if byte > b'9' {
        return None;
    }
    Some(byte - b'0')
}

// Parses the digits up to the first comma; `None` where no comma follows them, or the number is 1,000,000,000 or more.
#[tactic(auto, using(crate::proofs::WrittenFacts::one_more))]
fn digits(text: &[u8]) -> Option<Front>
    ensures digits { IfSome result (λ f. AllDigits 10 (take f.count text.now)) }
    ensures value { IfSome result (λ f. f.value ≡ digits_value 10 (take f.count text.now)) }
    ensures small { IfSome result (λ f. f.value < 1000000000) }
    ensures within { IfSome result (λ f. f.count < length text.now) }
    ensures comma { IfSome result (λ f. get_or text.now f.count 0 ≡ 44) }
{
    let mut value = 0u32;
    for (count, byte) in text.iter().enumerate() {
        let Some(digit) = digit(*byte) else {
            if *byte == b',' {
                return Some(Front { value, count });
            }
            return None;
        };
        if value >= 100_000_000 {
            return None;
        }
        value = value * 10 + u32::from(digit);
    }
    None
}

// Parses the natural number up to the first comma.
#[inline(always)]
#[tactic(auto, using(crate::proofs::WrittenFacts::spelled))]
fn natural(text: &[u8]) -> Option<Front>
    ensures read { IfSome result (λ f. text.now
        ≡ decimal f.value ++ 44 ∷ drop (f.count + 1) text.now) }
    ensures small { IfSome result (λ f. f.value < 1000000000) }
    ensures within { IfSome result (λ f. f.count < length text.now) }
{
    let front = digits(text)?;
    if front.count == 0 {
        return None;
    }
    if front.count > 1 && text[0] == b'0' {
        return None;
    }
    Some(front)
}

// The position of the first comma.
#[inline(always)]
fn comma(text: &[u8]) -> Option<usize>
    ensures within { IfSome result (λ at. at < length text.now) }
    ensures comma { IfSome result (λ at. get_or text.now at 0 ≡ 44) }
{
    for (at, byte) in text.iter().enumerate() {
        if *byte == b',' {
            return Some(at);
        }
    }
    None
}

// The rest of a line.
#[derive(Drop)]
struct Text<'a> {
    rest: &'a [u8],
}

impl<'a> Text<'a> {
    // Takes the natural number up to the next comma, and the comma.
    #[inline(always)]
    fn natural(&mut self) -> Option<u32>
        ensures read { IfSome result (λ n. self.old.rest.now
            ≡ decimal n ++ 44 ∷ self.new.rest.now) }
        ensures small { IfSome result (λ n. n < 1000000000) }
    {
        let front = natural(self.rest)?;
        let (_, after) = self.rest.split_at(front.count + 1);
        self.rest = after;
        Some(front.value)
    }

    // Takes the whole number up to the next comma, and the comma.
    #[inline(always)]
    #[tactic(auto, using(crate::proofs::WrittenFacts::below_zero))]
    fn whole(&mut self) -> Option<i64>
        ensures read { IfSome result (λ z. self.old.rest.now
            ≡ signed_decimal z ++ 44 ∷ self.new.rest.now) }
        ensures short { IfSome result (λ z. HasNineDigits z) }
    {
        match self.rest.split_first() {
            Some((first, others)) if *first == b'-' => {
                self.rest = others;
                let n = self.natural()?;
                if n == 0 {
                    return None;
                }
                Some(-i64::from(n))
            }
            _ => {
                let n = self.natural()?;
                Some(i64::from(n))
            }
        }
    }

    // As above, and checks that the number is within the limits.
    #[inline(always)]
    fn number(&mut self, low: i64, high: i64) -> Option<i64>
        ensures read { IfSome result (λ z. self.old.rest.now
            ≡ signed_decimal z ++ 44 ∷ self.new.rest.now) }
        ensures short { IfSome result (λ z. HasNineDigits z) }
        ensures within { IfSome result (λ z. IsBetween low high z) }
    {
        let z = self.whole()?;
        if z < low {
            return None;
        }
        if z > high {
            return None;
        }
        Some(z)
    }

    // Takes the text up to the next comma, and the comma.
    #[inline(always)]
    #[tactic(auto, using(crate::proofs::WrittenFacts::around))]
    fn part(&mut self) -> Option<&'a [u8]>
        ensures { IfSome result (λ part. self.old.rest.now ≡ part.now ++ 44 ∷ self.new.rest.now) }
    {
        let text = self.rest;
        let at = comma(text)?;
        let (_, after) = text.split_at(at + 1);
        self.rest = after;
        Some(&text[..at])
    }

    // Takes the text up to the next comma, and the comma, and parses it.
    #[inline(always)]
    fn word<V: FieldValue>(&mut self) -> Option<V>
        ensures read { IfSome result (λ v. self.old.rest.now
            ≡ V.spelled v ++ 44 ∷ self.new.rest.now) }
        ensures good { IfSome result (λ v. V.good v) }
    {
        let part = self.part()?;
        V::parse(part)
    }

    // Takes a dash and the next comma, if they stand there. Most structures have no flags, so this spares the search for the comma.
    #[tactic(auto, using(crate::proofs::WrittenFacts::dash))]
    fn dash(&mut self) -> bool
        ensures taken { result ≡ true → self.old.rest.now ≡ codes "-" ++ 44 ∷ self.new.rest.now }
        ensures left { result ≡ false → self.new.rest.now ≡ self.old.rest.now }
    {
        let text = self.rest;
        if text.len() < 2 {
            return false;
        }
        if text[0] == b'-' && text[1] == b',' {
            let (_, after) = text.split_at(2);
            self.rest = after;
            return true;
        }
        false
    }

    // Takes the flags up to the next comma, and the comma.
    fn flags(&mut self) -> Option<Flags>
        ensures { IfSome result (λ f. self.old.rest.now ≡ flags_text f ++ 44 ∷ self.new.rest.now) }
    {
        if self.dash() {
            return Some(Flags {
                shielded: false,
                device: false,
                other_rule: false,
                increases: false,
                controlled: false,
                temporary: false,
            });
        }
        self.word()
    }

    // Parses the rest of the line as the name of an airfield, or none where it is a dash.
    #[tactic(auto, using(crate::proofs::WrittenFacts::alone))]
    fn airfield(&self) -> Option<Option<FieldId>>
        ensures read { IfSome result (λ on. self.now.rest.now ≡ name_text on) }
        ensures good { IfSome result (λ on. IsAirfieldName on) }
    {
        if self.rest.len() == 1 && self.rest[0] == b'-' {
            return Some(None);
        }
        FieldValue::parse(self.rest)
    }

    // Parses the rest of the line as a structure.
    #[inline(always)]
    fn structure(&mut self) -> Option<Filing>
        ensures read { IfSome result (λ s. self.old.rest.now ≡ joined (site_fields s)) }
        ensures valid { IfSome result (λ s. IsValidSite s) }
    {
        let x = self.number(-COORDINATE_LIMIT, COORDINATE_LIMIT)?;
        let y = self.number(-COORDINATE_LIMIT, COORDINATE_LIMIT)?;
        let terrain = self.number(ELEVATION_LEAST, ELEVATION_MOST)?;
        let height = self.number(0, HEIGHT_LIMIT)?;
        let kind: StructureKind = self.word()?;
        let mobile = self.number(0, kind.mobile_most())?;
        let flags = self.flags()?;
        let on = self.airfield()?;
        Some(Filing {
            at: Point { x, y },
            ground: terrain,
            height,
            kind,
            mobile,
            flags,
            on,
        })
    }
}

// Whether a word queries the findings of a structure (`true`) or its verdict (`false`); `None` where it is another.
fn asks_for_all(word: &[u8]) -> Option<bool>
    ensures { IfSome result (λ all. word.now ≡ (if all then codes "screen" else codes "verdict")) }
{
    match word {
        b"screen" => Some(true),
        b"verdict" => Some(false),
        _ => None,
    }
}

/// Reads a query about a structure from a line, without its line end, in canonical spelling. `None` for every other line, also where the
/// query is spelled in another way: [`RecordReader::record`](crate::RecordReader::record) reads them all.
#[inline(always)]
#[tactic(auto, using(crate::proofs::WrittenFacts::screening, crate::proofs::WrittenFacts::verdict))]
pub fn question(line: &[u8]) -> Option<Query>
    ensures { IfSome result (λ q. IsRecord line.now (requests.Query q)) }
{
    let mut text = Text { rest: line };
    let word = text.part()?;
    let all = asks_for_all(word)?;
    let filing = text.structure()?;
    if all {
        Some(Query::Screen(filing))
    } else {
        Some(Query::Verdict(filing))
    }
}
