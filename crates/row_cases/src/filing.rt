//! The rows of cases.

ghost use Rattle.std.specs.Prelude.{◌≡◌, ◌≢◌, ◌≤◌, ◌<◌, ◌/◌, ◌+◌, ◌++◌, ◌∷◌, ℕ, List, Option, IfSome, IfNone, IfOk, OnOk, OnErr, string_bytes};
ghost use Rattle.std.specs.Str.{IsUtf8};
ghost use Rattle.jiff_core.specs.declared.civil.date.Date.{Date as SomeDate};
ghost use Rattle.determination_dates.specs.Days.{IsLimited};
ghost use Rattle.determination_dates.specs.Text.{date_text, last_digit};
ghost use Rattle.determination_dates.specs.declared.life.End.{End as SomeEnd};
ghost use Rattle.grid_exact.specs.Texts.{Extends};
ghost use Rattle.case_requests.specs.declared.submission.Submission.{Submission as SomeSubmission};
ghost use Rattle.case_records.specs.declared.case.KeptCase.{KeptCase as SomeCase};
ghost use Rattle.wire_values.specs.Words.{optional_date, IsAnyLimited};
ghost use Rattle.wire_requests.specs.Limits.{IsCase, IsValidSubmission};
ghost use Rattle.wire_requests.specs.Spellings.{submission_fields};
ghost use Rattle.row_cases.specs.Cases.{case_key};
ghost use Rattle.row_cases.specs.Filings.{end_word, notice_parts, filing_fields, IsPlainCase, IsFilingRow};
ghost use Rattle.row_cases.specs.declared.filing.FilingRow.{FilingRow as SomeRow};

use crate::judged::{take_end, take_judged};
use crate::site::take_submission;
use case_records::KeptCase;
use case_requests::Submission;
use determination_dates::{End, Life};
use grid_exact::NoMemory;
use jiff::civil::Date;
use row_register::Parts;
use std::alloc::Global;
use wire_values::append_text;

/// A case and its number.
#[derive(Drop)]
pub struct FilingRow {
    /// The number of the case, from 1 to 999,999.
    pub number: u32,
    /// The case.
    pub case: KeptCase,
}

// The last digit of a number, as ASCII.
fn digit(number: u32) -> u8
    ensures { result ≡ last_digit number }
{
    b'0' + (number % 10) as u8
}

// The key of a case.
#[tactic(auto, using(crate::proofs::KeyFacts::key_utf8))]
fn key_bytes(number: u32) -> [u8; 6]
    ensures key { result ≡ case_key number }
    ensures text { IsUtf8 result }
{
    [
        digit(number / 100_000),
        digit(number / 10_000),
        digit(number / 1_000),
        digit(number / 100),
        digit(number / 10),
        digit(number),
    ]
}

/// Appends the key of a case's row: its number in six digits, padded with zeros.
///
/// # Errors
///
/// `NoMemory` where memory was refused; nothing is then appended.
pub fn append_filing_key(text: &mut String, number: u32) -> Result<(), NoMemory>
    ensures ok { OnOk result (string_bytes text.new ≡ string_bytes text.old ++ case_key number) }
    ensures part { OnErr result (Extends (string_bytes text.old) (string_bytes text.new)) }
{
    let bytes = key_bytes(number);
    match str::from_utf8(&bytes) {
        Ok(key) => append_text(text, key),
        Err(_) => unreachable!(),
    }
}

// The value of a digit.
fn digit_of(byte: u8) -> Option<u32>
    ensures some { IfSome result (λ d. byte ≡ 48 + d) }
    ensures small { IfSome result (λ d. d < 10) }
    ensures none { IfNone result ((d : ℕ) → d < 10 → byte ≢ 48 + d) }
{
    if byte < b'0' {
        return None;
    }
    if byte > b'9' {
        return None;
    }
    Some(u32::from(byte - b'0'))
}

// The number below 1,000 with these three digits.
fn three_digits(hundreds: u8, tens: u8, ones: u8) -> Option<u32>
    ensures some { IfSome result (λ n. (hundreds ≡ last_digit (n / 100))
        × (tens ≡ last_digit (n / 10)) × (ones ≡ last_digit n)) }
    ensures small { IfSome result (λ n. n < 1000) }
    ensures none { IfNone result ((n : ℕ) → hundreds ≡ last_digit (n / 100)
        → tens ≡ last_digit (n / 10) → ones ≢ last_digit n) }
{
    let hundreds = digit_of(hundreds)?;
    let tens = digit_of(tens)?;
    let ones = digit_of(ones)?;
    Some(hundreds * 100 + tens * 10 + ones)
}

// Parses the key of a case as its number.
fn case_of(key: &[u8]) -> Option<u32>
    ensures some { IfSome result (λ n. key.now ≡ case_key n) }
    ensures numbered { IfSome result (λ n. IsCase n) }
    ensures none { IfNone result ((n : ℕ) → IsCase n → key.now ≢ case_key n) }
{
    if key.len() != 6 {
        return None;
    }
    let thousands = three_digits(key[0], key[1], key[2])?;
    let rest = three_digits(key[3], key[4], key[5])?;
    let number = thousands * 1000 + rest;
    if number == 0 {
        return None;
    }
    Some(number)
}

// The fields between a notice and its determination.
#[derive(Clone, Copy)]
struct Standing {
    received: Date,
    form: Option<Date>,
    end: Option<End>,
}

fn take_standing(parts: &mut Parts<'_>) -> Option<Standing>
    ensures took { IfSome result (λ s. parts.old
        ≡ date_text s.received ∷ optional_date s.form ∷ end_word s.end ∷ parts.new) }
    ensures limited { IfSome result (λ s. IsLimited s.received × IsAnyLimited s.form) }
    ensures none { IfNone result ((received : SomeDate) (form : Option SomeDate)
        (end : Option SomeEnd) (rest : List (List ℕ)) → IsLimited received
        → IsAnyLimited form
        → parts.old ≢ date_text received ∷ optional_date form ∷ end_word end ∷ rest) }
{
    let received = parts.take()?;
    let form = parts.take()?;
    let end = take_end(parts)?;
    Some(Standing {
        received,
        form,
        end,
    })
}

// A notice, and the fields before its determination.
#[derive(Clone, Copy)]
struct Notice {
    submission: Submission,
    standing: Standing,
}

fn take_notice(parts: &mut Parts<'_>) -> Option<Notice>
    ensures took { IfSome result (λ n. parts.old
        ≡ notice_parts n.submission n.standing.received n.standing.form n.standing.end ++ parts.new) }
    ensures valid { IfSome result (λ n. IsValidSubmission n.submission) }
    ensures limited { IfSome result (λ n. IsLimited n.standing.received
        × IsAnyLimited n.standing.form) }
    ensures none { IfNone result ((s : SomeSubmission) (received : SomeDate)
        (form : Option SomeDate) (end : Option SomeEnd) (rest : List (List ℕ)) → IsValidSubmission s
        → IsLimited received → IsAnyLimited form
        → parts.old ≢ notice_parts s received form end ++ rest) }
{
    let submission = take_submission(parts)?;
    let standing = take_standing(parts)?;
    Some(Notice {
        submission,
        standing,
    })
}

// Reads a case from the parts.
fn take_case(alloc: Global, parts: &mut Parts<'_>) -> Result<Option<KeptCase>, NoMemory>
    ensures took { IfOk result (λ o. IfSome o (λ c. parts.old ≡ filing_fields c)) }
    ensures plain { IfOk result (λ o. IfSome o IsPlainCase) }
    ensures none { IfOk result (λ o. IfNone o
        ((c : SomeCase) → IsPlainCase c → parts.old ≢ filing_fields c)) }
{
    let Some(notice) = take_notice(parts) else {
        return Ok(None);
    };
    let Some(judged) = take_judged(alloc, parts)? else {
        return Ok(None);
    };
    Ok(Some(KeptCase {
        submission: notice.submission,
        received: notice.standing.received,
        form: notice.standing.form,
        life: Life {
            end: notice.standing.end,
            determination: judged.determination,
        },
        list: judged.list,
    }))
}

/// Reads the case of a row's key and text; `None` exactly where they are not a row.
///
/// # Errors
///
/// `NoMemory` where memory was refused.
pub fn read_filing_row(alloc: Global, key: &[u8], row: &[u8]) -> Result<Option<FilingRow>, NoMemory>
    ensures some { IfOk result (λ o. IfSome o (λ v. IsFilingRow key.now row.now v)) }
    ensures none { IfOk result (λ o. IfNone o ((v : SomeRow) → IsFilingRow key.now row.now v → ⊥)) }
{
    let Some(number) = case_of(key) else {
        return Ok(None);
    };
    let Some(case) = take_case(alloc, &mut Parts::new(row, b','))? else {
        return Ok(None);
    };
    Ok(Some(FilingRow { number, case }))
}
