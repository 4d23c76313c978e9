//! Dates in replies.

ghost use Rattle.std.specs.Prelude.{◌≡◌, ◌++◌, OnOk, OnErr, codes, string_bytes};
ghost use Rattle.std.specs.Str.{IsUtf8};
ghost use Rattle.grid_exact.specs.Texts.{Extends};
ghost use Rattle.wire_replies.specs.States.{date_word, day_text};

use crate::fields::append_next_word;
use determination_dates::date_bytes;
use grid_exact::NoMemory;
use jiff::civil::Date;
use wire_values::append_text;

// The bytes of a date, which are text.
#[tactic(auto, using(crate::proofs::DateFacts::date_word_is, crate::proofs::DateFacts::date_is_text))]
fn word_bytes(date: Date) -> [u8; 10]
    ensures value { result ≡ date_word date }
    ensures text { IsUtf8 result }
{
    date_bytes(date)
}

// Appends a date.
pub(crate) fn append_date(text: &mut String, date: Date) -> Result<(), NoMemory>
    ensures ok { OnOk result (string_bytes text.new ≡ string_bytes text.old ++ date_word date) }
    ensures part { OnErr result (Extends (string_bytes text.old) (string_bytes text.new)) }
{
    let bytes = word_bytes(date);
    match str::from_utf8(&bytes) {
        Ok(word) => append_text(text, word),
        Err(_) => unreachable!(),
    }
}

// Appends a comma and a date.
#[tactic(auto, using(grid_exact::proofs::Extending::extending))]
pub(crate) fn append_next_date(text: &mut String, date: Date) -> Result<(), NoMemory>
    ensures ok { OnOk result (string_bytes text.new
        ≡ string_bytes text.old ++ (codes "," ++ date_word date)) }
    ensures part { OnErr result (Extends (string_bytes text.old) (string_bytes text.new)) }
{
    append_text(text, ",")?;
    append_date(text, date)
}

// Appends a comma and a date, or a dash where there is none.
pub(crate) fn append_next_day(text: &mut String, day: Option<Date>) -> Result<(), NoMemory>
    ensures ok { OnOk result (string_bytes text.new
        ≡ string_bytes text.old ++ (codes "," ++ day_text day)) }
    ensures part { OnErr result (Extends (string_bytes text.old) (string_bytes text.new)) }
{
    match day {
        Some(date) => append_next_date(text, date),
        None => append_next_word(text, "-"),
    }
}
