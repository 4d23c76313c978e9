//! The names and days of the requests.

ghost use Rattle.std.specs.Prelude.{◌≡◌, codes};
ghost use Rattle.std.specs.Fmt.{decimal};
ghost use Rattle.determination_dates.specs.Days.{IsLimited};
ghost use Rattle.wire_values.specs.Words.{IsWord};
ghost use Rattle.desk_generator.specs.Drawings.{airport_name as airport_text};
ghost use Rattle.desk_generator.specs.Requests.{opening_day, start_day};

use airfields::{FieldId, RunwayName};
use itoa::Buffer;
use jiff::civil::{Date, date};
use wire_values::Word;

/// The name of the airport of this number: the letter G and the number in four digits.
#[tactic(auto, using(crate::proofs::NameFacts::field_id))]
pub(crate) fn airport_name(number: u32) -> FieldId
    ensures { result ≡ airport_text number }
{
    let digit = |n: u32| -> u8 { b'0' + (n % 10) as u8 };
    let text = [
        b'G',
        digit(number / 1000),
        digit(number / 100),
        digit(number / 10),
        digit(number),
    ];
    match FieldId::new(&text) {
        Ok(name) => name,
        Err(_) => unreachable!(),
    }
}

/// The name of each runway.
#[tactic(auto, using(crate::proofs::NameFacts::is_runway_name))]
pub(crate) fn runway_name() -> RunwayName
    ensures { result ≡ codes "09/27" }
{
    match RunwayName::new(b"09/27") {
        Ok(name) => name,
        Err(_) => unreachable!(),
    }
}

/// The caller's name, `g`.
#[tactic(auto, using(crate::proofs::NameFacts::is_caller))]
pub(crate) fn caller() -> Word
    ensures { result ≡ codes "g" }
{
    match Word::new(b"g") {
        Some(word) => word,
        None => unreachable!(),
    }
}

/// The key of the request of this number.
#[tactic(auto, using(crate::proofs::NameFacts::is_key))]
pub(crate) fn key(number: u32) -> Word
    ensures { result ≡ decimal number }
{
    let mut buffer = Buffer::new();
    match Word::new(buffer.format(number).as_bytes()) {
        Some(word) => word,
        None => unreachable!(),
    }
}

/// The day of the desk, 2026-01-15.
#[tactic(auto, using(crate::proofs::DayFacts::is_opening_day))]
pub(crate) fn opening_date() -> Date
    ensures { result ≡ opening_day }
{
    date(2026, 1, 15)
}

/// The day on which the work of each notice starts, 2026-03-01.
#[tactic(auto, using(crate::proofs::DayFacts::is_start_day))]
pub(crate) fn start_date() -> Date
    ensures { result ≡ start_day }
{
    date(2026, 3, 1)
}
