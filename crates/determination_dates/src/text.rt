//! Dates as text, `YYYY-MM-DD`.

ghost use Rattle.std.specs.Prelude.{◌≡◌, ◌≢◌, ◌<◌, ◌/◌, ℕ, IfSome, IfNone, pos};
ghost use Rattle.jiff_core.specs.declared.civil.date.Date.{Date as Plain};
ghost use Rattle.determination_dates.specs.Days.{IsLimited};
ghost use Rattle.determination_dates.specs.Text.{date_text, last_digit, year_of, ymd_text};

use crate::limit::is_limited;
use jiff::civil::Date;

/// The last digit of a number.
fn last_digit(number: u16) -> u8
    ensures { result ≡ last_digit number }
{
    b'0' + (number % 10) as u8
}

/// The year, or 0 where it is negative.
fn year_of(date: Date) -> u16
    ensures { result ≡ year_of date.year }
{
    let year = date.year();
    if year < 0 { 0 } else { year as u16 }
}

/// The date as `YYYY-MM-DD`. A negative year is written `0000`.
pub fn date_bytes(date: Date) -> [u8; 10]
    ensures { result ≡ date_text date }
{
    let year = year_of(date);
    let plain = date.to_plain();
    let (month, day) = (u16::from(plain.month), u16::from(plain.day));
    [
        last_digit(year / 1000),
        last_digit(year / 100),
        last_digit(year / 10),
        last_digit(year),
        b'-',
        last_digit(month / 10),
        last_digit(month),
        b'-',
        last_digit(day / 10),
        last_digit(day),
    ]
}

/// The number below 100 that two digits spell.
#[tactic(auto, using(crate::proofs::Texts::pair_value, crate::proofs::Texts::no_pair))]
fn pair(tens: u8, ones: u8) -> Option<u8>
    ensures some { IfSome result (λ n. (tens ≡ last_digit (n / 10)) × (ones ≡ last_digit n)) }
    ensures small { IfSome result (λ n. n < 100) }
    ensures none { IfNone result ((n : ℕ) → n < 100 → tens ≡ last_digit (n / 10) →
        ones ≢ last_digit n) }
{
    if tens < b'0' {
        return None;
    }
    if tens > b'9' {
        return None;
    }
    if ones < b'0' {
        return None;
    }
    if ones > b'9' {
        return None;
    }
    Some((tens - b'0') * 10 + (ones - b'0'))
}

/// The year, month and day that the bytes spell as `YYYY-MM-DD`.
fn parts(bytes: &[u8]) -> Option<(u16, u8, u8)>
    ensures some { IfSome result (λ p. bytes.now ≡ ymd_text p.0 p.1 p.2) }
    ensures small { IfSome result (λ p. (p.0 < 10000) × (p.1 < 100) × (p.2 < 100)) }
    ensures none { IfNone result ((y m d : ℕ) → y < 10000 → m < 100 → d < 100 →
        bytes.now ≢ ymd_text y m d) }
{
    if bytes.len() != 10 {
        return None;
    }
    if bytes[4] != b'-' {
        return None;
    }
    if bytes[7] != b'-' {
        return None;
    }
    let Some(century) = pair(bytes[0], bytes[1]) else {
        return None;
    };
    let Some(rest) = pair(bytes[2], bytes[3]) else {
        return None;
    };
    let Some(month) = pair(bytes[5], bytes[6]) else {
        return None;
    };
    let Some(day) = pair(bytes[8], bytes[9]) else {
        return None;
    };
    Some((u16::from(century) * 100 + u16::from(rest), month, day))
}

/// The date with this year, month and day, where it exists and is within the limit.
fn date_of(year: u16, month: u8, day: u8) -> Option<Date>
    requires { (year < 10000) × (month < 100) × (day < 100) }
    ensures some { IfSome result (λ d. (d.year ≡ pos year) × (d.month ≡ month) × (d.day ≡ day)) }
    ensures limited { IfSome result IsLimited }
    ensures none { IfNone result ((d : Plain) → IsLimited d → d.year ≡ pos year →
        d.month ≡ month → d.day ≢ day) }
{
    let Ok(date) = Date::new(year as i16, month as i8, day as i8) else {
        return None;
    };
    if is_limited(date) { Some(date) } else { None }
}

/// The date that the bytes spell as `YYYY-MM-DD`, or `None` where they spell no date from 1900-01-01 to 2999-12-31.
pub fn read_date(bytes: &[u8]) -> Option<Date>
    ensures some { IfSome result (λ d. IsLimited d × (bytes.now ≡ date_text d)) }
    ensures none { IfNone result ((d : Plain) → IsLimited d → bytes.now ≢ date_text d) }
{
    let Some((year, month, day)) = parts(bytes) else {
        return None;
    };
    date_of(year, month, day)
}
