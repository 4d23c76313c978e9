//! Numbers of more than nine digits.

ghost use Rattle.std.specs.Prelude.{◌≡◌, ◌≢◌, ◌≤◌, ◌<◌, ◌^◌, ℕ, Some, IfSome, IfNone};
ghost use Rattle.std.specs.Fmt.{decimal};

use itoa::Buffer;

/// Parses a number: digits without a sign or a leading zero.
#[tactic(auto, using(crate::proofs::NumberFacts::decimal_utf8))]
pub fn read_number(text: &[u8]) -> Option<u64>
    ensures some { IfSome result (λ n. text.now ≡ decimal n) }
    ensures none { IfNone result ((n : ℕ) → n < 2 ^ 64 → text.now ≢ decimal n) }
{
    let Ok(word) = str::from_utf8(text) else {
        return None;
    };
    match word.parse::<u64>() {
        Ok(number) => {
            if Buffer::new().format(number) == word {
                Some(number)
            } else {
                None
            }
        }
        Err(_) => None,
    }
}

/// Parses a number of days from `least` on, below 2^32; `None` exactly where the text is none.
pub(crate) fn days(text: &[u8], least: u32) -> Option<u32>
    ensures some { IfSome result (λ n. text.now ≡ decimal n) }
    ensures enough { IfSome result (λ n. least ≤ n) }
    ensures none { IfNone result ((n : ℕ) → least ≤ n → n < 2 ^ 32 → text.now ≢ decimal n) }
{
    let number = read_number(text)?;
    if number < u64::from(least) {
        return None;
    }
    if number > u64::from(u32::MAX) {
        return None;
    }
    Some(number as u32)
}
