//! Words that are numbers.

ghost use Rattle.std.specs.Prelude.{◌≡◌, ◌≢◌, ◌≤◌, ◌<◌, ◌^◌, ℕ, Some, IfSome, IfNone};
ghost use Rattle.std.specs.Fmt.{decimal};

use itoa::Buffer;

/// Parses a number from `least` to `most`.
pub(crate) fn number_within(word: &str, least: u64, most: u64) -> Option<u64>
    ensures some { IfSome result (λ n. word.now ≡ decimal n) }
    ensures within { IfSome result (λ n. (least ≤ n) × (n ≤ most)) }
    ensures none { IfNone result ((n : ℕ) → least ≤ n → n ≤ most → word.now ≢ decimal n) }
{
    let number = number(word)?;
    if number < least || number > most {
        return None;
    }
    Some(number)
}

/// Parses a number: digits without a sign or a leading zero.
fn number(word: &str) -> Option<u64>
    ensures some { IfSome result (λ n. word.now ≡ decimal n) }
    ensures one { (n : ℕ) → n < 2 ^ 64 → word.now ≡ decimal n → result ≡ Some n }
{
    match word.parse::<u64>() {
        Ok(number) => {
            if Buffer::new().format(number) == word {
                Some(number)
            } else {
                None
            }
        }
        Err(_) => None,
    }
}
