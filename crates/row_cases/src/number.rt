//! Numbers of more than nine digits.

ghost use Rattle.std.specs.Prelude.{◌≡◌, ◌≢◌, ◌≤◌, ◌<◌, ◌^◌, ◌∷◌, ℕ, List, Some, IfSome, IfNone};
ghost use Rattle.std.specs.Fmt.{decimal};

use itoa::Buffer;
use row_register::Parts;

// Parses a number: digits without a sign or a leading zero.
#[tactic(auto, using(crate::proofs::NumberFacts::decimal_utf8))]
fn number(text: &[u8]) -> Option<u64>
    ensures some { IfSome result (λ n. text.now ≡ decimal n) }
    ensures one { (n : ℕ) → n < 2 ^ 64 → text.now ≡ decimal n → result ≡ Some n }
{
    let Ok(word) = str::from_utf8(text) else {
        return None;
    };
    match word.parse::<u64>() {
        Ok(number) => {
            if Buffer::new().format(number) == word {
                Some(number)
            } else {
                None
            }
        }
        Err(_) => None,
    }
}

/// Parses a number from `least` to `most`; `None` exactly where the text is none.
pub(crate) fn number_within(text: &[u8], least: u64, most: u64) -> Option<u64>
    requires { most < 2 ^ 64 }
    ensures some { IfSome result (λ n. text.now ≡ decimal n) }
    ensures within { IfSome result (λ n. (least ≤ n) × (n ≤ most)) }
    ensures none { IfNone result ((n : ℕ) → least ≤ n → n ≤ most → text.now ≢ decimal n) }
{
    let number = number(text)?;
    if number < least || number > most {
        return None;
    }
    Some(number)
}

/// Takes the next part as a number up to `most`; `None` exactly where it is none.
pub(crate) fn take_number(parts: &mut Parts<'_>, most: u64) -> Option<u64>
    requires { most < 2 ^ 64 }
    ensures took { IfSome result (λ n. parts.old ≡ decimal n ∷ parts.new) }
    ensures within { IfSome result (λ n. n ≤ most) }
    ensures none { IfNone result ((n : ℕ) (rest : List (List ℕ)) → n ≤ most
        → parts.old ≢ decimal n ∷ rest) }
{
    match parts.next() {
        Some(text) => number_within(text, 0, most),
        None => None,
    }
}
