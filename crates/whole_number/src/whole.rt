//! Whole numbers and their only spelling.

ghost use Rattle.std.specs.Prelude.{◌≡◌, ◌≢◌, ◌≤◌, ◌<◌, ◌∷◌, ℤ, ℕ, true, false, length, IfSome, IfNone, slice_index};
ghost use Rattle.std.specs.Str.Parse.{AllDigits, digits_value};
ghost use Rattle.std.specs.Char.{digit_value};
ghost use Rattle.std.specs.Fmt.{decimal};
ghost use Rattle.whole_number.specs.Whole.{Spells};

/// The greatest whole number of nine digits; the least is its negative.
pub const NUMBER_LIMIT: i64 = 999_999_999;

// The value of a digit.
#[tactic(auto, using(crate::proofs::Digits::is_digit, crate::proofs::Digits::no_digit))]
fn digit(byte: u8) -> Option<u8>
    ensures some { IfSome result (λ d. (digit_value byte < 10) × (d ≡ digit_value byte)) }
    ensures small { IfSome result (λ d. d < 10) }
    ensures none { IfNone result (digit_value byte < 10 → ⊥) }
{
    if byte < b'0' {
        return None;
    }
    if byte > b'9' {
        return None;
    }
    Some(byte - b'0')
}

#[tactic(auto, using(crate::proofs::Digits::room, crate::proofs::Digits::one_more, crate::proofs::Digits::all_taken, crate::proofs::Digits::digit_at))]
// The value of a string of digits.
fn value(digits: &[u8]) -> Option<u32>
    requires { length digits.now ≤ 9 }
    ensures some { IfSome result (λ n. AllDigits 10 digits.now × (n ≡ digits_value 10 digits.now)) }
    ensures none { IfNone result (AllDigits 10 digits.now → ⊥) }
{
    let mut value = 0u32;
    for byte in digits {
        let Some(digit) = digit(*byte) else {
            return None;
        };
        value = value * 10 + u32::from(digit);
    }
    Some(value)
}

#[tactic(auto, using(crate::proofs::Digits::spells, crate::proofs::Digits::digits_of_decimal, crate::proofs::Digits::empty_none))]
// The number that the bytes spell, of at most nine digits.
fn natural(digits: &[u8]) -> Option<u32>
    ensures some { IfSome result (λ n. (digits.now ≡ decimal n) × (n < 1000000000)) }
    ensures none { IfNone result ((n : ℕ) → n < 1000000000 → digits.now ≢ decimal n) }
{
    if digits.is_empty() {
        return None;
    }
    if digits.len() > 9 {
        return None;
    }
    if digits[0] == b'0' {
        return zero(digits);
    }
    value(digits)
}

#[tactic(auto, using(crate::proofs::Digits::spells_zero, crate::proofs::Digits::no_lead))]
// The same for bytes that begin with a zero.
fn zero(digits: &[u8]) -> Option<u32>
    requires some { 0 < length digits.now }
    requires zero { slice_index digits.now 0 ≡ 48 }
    ensures some { IfSome result (λ n. (digits.now ≡ decimal n) × (n < 1000000000)) }
    ensures none { IfNone result ((n : ℕ) → n < 1000000000 → digits.now ≢ decimal n) }
{
    if digits.len() == 1 { Some(0) } else { None }
}

/// The whole number of at most nine digits that the bytes spell, or `None` where they spell none.
pub fn number(bytes: &[u8]) -> Option<i64>
    ensures some { IfSome result (λ z. Spells bytes.now z) }
    ensures none { IfNone result ((z : ℤ) → Spells bytes.now z → ⊥) }
{
    if bytes.starts_with(b"-") {
        return negative(&bytes[1..]);
    }
    match natural(bytes) {
        Some(n) => Some(i64::from(n)),
        None => None,
    }
}

// The number spelled by the bytes after a minus sign.
#[tactic(auto, using(crate::proofs::Digits::not_minus_zero, crate::proofs::Digits::no_minus))]
fn negative(digits: &[u8]) -> Option<i64>
    ensures some { IfSome result (λ z. Spells (45 ∷ digits.now) z) }
    ensures none { IfNone result ((z : ℤ) → Spells (45 ∷ digits.now) z → ⊥) }
{
    match natural(digits) {
        Some(0) => None,
        Some(n) => Some(-i64::from(n)),
        None => None,
    }
}
