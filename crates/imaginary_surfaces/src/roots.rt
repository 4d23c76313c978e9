//! Comparisons with one square root, in 64-bit numbers: every offset from a runway's line and every factor fits them.

ghost use Rattle.std.specs.Prelude.{◌≡◌, ◌↔◌, ◌*◌, ◌^◌, ◌<◌, ◌≤◌, ◌≤ℤ◌, pos, unsigned_abs, IsTrue};
ghost use Rattle.grid_exact.specs.Root.{AboveRoot, AtLeastRoot, AtMostRoot};

/// The same number in 64 bits.
#[tactic(auto, using(grid_exact::proofs::Sizes::casts))]
pub(crate) fn short(a: i128) -> i64
    requires { unsigned_abs a < 2 ^ 63 }
    ensures { result ≡ a }
{
    a as i64
}

/// The square of a number.
pub(crate) fn square(a: u64) -> u128
    requires { a ≤ 2 ^ 63 }
    ensures { result ≡ a * a }
{
    a as u128 * a as u128
}

/// The square of a factor, times `n`.
fn scaled_square(b: u64, n: u128) -> u128
    requires factor { b ≤ 2 ^ 31 }
    requires root { n ≤ 2 ^ 42 }
    ensures { result ≡ b * b * n }
{
    (b * b) as u128 * n as u64 as u128
}

/// Whether `a` is at most `b * sqrt(n)`.
#[tactic(auto, using(crate::proofs::RootFacts::roots))]
pub(crate) fn is_at_most_root(a: i128, b: i64, n: u128) -> bool
    requires left { unsigned_abs a < 2 ^ 63 }
    requires least { pos 0 ≤ℤ b }
    requires most { b ≤ℤ pos (2 ^ 31) }
    requires root { n ≤ 2 ^ 42 }
    ensures { IsTrue result ↔ AtMostRoot a b n }
{
    let left = short(a);
    if left < 0 {
        return true;
    }
    square(left.unsigned_abs()) <= scaled_square(b.unsigned_abs(), n)
}

/// Whether `a` is at least `b * sqrt(n)`.
#[tactic(auto, using(crate::proofs::RootFacts::roots))]
pub(crate) fn is_at_least_root(a: i128, b: i64, n: u128) -> bool
    requires left { unsigned_abs a < 2 ^ 63 }
    requires least { pos 0 ≤ℤ b }
    requires most { b ≤ℤ pos (2 ^ 31) }
    requires root { n ≤ 2 ^ 42 }
    ensures { IsTrue result ↔ AtLeastRoot a b n }
{
    let left = short(a);
    if left < 0 {
        return false;
    }
    scaled_square(b.unsigned_abs(), n) <= square(left.unsigned_abs())
}

/// Whether `a` is above `b * sqrt(n)`.
#[tactic(auto, using(crate::proofs::RootFacts::roots))]
pub(crate) fn is_above_root(a: i128, b: i64, n: u128) -> bool
    requires left { unsigned_abs a < 2 ^ 63 }
    requires least { pos 0 ≤ℤ b }
    requires most { b ≤ℤ pos (2 ^ 31) }
    requires root { n ≤ 2 ^ 42 }
    ensures { IsTrue result ↔ AboveRoot a b n }
{
    let left = short(a);
    if left < 0 {
        return false;
    }
    scaled_square(b.unsigned_abs(), n) < square(left.unsigned_abs())
}
