//! A first guess at a coordinate that has a square root. The guess is tested, so correctness does not depend on it; where it is right, as
//! for nearly all corners, it saves the twenty comparisons of a search.

ghost use Rattle.std.specs.Prelude.{◌^◌, ◌<◌, ◌≤◌, ◌<ℤ◌, pos, unsigned_abs};

/// Roots are guessed in units of 1/8,192, fine enough for a fraction of a tenth of a foot at the far end of an approach surface.
const ROOT_PARTS: i64 = 8_192;

/// One step of Newton's method, which doubles the number of correct digits.
fn nearer(square: u64, root: u64) -> u64
    requires some { 0 < root }
    ensures some { 0 < result }
{
    (root.wrapping_add(square / root) / 2).max(1)
}

/// An approximate square root of `square`, in units of 1/8,192.
pub(crate) fn root_in_parts(square: u128) -> i64
    requires size { square ≤ 2 ^ 37 }
    ensures some { pos 0 <ℤ result }
{
    let parts = (square as u64).wrapping_mul((ROOT_PARTS * ROOT_PARTS) as u64);
    let bits = 65 - parts.leading_zeros();
    let first = (1u64 << (bits / 2)).max(1);
    let near = nearer(parts, nearer(parts, first));
    let root = nearer(parts, nearer(parts, nearer(parts, near)));
    (root % (1 << 40)).max(1) as i64
}

/// An approximation of the least `z` with `part <= scale * z * sqrt(n)`, from the root in units of 1/8,192.
pub(crate) fn guess(part: i128, scale: i64, root: i64) -> i64
    requires part { unsigned_abs part < 2 ^ 63 }
    requires scale { pos 0 <ℤ scale }
    requires root { pos 0 <ℤ root }
{
    let whole = (part as i64).div_euclid(scale).wrapping_mul(ROOT_PARTS);
    whole.wrapping_add(root - 1).div_euclid(root)
}
