//! A lower bound of a runway's surfaces, and an upper bound of the length of its line.

ghost use Rattle.std.specs.Prelude.{◌*◌, ◌^◌, ◌≤◌, ◌-ℤ◌, ◌≤ℤ◌, pos, unsigned_abs};

use crate::approach::ApproachSurface;
use crate::measures::SECOND_SLOPE_DROP;
use crate::primary::PrimarySurface;
use crate::roots::square;
use std::num::{nearest_i64_to_f64, saturating_f64_to_u32};

/// Upper bound of the length of a primary surface's line, in tenths of a foot.
const MOST_LENGTH: u32 = 524_288;

/// A close upper bound of the square root of `n`.
pub(crate) fn root_above(n: u128) -> u32
    requires { n ≤ 2 ^ 37 }
    ensures root { n ≤ result * result }
    ensures most { result ≤ 2 ^ 19 }
{
    let root = saturating_f64_to_u32(nearest_i64_to_f64(n as i64).sqrt() + 1.0);
    if root <= MOST_LENGTH && n <= square(u64::from(root)) {
        root
    } else {
        MOST_LENGTH
    }
}

/// A lower bound of a centerline with this elevation and rise.
fn level_below(z: i64, rise: i64) -> i64
    requires z { unsigned_abs z ≤ 2 ^ 18 }
    requires rise { unsigned_abs rise ≤ 2 ^ 18 }
    ensures low { result ≤ℤ (z -ℤ pos (unsigned_abs rise)) }
    ensures size { unsigned_abs result ≤ 2 ^ 19 }
{
    if rise < 0 { z + rise } else { z - rise }
}

/// A lower bound of the surfaces of a runway.
pub(crate) fn lowest(primary: &PrimarySurface, one: &ApproachSurface, two: &ApproachSurface) -> i64
    ensures level { result ≤ℤ (primary.now.centerline.z
        -ℤ pos (unsigned_abs primary.now.centerline.rise)) }
    ensures level1 { result ≤ℤ (one.now.z -ℤ SECOND_SLOPE_DROP) }
    ensures level2 { result ≤ℤ (two.now.z -ℤ SECOND_SLOPE_DROP) }
    ensures size { unsigned_abs result ≤ 2 ^ 20 }
{
    let level = level_below(primary.centerline.z, primary.centerline.rise);
    level.min(one.z).min(two.z) - SECOND_SLOPE_DROP
}
