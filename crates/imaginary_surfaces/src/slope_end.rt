//! The upper end of transitional surfaces.

ghost use Rattle.std.specs.Prelude.{◌↔◌, ◌^◌, ◌≤◌, ◌≤ℤ◌, IsTrue, IfSome};
ghost use Rattle.grid_exact.specs.Excess.{IsExcess, root_surface};
ghost use Rattle.grid_exact.specs.Level.{IsLevel, Reaches};

use crate::search::excess_over;
use crate::short_slope::ShortSlope;
use grid_exact::{LEVEL_LIMIT, Rising};

/// Whether a slope is at most as high as this level, where the horizontal or conical surface ends it (77.19(e)). A level below the range
/// of levels is not compared, since the product might overflow; no slope is so low.
fn is_up_to(slope: &ShortSlope, level: i64) -> bool
    requires high { level ≤ℤ LEVEL_LIMIT }
    ensures { IsTrue result ↔ Reaches slope.now.a slope.now.k slope.now.c slope.now.n level }
{
    -LEVEL_LIMIT <= level && slope.is_reached(level)
}

/// The excess of `top` over a slope that is at most as high as `limit`; `None` where it is not above, or the slope is higher than the
/// limit. A limit at or above the top is not compared, whatever its size: a slope below the top is below the limit then.
pub(crate) fn excess_up_to(slope: &ShortSlope, top: i64, limit: i64) -> Option<u32>
    requires top { IsLevel top }
    ensures exact { IsExcess (root_surface
        (Reaches slope.now.a slope.now.k slope.now.c slope.now.n limit) slope.now.a slope.now.k
        slope.now.c slope.now.n) top result }
    ensures size { IfSome result (λ e. e ≤ 2 ^ 26) }
{
    if limit < top && !is_up_to(slope, limit) {
        return None;
    }
    excess_over(slope, top)
}
