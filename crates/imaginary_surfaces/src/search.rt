//! The excess of a top over a slope: the least level that reaches it is first searched near a guess.

ghost use Rattle.std.specs.Prelude.{ℤ, ◌^◌, ◌≤◌, ◌≤ℤ◌, IfSome, ⊤};
ghost use Rattle.grid_exact.specs.Excess.{IsExcess, root_surface};
ghost use Rattle.grid_exact.specs.Level.{IsLevel, Reaches};

use crate::short_slope::ShortSlope;
use grid_exact::{LEVEL_LIMIT, Rising, Sloping, least_reached};
use std::num::{nearest_i64_to_f64, saturating_f64_to_u32};

/// The approximate height of the slope; correctness does not depend on it.
fn about_height(slope: &ShortSlope) -> f64 {
    let run = nearest_i64_to_f64(slope.a) / nearest_i64_to_f64(slope.n as i64).sqrt();
    (run + nearest_i64_to_f64(slope.c)) / nearest_i64_to_f64(slope.k)
}

/// A guess at the least level that reaches it, possibly one more, and at most `top`.
fn guess(slope: &ShortSlope, top: i64) -> i64
    requires top { IsLevel top }
    ensures level { IsLevel result }
{
    let lowest = nearest_i64_to_f64(-LEVEL_LIMIT);
    let guess = i64::from(saturating_f64_to_u32(about_height(slope) - lowest)) + 1 - LEVEL_LIMIT;
    if guess < top { guess } else { top }
}

/// A level that reaches it: the guess, if it does, else `top`.
fn reached_level(slope: &ShortSlope, guess: i64, top: i64) -> i64
    requires guess { IsLevel guess }
    requires top { IsLevel top }
    requires reached { Reaches slope.now.a slope.now.k slope.now.c slope.now.n top }
    ensures level { IsLevel result }
    ensures reached { Reaches slope.now.a slope.now.k slope.now.c slope.now.n result }
{
    if slope.is_reached(guess) { guess } else { top }
}

/// A level below which none reaches it: the guess, if the level below it does not reach it, else the lowest level.
fn least_possible(slope: &ShortSlope, guess: i64) -> i64
    requires guess { IsLevel guess }
    ensures level { IsLevel result }
    ensures lowest { (z : ℤ) → Reaches slope.now.a slope.now.k slope.now.c slope.now.n z →
        result ≤ℤ z }
{
    if guess <= -LEVEL_LIMIT || slope.is_reached(guess - 1) {
        return -LEVEL_LIMIT;
    }
    guess
}

/// The least level that reaches it; `top` must reach it.
fn least_level(slope: &ShortSlope, top: i64) -> i64
    requires top { IsLevel top }
    requires reached { Reaches slope.now.a slope.now.k slope.now.c slope.now.n top }
    ensures level { IsLevel result }
    ensures reached { Reaches slope.now.a slope.now.k slope.now.c slope.now.n result }
    ensures least { (z : ℤ) → Reaches slope.now.a slope.now.k slope.now.c slope.now.n z →
        result ≤ℤ z }
{
    let guess = guess(slope, top);
    let low = least_possible(slope, guess);
    let high = reached_level(slope, guess, top);
    least_reached(slope, low, high)
}

/// The excess of `top` over a slope, rounded down; `None` where it is not above.
pub(crate) fn excess_over(slope: &ShortSlope, top: i64) -> Option<u32>
    requires top { IsLevel top }
    ensures excess { IsExcess (root_surface ⊤ slope.now.a slope.now.k slope.now.c slope.now.n) top
        result }
    ensures size { IfSome result (λ e. e ≤ 2 ^ 26) }
{
    if !slope.is_exceeded(top) {
        return None;
    }
    Some((top - least_level(slope, top)) as u32)
}
