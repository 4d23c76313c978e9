//! Slopes in 64-bit numbers.

ghost use Rattle.std.specs.Prelude.{◌≡◌, ◌↔◌, ◌*ℤ◌, ◌-ℤ◌, ◌<ℤ◌, ◌<◌, ◌≤◌, ◌*◌, ◌^◌, pos, unsigned_abs};
ghost use Rattle.grid_exact.specs.Root.{ProductFits};
ghost use Rattle.grid_exact.specs.Level.{IsLevel, IsSlope};

use crate::roots::{short, square};
use grid_exact::{Rising, Sloping};

/// The heights `z` with `a <= (k * z - c) * sqrt(n)`, as in `Slope`, for a positive `a`.
#[derive(Clone, Copy)]
pub(crate) struct ShortSlope {
    pub(crate) a: i64,
    pub(crate) k: i64,
    pub(crate) c: i64,
    pub(crate) n: u64,
    ghost sound: { IsSlope a k c n },
    ghost positive: { pos 0 <ℤ a },
    ghost small: { n ≤ 2 ^ 42 },
}

impl ShortSlope {
    /// The heights `z` with `a <= (k * z - c) * sqrt(n)`, none of them below the least level.
    pub(crate) fn rising(a: i128, k: i64, c: i128, n: u128) -> ShortSlope
        requires positive { pos 0 <ℤ a }
        requires left { unsigned_abs a < 2 ^ 63 }
        requires rises { pos 0 <ℤ k }
        requires k_size { unsigned_abs k ≤ 2 ^ 15 }
        requires c_size { unsigned_abs c ≤ unsigned_abs k * 2 ^ 25 }
        requires root { 0 < n }
        requires n_size { n ≤ 2 ^ 42 }
        ensures a { result.a ≡ a }
        ensures k { result.k ≡ k }
        ensures c { result.c ≡ c }
        ensures n { result.n ≡ n }
    {
        ShortSlope {
            a: short(a),
            k,
            c: short(c),
            n: n as u64,
        }
    }

    /// `k * z - c`.
    fn factor(&self, z: i64) -> i64
        requires { IsLevel z }
        ensures value { result ≡ self.now.k *ℤ z -ℤ self.now.c }
        ensures fits { ProductFits result self.now.n }
    {
        self.k * z - self.c
    }

    /// The square of a factor, times `n`.
    fn scaled_square(&self, factor: i64) -> u128
        requires { ProductFits factor self.now.n }
        ensures { result ≡ unsigned_abs factor * unsigned_abs factor * self.now.n }
    {
        square(factor.unsigned_abs()) * self.n as u128
    }

    /// The square of `a`.
    fn left_square(&self) -> u128
        ensures { result ≡ unsigned_abs self.now.a * unsigned_abs self.now.a }
    {
        square(self.a.unsigned_abs())
    }
}

impl Rising for ShortSlope {
    ghost use Rattle.grid_exact.specs.Level.{Reaches};
    ghost use Rattle.grid_exact.specs.Laws.{Reaches_above};

    ghost reaches = { λ s z. Reaches s.a s.k s.c s.n z };

    #[tactic(auto, using(crate::proofs::RootFacts::slopes))]
    fn is_reached(&self, level: i64) -> bool {
        let factor = self.factor(level);
        if factor < 0 {
            return false;
        }
        self.left_square() <= self.scaled_square(factor)
    }

    ghost rises = { λ s y z h r. Reaches_above s.a s.k s.c s.n y z s.sound.rises h r };
}

impl Sloping for ShortSlope {
    ghost use Rattle.grid_exact.specs.Root.{BelowRoot};
    ghost use Rattle.grid_exact.specs.Laws.{BelowRoot-AtMostRoot};

    ghost exceeds = { λ s z. BelowRoot s.a (s.k *ℤ z -ℤ s.c) s.n };

    #[tactic(auto, using(crate::proofs::RootFacts::slopes))]
    fn is_exceeded(&self, level: i64) -> bool {
        let factor = self.factor(level);
        if factor < 0 {
            return false;
        }
        self.left_square() < self.scaled_square(factor)
    }

    ghost exceeds_reaches = { λ s z h. BelowRoot-AtMostRoot s.a (s.k *ℤ z -ℤ s.c) s.n h };
}
