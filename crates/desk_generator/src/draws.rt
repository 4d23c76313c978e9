//! A pseudo-random source by a fixed rule.

ghost use Rattle.std.specs.Prelude.{◌≡◌, ◌<◌, ◌^◌, ◌<ℤ◌, ◌≤ℤ◌, neg_ℤ, pos};
ghost use Rattle.desk_generator.specs.Draws.{next, drawn, coordinate, approach};

use runway_classes::ApproachKind;
use std::marker::Model;

/// Each draw multiplies the source's number by this, modulo 2^64.
pub const MULTIPLIER: u64 = 6_364_136_223_846_793_005;

/// Each draw then adds this.
pub const INCREMENT: u64 = 1_442_695_040_888_963_407;

/// The source's number is divided by this, so that a draw uses its high bits.
pub const LOW_PART: u64 = 0x2_0000_0000;

/// The number of coordinates that can be drawn, in tenths of a foot, symmetric about 0.
pub const COORDINATES: u64 = 1_000_001;

/// The greatest coordinate that is drawn, in tenths of a foot; the least is its opposite.
pub const FARTHEST: i64 = 500_000;

/// The number of kinds of approaches.
const APPROACHES: u64 = 4;

/// A pseudo-random source, seen as its number.
#[derive(Drop)]
pub struct Draws {
    source: u64,
}

impl Model for Draws {
    ghost use Rattle.std.specs.Prelude.{ℕ};

    ghost Value = { ℕ };

    ghost view = { λ d. d.source };
}

impl Draws {
    /// The source whose number is `seed`.
    pub fn new(seed: u64) -> Draws
        ensures { result ≡ seed }
    {
        Draws { source: seed }
    }

    /// Draws a number below `n`.
    #[tactic(auto, using(crate::proofs::DrawFacts::same_next), unfolding(crate::specs::Draws::next, crate::specs::Draws::drawn))]
    pub fn draw(&mut self, n: u64) -> u64
        requires { 0 < n }
        ensures value { result ≡ drawn n self.new }
        ensures below { result < n }
        ensures source { self.new ≡ next self.old }
    {
        self.source = self.source.wrapping_mul(MULTIPLIER).wrapping_add(INCREMENT);
        self.source / LOW_PART % n
    }

    /// Draws a coordinate.
    pub(crate) fn coordinate(&mut self) -> i64
        ensures value { result ≡ coordinate self.new }
        ensures least { neg_ℤ FARTHEST ≤ℤ result }
        ensures most { result ≤ℤ FARTHEST }
        ensures source { self.new ≡ next self.old }
    {
        self.draw(COORDINATES) as i64 - FARTHEST
    }

    /// Draws an elevation or a length, in tenths of a foot, below `n`.
    pub(crate) fn length(&mut self, n: u64) -> i64
        requires some { 0 < n }
        requires small { n < 2 ^ 62 }
        ensures value { result ≡ pos (drawn n self.new) }
        ensures least { pos 0 ≤ℤ result }
        ensures below { result <ℤ pos n }
        ensures source { self.new ≡ next self.old }
    {
        self.draw(n) as i64
    }

    /// Draws the kind of approaches to an end of a runway.
    pub(crate) fn approach(&mut self) -> ApproachKind
        ensures value { result ≡ approach self.new }
        ensures source { self.new ≡ next self.old }
    {
        match self.draw(APPROACHES) {
            0 => ApproachKind::Visual,
            1 => ApproachKind::NonprecisionAbove,
            2 => ApproachKind::NonprecisionLow,
            _ => ApproachKind::Precision,
        }
    }
}
