//! The position of a point relative to a line, in 64-bit numbers.

ghost use Rattle.std.specs.Prelude.{◌≡◌, ◌^◌, ◌≤◌, ◌≤ℤ◌, ◌<ℤ◌, ◌-ℤ◌, neg_ℤ, pos, unsigned_abs};
ghost use Rattle.std.specs.Int.{int_max};
ghost use Rattle.grid_exact.specs.Axes.{line_of};
ghost use Rattle.grid_exact.specs.Lines.{IsOffset, IsReach, IsSquare, offset as offset_of};
ghost use Rattle.imaginary_surfaces.specs.Clearances.{past_end};

use crate::roots::short;
use grid_exact::{Axis, Point};
use std::marker::Model;

/// The position of a point relative to a line: an offset with 64-bit numbers.
#[derive(Clone, Copy)]
pub(crate) struct Place {
    along: i64,
    aside: u64,
    square: u64,
}

impl Model for Place {
    ghost use Rattle.grid_exact.specs.Lines.{Offset as OffsetOf, IsOffset};

    ghost Value = { OffsetOf };

    ghost view = { λ p. record { along = p.along; aside = p.aside; square = p.square } };

    ghost invariant = { λ p. IsOffset p.along p.aside p.square };

    ghost inverse = { λ v. record { along = v.along; aside = v.aside; square = v.square } };
}

/// The square of a length as 64 bits.
fn short_square(square: u128) -> u64
    requires { square ≤ 2 ^ 55 }
    ensures { result ≡ square }
{
    square as u64
}

/// The distance of `along` beyond the interval from 0 to `length`, or 0 within it.
fn past_either(along: i64, length: i64) -> i64
    requires along { unsigned_abs along ≤ 2 ^ 45 }
    requires length { unsigned_abs length ≤ 2 ^ 45 }
    ensures { result ≡ int_max (int_max (neg_ℤ along) (along -ℤ length)) (pos 0) }
{
    (-along).max(along - length).max(0)
}

impl Place {
    /// The position of a point relative to a line.
    pub(crate) fn by(axis: &Axis, x: &Point) -> Place
        ensures { result ≡ offset_of (line_of axis.now) x.now }
    {
        let way = axis.from.to_point(x);
        let along = short(way.dot(&axis.way));
        let aside = short(way.cross(&axis.way));
        let square = short_square(axis.way.square_length());
        Place {
            along,
            aside: aside.unsigned_abs(),
            square,
        }
    }

    /// The position relative to the line with the same start and the opposite direction.
    #[tactic(auto, using(crate::proofs::PlaceFacts::places))]
    pub(crate) fn turned(&self) -> Place
        ensures along { result.along ≡ neg_ℤ self.now.along }
        ensures aside { result.aside ≡ self.now.aside }
        ensures square { result.square ≡ self.now.square }
    {
        Place {
            along: -self.along,
            aside: self.aside,
            square: self.square,
        }
    }

    /// The position relative to the line that continues from the end of this one, for a point past that end.
    #[tactic(auto, using(crate::proofs::PlaceFacts::places))]
    pub(crate) fn moved(&self) -> Place
        requires past { pos self.now.square <ℤ self.now.along }
        ensures along { result.along ≡ self.now.along -ℤ pos self.now.square }
        ensures aside { result.aside ≡ self.now.aside }
        ensures square { result.square ≡ self.now.square }
    {
        Place {
            along: self.along - self.square as i64,
            aside: self.aside,
            square: self.square,
        }
    }

    /// The distance of the point past either end of the line, times the line's length.
    pub(crate) fn ahead(&self) -> i64
        ensures value { result ≡ past_end self.now }
        ensures least { pos 0 ≤ℤ result }
        ensures most { result ≤ℤ pos (2 ^ 46) }
    {
        past_either(self.along, self.square as i64)
    }

    /// The distance to a side of the line, times the line's length.
    pub(crate) fn short_aside(&self) -> i64
        ensures value { result ≡ pos self.now.aside }
        ensures most { result ≤ℤ pos (2 ^ 45) }
    {
        self.aside as i64
    }

    /// The distance from the start in the line's direction, times the line's length.
    pub(crate) fn along(&self) -> i128
        ensures value { result ≡ self.now.along }
        ensures reach { IsReach (unsigned_abs self.now.along) self.now.square }
    {
        self.along as i128
    }

    /// The distance to a side of the line, times the line's length.
    pub(crate) fn aside(&self) -> i128
        ensures value { result ≡ pos self.now.aside }
        ensures reach { IsReach self.now.aside self.now.square }
    {
        self.aside as i128
    }

    /// The square of the line's length.
    pub(crate) fn square(&self) -> u128
        ensures value { result ≡ self.now.square }
        ensures line { IsSquare self.now.square }
    {
        self.square as u128
    }
}
