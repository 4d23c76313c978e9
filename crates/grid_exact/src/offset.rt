//! The position of a point relative to a line.

ghost use Rattle.std.specs.Prelude.{◌≡◌, ◌^◌, ◌≤◌, pos, unsigned_abs};
ghost use Rattle.grid_exact.specs.Lines.{IsOffset, IsReach, IsSquare};

use std::marker::Model;

/// The position of a point relative to a line: its distance along the line from the start and its distance to a side, both multiplied
/// by the length of the line's vector, and the square of that length, in square tenths of a foot. It is computed once for all
/// surfaces along one line.
#[derive(Clone, Copy)]
pub struct Offset {
    along: i128,
    aside: u128,
    square: u128,
}

impl Model for Offset {
    ghost use Rattle.grid_exact.specs.Lines.{Offset as OffsetOf, IsOffset};

    ghost Value = { OffsetOf };

    ghost view = { λ o. record { along = o.along; aside = o.aside; square = o.square } };

    ghost invariant = { λ o. IsOffset o.along o.aside o.square };

    ghost inverse = { λ v. record { along = v.along; aside = v.aside; square = v.square } };
}

impl Offset {
    /// The offset with these numbers, which must belong to a point of the grid and a line.
    pub(crate) fn new(along: i128, aside: u128, square: u128) -> Offset
        requires sizes { IsOffset along aside square }
        ensures along { result.along ≡ along }
        ensures aside { result.aside ≡ aside }
        ensures square { result.square ≡ square }
    {
        Offset {
            along,
            aside,
            square,
        }
    }

    /// Distance from the start in the line's direction, times the vector's length; negative behind the start.
    pub fn along(&self) -> i128
        ensures value { result ≡ self.now.along }
        ensures reach { IsReach (unsigned_abs self.now.along) self.now.square }
    {
        self.along
    }

    /// Distance to a side of the line, times the vector's length; never negative.
    pub fn aside(&self) -> i128
        ensures value { result ≡ pos self.now.aside }
        ensures reach { IsReach self.now.aside self.now.square }
    {
        self.aside as i128
    }

    /// The square of the vector's length.
    pub fn square(&self) -> u128
        ensures value { result ≡ self.now.square }
        ensures line { IsSquare self.now.square }
    {
        self.square
    }
}
