//! The ends of a runway.

ghost use Rattle.std.specs.Prelude.{◌≡◌};

use airfields::{Runway, RunwayEnd};

/// One of the two ends of a runway.
#[derive(Clone, Copy, Debug, PartialEq, Eq)]
pub enum End {
    One,
    Two,
}

impl End {
    ghost use Rattle.runway_lines.specs.Ends.{end_of, other_end as other_of};

    /// The other end.
    pub fn other(self) -> End
        ensures { result ≡ other_of self }
    {
        match self {
            End::One => End::Two,
            End::Two => End::One,
        }
    }

    /// This end of a runway.
    pub fn of(self, runway: &Runway) -> RunwayEnd
        ensures { result ≡ end_of runway.now self }
    {
        match self {
            End::One => runway.end1,
            End::Two => runway.end2,
        }
    }
}
