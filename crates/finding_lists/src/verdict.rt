//! The verdict on a list of findings.

ghost use Rattle.std.specs.Prelude.{◌≡◌, []};
ghost use Rattle.finding_lists.specs.Verdicts.{tally_of};

/// The verdict on a list of findings.
#[derive(Clone, Copy, Debug, PartialEq, Eq)]
pub struct Verdict {
    /// Whether the list has a notice rule of 77.9.
    pub notice: bool,
    /// Whether the list has a standard of 77.17, 77.19 or 77.23.
    pub obstruction: bool,
    /// The number of findings.
    pub entries: u32,
}

impl Verdict {
    /// The verdict on no findings.
    pub fn none() -> Verdict
        ensures { result ≡ tally_of [] }
    {
        Verdict {
            notice: false,
            obstruction: false,
            entries: 0,
        }
    }
}
