//! The reports of the desk.

ghost use Rattle.std.specs.Prelude.{◌≡◌};

/// A report of the desk.
#[derive(Clone, Copy, Debug, PartialEq, Eq)]
pub enum ReportKind {
    /// The cases that are marked for review.
    Review,
    /// The standing determinations that have an expiry.
    Expiry,
    /// The airfields of the register.
    Airfields,
}

impl ReportKind {
    ghost use Rattle.wire_values.specs.Words.{report_word};

    /// The name of the report.
    pub fn word(self) -> &'static str
        ensures { result.now ≡ report_word self }
    {
        match self {
            ReportKind::Review => "review",
            ReportKind::Expiry => "expiry",
            ReportKind::Airfields => "airfields",
        }
    }
}
