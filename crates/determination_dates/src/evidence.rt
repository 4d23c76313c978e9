//! The evidence for an extension of a structure that needs a construction permit of the FCC (77.35(c)).

ghost use Rattle.std.specs.Prelude.{◌↔◌, IsTrue, pos, ◌≤ℤ◌};
ghost use Rattle.jiff_core.specs.Date.{epoch_day};
ghost use Rattle.jiff_span.specs.Months.{add_months};
ghost use Rattle.determination_dates.specs.Days.{IsLimited};

use crate::days::months_later;
use jiff::civil::Date;

/// Months after issuance within which the application to the FCC is filed (77.35(c)(1)).
pub const EVIDENCE_MONTHS: u8 = 6;

/// Whether an application to the FCC was filed at most 6 months after a determination was issued (77.35(c)(1)).
pub fn is_filed_in_time(issued: Date, filed: Date) -> bool
    requires { IsLimited issued }
    ensures { IsTrue result ↔ (epoch_day filed ≤ℤ add_months issued (pos EVIDENCE_MONTHS)) }
{
    filed <= months_later(issued, EVIDENCE_MONTHS)
}
