//! Lemmas that explain the definitions of this crate; never run.

ghost use Rattle.std.specs.Prelude.{◌≡◌, ◌↔◌, ◌||◌, Bool, List, Option, Some, ℕ, ℤ, pos, neg_ℤ, ◌≤ℤ◌, ◌<ℤ◌};
ghost use Rattle.std.specs.List.{All};
ghost use Rattle.std.specs.Ordering.{int_eq};
ghost use Rattle.jiff_core.specs.Date.{epoch_day};
ghost use Rattle.jiff_core.specs.declared.civil.date.Date.{Date as Plain};
ghost use Rattle.determination_dates.specs.Days.{IsLimited};
ghost use Rattle.determination_dates.specs.Closed.{is_closed, with_day};
ghost use Rattle.determination_dates.specs.Computed.{affirmed_record, deadline_date, deadline_day, extended_record, issued_record, revised_record, timeliness_of};
ghost use Rattle.determination_dates.specs.Dates.{date_on};
ghost use Rattle.determination_dates.specs.Deadlines.{IsDeadline};
ghost use Rattle.determination_dates.specs.Determinations.{record_affirmed_on, record_extended_to, record_revised_as, IsExtension, IsIssued, ordinary_day};
ghost use Rattle.determination_dates.specs.Effects.{IsInRange, IsKept, IsWithinRange};
ghost use Rattle.determination_dates.specs.Notices.{HasLimitedDue, IsTimeliness};
ghost use Rattle.determination_dates.specs.Text.{date_text};
ghost use Rattle.determination_dates.specs.declared.determination.Decision.{Decision};
ghost use Rattle.determination_dates.specs.declared.determination.Record.{Record};
ghost use Rattle.determination_dates.specs.declared.timely.Timeliness.{Timeliness};

use crate::closed::ClosedDays;
use crate::deadline::PETITION_DAYS;
use crate::determination::{EFFECTIVE_DAYS, EXTENSION_MONTHS, MOST_EXTENSIONS, MOST_REVISIONS};
use crate::effects::{EXTENSION_DAYS, PERIOD_MONTHS};
use crate::evidence::EVIDENCE_MONTHS;
use crate::limit::{FIRST_DAY, LAST_DAY};
use crate::notice::{FORM_DAYS, NOTICE_DAYS};

/// The dates within the limit are those of the years 1900 to 2999.
pub fn limit_by_years()
    ensures { (d : Plain) → IsLimited d ↔ ((pos 1900 ≤ℤ d.year) × (d.year ≤ℤ pos 2999)) }
{}

/// After a day is added, it is closed, and every other day is closed exactly where it was before.
pub fn closed_with()
    ensures { (d : Plain) (closed : List Plain) (z : ℤ) →
        is_closed (with_day d closed) z ≡ (int_eq z (epoch_day d) || is_closed closed z) }
{}

/// For every set of closed days there is exactly one deadline, and it is the day that the definition computes.
pub fn one_deadline()
    ensures found { (closed : List Plain) (issued : ℤ) →
        IsDeadline closed issued (deadline_day closed issued) }
    ensures one { (closed : List Plain) (issued z w : ℤ) → IsDeadline closed issued z →
        IsDeadline closed issued w → z ≡ w }
{}

/// The ordinary effective day of a determination that may be petitioned is after the last day for a petition, so one that was issued so is
/// not in effect while a petition may still be made.
pub fn effective_after_deadline()
    ensures { (issued deadline : ℤ) → deadline <ℤ ordinary_day issued (Some deadline) }
{}

/// Two dates within the limit with the same text are the same date.
pub fn one_date()
    ensures { (a b : Plain) → IsLimited a → IsLimited b → date_text a ≡ date_text b → a ≡ b }
{}

/// Issuance determines one record.
pub fn one_record()
    ensures { (issued : Plain) (decision : Decision) (reviewable : Bool) (closed : List Plain)
        (r s : Record) → IsIssued issued decision reviewable closed r →
        IsIssued issued decision reviewable closed s → r ≡ s }
{}

/// For every set of closed days within the limit, issuance has a record: so an issuance is refused only where dates of that record are
/// outside the limit.
pub fn some_record()
    ensures { (issued : Plain) (decision : Decision) (reviewable : Bool) (closed : List Plain) →
        IsLimited issued → All IsLimited closed →
        (r : Record) × IsIssued issued decision reviewable closed r }
{}

/// Every stored set of closed days has such a record.
pub fn some_limited_record(closed: &ClosedDays)
    ensures { (issued : Plain) (decision : Decision) (reviewable : Bool) →
        IsLimited issued → (r : Record) × IsIssued issued decision reviewable closed.now r }
{
    some_record();
    closed.order();
}

/// The numbers of the date rules. Notice is due 45 days before the work or the application (77.7(b)), an emergency's form 5 days after
/// the notice (77.7(e)). A petition is received within 30 days (77.39(a)), and a determination that may be petitioned is effective after
/// 40 (77.33(a)). It expires after 18 months (77.33(b)). An extension is requested 15 days before the expiry (77.35(a)(2)) and is for at
/// most 18 months (77.35(b), (c)); an application to the FCC is filed within 6 months of issuance (77.35(c)(1)). Dates are from
/// 1900-01-01 to 2999-12-31, as days from 1970-01-01, and extensions are counted up to 255. A determination is revised at most 255 times.
pub fn numbers()
    ensures notice { NOTICE_DAYS ≡ pos 45 }
    ensures form { FORM_DAYS ≡ pos 5 }
    ensures petition { PETITION_DAYS ≡ pos 30 }
    ensures effective { EFFECTIVE_DAYS ≡ pos 40 }
    ensures period { PERIOD_MONTHS ≡ 18 }
    ensures extension_days { EXTENSION_DAYS ≡ pos 15 }
    ensures extension_months { EXTENSION_MONTHS ≡ 18 }
    ensures evidence { EVIDENCE_MONTHS ≡ 6 }
    ensures first_day { FIRST_DAY ≡ neg_ℤ (pos 25_567) }
    ensures last_day { LAST_DAY ≡ pos 376_199 }
    ensures extensions { MOST_EXTENSIONS ≡ 255 }
    ensures revisions { MOST_REVISIONS ≡ 255 }
{}

/// From 1899-01-01 on, for more than 1,700 years, `date_on` is the date with the day number.
pub fn date_on_is()
    ensures { (z : ℤ) → neg_ℤ (pos 25_932) ≤ℤ z → z ≤ℤ pos 600_000 →
        (d : Plain) × (date_on z ≡ Some d) × (epoch_day d ≡ z) }
{}

/// `deadline_date` is the last day for a petition, where that is within the limit, and else none.
pub fn deadline_date_is()
    ensures { (closed : List Plain) (issued d : Plain) → (deadline_date closed issued ≡ Some d)
        ↔ (IsDeadline closed (epoch_day issued) (epoch_day d) × IsLimited d) }
{}

/// `timeliness_of` is the timeliness of a notice, where the due day of an emergency's form is within the limit, and else none.
pub fn timeliness_is()
    ensures { (received start : Plain) (permit : Option Plain) (emergency : Bool)
        (t : Timeliness) → (timeliness_of received start permit emergency ≡ Some t)
        ↔ (IsTimeliness received start permit emergency t × HasLimitedDue t) }
{}

/// `issued_record` is the record made at issuance, where its dates are within the limit, and else none.
pub fn issued_record_is()
    ensures { (issued : Plain) (decision : Decision) (reviewable : Bool) (closed : List Plain)
        (r : Record) → IsLimited issued → (issued_record issued decision reviewable closed ≡ Some r)
        ↔ (IsIssued issued decision reviewable closed r × IsWithinRange r) }
{}

/// `affirmed_record` is the record after an affirmation, where its dates are within the limit, and else none.
pub fn affirmed_record_is()
    ensures { (day : Plain) (r s : Record) → IsLimited day → IsKept r →
        (affirmed_record day r ≡ Some s) ↔ ((s ≡ record_affirmed_on day r) × IsInRange s) }
{}

/// `extended_record` is the record after an extension, where the new expiry is within the limit, and else none.
pub fn extended_record_is()
    ensures { (months : ℕ) (r s : Record) → IsKept r → (extended_record months r ≡ Some s)
        ↔ ((x : Plain) × IsExtension r months x × IsLimited x × (s ≡ record_extended_to x r)) }
{}

/// `revised_record` is the record that is issued on the day of a revision in the place of the old one, where its dates are within the limit,
/// and else none.
pub fn revised_record_is()
    ensures { (day : Plain) (decision : Decision) (reviewable : Bool) (closed : List Plain)
        (r s : Record) → IsLimited day → (revised_record day decision reviewable closed r ≡ Some s)
        ↔ ((x : Record) × IsIssued day decision reviewable closed x × IsWithinRange x
        × (s ≡ record_revised_as x r)) }
{}
