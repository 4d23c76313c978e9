//! Views of cases, for the replies to queries.

ghost use Rattle.std.specs.Prelude.{◌≡◌, IfSome};
ghost use Rattle.case_acts.specs.Cases.{IsSound};
ghost use Rattle.desk_machine.specs.Views.{status_on as status_by, view_of as viewed};

use case_records::{CaseView, KeptCase};
use determination_dates::{Status, effective, expiry, last_extension_day, status};
use jiff::civil::Date;

/// The status of a case on the desk's day.
pub(crate) fn status_on(day: Option<Date>, case: &KeptCase) -> Status
    requires { IsSound case.now }
    ensures { result ≡ status_by day case.now }
{
    match day {
        Some(today) => status(&case.life, today),
        None => Status::Awaiting,
    }
}

/// The view of a case: its status on the desk's day, and its determination.
pub fn view_of(day: Option<Date>, marked: bool, number: u32, case: &KeptCase) -> CaseView
    requires { IsSound case.now }
    ensures { result ≡ viewed day marked number case.now }
{
    let status = status_on(day, case);
    let Some(record) = case.life.determination else {
        return CaseView {
            case: number,
            status,
            decision: None,
            issued: None,
            deadline: None,
            effective: None,
            expiry: None,
            last_day: None,
            marked,
        };
    };
    CaseView {
        case: number,
        status,
        decision: Some(record.decision),
        issued: Some(record.issued),
        deadline: record.deadline,
        effective: effective(&record),
        expiry: expiry(&record),
        last_day: last_extension_day(&record),
        marked,
    }
}
