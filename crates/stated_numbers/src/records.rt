//! Numbers of records and reports, and of the plane of areas.

ghost use Rattle.std.specs.Prelude.{◌≡◌, pos};
ghost use Rattle.oe_reports.specs.declared.columns.TheConstants.{CASE_WIDTH, DECISION_WIDTH, ELEVATION_WIDTH, ID_WIDTH, KIND_WIDTH, RUNWAYS_WIDTH};

use outline_boxes::PLANE_LIMIT;
use whole_number::NUMBER_LIMIT;
use wire_values::{CASE_LIMIT, WORD_LIMIT};

/// A lemma, never run: a whole number of a record has at most nine digits, the number of a case at most six; a caller and a key have at most
/// 16 characters.
pub fn record_numbers()
    ensures number { NUMBER_LIMIT ≡ pos 999_999_999 }
    ensures case { CASE_LIMIT ≡ 999_999 }
    ensures word { WORD_LIMIT ≡ 16 }
{}

/// A lemma, never run: the widths of the columns of reports, in characters.
pub fn report_widths()
    ensures case { CASE_WIDTH ≡ 6 }
    ensures decision { DECISION_WIDTH ≡ 8 }
    ensures id { ID_WIDTH ≡ 8 }
    ensures kind { KIND_WIDTH ≡ 8 }
    ensures elevation { ELEVATION_WIDTH ≡ 7 }
    ensures runways { RUNWAYS_WIDTH ≡ 2 }
{}

/// A lemma, never run: the areas of surfaces lie within 2^25 tenths of a foot of 0, in each coordinate.
pub fn plane_limit()
    ensures { PLANE_LIMIT ≡ pos 33_554_432 }
{}
