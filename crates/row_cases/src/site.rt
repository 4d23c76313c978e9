//! Reads the fields of structures and notices.

ghost use Rattle.std.specs.Prelude.{◌≡◌, ◌≢◌, ◌++◌, ◌∷◌, ℕ, ℤ, pos, List, Bool, Option, IfSome, IfNone};
ghost use Rattle.std.specs.Fmt.{signed_decimal};
ghost use Rattle.jiff_core.specs.declared.civil.date.Date.{Date as SomeDate};
ghost use Rattle.grid_exact.specs.declared.point.Point.{Point as SomePoint};
ghost use Rattle.determination_dates.specs.Days.{IsLimited};
ghost use Rattle.determination_dates.specs.Text.{date_text};
ghost use Rattle.airfields.specs.Sites.{Site, greatest_mobile};
ghost use Rattle.airfields.specs.declared.limits.TheConstants.{ELEVATION_LEAST, ELEVATION_MOST};
ghost use Rattle.airfields.specs.declared.structure.TheConstants.{HEIGHT_LIMIT};
ghost use Rattle.airfields.specs.declared.structure.StructureKind.{StructureKind as SomeKind};
ghost use Rattle.airfields.specs.declared.structure.Flags.{Flags as SomeFlags};
ghost use Rattle.case_requests.specs.declared.submission.Submission.{Submission as SomeSubmission};
ghost use Rattle.wire_values.specs.Words.{kind_word, flags_text, name_text, IsAirfieldName, IsBetween, optional_date, IsAnyLimited, urgency_word, statement_word};
ghost use Rattle.wire_cursor.specs.Groups.{point_fields, site_fields, IsValidSite};
ghost use Rattle.wire_requests.specs.Limits.{IsValidSubmission};
ghost use Rattle.wire_requests.specs.Spellings.{submission_fields};

use airfields::{
    ELEVATION_LEAST, ELEVATION_MOST, FieldId, Filing, Flags, HEIGHT_LIMIT, StructureKind,
};
use case_requests::Submission;
use grid_exact::Point;
use jiff::civil::Date;
use row_register::{Parts, point};
use wire_values::{Statement, Urgency};

// A structure's point, ground elevation and height.
#[derive(Clone, Copy)]
struct Stand {
    at: Point,
    terrain: i64,
    height: i64,
}

fn take_stand(parts: &mut Parts<'_>) -> Option<Stand>
    ensures took { IfSome result (λ s. parts.old
        ≡ point_fields s.at ++ (signed_decimal s.terrain ∷ signed_decimal s.height ∷ parts.new)) }
    ensures within { IfSome result (λ s. IsBetween ELEVATION_LEAST ELEVATION_MOST s.terrain
        × IsBetween (pos 0) HEIGHT_LIMIT s.height) }
    ensures none { IfNone result ((at : SomePoint) (terrain height : ℤ) (rest : List (List ℕ))
        → IsBetween ELEVATION_LEAST ELEVATION_MOST terrain
        → IsBetween (pos 0) HEIGHT_LIMIT height
        → parts.old ≢ point_fields at ++
        (signed_decimal terrain ∷ signed_decimal height ∷ rest)) }
{
    let at = point(parts)?;
    let terrain = parts.number(ELEVATION_LEAST, ELEVATION_MOST)?;
    let height = parts.number(0, HEIGHT_LIMIT)?;
    Some(Stand {
        at,
        terrain,
        height,
    })
}

// The kind of a structure, and the height of the highest mobile object on it.
#[derive(Clone, Copy)]
struct Use {
    kind: StructureKind,
    mobile: i64,
}

#[tactic(auto, using(wire_values::proofs::LimitFacts::mobile_short))]
fn take_use(parts: &mut Parts<'_>) -> Option<Use>
    ensures took { IfSome result (λ u. parts.old
        ≡ kind_word u.kind ∷ signed_decimal u.mobile ∷ parts.new) }
    ensures within { IfSome result (λ u. IsBetween (pos 0) (greatest_mobile u.kind) u.mobile) }
    ensures none { IfNone result ((kind : SomeKind) (mobile : ℤ) (rest : List (List ℕ))
        → IsBetween (pos 0) (greatest_mobile kind) mobile
        → parts.old ≢ kind_word kind ∷ signed_decimal mobile ∷ rest) }
{
    let kind: StructureKind = parts.take()?;
    let mobile = parts.number(0, kind.mobile_most())?;
    Some(Use { kind, mobile })
}

// The flags of a structure, and the airfield that it is on.
#[derive(Clone, Copy)]
struct Marks {
    flags: Flags,
    on: Option<FieldId>,
}

fn take_marks(parts: &mut Parts<'_>) -> Option<Marks>
    ensures took { IfSome result (λ m. parts.old
        ≡ flags_text m.flags ∷ name_text m.on ∷ parts.new) }
    ensures named { IfSome result (λ m. IsAirfieldName m.on) }
    ensures none { IfNone result ((flags : SomeFlags) (on : Option (List ℕ)) (rest : List (List ℕ))
        → IsAirfieldName on
        → parts.old ≢ flags_text flags ∷ name_text on ∷ rest) }
{
    let flags = parts.take()?;
    let on = parts.take()?;
    Some(Marks { flags, on })
}

fn take_site(parts: &mut Parts<'_>) -> Option<Filing>
    ensures took { IfSome result (λ s. parts.old ≡ site_fields s ++ parts.new) }
    ensures valid { IfSome result IsValidSite }
    ensures none { IfNone result ((s : Site) (rest : List (List ℕ)) → IsValidSite s
        → parts.old ≢ site_fields s ++ rest) }
{
    let stand = take_stand(parts)?;
    let used = take_use(parts)?;
    let marks = take_marks(parts)?;
    Some(Filing {
        at: stand.at,
        ground: stand.terrain,
        height: stand.height,
        kind: used.kind,
        mobile: used.mobile,
        flags: marks.flags,
        on: marks.on,
    })
}

// The dates of a notice.
#[derive(Clone, Copy)]
struct Dates {
    start: Date,
    permit: Option<Date>,
    fcc: Option<Date>,
}

fn take_dates(parts: &mut Parts<'_>) -> Option<Dates>
    ensures took { IfSome result (λ d. parts.old
        ≡ date_text d.start ∷ optional_date d.permit ∷ optional_date d.fcc ∷ parts.new) }
    ensures limited { IfSome result (λ d. IsLimited d.start × IsAnyLimited d.permit
        × IsAnyLimited d.fcc) }
    ensures none { IfNone result ((start : SomeDate) (permit fcc : Option SomeDate)
        (rest : List (List ℕ)) → IsLimited start → IsAnyLimited permit
        → IsAnyLimited fcc
        → parts.old ≢ date_text start ∷ optional_date permit ∷ optional_date fcc ∷ rest) }
{
    let start = parts.take()?;
    let permit = parts.take()?;
    let fcc = parts.take()?;
    Some(Dates { start, permit, fcc })
}

// Whether a notice is an emergency, and whether it has a statement.
#[derive(Clone, Copy)]
struct Manner {
    emergency: bool,
    statement: bool,
}

fn take_manner(parts: &mut Parts<'_>) -> Option<Manner>
    ensures took { IfSome result (λ m. parts.old
        ≡ urgency_word m.emergency ∷ statement_word m.statement ∷ parts.new) }
    ensures none { IfNone result ((emergency statement : Bool) (rest : List (List ℕ))
        → parts.old ≢ urgency_word emergency ∷ statement_word statement ∷ rest) }
{
    let urgency: Urgency = parts.take()?;
    let statement: Statement = parts.take()?;
    Some(Manner {
        emergency: urgency.emergency,
        statement: statement.explains,
    })
}

/// Takes a notice from the next parts.
pub(crate) fn take_submission(parts: &mut Parts<'_>) -> Option<Submission>
    ensures took { IfSome result (λ s. parts.old ≡ submission_fields s ++ parts.new) }
    ensures valid { IfSome result IsValidSubmission }
    ensures none { IfNone result ((s : SomeSubmission) (rest : List (List ℕ)) → IsValidSubmission s
        → parts.old ≢ submission_fields s ++ rest) }
{
    let dates = take_dates(parts)?;
    let manner = take_manner(parts)?;
    let filing = take_site(parts)?;
    Some(Submission {
        start: dates.start,
        permit: dates.permit,
        fcc: dates.fcc,
        emergency: manner.emergency,
        statement: manner.statement,
        filing,
    })
}
