//! The statuses in which each act on a case is allowed.

ghost use Rattle.std.specs.Prelude.{◌≡◌};
ghost use Rattle.case_acts.specs.Standing.{is_awaiting as awaiting, is_standing as standing, is_in_force as in_force, is_planned as planned};

use determination_dates::Status;

/// Whether no determination was made yet, so that one may be issued (77.31).
pub fn is_awaiting(s: Status) -> bool
    ensures { result ≡ awaiting s }
{
    match s {
        Status::Awaiting => true,
        _ => false,
    }
}

/// Whether a determination stands, so that it may be petitioned (77.37).
pub fn is_standing(s: Status) -> bool
    ensures { result ≡ standing s }
{
    match s {
        Status::Pending | Status::InForce | Status::HazardStands => true,
        _ => false,
    }
}

/// Whether a determination of no hazard is in force, so that it may be extended or revised (77.35).
pub fn is_in_force(s: Status) -> bool
    ensures { result ≡ in_force s }
{
    match s {
        Status::InForce => true,
        _ => false,
    }
}

/// Whether the structure may be built, now or later, so that it may be abandoned (77.33(b)).
pub fn is_planned(s: Status) -> bool
    ensures { result ≡ planned s }
{
    match s {
        Status::Awaiting | Status::Pending | Status::InForce => true,
        _ => false,
    }
}
