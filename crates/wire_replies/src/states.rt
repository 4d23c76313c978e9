//! The words for statuses.

ghost use Rattle.std.specs.Prelude.{◌≡◌};
ghost use Rattle.wire_replies.specs.States as spec;

use determination_dates::Status;

pub(crate) fn status_word(status: Status) -> &'static str
    ensures { result.now ≡ spec.status_word status }
{
    match status {
        Status::Awaiting => "awaiting",
        Status::Pending => "pending",
        Status::InForce => "inforce",
        Status::HazardStands => "hazard",
        Status::Expired => "expired",
        Status::Abandoned => "abandoned",
        Status::Reversed => "reversed",
    }
}
