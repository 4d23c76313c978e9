//! Lines that ask about a structure.

ghost use Rattle.std.specs.Prelude.{◌≡◌, ◌≢◌, ◌++◌, IfSome, IfNone, OnOk, OnErr, string_bytes};
ghost use Rattle.grid_exact.specs.Texts.{Extends};
ghost use Rattle.airfields.specs.Sites.{Site};
ghost use Rattle.site_questions.specs.Charts.{refusal_text};
ghost use Rattle.wire_requests.specs.declared.request.Request.TheVariants as requests;
ghost use Rattle.wire_requests.specs.declared.request.Query.TheVariants as queries;

use airfields::Filing;
use grid_exact::NoMemory;
use wire_replies::{Refusal, Reply, append_reply};
use wire_requests::{Query, ReadRefusal, Request};

/// The field of a record that names its form, counted from 1.
pub const FORM_FIELD: u32 = 1;

/// The structure of a `screen` record; `None` for a record of another form.
pub(crate) fn screen_of(request: &Request) -> Option<&Filing>
    ensures some { IfSome result (λ filing. request.now
        ≡ requests.Query (queries.Screen filing.now)) }
    ensures none { IfNone result ((site : Site)
        → request.now ≢ requests.Query (queries.Screen site)) }
{
    match request {
        Request::Query(Query::Screen(filing)) => Some(filing),
        _ => None,
    }
}

/// Appends the refusal of a line.
pub(crate) fn append_refused(text: &mut String, refusal: ReadRefusal) -> Result<(), NoMemory>
    ensures ok { OnOk result (string_bytes text.new
        ≡ string_bytes text.old ++ refusal_text refusal) }
    ensures part { OnErr result (Extends (string_bytes text.old) (string_bytes text.new)) }
{
    match refusal {
        ReadRefusal::Malformed { field } => {
            append_reply(text, &Reply::Refused(Refusal::Malformed { field }))
        }
        ReadRefusal::NoMemory => append_reply(text, &Reply::Refused(Refusal::NoMemory)),
    }
}
