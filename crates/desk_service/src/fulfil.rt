//! The desk's replies to requests.

ghost use Rattle.std.specs.Prelude.{◌≡◌, OnOk, OnErr, string_bytes};
ghost use Rattle.grid_exact.specs.Texts.{Extends};
ghost use Rattle.desk_service.specs.Replies.{IsAfter, Tells};
ghost use Rattle.wire_requests.specs.declared.request.Request.TheVariants as requests;
ghost use Rattle.wire_requests.specs.declared.request.Query.TheVariants as queries;

use crate::place::Place;
use airfields::Filing;
use desk_queries::{screen, verdict};
use grid_exact::NoMemory;
use oe_findings::Findings;
use oe_wire::{Query, Refusal, Reply, Request, append_found, append_reply};
use publishing_clerk::{Front, Opening};
use std::alloc::Global;
use std::sync::Wait;

/// Appends the reply with the findings of a structure. `list` is a buffer that is reused.
fn append_findings<F: Front<J>, J: Opening, R: Wait>(
    alloc: Global,
    place: &mut Place<'_, F, J, R>,
    list: &mut Findings,
    filing: &Filing,
    text: &mut String,
) -> Result<(), NoMemory>
    ensures ok { OnOk result (Tells F.Keeper.IsSteady F.Keeper.faults J.first J.base J.opening
        place.old (requests.Query (queries.Screen filing.now))
        (string_bytes text.old) (string_bytes text.new) place.new) }
    ensures made { OnErr result (IsAfter F.Keeper.IsSteady F.Keeper.faults J.first J.base J.opening
        place.old (requests.Query (queries.Screen filing.now)) place.new) }
    ensures part { OnErr result (Extends (string_bytes text.old) (string_bytes text.new)) }
{
    let Ok(shown) = place.look() else {
        return append_reply(text, &Reply::Refused(Refusal::NoMemory));
    };
    if screen(alloc, &shown.value, list, filing).is_err() {
        return append_reply(text, &Reply::Refused(Refusal::NoMemory));
    }
    append_found(text, place.seat.base() + shown.number, list.as_slice())
}

/// Appends the reply with the verdict on a structure's findings.
fn append_verdict<F: Front<J>, J: Opening, R: Wait>(
    place: &mut Place<'_, F, J, R>,
    filing: &Filing,
    text: &mut String,
) -> Result<(), NoMemory>
    ensures ok { OnOk result (Tells F.Keeper.IsSteady F.Keeper.faults J.first J.base J.opening
        place.old (requests.Query (queries.Verdict filing.now))
        (string_bytes text.old) (string_bytes text.new) place.new) }
    ensures made { OnErr result (IsAfter F.Keeper.IsSteady F.Keeper.faults J.first J.base J.opening
        place.old (requests.Query (queries.Verdict filing.now)) place.new) }
    ensures part { OnErr result (Extends (string_bytes text.old) (string_bytes text.new)) }
{
    let Ok(shown) = place.look() else {
        return append_reply(text, &Reply::Refused(Refusal::NoMemory));
    };
    let reply = Reply::Verdict {
        last: place.seat.base() + shown.number,
        verdict: verdict(&shown.value, filing),
    };
    append_reply(text, &reply)
}

/// Appends the number of the last entry that the session sees, once its seat was told of all that is published.
fn sync<F: Front<J>, J: Opening, R: Wait>(
    place: &mut Place<'_, F, J, R>,
    text: &mut String,
) -> Result<(), NoMemory>
    ensures ok { OnOk result (Tells F.Keeper.IsSteady F.Keeper.faults J.first J.base J.opening
        place.old (requests.Query queries.Sync)
        (string_bytes text.old) (string_bytes text.new) place.new) }
    ensures made { OnErr result (IsAfter F.Keeper.IsSteady F.Keeper.faults J.first J.base J.opening
        place.old (requests.Query queries.Sync) place.new) }
    ensures part { OnErr result (Extends (string_bytes text.old) (string_bytes text.new)) }
{
    place.learn();
    let Ok(shown) = place.look() else {
        return append_reply(text, &Reply::Refused(Refusal::NoMemory));
    };
    let last = place.seat.base() + shown.number;
    append_reply(text, &Reply::Synced { last })
}

/// Appends the reply to a query.
pub(crate) fn ask<F: Front<J>, J: Opening, R: Wait>(
    alloc: Global,
    place: &mut Place<'_, F, J, R>,
    list: &mut Findings,
    query: &Query,
    text: &mut String,
) -> Result<(), NoMemory>
    ensures ok { OnOk result (Tells F.Keeper.IsSteady F.Keeper.faults J.first J.base J.opening
        place.old (requests.Query query.now)
        (string_bytes text.old) (string_bytes text.new) place.new) }
    ensures made { OnErr result (IsAfter F.Keeper.IsSteady F.Keeper.faults J.first J.base J.opening
        place.old (requests.Query query.now) place.new) }
    ensures part { OnErr result (Extends (string_bytes text.old) (string_bytes text.new)) }
{
    match query {
        Query::Screen(filing) => append_findings(alloc, place, list, filing, text),
        Query::Verdict(filing) => append_verdict(place, filing, text),
        Query::Sync => sync(place, text),
        Query::Case(_) | Query::Airfield(_) | Query::Review | Query::Report(_) => {
            place.ask(alloc, query, text)
        }
    }
}

/// Carries out a request, and appends the reply.
pub(crate) fn fulfil<F: Front<J>, J: Opening, R: Wait>(
    alloc: Global,
    place: &mut Place<'_, F, J, R>,
    list: &mut Findings,
    request: &Request,
    text: &mut String,
) -> Result<(), NoMemory>
    ensures ok { OnOk result (Tells F.Keeper.IsSteady F.Keeper.faults J.first J.base J.opening
        place.old request.now
        (string_bytes text.old) (string_bytes text.new) place.new) }
    ensures made { OnErr result (IsAfter F.Keeper.IsSteady F.Keeper.faults J.first J.base J.opening
        place.old request.now place.new) }
    ensures part { OnErr result (Extends (string_bytes text.old) (string_bytes text.new)) }
{
    match request {
        Request::Query(query) => ask(alloc, place, list, query, text),
        Request::Change(change) => place.change(alloc, change, text),
    }
}
