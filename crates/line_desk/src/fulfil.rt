//! The desk's replies to requests.

ghost use Rattle.std.specs.Prelude.{◌≡◌, OnOk, OnErr, string_bytes};
ghost use Rattle.grid_exact.specs.Texts.{Extends};
ghost use Rattle.line_desk.specs.Desk.{IsAfter, Tells, change_reply, serving};
ghost use Rattle.wire_requests.specs.declared.request.Request.TheVariants as requests;
ghost use Rattle.wire_requests.specs.declared.request.Query.TheVariants as queries;

use airfields::Filing;
use desk_queries::{reply, screen};
use filing_desk::{Answer, Clerk};
use grid_exact::NoMemory;
use oe_findings::Findings;
use oe_keeper::Keeper;
use oe_wire::{Change, Query, Refusal, Reply, Request, append_found, append_reply};
use std::alloc::Global;

/// Appends the reply with the findings of a structure. `list` is a buffer that is reused.
fn append_findings<K: Keeper>(
    alloc: Global,
    clerk: &Clerk<K>,
    list: &mut Findings,
    filing: &Filing,
    text: &mut String,
) -> Result<(), NoMemory>
    ensures ok { OnOk result (Tells K.IsSteady K.faults (serving clerk.now)
        (requests.Query (queries.Screen filing.now))
        (string_bytes text.old) (string_bytes text.new) (serving clerk.now)) }
    ensures made { OnErr result (IsAfter K.IsSteady K.faults (serving clerk.now)
        (requests.Query (queries.Screen filing.now)) (serving clerk.now)) }
    ensures part { OnErr result (Extends (string_bytes text.old) (string_bytes text.new)) }
{
    if screen(alloc, clerk.sky(), list, filing).is_err() {
        return append_reply(text, &Reply::Refused(Refusal::NoMemory));
    }
    append_found(text, clerk.accepted(), list.as_slice())
}

/// The reply to a change.
fn reply_of(answer: Answer) -> Reply
    ensures { result ≡ change_reply answer }
{
    match answer {
        Answer::Accepted { entry, outcome } => Reply::Accepted {
            entry,
            published: true,
            outcome,
        },
        Answer::Refused(refusal) => Reply::Refused(refusal),
    }
}

/// Makes a change, or refuses it, and appends the reply.
fn make_change<K: Keeper>(
    alloc: Global,
    clerk: &mut Clerk<K>,
    change: &Change,
    text: &mut String,
) -> Result<(), NoMemory>
    ensures ok { OnOk result (Tells K.IsSteady K.faults (serving clerk.old)
        (requests.Change change.now)
        (string_bytes text.old) (string_bytes text.new) (serving clerk.new)) }
    ensures made { OnErr result (IsAfter K.IsSteady K.faults (serving clerk.old)
        (requests.Change change.now) (serving clerk.new)) }
    ensures part { OnErr result (Extends (string_bytes text.old) (string_bytes text.new)) }
{
    let answer = clerk.apply(alloc, change);
    append_reply(text, &reply_of(answer))
}

/// Appends the reply to a query.
pub(crate) fn ask<K: Keeper>(
    alloc: Global,
    clerk: &Clerk<K>,
    list: &mut Findings,
    query: &Query,
    text: &mut String,
) -> Result<(), NoMemory>
    ensures ok { OnOk result (Tells K.IsSteady K.faults (serving clerk.now)
        (requests.Query query.now)
        (string_bytes text.old) (string_bytes text.new) (serving clerk.now)) }
    ensures made { OnErr result (IsAfter K.IsSteady K.faults (serving clerk.now)
        (requests.Query query.now) (serving clerk.now)) }
    ensures part { OnErr result (Extends (string_bytes text.old) (string_bytes text.new)) }
{
    if let Query::Screen(filing) = query {
        return append_findings(alloc, clerk, list, filing, text);
    }
    append_reply(text, &reply(alloc, clerk, query))
}

/// Carries out a request, and appends the reply.
pub(crate) fn fulfil<K: Keeper>(
    alloc: Global,
    clerk: &mut Clerk<K>,
    list: &mut Findings,
    request: &Request,
    text: &mut String,
) -> Result<(), NoMemory>
    ensures ok { OnOk result (Tells K.IsSteady K.faults (serving clerk.old)
        request.now
        (string_bytes text.old) (string_bytes text.new) (serving clerk.new)) }
    ensures made { OnErr result (IsAfter K.IsSteady K.faults (serving clerk.old)
        request.now (serving clerk.new)) }
    ensures part { OnErr result (Extends (string_bytes text.old) (string_bytes text.new)) }
{
    match request {
        Request::Query(query) => ask(alloc, clerk, list, query, text),
        Request::Change(change) => make_change(alloc, clerk, change, text),
    }
}
