//! The replies to queries.

ghost use Rattle.std.specs.Prelude.{◌≡◌, IfOk};
ghost use Rattle.wire_replies.specs.Rows.{airfield_row};
ghost use Rattle.desk_queries.specs.Queries.{IsAnswer, IsReport};
ghost use Rattle.wire_requests.specs.declared.request.Query.TheVariants as queries;
ghost use Rattle.wire_replies.specs.declared.reply.Reply.TheVariants as replies;

use crate::screening::verdict;
use airfields::{Airfield, FieldId, Filing};
use filing_desk::Clerk;
use grid_exact::{NoMemory, Text};
use oe_keeper::Keeper;
use oe_reports::airfield_table;
use oe_wire::{Query, Refusal, Reply, ReportKind, append_airfield};
use review_marks::findings;
use std::alloc::Global;

/// The reply with the findings of a structure.
fn found<K: Keeper>(alloc: Global, clerk: &Clerk<K>, filing: &Filing) -> Reply
    ensures { IsAnswer clerk.now.state (queries.Screen filing.now) result }
{
    match findings(alloc, clerk.sky(), filing) {
        Ok(list) => Reply::Found {
            last: clerk.accepted(),
            list,
        },
        Err(NoMemory) => Reply::Refused(Refusal::NoMemory),
    }
}

/// The reply with the verdict on a structure's findings.
fn judged<K: Keeper>(clerk: &Clerk<K>, filing: &Filing) -> Reply
    ensures { IsAnswer clerk.now.state (queries.Verdict filing.now) result }
{
    Reply::Verdict {
        last: clerk.accepted(),
        verdict: verdict(clerk.sky(), filing),
    }
}

/// The reply with the status of a case.
fn case<K: Keeper>(clerk: &Clerk<K>, number: u32) -> Reply
    ensures { IsAnswer clerk.now.state (queries.Case number) result }
{
    match clerk.case_view(number) {
        Some(view) => Reply::Case(view),
        None => Reply::Refused(Refusal::UnknownCase),
    }
}

/// The reply with the cases that are marked for review.
fn review<K: Keeper>(alloc: Global, clerk: &Clerk<K>) -> Reply
    ensures { IsAnswer clerk.now.state queries.Review result }
{
    match clerk.review(alloc) {
        Ok(list) => Reply::Review(list),
        Err(NoMemory) => Reply::Refused(Refusal::NoMemory),
    }
}

/// The row of an airfield, as it stands in its reply.
fn row(alloc: Global, airfield: &Airfield) -> Result<Text, NoMemory>
    ensures { IfOk result (λ row. row ≡ airfield_row airfield.now) }
{
    let mut text = String::new(alloc);
    append_airfield(&mut text, airfield)?;
    let Some(line) = text.as_str().strip_prefix("airfield,") else {
        unreachable!();
    };
    let Some(row) = line.strip_suffix("\n") else {
        unreachable!();
    };
    Text::from_str(alloc, row)
}

/// The reply with the airfield of this name.
fn named<K: Keeper>(alloc: Global, clerk: &Clerk<K>, id: &FieldId) -> Reply
    ensures { IsAnswer clerk.now.state (queries.Airfield id.now) result }
{
    let Some(airfield) = clerk.sky().register().get(id) else {
        return Reply::Refused(Refusal::UnknownAirfield);
    };
    match row(alloc, airfield) {
        Ok(row) => Reply::Airfield(row),
        Err(NoMemory) => Reply::Refused(Refusal::NoMemory),
    }
}

/// The table of a report.
fn table<K: Keeper>(alloc: Global, clerk: &Clerk<K>, kind: ReportKind) -> Result<Text, NoMemory>
    ensures { IfOk result (λ table. IsReport clerk.now.state kind (replies.Report table)) }
{
    match kind {
        ReportKind::Review => clerk.review_report(alloc),
        ReportKind::Expiry => clerk.expiry_report(alloc),
        ReportKind::Airfields => airfield_table(alloc, clerk.sky().register()),
    }
}

/// The reply with a report.
fn report<K: Keeper>(alloc: Global, clerk: &Clerk<K>, kind: ReportKind) -> Reply
    ensures { IsAnswer clerk.now.state (queries.Report kind) result }
{
    match table(alloc, clerk, kind) {
        Ok(table) => Reply::Report(table),
        Err(NoMemory) => Reply::Refused(Refusal::NoMemory),
    }
}

/// The reply to a query over the present state of a clerk; a refusal for `NoMemory` where memory was refused. Nothing changes.
pub fn reply<K: Keeper>(alloc: Global, clerk: &Clerk<K>, query: &Query) -> Reply
    ensures { IsAnswer clerk.now.state query.now result }
{
    match query {
        Query::Screen(filing) => found(alloc, clerk, filing),
        Query::Verdict(filing) => judged(clerk, filing),
        Query::Case(number) => case(clerk, *number),
        Query::Review => review(alloc, clerk),
        Query::Report(kind) => report(alloc, clerk, *kind),
        Query::Airfield(id) => named(alloc, clerk, id),
        Query::Sync => Reply::Synced {
            last: clerk.accepted(),
        },
    }
}
