//! The texts of replies.

ghost use Rattle.std.specs.Prelude.{◌≡◌, ◌++◌, IfOk, OnOk, OnErr, string_bytes};
ghost use Rattle.grid_exact.specs.Texts.{Extends};
ghost use Rattle.wire_replies.specs.Replies as spec;
ghost use Rattle.wire_replies.specs.Rows.{airfield_row};

use crate::case::append_case;
use crate::entries::append_list;
use crate::fields::{append_next_number, append_next_word, append_number};
use crate::outcomes::append_outcome;
use crate::refusals::append_refused;
use crate::reply::Reply;
use crate::review::append_review;
use crate::rows::append_row;
use airfields::Airfield;
use case_records::Outcome;
use finding_lists::{Finding, Verdict};
use grid_exact::{NoMemory, Text};
use std::alloc::Global;
use wire_values::append_text;

fn publication_word(published: bool) -> &'static str
    ensures { result.now ≡ spec.publication_word published }
{
    if published { "published" } else { "waiting" }
}

fn yes_word(holds: bool) -> &'static str
    ensures { result.now ≡ spec.yes_word holds }
{
    if holds { "yes" } else { "no" }
}

// Appends the reply of an accepted request.
#[tactic(auto, using(grid_exact::proofs::Extending::extending))]
fn append_accepted(
    text: &mut String,
    entry: u64,
    published: bool,
    outcome: &Outcome,
) -> Result<(), NoMemory>
    ensures ok { OnOk result (string_bytes text.new
        ≡ string_bytes text.old ++ spec.accepted_text entry published outcome.now) }
    ensures part { OnErr result (Extends (string_bytes text.old) (string_bytes text.new)) }
{
    append_text(text, "ok,")?;
    append_number(text, entry)?;
    append_next_word(text, publication_word(published))?;
    append_outcome(text, outcome)?;
    append_text(text, "\n")
}

/// Appends the reply of a list of findings, with the line feed that ends it. `last` is the number of the last accepted change.
///
/// # Errors
///
/// `NoMemory` where memory was refused; the text may then have a part of the reply.
#[tactic(auto, using(grid_exact::proofs::Extending::extending))]
pub fn append_found(text: &mut String, last: u64, list: &[Finding]) -> Result<(), NoMemory>
    ensures ok { OnOk result (string_bytes text.new
        ≡ string_bytes text.old ++ spec.found_text last list.now) }
    ensures part { OnErr result (Extends (string_bytes text.old) (string_bytes text.new)) }
{
    append_text(text, "found,")?;
    append_number(text, last)?;
    append_list(text, list)?;
    append_text(text, "\n")
}

// Appends the reply of a verdict.
#[tactic(auto, using(grid_exact::proofs::Extending::extending))]
fn append_verdict(text: &mut String, last: u64, verdict: Verdict) -> Result<(), NoMemory>
    ensures ok { OnOk result (string_bytes text.new
        ≡ string_bytes text.old ++ spec.verdict_text last verdict) }
    ensures part { OnErr result (Extends (string_bytes text.old) (string_bytes text.new)) }
{
    append_text(text, "verdict,")?;
    append_number(text, last)?;
    append_next_word(text, yes_word(verdict.notice))?;
    append_next_word(text, yes_word(verdict.obstruction))?;
    append_next_number(text, u64::from(verdict.entries))?;
    append_text(text, "\n")
}

/// Appends the reply that shows the row of an airfield, with the line feed that ends it.
///
/// # Errors
///
/// `NoMemory` where memory was refused; the text may then have a part of the reply.
#[tactic(auto, using(grid_exact::proofs::Extending::extending))]
pub fn append_airfield(text: &mut String, airfield: &Airfield) -> Result<(), NoMemory>
    ensures ok { OnOk result (string_bytes text.new
        ≡ string_bytes text.old ++ spec.row_text (airfield_row airfield.now)) }
    ensures part { OnErr result (Extends (string_bytes text.old) (string_bytes text.new)) }
{
    append_text(text, "airfield,")?;
    append_row(text, airfield)?;
    append_text(text, "\n")
}

// Appends the reply of a row.
#[tactic(auto, using(grid_exact::proofs::Extending::extending))]
fn append_row_text(text: &mut String, row: &str) -> Result<(), NoMemory>
    ensures ok { OnOk result (string_bytes text.new
        ≡ string_bytes text.old ++ spec.row_text row.now) }
    ensures part { OnErr result (Extends (string_bytes text.old) (string_bytes text.new)) }
{
    append_text(text, "airfield")?;
    append_next_word(text, row)?;
    append_text(text, "\n")
}

// Appends the reply of the number of the newest entry.
#[tactic(auto, using(grid_exact::proofs::Extending::extending))]
fn append_synced(text: &mut String, last: u64) -> Result<(), NoMemory>
    ensures ok { OnOk result (string_bytes text.new
        ≡ string_bytes text.old ++ spec.synced_text last) }
    ensures part { OnErr result (Extends (string_bytes text.old) (string_bytes text.new)) }
{
    append_text(text, "sync,")?;
    append_number(text, last)?;
    append_text(text, "\n")
}

/// Appends a reply, with the line feed that ends it.
///
/// # Errors
///
/// `NoMemory` where memory was refused; the text may then have a part of the reply.
pub fn append_reply(text: &mut String, reply: &Reply) -> Result<(), NoMemory>
    ensures ok { OnOk result (string_bytes text.new
        ≡ string_bytes text.old ++ spec.reply_text reply.now) }
    ensures part { OnErr result (Extends (string_bytes text.old) (string_bytes text.new)) }
{
    match reply {
        Reply::Accepted {
            entry,
            published,
            outcome,
        } => append_accepted(text, *entry, *published, outcome),
        Reply::Refused(refusal) => append_refused(text, refusal),
        Reply::Found { last, list } => append_found(text, *last, list.as_slice()),
        Reply::Verdict { last, verdict } => append_verdict(text, *last, *verdict),
        Reply::Case(view) => append_case(text, view),
        Reply::Airfield(row) => append_row_text(text, row.as_str()),
        Reply::Review(cases) => append_review(text, cases.as_slice()),
        Reply::Report(table) => append_text(text, table.as_str()),
        Reply::Synced { last } => append_synced(text, *last),
    }
}

/// The text of a reply, with the line feed that ends it.
///
/// # Errors
///
/// `NoMemory` where memory was refused.
pub fn write_reply(alloc: Global, reply: &Reply) -> Result<Text, NoMemory>
    ensures { IfOk result (λ text. text ≡ spec.reply_text reply.now) }
{
    let mut text = String::new(alloc);
    append_reply(&mut text, reply)?;
    Ok(Text::from_string(text))
}
