//! Queries with their replies.

ghost use Rattle.std.specs.Prelude.{◌≡◌};
ghost use Rattle.publishing_clerk.specs.Fronts.{IsReplied};

use crate::clerk::PublishingClerk;
use crate::opening::Opening;
use desk_machine::Entry;
use desk_queries::reply;
use filing_desk::Clerk;
use oe_findings::Sky;
use oe_keeper::Keeper;
use oe_wire::{Query, Reply};
use std::alloc::Global;
use std::marker::Model;
use std::snapshot::Snapshot;
use tree_versions::Note;

/// A query, its reply, and a note of what is published. It cannot be copied, and only a clerk that is asked makes one. Contracts also see
/// the clerk.
#[derive(Drop)]
pub struct Answered<K: Keeper, J: Opening> {
    query: Snapshot<Query>,
    clerk: Snapshot<Clerk<K>>,
    reply: Reply,
    note: Note<Entry, Sky, J>,
}

impl<K: Keeper, J: Opening> Model for Answered<K, J> {
    ghost use Rattle.publishing_clerk.specs.Fronts.{IsReplied, Replied};

    ghost Value = { Replied K };

    ghost view = { λ a. record { query = a.query.value; clerk = a.clerk.value; reply = a.reply; note = a.note } };

    ghost invariant = { λ a. IsReplied J.opening
        (record { query = a.query.value; clerk = a.clerk.value; reply = a.reply; note = a.note }) };
}

impl<K: Keeper, J: Opening> Answered<K, J> {
    /// The reply to the query.
    pub fn reply(&self) -> &Reply
        ensures reply { result.now ≡ self.now.reply }
        ensures replied { IsReplied J.opening self.now }
    {
        &self.reply
    }

    /// The note of what is published, for a seat to learn.
    pub fn note(&self) -> &Note<Entry, Sky, J>
        ensures { result.now ≡ self.now.note }
    {
        &self.note
    }

    /// The same note, at the end of the answer.
    pub fn into_note(self) -> Note<Entry, Sky, J>
        ensures { result ≡ self.note }
    {
        let Answered {
            query: _,
            clerk: _,
            reply: _,
            note,
        } = self;
        note
    }
}

/// Asks a clerk.
pub(crate) fn ask<K: Keeper, J: Opening>(
    alloc: Global,
    clerk: &mut PublishingClerk<K, J>,
    query: &Query,
) -> Answered<K, J>
    ensures query { result.query ≡ query.now }
    ensures clerk { result.clerk ≡ clerk.old.clerk }
    ensures note { result.note ≡ clerk.old.published }
    ensures replied { IsReplied J.opening result }
    ensures same { clerk.new ≡ clerk.old }
{
    clerk.goes_on();
    let note = clerk.note();
    Answered {
        query: Snapshot::of(query),
        clerk: Snapshot::of(clerk.clerk()),
        reply: reply(alloc, clerk.clerk(), query),
        note,
    }
}
