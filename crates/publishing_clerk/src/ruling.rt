//! Rulings: a request, its reply, and a note of the clerk.

ghost use Rattle.std.specs.Prelude.{◌≡◌, option_map};
ghost use Rattle.publishing_clerk.specs.Evaluations.{given_in};
ghost use Rattle.publishing_clerk.specs.Rulings.{IsRuled, Ruled};

use crate::evaluation::Evaluation;
use crate::opening::Opening;
use desk_machine::Entry;
use filing_desk::Clerk;
use oe_findings::Sky;
use oe_keeper::Keeper;
use std::marker::Model;
use std::snapshot::Snapshot;
use tree_versions::Note;
use wire_replies::Reply;
use wire_requests::Change;

/// What was asked, and of whom. It has no bytes but one: contracts alone see it.
#[derive(Drop)]
pub(crate) struct Asking<K: Keeper, J: Opening> {
    pub request: Snapshot<Change>,
    pub p: Snapshot<u64>,
    pub given: Option<Snapshot<Evaluation<J>>>,
    pub before: Snapshot<Clerk<K>>,
}

/// A request, its reply, and a note of what is published. It cannot be copied, and only a clerk makes one. Contracts also see the number of
/// the last entry that was published before, the list that was given, and the clerk before and after.
#[derive(Drop)]
pub struct Ruling<K: Keeper, J: Opening> {
    asking: Asking<K, J>,
    after: Snapshot<Clerk<K>>,
    reply: Reply,
    note: Note<Entry, Sky, J>,
}

impl<K: Keeper, J: Opening> Model for Ruling<K, J> {
    ghost use Rattle.std.specs.Prelude.{option_map};
    ghost use Rattle.publishing_clerk.specs.Evaluations.{given_in};
    ghost use Rattle.publishing_clerk.specs.Rulings.{IsRuled, Ruled};

    ghost Value = { Ruled K };

    ghost view = { λ r. record {
      request = r.asking.request.value;
      p = r.asking.p.value;
      given = given_in J.base (option_map (λ s. s.value) r.asking.given);
      before = r.asking.before.value;
      after = r.after.value;
      reply = r.reply;
      note = r.note;
    } };

    ghost invariant = { λ r. IsRuled K.IsSteady K.faults J.base J.opening (record {
      request = r.asking.request.value;
      p = r.asking.p.value;
      given = given_in J.base (option_map (λ s. s.value) r.asking.given);
      before = r.asking.before.value;
      after = r.after.value;
      reply = r.reply;
      note = r.note;
    }) };
}

impl<K: Keeper, J: Opening> Ruling<K, J> {
    pub(crate) fn new(
        asking: Asking<K, J>,
        after: Snapshot<Clerk<K>>,
        reply: Reply,
        note: Note<Entry, Sky, J>,
    ) -> Ruling<K, J>
        requires { IsRuled K.IsSteady K.faults J.base J.opening (record {
          request = asking.request.value;
          p = asking.p.value;
          given = given_in J.base (option_map (λ s. s.value) asking.given);
          before = asking.before.value;
          after = after.value;
          reply = reply;
          note = note;
        }) }
        ensures { result ≡ record {
          request = asking.request.value;
          p = asking.p.value;
          given = given_in J.base (option_map (λ s. s.value) asking.given);
          before = asking.before.value;
          after = after.value;
          reply = reply;
          note = note;
        } }
    {
        Ruling {
            asking,
            after,
            reply,
            note,
        }
    }

    /// The reply to the request.
    pub fn reply(&self) -> &Reply
        ensures reply { result.now ≡ self.now.reply }
        ensures ruled { IsRuled K.IsSteady K.faults J.base J.opening self.now }
    {
        &self.reply
    }

    /// The note of what is published, for a seat to learn.
    pub fn note(&self) -> &Note<Entry, Sky, J>
        ensures { result.now ≡ self.now.note }
    {
        &self.note
    }

    /// The same note, at the end of the ruling.
    pub fn into_note(self) -> Note<Entry, Sky, J>
        ensures { result ≡ self.note }
    {
        let Ruling {
            asking: _,
            after: _,
            reply: _,
            note,
        } = self;
        note
    }
}
