//! The clerk that publishes what it accepts.

ghost use Rattle.std.specs.Prelude.{◌≡◌, ◌+◌, ◌<◌, ◌≤◌, ◌^◌, [], length, map, replicate, Some, IfOk, option_copied, option_map};
ghost use mathlib.Core.List.{IsPrefix};
ghost use Rattle.desk_machine.specs.States.{case_at, last_number};
ghost use Rattle.desk_machine.specs.Evaluations.{site_of};
ghost use Rattle.desk_receipts.specs.Handed.{Told};
ghost use Rattle.desk_tables.specs.Reachable.{IsDesk};
ghost use Rattle.publishing_clerk.specs.Evaluations.{given_in};
ghost use Rattle.publishing_clerk.specs.Publishing.{GoesOn, IsOpening, Publishing};
ghost use Rattle.publishing_clerk.specs.Rulings.{IsRuled, Ruled, reply_of};
ghost use Rattle.tree_versions.specs.declared.publisher.TheConstants.{MOST_SEATS};

use crate::evaluation::Evaluation;
use crate::opening::Opening;
use crate::publishing::answer;
use crate::ruling::{Asking, Ruling};
use airfields::Filing;
use desk_machine::Entry;
use filing_desk::{Answer, Clerk};
use grid_exact::NoMemory;
use oe_findings::Sky;
use oe_keeper::Keeper;
use std::alloc::Global;
use std::marker::Model;
use std::snapshot::Snapshot;
use std::sync::{Arc, Wait};
use tree_versions::{Note, Publisher, Seats, Unnamed};
use wire_replies::Reply;
use wire_requests::Change;

/// Decides changing requests one after the other, stores each accepted one in its keeper, and publishes the airfields after it as a version.
/// Contracts see its clerk and the published entries. Use it up by `into_keeper`.
pub struct PublishingClerk<K: Keeper, J: Opening> {
    clerk: Clerk<K>,
    publisher: Publisher<Entry, Sky, J>,
}

impl<K: Keeper, J: Opening> Model for PublishingClerk<K, J> {
    ghost use Rattle.publishing_clerk.specs.Publishing.{IsPublishing, Publishing};

    ghost Value = { Publishing K };

    ghost view = { λ c. record { clerk = c.clerk; published = c.publisher.published } };

    ghost invariant = { λ c. IsPublishing J.first J.base J.opening c.clerk c.publisher };
}

impl<K: Keeper + Drop, J: Opening> PublishingClerk<K, J> {
    /// A clerk that publishes what this one accepts from now on, and this many seats, all of which show its airfields. It may wait only
    /// where memory was refused, to end what was made by then.
    ///
    /// # Errors
    ///
    /// `NoMemory` where memory was refused.
    pub fn open<R: Wait>(
        rt: &R,
        alloc: Global,
        clerk: Clerk<K>,
        history: Unnamed<Entry>,
        seats: usize,
    ) -> Result<(PublishingClerk<K, J>, Seats<Entry, Sky, J>), NoMemory>
        requires seats { (0 < seats) × (seats ≤ MOST_SEATS) }
        requires book { history ≡ J.book }
        requires first { J.first ≡ Some clerk.state.register }
        requires base { J.base ≡ last_number clerk.state }
        requires opening { J.opening ≡ clerk.state }
        requires none { clerk.accepted ≡ [] }
        ensures opened { IfOk result (λ t. t.0 ≡ record { clerk = clerk; published = [] }) }
        ensures seats { IfOk result (λ t. t.1 ≡ replicate seats (record { front = []; told = [] })) }
    {
        clerk.is_storable();
        let base = clerk.accepted();
        let sky = Arc::new(alloc, clerk.sky().share(alloc)?)?;
        let (publisher, seats) = Publisher::<Entry, Sky, J>::open(
            rt, alloc, history, sky, seats, base,
        )?;
        Ok((PublishingClerk { clerk, publisher }, seats))
    }
}

impl<K: Keeper, J: Opening> PublishingClerk<K, J> {
    /// Decides a changing request on the desk's day. Where a list of the structure that it evaluates was evaluated over a published version, a
    /// determination or a revision is made on it; else on the list over the present airfields. An accepted request is stored before it is answered, and
    /// then published. Only for want of memory is it not published; it is then published by a later call.
    ///
    /// # Errors
    ///
    /// The reply tells the first rule that the request breaks, in the order of the rules; or `KeeperFault`, only where no rule is broken, an
    /// entry was to be made and the keeper failed; or `NoMemory` where memory ran out. Neither the desk nor, where they are known, its
    /// stored rows are then changed.
    pub fn apply<R: Wait>(
        &mut self,
        rt: &R,
        alloc: Global,
        c: &Change,
        evaluated: Option<&Evaluation<J>>,
    ) -> Ruling<K, J>
        ensures request { result.request ≡ c.now }
        ensures p { result.p ≡ J.base + length self.old.published }
        ensures given { result.given ≡ given_in J.base (option_copied evaluated.entry) }
        ensures before { result.before ≡ self.old.clerk }
        ensures after { result.after ≡ self.new.clerk }
        ensures note { result.note ≡ self.new.published }
        ensures ruled { IsRuled K.IsSteady K.faults J.base J.opening result }
        ensures published { IsPrefix self.old.published self.new.published }
        ensures told { Told K.Tells self.new.clerk.keeper self.new.clerk.state }
    {
        let base = self.publisher.base();
        let p = base + self.publisher.tell().number();
        let asking = Asking {
            request: Snapshot::of(c),
            p: Snapshot::of(&p),
            given: snapshot_of(evaluated),
            before: Snapshot::of(&self.clerk),
        };
        let answer = answer(
            rt,
            alloc,
            &mut self.clerk,
            &mut self.publisher,
            c,
            evaluated,
        );
        self.clerk.is_storable();
        self.clerk.keeper();
        let note = self.publisher.tell();
        let reply = reply(answer, base + note.number());
        Ruling::new(asking, Snapshot::of(&self.clerk), reply, note)
    }

    /// The number of the last entry at the opening.
    pub fn base(&self) -> u64
        ensures { result ≡ J.base }
    {
        self.publisher.base()
    }

    /// The number of the last published entry, that of the last entry at the opening where there is none. It changes nothing.
    pub fn published(&mut self) -> u64
        ensures number { result ≡ J.base + length self.old.published }
        ensures same { self.new ≡ self.old }
    {
        self.publisher.base() + self.publisher.tell().number()
    }

    /// The number of the last entry, 0 where there is none.
    pub fn accepted(&self) -> u64
        ensures { result ≡ last_number self.now.clerk.state }
    {
        self.clerk.accepted()
    }

    /// A note of what is published. It changes nothing, allocates nothing and waits for nobody.
    pub fn note(&mut self) -> Note<Entry, Sky, J>
        ensures note { result ≡ self.new.published }
        ensures same { self.new ≡ self.old }
    {
        self.publisher.tell()
    }

    /// The structure of the case of this number; `None` exactly where there is no such case.
    pub fn filing(&self, number: u32) -> Option<Filing>
        ensures { result ≡ option_map site_of (case_at self.now.clerk.state.cases number) }
    {
        self.clerk.filing(number)
    }

    /// The clerk, for queries.
    pub fn clerk(&self) -> &Clerk<K>
        ensures { result.now ≡ self.now.clerk }
    {
        &self.clerk
    }

    /// Shows to a proof that the clerk went on from the opening of the name, and that the published entries begin the accepted ones.
    pub fn goes_on(&self)
        ensures named { IsOpening J.first J.base J.opening }
        ensures goes { GoesOn J.opening self.now.clerk }
        ensures published { IsPrefix self.now.published self.now.clerk.accepted }
    {
        let _ = &self.clerk;
    }

    /// Ends the clerk and returns its keeper. It waits for the seats that are reading.
    pub fn into_keeper<R: Wait>(self, rt: &R) -> K
        ensures same { result ≡ self.clerk.keeper }
        ensures desk { IsDesk self.clerk.state }
        ensures told { Told K.Tells self.clerk.keeper self.clerk.state }
    {
        let PublishingClerk { clerk, publisher } = self;
        publisher.end(rt);
        clerk.into_keeper()
    }
}

/// The reply that tells an answer, where this is the number of the last published entry.
fn reply(answer: Answer, last: u64) -> Reply
    ensures { result ≡ reply_of last answer }
{
    match answer {
        Answer::Accepted { entry, outcome } => Reply::Accepted {
            entry,
            published: entry <= last,
            outcome,
        },
        Answer::Refused(why) => Reply::Refused(why),
    }
}

/// What was evaluated, for contracts alone.
fn snapshot_of<J: Opening>(evaluated: Option<&Evaluation<J>>) -> Option<Snapshot<Evaluation<J>>>
    ensures { option_map (λ s. s.value) result ≡ option_copied evaluated.entry }
{
    match evaluated {
        Some(evaluated) => Some(Snapshot::of(evaluated)),
        None => None,
    }
}
