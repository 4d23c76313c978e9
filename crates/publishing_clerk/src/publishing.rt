//! How a clerk's entries are offered and published, and how it decides in between.

ghost use Rattle.std.specs.Prelude.{◌≡◌, ◌+◌, IsTrue, IfOk, length, option_copied};
ghost use Rattle.std.specs.Arc.{arc_value};
ghost use mathlib.Core.List.{IsPrefix};
ghost use Rattle.wire_requests.specs.Changes.{Asked};
ghost use Rattle.desk_machine.specs.States.{last_number};
ghost use Rattle.desk_machine.specs.Machine.{decide};
ghost use Rattle.filing_desk.specs.Clerks.{Advances};
ghost use Rattle.filing_desk.specs.Served.{HasCause};
ghost use Rattle.publishing_clerk.specs.Evaluations.{given_in};
ghost use Rattle.publishing_clerk.specs.Publishing.{IsPublishing, IsSameOffer, offered};

use crate::evaluation::Evaluation;
use crate::opening::Opening;
use case_records::Refusal;
use desk_machine::Entry;
use desk_tables::{findings_are_told, names_go_on};
use filing_desk::{Answer, Clerk, Evaluated, goes_on};
use grid_exact::NoMemory;
use oe_findings::Sky;
use oe_keeper::Keeper;
use std::alloc::Global;
use std::sync::{Arc, Wait};
use tree_versions::Publisher;
use wire_requests::Change;

/// Decides a request, then publishes what was accepted, as far as memory goes. What could not be offered before is offered first; where it
/// still cannot be, the request is refused.
pub(crate) fn answer<K: Keeper, J: Opening, R: Wait>(
    rt: &R,
    alloc: Global,
    clerk: &mut Clerk<K>,
    publisher: &mut Publisher<Entry, Sky, J>,
    c: &Change,
    evaluated: Option<&Evaluation<J>>,
) -> Answer
    requires { IsPublishing J.first J.base J.opening clerk.old publisher.old }
    ensures kept { IsPublishing J.first J.base J.opening clerk.new publisher.new }
    ensures advances { Advances (decide clerk.old.state (J.base + length publisher.old.published) c.now
        (given_in J.base (option_copied evaluated.entry))) clerk.old clerk.new result }
    ensures cause { HasCause K.IsSteady K.faults
        (decide clerk.old.state (J.base + length publisher.old.published) c.now
        (given_in J.base (option_copied evaluated.entry))) clerk.old.keeper clerk.new.keeper result }
    ensures more { IsPrefix publisher.old.published publisher.new.published }
{
    let answer = decide(alloc, clerk, publisher, c, evaluated);
    if pay(alloc, clerk, publisher) {
        publish(rt, publisher);
    }
    answer
}

/// Offers what is owed, and decides a request.
fn decide<K: Keeper, J: Opening>(
    alloc: Global,
    clerk: &mut Clerk<K>,
    publisher: &mut Publisher<Entry, Sky, J>,
    c: &Change,
    evaluated: Option<&Evaluation<J>>,
) -> Answer
    requires { IsPublishing J.first J.base J.opening clerk.old publisher.old }
    ensures kept { IsPublishing J.first J.base J.opening clerk.new publisher.new }
    ensures advances { Advances (decide clerk.old.state (J.base + length publisher.old.published) c.now
        (given_in J.base (option_copied evaluated.entry))) clerk.old clerk.new result }
    ensures cause { HasCause K.IsSteady K.faults
        (decide clerk.old.state (J.base + length publisher.old.published) c.now
        (given_in J.base (option_copied evaluated.entry))) clerk.old.keeper clerk.new.keeper result }
    ensures same { publisher.new.published ≡ publisher.old.published }
{
    goes_on::<K>();
    if !pay(alloc, clerk, publisher) {
        return Answer::Refused(Refusal::NoMemory);
    }
    match usable_list(alloc, clerk, publisher, evaluated) {
        Ok(given) => clerk.apply_with(alloc, c, given.as_ref()),
        Err(NoMemory) => Answer::Refused(Refusal::NoMemory),
    }
}

/// What was evaluated, for a decision; nothing where it is over a version that is not published.
fn usable_list<K: Keeper, J: Opening>(
    alloc: Global,
    clerk: &Clerk<K>,
    publisher: &mut Publisher<Entry, Sky, J>,
    evaluated: Option<&Evaluation<J>>,
) -> Result<Option<Evaluated>, NoMemory>
    requires { IsPublishing J.first J.base J.opening clerk.now publisher.old }
    ensures given { IfOk result (λ g. (q : Asked)
        → decide clerk.now.state (last_number clerk.now.state) q g
        ≡ decide clerk.now.state (J.base + length publisher.old.published) q
        (given_in J.base (option_copied evaluated.entry))) }
    ensures same { publisher.new ≡ publisher.old }
{
    let Some(evaluated) = evaluated else {
        return Ok(None);
    };
    let note = publisher.tell();
    if evaluated.front().len() > note.number() {
        return Ok(None);
    }
    // the published airfields have good names, since they come from recorded requests
    note.front().covers(evaluated.front());
    clerk.is_storable();
    evaluated.is_over();
    names_go_on();
    findings_are_told();
    Ok(Some(evaluated.list_for_decision(alloc, publisher.base())?))
}

/// Offers the accepted entry that was not offered yet, where there is one. Says whether there is none any more.
fn pay<K: Keeper, J: Opening>(
    alloc: Global,
    clerk: &Clerk<K>,
    publisher: &mut Publisher<Entry, Sky, J>,
) -> bool
    requires { IsPublishing J.first J.base J.opening clerk.now publisher.old }
    ensures kept { IsPublishing J.first J.base J.opening clerk.now publisher.new }
    ensures paid { IsTrue result → offered publisher.new ≡ clerk.now.accepted }
    ensures same { publisher.new.published ≡ publisher.old.published }
{
    clerk.is_storable();
    let last = clerk.accepted();
    if last == publisher.last_number() {
        return true;
    }
    let Some(entry) = clerk.entry(last) else {
        return false;
    };
    match version(alloc, clerk, entry) {
        Ok((entry, sky)) => publisher.offer(entry, sky).is_ok(),
        Err(NoMemory) => false,
    }
}

/// A copy of an entry, and the present airfields.
fn version<K: Keeper>(
    alloc: Global,
    clerk: &Clerk<K>,
    entry: &Entry,
) -> Result<(Entry, Arc<Sky>), NoMemory>
    ensures { IfOk result (λ v. (v.0 ≡ entry.now) × (arc_value v.1 ≡ clerk.now.state.register)) }
{
    let sky = clerk.sky().share(alloc)?;
    Ok((entry.copy(alloc)?, Arc::new(alloc, sky)?))
}

/// Publishes what was offered, where memory allows it.
fn publish<J: Opening, R: Wait>(rt: &R, publisher: &mut Publisher<Entry, Sky, J>)
    ensures offers { IsSameOffer publisher.old publisher.new }
    ensures more { IsPrefix publisher.old.published publisher.new.published }
{
    match publisher.publish(rt) {
        Ok(_) => {}
        Err(NoMemory) => {}
    }
}
