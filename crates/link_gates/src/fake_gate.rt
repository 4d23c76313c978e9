//! A gate over memory, and its ports.

ghost use Rattle.std.specs.Prelude.{◌≡◌, ◌≤◌, ◌+◌, ◌↔◌, if◌then◌else◌, true, false, [], ◌∷◌, Some, None, IfOk, IfSome, IfNone, IsErr, OnErr, IsErrOf, is_err, vec_len, vec_capacity};
ghost use Rattle.oe_http.specs.Causes.{Rose, HasCause};
ghost use Rattle.oe_http.specs.declared.session.Ended.{Ended};
ghost use Rattle.link_gates.specs.Ports.{ahead, behind, NoneLeft, TakesList};

use crate::{Gate, GateErr, Port};
use oe_http::{Ended, Failed, TwoWay};
use std::alloc::Global;

/// Takes the first item of a list.
fn take_first<T>(items: &mut Vec<T>) -> Option<T>
    ensures some { IfSome result (λ x. items.old.items ≡ x ∷ items.new.items) }
    ensures len { IfSome result (λ x. vec_len items.old ≡ vec_len items.new + 1) }
    ensures none { IfNone result (items.old.items ≡ []) }
    ensures same { IfNone result (items.new ≡ items.old) }
{
    if items.is_empty() {
        return None;
    }
    Some(items.remove(0))
}

/// A port of these links, for tests. It counts its calls of `next` from 1, and fails at the one that is listed.
#[derive(Drop)]
pub struct FakePort<L> {
    links: Vec<L>,
    back: Vec<(L, Ended)>,
    is_out: bool,
    calls: u64,
    next_fail: Option<u64>,
    faults: u64,
    ghost room: { vec_len back + ((if is_out then 1 else 0) + vec_len links)
        ≤ vec_capacity back },
}

impl<L> FakePort<L> {
    /// The links that were given back, each with how its session ended.
    pub fn back(&self) -> &[(L, Ended)]
        ensures back { result.now ≡ self.now.back.items }
    {
        self.back.as_slice()
    }
}

impl<L: TwoWay + Send> Port for FakePort<L> {
    type Link = L;

    ghost use Rattle.link_gates.specs.Fakes.{IsCountedPort, FailsNext};

    ghost links = { λ p. Some p.links.items };

    ghost given = { λ p. Some p.back.items };

    ghost out = { λ p. p.is_out };

    ghost faults = { λ p. p.faults };

    ghost IsSteady = { λ p. p.next_fail ≡ None };

    fn next(&mut self) -> Result<Option<L>, Failed>
        ensures first { IfOk result (λ o. IfSome o (λ link.
            (Some self.old.links.items ≡ ahead (link ∷ []) (Some self.new.links.items))
            × (self.new.is_out ≡ true))) }
        ensures none { IfOk result (λ o. IfNone o (NoneLeft (Some self.old.links.items)
            × (Some self.new.links.items ≡ Some self.old.links.items)
            × (self.new.is_out ≡ self.old.is_out))) }
        ensures failed { OnErr result ((Some self.new.links.items ≡ Some self.old.links.items)
            × (self.new.is_out ≡ self.old.is_out)) }
        ensures given { Some self.new.back.items ≡ Some self.old.back.items }
        ensures cause { HasCause self.old.faults self.new.faults result }
        ensures steady { self.old.next_fail ≡ None → self.new.next_fail ≡ None }
        ensures unfailing { self.old.next_fail ≡ None → OnErr result ⊥ }

        // It fails at exactly the listed call.
        ensures counted { IsCountedPort self.old self.new }
        ensures exact { IsErr result ↔ FailsNext self.old }
    {
        self.calls = self.calls.saturating_add(1);
        if self.next_fail == Some(self.calls) {
            self.faults = self.faults.saturating_add(1);
            return Err(Failed);
        }
        match take_first(&mut self.links) {
            None => Ok(None),
            Some(link) => {
                self.is_out = true;
                Ok(Some(link))
            }
        }
    }

    fn done(&mut self, link: L, ended: Ended) {
        self.is_out = false;
        self.back.push_reserved((link, ended));
    }
}

/// A gate whose ports hand out these lists of links, for tests. It counts its calls from 1, and fails at the listed ones.
#[derive(Drop)]
pub struct FakeGate<L> {
    lists: Vec<Vec<L>>,
    fail: Vec<u64>,
    next_fail: Option<u64>,
    calls: u64,
    faults: u64,
}

impl<L> FakeGate<L> {
    ghost use Rattle.link_gates.specs.Fakes.{IsFreshGate, IsCountedGate, fails_call};

    /// A gate whose ports fail at this call of `next`.
    pub fn new(lists: Vec<Vec<L>>, fail: Vec<u64>, next_fail: Option<u64>) -> FakeGate<L>
        ensures lists { result.lists ≡ lists }
        ensures fresh { IsFreshGate result fail.items next_fail }
    {
        FakeGate {
            lists,
            fail,
            next_fail,
            calls: 0,
            faults: 0,
        }
    }

    /// Counts a call. Returns whether it is one that fails.
    fn fails(&mut self) -> bool
        ensures exact { result ≡ fails_call self.old }
        ensures counted { IsCountedGate self.old self.new }
        ensures rose { result ≡ true → Rose self.old.faults self.new.faults }
        ensures later { self.old.faults ≤ self.new.faults }
        ensures lists { self.new.lists ≡ self.old.lists }
    {
        self.calls = self.calls.saturating_add(1);
        if self.fail.contains(&self.calls) {
            self.faults = self.faults.saturating_add(1);
            return true;
        }
        false
    }
}

impl<L: TwoWay + Send + Drop> Gate for FakeGate<L> {
    type Port = FakePort<L>;

    ghost use Rattle.link_gates.specs.Fakes.{IsFreshPort, IsCountedGate, fails_call, lists_of};

    ghost lists = { λ g. Some (lists_of g) };

    ghost faults = { λ g. g.faults };

    ghost IsSteady = { λ g. (g.fail.items ≡ []) × (g.next_fail ≡ None) };

    fn listen(&mut self, _address: &str) -> Result<(), Failed>
        ensures lists { Some (lists_of self.new) ≡ Some (lists_of self.old) }
        ensures cause { HasCause self.old.faults self.new.faults result }
        ensures steady { (self.old.fail.items ≡ []) × (self.old.next_fail ≡ None)
            → (self.new.fail.items ≡ []) × (self.new.next_fail ≡ None) }
        ensures unfailing { (self.old.fail.items ≡ []) × (self.old.next_fail ≡ None)
            → OnErr result ⊥ }

        // It fails at exactly the listed calls.
        ensures counted { IsCountedGate self.old self.new }
        ensures exact { is_err result ≡ fails_call self.old }
    {
        if self.fails() {
            return Err(Failed);
        }
        Ok(())
    }

    fn port(&mut self, alloc: Global) -> Result<FakePort<L>, GateErr>
        ensures list { IfOk result (λ port. TakesList (Some (lists_of self.old))
            (Some (lists_of self.new)) (Some port.links.items)) }
        ensures fresh { IfOk result (λ port. (port.is_out ≡ false)
            × NoneLeft (Some port.back.items)) }
        ensures kept { OnErr result (Some (lists_of self.new) ≡ Some (lists_of self.old)) }
        ensures later { self.old.faults ≤ self.new.faults }
        ensures cause { IsErrOf result GateErr.Failed → Rose self.old.faults self.new.faults }
        ensures steady { (self.old.fail.items ≡ []) × (self.old.next_fail ≡ None)
            → (self.new.fail.items ≡ []) × (self.new.next_fail ≡ None) }
        ensures steady_port { (self.old.fail.items ≡ []) × (self.old.next_fail ≡ None)
            → IfOk result (λ port. port.next_fail ≡ None) }
        ensures unfailing { (self.old.fail.items ≡ []) × (self.old.next_fail ≡ None)
            → IsErrOf result GateErr.Failed → ⊥ }

        // It fails at exactly the listed calls.
        ensures counted { IsCountedGate self.old self.new }
        ensures exact { IsErrOf result GateErr.Failed ↔ (fails_call self.old ≡ true) }
        ensures fresh_port { IfOk result (λ port. IsFreshPort port self.old.next_fail) }
    {
        if self.fails() {
            return Err(GateErr::Failed);
        }
        let count = match self.lists.first() {
            None => 0,
            Some(list) => list.len(),
        };
        let Ok(back) = Vec::with_capacity(alloc, count) else {
            return Err(GateErr::NoMemory);
        };
        let links = match take_first(&mut self.lists) {
            None => Vec::new(alloc),
            Some(links) => links,
        };
        Ok(FakePort {
            links,
            back,
            is_out: false,
            calls: 0,
            next_fail: self.next_fail,
            faults: 0,
        })
    }
}
