//! The publisher of versions.
ghost use Rattle.std.specs.Prelude.{◌≡◌, ◌+◌, ◌<◌, ◌≤◌, ◌^◌, ◌++◌, ◌∷◌, [], length, map, replicate, Some, IfOk, OnErr, MatchResult};
ghost use Rattle.std.specs.Arc.{arc_value};
ghost use Rattle.tree_versions.specs.Fronts.{ReachedFrom, last_of, Edition, entries_of};

use crate::front::Front;
use crate::history::{History, Unnamed};
use crate::naming::Naming;
use crate::seat::{Note, Seats};
use crate::shown::{Shown, Version};
use crate::writer::ValueWriter;
use grid_exact::NoMemory;
use std::alloc::Global;
use std::marker::Model;
use std::sync::{Arc, Wait};

/// The greatest number of seats.
pub const MOST_SEATS: usize = 16;

/// Publishes the versions of a value, each made of the one before by an entry. Contracts see the published value, the entries that lead to
/// it, and the pairs that are offered and wait. Use it up by `end`, which waits for the seats that are reading.
pub struct Publisher<E: Drop, V: Version<E> + Drop, J: Naming<V>> {
    writer: ValueWriter<Shown<E, V, J>>,
    history: History<E, V, J>,
    // The front of all that was offered.
    all: Front<E, V, J>,
    waiting: Vec<(E, Arc<V>)>,
    base: u64,
}

impl<E: Drop, V: Version<E> + Drop, J: Naming<V>> Model for Publisher<E, V, J> {
    ghost use Rattle.std.specs.Prelude.{◌≡◌, ◌+◌, ◌<◌, ◌^◌, ◌++◌, ℕ, List, map, length};
    ghost use Rattle.std.specs.Arc.{arc_value};
    ghost use Rattle.tree_versions.specs.Fronts.{ReachedFrom, last_of, Edition, entries_of};

    ghost Value = { Edition V E };

    ghost view = { λ p. record {
      value = p.writer.0.0;
      published = p.writer.0.1;
      waiting = map (λ w. (w.0, arc_value w.1)) p.waiting.items;
    } };

    ghost invariant = { λ p.
        (p.all ≡ p.writer.0.1 ++ entries_of (map (λ w. (w.0, arc_value w.1)) p.waiting.items))
        × ReachedFrom V.follows J.first p.all
        (last_of p.writer.0.0 (map (λ w. (w.0, arc_value w.1)) p.waiting.items))
        × (p.base ≡ J.base)
        × (p.base + length p.all < 2 ^ 64) };
}

impl<E: Drop, V: Version<E> + Drop, J: Naming<V>> Publisher<E, V, J> {
    /// A publisher of the first value, and this many seats, all of which show it. Entries are counted from `base`. It may wait only where
    /// memory was refused, to end what was made by then.
    ///
    /// # Errors
    ///
    /// `NoMemory` where memory was refused.
    pub fn open<R: Wait>(
        rt: &R,
        alloc: Global,
        opening: Unnamed<E>,
        first: Arc<V>,
        seats: usize,
        base: u64,
    ) -> Result<(Publisher<E, V, J>, Seats<E, V, J>), NoMemory>
        requires seats { (0 < seats) × (seats ≤ MOST_SEATS) }
        requires book { opening ≡ J.book }
        requires first { J.first ≡ Some (arc_value first) }
        requires base { J.base ≡ base }
        ensures publisher { IfOk result (λ t.
            t.0 ≡ record { value = arc_value first; published = []; waiting = [] }) }
        ensures seats { IfOk result (λ t. t.1 ≡ replicate seats (record { front = []; told = [] })) }
    {
        let (history, all) = opening.begin::<V, J>();
        let Ok(second) = Arc::try_clone(&first) else {
            return Err(NoMemory);
        };
        let first = Shown::new(first, all.copy());
        let second = Shown::new(second, all.copy());
        let Ok(writer) = ValueWriter::new(alloc, first, second, seats) else {
            return Err(NoMemory);
        };
        match Seats::new(alloc).fill(writer.factory(), seats, base, &all) {
            Ok(seats) => {
                let publisher = Publisher {
                    writer,
                    history,
                    all,
                    waiting: Vec::new(alloc),
                    base,
                };
                Ok((publisher, seats))
            }
            Err(refused) => {
                writer.end(rt);
                Err(refused)
            }
        }
    }

    /// Adds an entry, with the value that it makes of the last one that was offered, to the pairs that wait for the next publication.
    ///
    /// # Errors
    ///
    /// The pair itself, where memory was refused; then nothing has changed.
    pub fn offer(&mut self, entry: E, value: Arc<V>) -> Result<(), (E, Arc<V>)>
        requires room { J.base + length self.old.published + length self.old.waiting + 1 < 2 ^ 64 }
        requires follows { V.follows (last_of self.old.value self.old.waiting) entry
            (arc_value value) }
        ensures { MatchResult result
            (λ _. self.new ≡ record self.old {
              waiting = self.old.waiting ++ (entry, arc_value value) ∷ [];
            })
            (λ back. (back ≡ (entry, value)) × (self.new ≡ self.old)) }
    {
        if self.waiting.reserve(1).is_err() {
            return Err((entry, value));
        }
        let mut all = self.all.copy();
        if !all.add(&self.history, &entry) {
            return Err((entry, value));
        }
        self.waiting.push_reserved((entry, value));
        self.all = all;
        Ok(())
    }

    /// Publishes all pairs that wait, at one step, and returns a note of what is published now. It waits for the seats that are reading.
    ///
    /// # Errors
    ///
    /// `NoMemory` where memory was refused; then nothing has changed, and the pairs still wait.
    pub fn publish<R: Wait>(&mut self, rt: &R) -> Result<Note<E, V, J>, NoMemory>
        ensures ok { IfOk result (λ n. self.new ≡ record {
          value = last_of self.old.value self.old.waiting;
          published = self.old.published ++ entries_of self.old.waiting;
          waiting = [];
        }) }
        ensures note { IfOk result (λ n. n ≡ self.new.published) }
        ensures err { OnErr result (self.new ≡ self.old) }
    {
        if self.waiting.len() == 0 {
            return Ok(self.tell());
        }
        let value = last_value(&self.waiting)?;
        let next = Shown::new(value, self.all.copy());
        show(&mut self.writer, rt, next)?;
        self.waiting.clear();
        Ok(self.tell())
    }

    /// The number that the entries are counted from.
    pub fn base(&self) -> u64
        ensures { result ≡ J.base }
    {
        self.base
    }

    /// The number of the last entry that was offered.
    pub fn last_number(&self) -> u64
        ensures { result ≡ J.base + length self.now.published + length self.now.waiting }
    {
        self.base + self.all.len()
    }

    /// A note of what is published. It allocates nothing and waits for nobody.
    pub fn tell(&mut self) -> Note<E, V, J>
        ensures note { result ≡ self.new.published }
        ensures same { self.new ≡ self.old }
    {
        Note::of(self.writer.shown().front())
    }

    /// Ends the publisher. It allocates nothing, and waits for the seats that are reading.
    pub fn end<R: Wait>(self, rt: &R) {
        let Publisher {
            writer,
            history: _,
            all: _,
            waiting: _,
            base: _,
        } = self;
        writer.end(rt);
    }
}

/// The last value that waits.
fn last_value<E: Drop, V: Version<E> + Drop>(waiting: &Vec<(E, Arc<V>)>) -> Result<Arc<V>, NoMemory>
    ensures { IfOk result (λ a. (v : V) →
        last_of v (map (λ w. (w.0, arc_value w.1)) waiting.now.items) ≡ arc_value a) }
{
    let Some(pair) = waiting.last() else {
        return Err(NoMemory);
    };
    match Arc::try_clone(&pair.1) {
        Ok(value) => Ok(value),
        Err(_) => Err(NoMemory),
    }
}

/// Has readers take this from now on.
fn show<E: Drop, V: Version<E> + Drop, J: Naming<V>, R: Wait>(
    writer: &mut ValueWriter<Shown<E, V, J>>,
    rt: &R,
    next: Shown<E, V, J>,
) -> Result<(), NoMemory>
    ensures ok { IfOk result (λ _. writer.new.0 ≡ next) }
    ensures err { OnErr result (writer.new.0 ≡ writer.old.0) }
{
    if writer.append(next).is_err() {
        return Err(NoMemory);
    }
    match writer.publish(rt) {
        Ok(()) => Ok(()),
        Err(_) => Err(NoMemory),
    }
}
