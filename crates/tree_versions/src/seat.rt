//! The seats of readers, and what they take.
ghost use Rattle.std.specs.Prelude.{◌≡◌, ◌+◌, ◌<◌, ◌^◌, ◌++◌, ◌∷◌, [], IfOk, OnErr, IfErr, IfSome, IfNone, length, replicate};
ghost use Rattle.std.specs.Arc.{arc_value};
ghost use mathlib.Core.List.{IsPrefix};
ghost use Rattle.tree_versions.specs.Fronts.{ReachedFrom};

use crate::front::Front;
use crate::naming::Naming;
use crate::shown::{Shown, Version};
use core::mem::replace_with;
use crossbeam_utils::rule::Unruled;
use grid_exact::NoMemory;
use left_right::reader::{Factory, Reader};
use std::alloc::{AllocError, Global};
use std::marker::{Model, PhantomData};
use std::sync::Arc;

/// A note of what is published: its front, which contracts see.
#[derive(Drop)]
pub struct Note<E, V, J: Naming<V>> {
    front: Front<E, V, J>,
}

impl<E, V, J: Naming<V>> Model for Note<E, V, J> {
    ghost use Rattle.std.specs.Prelude.{List};

    ghost Value = { List E };

    ghost view = { λ n. n.front };
}

impl<E, V, J: Naming<V>> Note<E, V, J> {
    pub(crate) fn of(front: &Front<E, V, J>) -> Note<E, V, J>
        ensures { result ≡ front.now }
    {
        Note {
            front: front.copy(),
        }
    }

    /// The number of the entries of its front. With the number that the opening counts from it is below 2^64.
    pub fn number(&self) -> u64
        ensures number { result ≡ length self.now }
        ensures fits { J.base + length self.now < 2 ^ 64 }
    {
        self.front.len()
    }

    pub fn front(&self) -> &Front<E, V, J>
        ensures { result.now ≡ self.now }
    {
        &self.front
    }
}

/// A published value, its front, and the number of the entries of that front. Only `Seat::current` makes one.
#[derive(Drop)]
pub struct Snapshot<E, V: Version<E> + Drop, J: Naming<V>> {
    pub number: u64,
    pub value: Arc<V>,
    pub front: Front<E, V, J>,
    made: PhantomData<J>,
    ghost counted: { number ≡ length front },
    ghost fits: { J.base + number < 2 ^ 64 },
    ghost reached: { ∥ ReachedFrom V.follows J.first front (arc_value value) ∥₁ },
}

type ValueReader<E, V, J> = Reader<Shown<E, V, J>, (), Unruled>;

/// The place of one reader. Contracts see the front that it had last, and the longest one that it had or was told.
pub struct Seat<E: Drop, V: Version<E> + Drop, J: Naming<V>> {
    reader: ValueReader<E, V, J>,
    base: u64,
    front: Front<E, V, J>,
    told: Front<E, V, J>,
}

// By hand, so that no crate above proves again how what it holds is dropped.
impl<E: Drop, V: Version<E> + Drop, J: Naming<V>> Drop for Seat<E, V, J> {
    fn drop(self) {
        let Seat {
            reader: _,
            base: _,
            front: _,
            told: _,
        } = self;
    }
}

impl<E: Drop, V: Version<E> + Drop, J: Naming<V>> Model for Seat<E, V, J> {
    ghost use Rattle.std.specs.Prelude.{◌≡◌};
    ghost use mathlib.Core.List.{IsPrefix};
    ghost use Rattle.tree_versions.specs.Fronts.{Sight};

    ghost Value = { Sight E };

    ghost view = { λ s. record { front = s.front; told = s.told } };

    ghost invariant = { λ s. IsPrefix s.front s.told × (s.base ≡ J.base) };
}

/// Takes a copy of what is published now, at one step.
fn read<E: Drop, V: Version<E> + Drop, J: Naming<V>>(
    reader: ValueReader<E, V, J>,
) -> (ValueReader<E, V, J>, Result<Shown<E, V, J>, AllocError>) {
    match reader.enter_as::<Unruled>() {
        Ok(reading) => {
            let copy = reading.get().copy();
            (reading.leave(), copy)
        }
        Err(reader) => (reader, Err(AllocError)),
    }
}

impl<E: Drop, V: Version<E> + Drop, J: Naming<V>> Seat<E, V, J> {
    /// The number that the entries are counted from.
    pub fn base(&self) -> u64
        ensures { result ≡ J.base }
    {
        self.base
    }

    /// Remembers a note: what this seat shows from now on extends it. It allocates nothing and waits for nobody.
    pub fn learn(&mut self, note: Note<E, V, J>)
        ensures same { self.new.front ≡ self.old.front }
        ensures told { IsPrefix self.old.told self.new.told }
        ensures note { IsPrefix note self.new.told }
    {
        let Note { front } = note;
        if front.covers(&self.told) {
            self.told = front;
        }
    }

    /// The value that is published now, with its front, which extends every front that this seat had and every note that it learned. It
    /// waits for nobody.
    ///
    /// # Errors
    ///
    /// `NoMemory` where memory was refused; then the seat is unchanged.
    pub fn current(&mut self) -> Result<Snapshot<E, V, J>, NoMemory>
        ensures front { IfOk result (λ s. (s.front ≡ self.new.front) × (self.new.told ≡ self.new.front)) }
        ensures later { IfOk result (λ s. IsPrefix self.old.front self.new.front
            × IsPrefix self.old.told self.new.front) }
        ensures reached { IfOk result (λ s.
            ReachedFrom V.follows J.first s.front (arc_value s.value)) }
        ensures err { OnErr result (self.new ≡ self.old) }
    {
        let found = replace_with(&mut self.reader, (), |reader, _: ()| read(reader));
        let Ok(shown) = found else {
            return Err(NoMemory);
        };
        // No seat reads a version older than it was told. No contract of `left_right` says so of one reader through several looks, so it is tested.
        if !shown.front().covers(&self.told) {
            return Err(NoMemory);
        }
        let (value, front) = shown.parts();
        self.front = front.copy();
        self.told = front.copy();
        Ok(Snapshot {
            number: front.len(),
            value,
            front,
            made: PhantomData,
        })
    }
}

/// A list of seats.
#[derive(Drop)]
pub struct Seats<E: Drop, V: Version<E> + Drop, J: Naming<V>> {
    seats: Vec<Seat<E, V, J>>,
}

impl<E: Drop, V: Version<E> + Drop, J: Naming<V>> Model for Seats<E, V, J> {
    ghost use Rattle.std.specs.Prelude.{List};
    ghost use Rattle.tree_versions.specs.Fronts.{Sight};

    ghost Value = { List (Sight E) };

    ghost view = { λ s. s.seats.items };
}

impl<E: Drop, V: Version<E> + Drop, J: Naming<V>> Seats<E, V, J> {
    /// Takes the last one out.
    pub fn pop(&mut self) -> Option<Seat<E, V, J>>
        ensures some { IfSome result (λ s. self.old ≡ self.new ++ s ∷ []) }
        ensures none { IfNone result ((self.old ≡ []) × (self.new ≡ [])) }
    {
        self.seats.pop()
    }

    /// With this many seats, which show this front.
    pub(crate) fn fill(
        mut self,
        factory: &Factory<Shown<E, V, J>, (), Unruled>,
        count: usize,
        base: u64,
        front: &Front<E, V, J>,
    ) -> Result<Seats<E, V, J>, NoMemory>
        requires none { self ≡ [] }
        requires base { base ≡ J.base }
        ensures { IfOk result (λ s.
            s ≡ replicate count (record { front = front.now; told = front.now })) }
    {
        for _ in 0..count {
            let Ok(reader) = factory.reader() else {
                return Err(NoMemory);
            };
            let seat = Seat {
                reader,
                base,
                front: front.copy(),
                told: front.copy(),
            };
            if self.seats.push(seat).is_err() {
                return Err(NoMemory);
            }
        }
        Ok(self)
    }

    pub(crate) fn new(alloc: Global) -> Seats<E, V, J>
        ensures { result ≡ [] }
    {
        Seats {
            seats: Vec::new(alloc),
        }
    }
}
