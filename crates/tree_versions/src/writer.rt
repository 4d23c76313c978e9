//! The writer of `left_right`, as this crate uses it.
ghost use Rattle.std.specs.Prelude.{◌≡◌, ◌^◌, ◌<◌, ◌++◌, ◌∷◌, [], fold, IfOk, MatchResult};

use core::mem::{ManuallyDrop, replace_with};
use crossbeam_utils::rule::Unruled;
use left_right::Absorb;
use left_right::reader::Factory;
use left_right::writer::Writer;
use std::alloc::{AllocError, Global};
use std::marker::Model;
use std::sync::Wait;

/// A value in two copies, one of which readers take. Contracts see that one, and the changes that wait. Use it up by `end`, which waits for
/// the readers.
pub(crate) struct ValueWriter<T: Absorb<T> + Drop> {
    writer: Writer<T, T, (), Unruled>,
}

impl<T: Absorb<T> + Drop> Model for ValueWriter<T> {
    ghost use Rattle.std.specs.Prelude.{List, drop};

    ghost Value = { T × List T };

    ghost view = { λ w. (w.writer.desk.shown.value, drop w.writer.behind w.writer.log.items) };
}

// A lock wants a value that can be dropped, and a writer cannot be without waiting: so a drop leaks both copies. No caller drops one.
impl<T: Absorb<T> + Drop> Drop for ValueWriter<T> {
    fn drop(self) {
        let ValueWriter { writer } = self;
        let _kept = unsafe { ManuallyDrop::new_unchecked(writer) };
    }
}

impl<T: Absorb<T> + Drop> ValueWriter<T> {
    /// Two equal copies of a value, with room for this many readers.
    pub fn new(
        alloc: Global,
        first: T,
        second: T,
        readers: usize,
    ) -> Result<ValueWriter<T>, AllocError>
        requires readers { (0 < readers) × (readers < 2 ^ 32) }
        requires alike { T.state first ≡ T.state second }
        ensures { IfOk result (λ w. w ≡ (first, [])) }
    {
        let writer = Writer::new(alloc, first, second, readers)?;
        Ok(ValueWriter { writer })
    }

    pub fn factory(&self) -> &Factory<T, (), Unruled> {
        self.writer.factory()
    }

    /// What readers take now.
    pub fn shown(&self) -> &T
        ensures { result.now ≡ self.now.0 }
    {
        self.writer.published()
    }

    /// Has a change wait. It comes back where there is no memory.
    pub fn append(&mut self, next: T) -> Result<(), T>
        ensures { MatchResult result (λ _. self.new ≡ (self.old.0, self.old.1 ++ next ∷ []))
            (λ back. (back ≡ next) × (self.new ≡ self.old)) }
    {
        self.writer.append(next)
    }

    /// Makes the changes that wait, in the copy that readers take from now on. It waits for those that still read the other one.
    pub fn publish<R: Wait>(&mut self, rt: &R) -> Result<(), AllocError>
        ensures { MatchResult result
            (λ _. (T.state self.new.0 ≡ fold T.applied (T.state self.old.0) self.old.1)
            × (self.new.1 ≡ []))
            (λ _. self.new ≡ self.old) }
    {
        replace_with(&mut self.writer, rt, |writer, rt| {
            writer.publish_as::<Unruled, R>(rt)
        })
    }

    /// Waits for the readers, and drops both copies.
    pub fn end<R: Wait>(self, rt: &R) {
        let ValueWriter { writer } = self;
        drop(writer.take(rt));
    }
}
