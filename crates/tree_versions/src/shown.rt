//! What readers take: a value with its front.
ghost use Rattle.std.specs.Prelude.{◌≡◌, IfOk};
ghost use Rattle.std.specs.Arc.{arc_value};
ghost use Rattle.tree_versions.specs.Fronts.{ReachedFrom};

use crate::front::Front;
use crate::naming::Naming;
use left_right::Absorb;
use std::alloc::AllocError;
use std::marker::Model;
use std::sync::Arc;

/// A value of which each entry makes the next one.
pub trait Version<E> {
    /// Whether an entry leads from one value to another.
    ghost follows: { Self → E → Self → Type 0 };
}

/// A value with its front, which leads to it from the first value. Contracts see both.
#[derive(Drop)]
pub(crate) struct Shown<E, V: Version<E> + Drop, J: Naming<V>> {
    value: Arc<V>,
    front: Front<E, V, J>,
}

impl<E, V: Version<E> + Drop, J: Naming<V>> Model for Shown<E, V, J> {
    ghost use Rattle.std.specs.Prelude.{List};
    ghost use Rattle.std.specs.Arc.{arc_value};
    ghost use Rattle.tree_versions.specs.Fronts.{ReachedFrom};

    ghost Value = { V × List E };

    ghost view = { λ s. (arc_value s.value, s.front) };

    ghost invariant = { λ s. ReachedFrom V.follows J.first s.front (arc_value s.value) };
}

impl<E, V: Version<E> + Drop, J: Naming<V>> Shown<E, V, J> {
    pub fn new(value: Arc<V>, front: Front<E, V, J>) -> Shown<E, V, J>
        requires { ReachedFrom V.follows J.first front (arc_value value) }
        ensures { result ≡ (arc_value value, front) }
    {
        Shown { value, front }
    }

    /// The same value, shared, with the same front.
    pub fn copy(&self) -> Result<Shown<E, V, J>, AllocError>
        ensures { IfOk result (λ s. s ≡ self.now) }
    {
        let value = Arc::try_clone(&self.value)?;
        Ok(Shown {
            value,
            front: self.front.copy(),
        })
    }

    pub fn front(&self) -> &Front<E, V, J>
        ensures { result.now ≡ self.now.1 }
    {
        &self.front
    }

    /// The value and the front, which leads to it.
    pub fn parts(self) -> (Arc<V>, Front<E, V, J>)
        ensures parts { (arc_value result.0 ≡ self.0) × (result.1 ≡ self.1) }
        ensures reached { ReachedFrom V.follows J.first self.1 self.0 }
    {
        let Shown { value, front } = self;
        (value, front)
    }
}

/// A change takes the place of what is shown.
impl<E, V: Version<E> + Drop, J: Naming<V>> Absorb<Shown<E, V, J>> for Shown<E, V, J> {
    type State = Shown<E, V, J>;

    ghost state = { λ s. s };

    ghost applied = { λ s next. next };

    fn absorb_first(
        &mut self,
        operation: &Shown<E, V, J>,
        _other: &Shown<E, V, J>,
    ) -> Result<(), AllocError> {
        let next = operation.copy()?;
        *self = next;
        Ok(())
    }

    fn absorb_second(
        &mut self,
        operation: Shown<E, V, J>,
        _other: &Shown<E, V, J>,
    ) -> Result<(), Shown<E, V, J>> {
        *self = operation;
        Ok(())
    }
}
