//! The keeper: the store of the desk's tables.

ghost use Rattle.std.specs.Prelude.{◌≡◌, false, ℕ, List, Option, IfOk, OnOk, OnErr, option_copied};
ghost use Rattle.oe_keeper.specs.Kept.{Kept};
ghost use Rattle.oe_keeper.specs.Keeping.{Stays, StaysSilent, HasAll, HasCause, IfFailed};

use crate::change::RowChange;
use crate::tables::Tables;
use grid_exact::NoMemory;
use std::alloc::Global;

/// Why a keeper's call failed.
#[derive(Clone, Copy, Debug, PartialEq, Eq)]
pub enum KeepErr {
    /// The keeper has failed and counted a fault.
    Failed,
    /// Memory was refused.
    NoMemory,
}

impl From<NoMemory> for KeepErr {
    ghost use Rattle.std.specs.Prelude.{◌≡◌};
    ghost use Rattle.oe_keeper.specs.declared.keeper.KeepErr.TheVariants as errors;

    ghost from_gives = { λ _ e. e ≡ errors.NoMemory };

    fn from(_: NoMemory) -> KeepErr {
        KeepErr::NoMemory
    }
}

/// Stores the tables from one run to the next. The rows of a keeper may be known or not, and its contracts speak of the rows
/// where they are known.
pub trait Keeper {
    /// These rows are known to be the keeper's rows.
    ghost Tells: { Self → Kept → Type 0 };

    /// The number of its faults. It never falls.
    ghost faults: { Self → ℕ };

    /// A load may find these rows at this place.
    ghost Finds: { Self → Option (List ℕ) → Kept → Type 0 };

    /// It accepts changes, since its last `load` returned Ok.
    ghost IsLoaded: { Self → Type 0 };

    /// No call of it can fail, now or later.
    ghost IsSteady: { Self → Type 0 };

    /// Loads the rows of all tables. `place` says where they are stored; it is read until a call has returned Ok.
    ///
    /// The rows stay as they were, and only a call that returns Ok makes them known.
    ///
    /// # Errors
    ///
    /// `Failed` only where its count of faults rose, `NoMemory` where memory ran out.
    fn load(&mut self, alloc: Global, place: Option<&str>) -> Result<Tables, KeepErr>
        ensures found { IfOk result (λ rows. Finds self.old (option_copied place.entry) rows) }
        ensures rows { IfOk result (λ rows. (now : Kept) → Tells self.new now → now ≡ rows) }
        ensures stays { Stays Tells self.old self.new }
        ensures silent { OnErr result (StaysSilent Tells self.old self.new) }
        ensures loaded { OnOk result ∥ IsLoaded self.new ∥₁ }
        ensures cause { HasCause (faults self.old) (faults self.new) result }
        ensures steady { IsSteady self.old → IsSteady self.new }
        ensures unfailing { IsSteady self.old → IfFailed result ⊥ };

    /// Makes all the changes, in order, or none of them.
    ///
    /// # Errors
    ///
    /// `Failed` only where its count of faults rose, `NoMemory` where memory ran out. The rows then stay as they were.
    fn apply(&mut self, alloc: Global, changes: &[RowChange]) -> Result<(), KeepErr>
        requires { ∥ IsLoaded self.old ∥₁ }
        ensures all { OnOk result (HasAll Tells self.old self.new changes.now) }
        ensures none { OnErr result (Stays Tells self.old self.new) }
        ensures silent { StaysSilent Tells self.old self.new }
        ensures loaded { ∥ IsLoaded self.new ∥₁ }
        ensures cause { HasCause (faults self.old) (faults self.new) result }
        ensures steady { IsSteady self.old → IsSteady self.new }
        ensures unfailing { IsSteady self.old → IfFailed result ⊥ };

    /// Whether it stores the changes it is given. The rows of one that does not are never known.
    fn keeps(&self) -> bool
        ensures { result ≡ false → (rows : Kept) → Tells self.now rows → ⊥ };

    /// At most one set of rows is known at a time.
    ghost one: { (k : Self) (a b : Kept) → Tells k a → Tells k b → a ≡ b };
}
