//! A keeper that is used only where a place is named.

ghost use Rattle.std.specs.Prelude.{◌≡◌, ◌||◌, false, true, is_some, option_copied, IsTrue, IfOk, OnOk, OnErr};
ghost use Rattle.oe_keeper.specs.Kept.{Kept};
ghost use Rattle.oe_keeper.specs.Keeping.{Stays, StaysSilent, HasAll, HasCause, IfFailed};
ghost use Rattle.oe_keeper.specs.Placed.{FindsWhere, TellsWhere, IsLoadedWhere};

use crate::{KeepErr, Keeper, RowChange, Tables};
use std::alloc::Global;

/// Uses the inner keeper once a place was named; without a place it stores nothing.
#[derive(Debug, Drop)]
pub struct PlacedKeeper<K: Keeper> {
    keeper: K,
    is_used: bool,
}

impl<K: Keeper> PlacedKeeper<K> {
    /// A keeper without a place yet. It allocates nothing.
    pub fn new(keeper: K) -> PlacedKeeper<K>
        ensures inside { result.keeper ≡ keeper }
        ensures unused { result.is_used ≡ false }
    {
        PlacedKeeper {
            keeper,
            is_used: false,
        }
    }
}

impl<K: Keeper> Keeper for PlacedKeeper<K> {
    ghost Tells = { λ k. TellsWhere K.Tells k.is_used k.keeper };

    ghost faults = { λ k. K.faults k.keeper };

    ghost Finds = { λ k. FindsWhere K.Finds k.is_used k.keeper };

    ghost IsLoaded = { λ k. IsLoadedWhere K.IsLoaded k.is_used k.keeper };

    ghost IsSteady = { λ k. K.IsSteady k.keeper };

    fn load(&mut self, alloc: Global, place: Option<&str>) -> Result<Tables, KeepErr>
        ensures found { IfOk result (λ rows. FindsWhere K.Finds self.old.is_used self.old.keeper
            (option_copied place.entry) rows) }
        ensures rows { IfOk result (λ rows. (now : Kept)
            → TellsWhere K.Tells self.new.is_used self.new.keeper now → now ≡ rows) }
        ensures stays { Stays (λ k. TellsWhere K.Tells k.is_used k.keeper) self.old self.new }
        ensures silent { OnErr result
            (StaysSilent (λ k. TellsWhere K.Tells k.is_used k.keeper) self.old self.new) }
        ensures loaded { OnOk result ∥ IsLoadedWhere K.IsLoaded self.new.is_used self.new.keeper ∥₁ }
        ensures cause { HasCause (K.faults self.old.keeper) (K.faults self.new.keeper) result }
        ensures steady { K.IsSteady self.old.keeper → K.IsSteady self.new.keeper }
        ensures unfailing { K.IsSteady self.old.keeper → IfFailed result ⊥ }
        // A load with a place that returned Ok makes it used, for good.
        ensures used { OnOk result (self.new.is_used ≡ (self.old.is_used
            || is_some (option_copied place.entry))) }
        ensures kept { OnErr result (self.new.is_used ≡ self.old.is_used) }
    {
        if !self.is_used && place.is_none() {
            return Ok(Tables::empty(alloc));
        }
        let tables = self.keeper.load(alloc, place)?;
        self.is_used = true;
        Ok(tables)
    }

    fn apply(&mut self, alloc: Global, changes: &[RowChange]) -> Result<(), KeepErr>
        requires { ∥ IsLoadedWhere K.IsLoaded self.old.is_used self.old.keeper ∥₁ }
        ensures all { OnOk result
            (HasAll (λ k. TellsWhere K.Tells k.is_used k.keeper) self.old self.new changes.now) }
        ensures none { OnErr result
            (Stays (λ k. TellsWhere K.Tells k.is_used k.keeper) self.old self.new) }
        ensures silent { StaysSilent (λ k. TellsWhere K.Tells k.is_used k.keeper)
            self.old self.new }
        ensures loaded { ∥ IsLoadedWhere K.IsLoaded self.new.is_used self.new.keeper ∥₁ }
        ensures cause { HasCause (K.faults self.old.keeper) (K.faults self.new.keeper) result }
        ensures steady { K.IsSteady self.old.keeper → K.IsSteady self.new.keeper }
        ensures unfailing { K.IsSteady self.old.keeper → IfFailed result ⊥ }
        ensures used { self.new.is_used ≡ self.old.is_used }
    {
        if !self.is_used {
            return Ok(());
        }
        self.keeper.apply(alloc, changes)
    }

    fn keeps(&self) -> bool
        ensures untold { result ≡ false → (rows : Kept)
            → TellsWhere K.Tells self.now.is_used self.now.keeper rows → ⊥ }
        ensures used { result ≡ true → self.now.is_used ≡ true }
    {
        self.is_used && self.keeper.keeps()
    }

    ghost one = { λ k a b p q. K.one k.keeper a b p.1 q.1 };
}
