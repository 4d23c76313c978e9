//! A keeper of two, which the place's name chooses between.

ghost use Rattle.std.specs.Prelude.{◌≡◌, ◌+◌, ℕ, IfOk, OnOk, OnErr, option_copied};
ghost use Rattle.oe_keeper.specs.Kept.{Kept};
ghost use Rattle.oe_keeper.specs.Keeping.{Stays, StaysSilent, HasAll, HasCause, IfFailed};
ghost use Rattle.oe_keeper.specs.Choice.{TellsOf, LoadedOf, FindsOf, LeavesOther, IsChoice, goes_second, is_second_chosen, one_of, ends_in_oej};
ghost use Rattle.oe_keeper.specs.declared.by_name.Chosen.TheVariants as chosen;

use crate::{KeepErr, Keeper, RowChange, Tables};
use std::alloc::Global;

/// Which of two keepers serves.
#[derive(Clone, Copy, Debug, PartialEq, Eq)]
enum Chosen {
    /// None was loaded yet.
    Neither,
    /// The first.
    First,
    /// The second.
    Second,
}

/// Keeps what one of two keepers keeps. A place that ends in `.oej` is loaded by the second, any other by the
/// first, until a `load` answered Ok. From then on every call goes to that one, and the place is not looked
/// at.
#[derive(Debug, Drop)]
pub struct ByName<A: Keeper, B: Keeper> {
    first: A,
    second: B,
    chosen: Chosen,
}

impl<A: Keeper, B: Keeper> ByName<A, B> {
    /// A keeper of two, neither of which was chosen yet.
    pub fn new(a: A, b: B) -> ByName<A, B>
        ensures first { result.first ≡ a }
        ensures second { result.second ≡ b }
        ensures unchosen { result.chosen ≡ chosen.Neither }
    {
        ByName {
            first: a,
            second: b,
            chosen: Chosen::Neither,
        }
    }
}

/// Whether the place is that of a journal.
fn is_journal(place: Option<&str>) -> bool
    ensures { result ≡ ends_in_oej (option_copied place.entry) }
{
    match place {
        Some(path) => path.as_bytes().ends_with(b".oej"),
        None => false,
    }
}

/// Whether the second is to be loaded.
fn is_second(chosen: Chosen, place: Option<&str>) -> bool
    ensures { result ≡ goes_second chosen (option_copied place.entry) }
{
    match chosen {
        Chosen::Neither => is_journal(place),
        Chosen::First => false,
        Chosen::Second => true,
    }
}

impl<A: Keeper, B: Keeper> Keeper for ByName<A, B> {
    ghost Tells = { λ k. TellsOf A.Tells B.Tells k.first k.second k.chosen };

    ghost faults = { λ k. A.faults k.first + B.faults k.second };

    ghost Finds = { λ k place. FindsOf A.Finds B.Finds k.first k.second (goes_second k.chosen place) place };

    ghost IsLoaded = { λ k. LoadedOf A.IsLoaded B.IsLoaded k.first k.second k.chosen };

    ghost IsSteady = { λ k. A.IsSteady k.first × B.IsSteady k.second };

    /// The rows of the keeper that serves. A call that returns Ok makes the choice, or keeps it; after an error
    /// the choice is as before. The other keeper is not called.
    ///
    /// # Errors
    ///
    /// Those of the keeper that serves.
    fn load(&mut self, alloc: Global, place: Option<&str>) -> Result<Tables, KeepErr>
        ensures found { IfOk result (FindsOf A.Finds B.Finds self.old.first self.old.second
            (goes_second self.old.chosen (option_copied place.entry)) (option_copied place.entry)) }
        ensures rows { IfOk result (λ rows. (now : Kept)
            → TellsOf A.Tells B.Tells self.new.first self.new.second self.new.chosen now
            → now ≡ rows) }
        ensures stays { Stays (λ k. TellsOf A.Tells B.Tells k.first k.second k.chosen) self.old self.new }
        ensures silent { OnErr result
            (StaysSilent (λ k. TellsOf A.Tells B.Tells k.first k.second k.chosen) self.old self.new) }
        ensures loaded { OnOk result
            ∥ LoadedOf A.IsLoaded B.IsLoaded self.new.first self.new.second self.new.chosen ∥₁ }
        ensures cause { HasCause (A.faults self.old.first + B.faults self.old.second)
            (A.faults self.new.first + B.faults self.new.second) result }
        ensures steady { A.IsSteady self.old.first × B.IsSteady self.old.second
            → A.IsSteady self.new.first × B.IsSteady self.new.second }
        ensures unfailing { A.IsSteady self.old.first × B.IsSteady self.old.second
            → IfFailed result ⊥ }
        ensures other { LeavesOther self.old.first self.new.first self.old.second self.new.second
            (goes_second self.old.chosen (option_copied place.entry)) }
        ensures chosen { OnOk result (IsChoice self.new.chosen
            (goes_second self.old.chosen (option_copied place.entry))) }
        ensures kept { OnErr result (self.new.chosen ≡ self.old.chosen) }
    {
        if is_second(self.chosen, place) {
            let tables = self.second.load(alloc, place)?;
            self.chosen = Chosen::Second;
            Ok(tables)
        } else {
            let tables = self.first.load(alloc, place)?;
            self.chosen = Chosen::First;
            Ok(tables)
        }
    }

    /// Makes the changes in the keeper that serves. The choice stays as it was, and the other keeper is not called.
    ///
    /// # Errors
    ///
    /// Those of the keeper that serves, and `NoMemory` where none serves yet.
    fn apply(&mut self, alloc: Global, changes: &[RowChange]) -> Result<(), KeepErr>
        requires { ∥ LoadedOf A.IsLoaded B.IsLoaded self.old.first self.old.second self.old.chosen ∥₁ }
        ensures all { OnOk result (HasAll (λ k. TellsOf A.Tells B.Tells k.first k.second k.chosen)
            self.old self.new changes.now) }
        ensures none { OnErr result
            (Stays (λ k. TellsOf A.Tells B.Tells k.first k.second k.chosen) self.old self.new) }
        ensures silent { StaysSilent (λ k. TellsOf A.Tells B.Tells k.first k.second k.chosen)
            self.old self.new }
        ensures loaded { ∥ LoadedOf A.IsLoaded B.IsLoaded self.new.first self.new.second self.new.chosen ∥₁ }
        ensures cause { HasCause (A.faults self.old.first + B.faults self.old.second)
            (A.faults self.new.first + B.faults self.new.second) result }
        ensures steady { A.IsSteady self.old.first × B.IsSteady self.old.second
            → A.IsSteady self.new.first × B.IsSteady self.new.second }
        ensures unfailing { A.IsSteady self.old.first × B.IsSteady self.old.second
            → IfFailed result ⊥ }
        ensures other { LeavesOther self.old.first self.new.first self.old.second self.new.second
            (is_second_chosen self.old.chosen) }
        ensures chosen { self.new.chosen ≡ self.old.chosen }
    {
        match self.chosen {
            Chosen::First => self.first.apply(alloc, changes),
            Chosen::Second => self.second.apply(alloc, changes),
            Chosen::Neither => Err(KeepErr::NoMemory),
        }
    }

    fn keeps(&self) -> bool {
        match self.chosen {
            Chosen::First => self.first.keeps(),
            Chosen::Second => self.second.keeps(),
            Chosen::Neither => false,
        }
    }

    ghost one = { λ k. one_of A.Tells B.Tells A.one B.one k.first k.second k.chosen };
}
