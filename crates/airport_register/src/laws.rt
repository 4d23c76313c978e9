//! Lemmas about the definition of an amendment; never run.

ghost use Rattle.std.specs.Prelude.{◌≡◌, ◌≢◌, ◌↔◌, true, ℕ, List};
ghost use Rattle.airport_register.specs.Amendments.{airfield_at, amended_id, after_amendment};
ghost use Rattle.airfields.specs.declared.airfield.Airfield.{Airfield};
ghost use Rattle.airport_register.specs.contracts.amendment.AmendmentPartialEq.TheImpl as amendment;
ghost use Rattle.airport_register.specs.declared.amendment.Amendment.{Amendment};

use crate::register::MOST_AIRFIELDS;

/// A lemma, never run: the greatest number of airfields, as a numeral.
pub fn most_airfields()
    ensures { MOST_AIRFIELDS ≡ 16_384 }
{}

/// An amendment changes no airfield but the one that it names.
pub fn other_airfields_stay()
    ensures { (airfields : List Airfield) (a : Amendment) (id : List ℕ) → id ≢ amended_id a
        → airfield_at (after_amendment airfields a) id ≡ airfield_at airfields id }
{}

/// Two amendments are equal exactly where `==` returns true.
pub fn same_amendment()
    ensures { (a b : Amendment) → (amendment.ghosts.eq a b ≡ true) ↔ (a ≡ b) }
{}
