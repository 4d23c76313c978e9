//! Laws of the definitions, and the numbers of a search.

ghost use Rattle.std.specs.Prelude.{◌≡◌, ◌+◌, List, ℤ, ◌≤ℤ◌};
ghost use Rattle.airfields.specs.Sites.{Site};
ghost use Rattle.airfields.specs.declared.airfield.Airfield.{Airfield};
ghost use Rattle.surface_tree.specs.declared.square.TheConstants.{TOP_LEVEL};
ghost use Rattle.oe_ceiling.specs.Ceilings.{IsClear};

use crate::search::{HALVINGS, LISTS};

/// A structure without a finding has none at any lower height either, over any airfields. This holds through the exemption of low
/// antennas of 77.9(e)(4), which a lower antenna does not lose.
pub fn lower_is_clear()
    ensures { (airfields : List Airfield) (site : Site) (lower higher : ℤ) → lower ≤ℤ higher
        → IsClear airfields site higher → IsClear airfields site lower }
{}

/// A lemma, never run: a search for a ceiling halves 13 times, and looks at 14 lists at most; for each, at 15 squares of the tree.
pub fn numbers()
    ensures halvings { HALVINGS ≡ 13 }
    ensures lists { LISTS ≡ 14 }
    ensures squares { TOP_LEVEL + 1 ≡ 15 }
{}
