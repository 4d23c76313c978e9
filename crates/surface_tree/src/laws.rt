//! Lemmas about the definitions, never run, that explain the contract of a visit.

ghost use Rattle.std.specs.Prelude.{◌≡◌, ◌≤◌, ◌<◌, ◌<ℤ◌, ◌-ℤ◌, ◌&&◌, ℕ, pos, nat_eq, true, List};
ghost use Rattle.std.specs.List.{filter};
ghost use Rattle.grid_exact.specs.Area.{has_point};
ghost use Rattle.grid_exact.specs.declared.area.Area.{Area};
ghost use Rattle.grid_exact.specs.declared.point.Point.{Point};
ghost use Rattle.surface_tree.specs.Levels.{IsPlaced, greater, level_of, side_of};
ghost use Rattle.surface_tree.specs.Visits.{all_hits, close_area, near_area};
ghost use Rattle.surface_tree.specs.declared.placed.Plot.{Plot};
ghost use Rattle.surface_tree.specs.declared.square.TheConstants.{TOP_LEVEL};

/// Of the items in squares of one size, a visit gives those whose areas contain the point, in the order of their keys.
pub fn each_size_comes_in_order<T>()
    ensures { (plot : T → Plot) (point : Point) (level : ℕ) (items : List T) → level ≤ TOP_LEVEL
        → filter (λ i. nat_eq (plot i).level level) (all_hits plot point items)
        ≡ filter (λ i. nat_eq (plot i).level level && has_point (plot i).area point) items }
{}

/// An area with an extent above the side of a level is of a higher level: squares of the next level are no larger than the area.
#[tactic(auto, using(crate::proofs::Even::higher_level))]
pub fn longer_areas_have_higher_levels()
    ensures { (area : Area) (level : ℕ) → level < TOP_LEVEL
        → pos (side_of level) <ℤ greater (area.x1 -ℤ area.x0) (area.y1 -ℤ area.y0)
        → level < level_of area }
{}

/// An area that a visit tests has its center near the point.
#[tactic(auto, using(crate::proofs::Boxes::close_near))]
pub fn close_is_near()
    ensures { (plot : Plot) (point : Point) → IsPlaced plot → close_area point plot ≡ true
        → near_area point plot.area ≡ true }
{}
