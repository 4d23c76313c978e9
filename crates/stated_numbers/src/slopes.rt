//! Slopes of the transitional surfaces and half widths of approach surfaces, as they stand in the definitions: doubled, in fortieths, or times the
//! length of an approach, so that whole numbers do.

ghost use Rattle.std.specs.Prelude.{◌≡◌, ◌+ℤ◌, ◌-ℤ◌, ◌*ℤ◌, ℤ, pos};
ghost use Rattle.grid_exact.specs.Lines.{Offset};
ghost use Rattle.grid_exact.specs.Root.{AtLeastRoot, AtMostRoot};
ghost use Rattle.grid_exact.specs.declared.point.Point.{Point};
ghost use Rattle.runway_lines.specs.Centerlines.{elevation};
ghost use Rattle.imaginary_surfaces.specs.Approaches.{Approach, ApproachCovers, base_at, lateral_excess, slope_at};
ghost use Rattle.imaginary_surfaces.specs.Primaries.{Primary};
ghost use Rattle.imaginary_surfaces.specs.Transitions.{GoesBeyond, ReachesBesideApproach, incline_beside_approach, incline_beside_primary};
ghost use Rattle.heliport_surfaces.specs.Approaches.{Approach as PadApproach, lateral_excess as pad_excess, rise_at};
ghost use Rattle.heliport_surfaces.specs.Landings.{at_axis};

/// A lemma, never run: 77.19(e). Beside the primary surface the slope is 7 to 1, doubled; beside an approach surface it is 7 to 1 in fortieths, and the
/// half width 20 fortieths of the width.
pub fn runway_slopes()
    ensures primary { (p : Primary) (o : Offset) (x : Point)
        → (incline_beside_primary p o x).factor ≡ pos 14 }
    ensures primary_shift { (p : Primary) (o : Offset) (x : Point)
        → (incline_beside_primary p o x).shift
        ≡ pos 14 *ℤ elevation p.profile x -ℤ p.width }
    ensures approach { (a : Approach) (o : Offset)
        → (incline_beside_approach a o).factor ≡ pos 280 *ℤ slope_at a o }
    ensures approach_left { (a : Approach) (o : Offset)
        → (incline_beside_approach a o).left
        ≡ slope_at a o *ℤ lateral_excess a o +ℤ pos 280 *ℤ o.along }
    ensures approach_shift { (a : Approach) (o : Offset)
        → (incline_beside_approach a o).shift
        ≡ pos 280 *ℤ slope_at a o *ℤ base_at a o -ℤ pos 20 *ℤ slope_at a o *ℤ a.width }
{}

/// A lemma, never run: 77.19(d), (e). What an approach surface covers lies within 20 fortieths of its width, what its transitional surface reaches
/// lies there or farther out, and beyond the conical surface at most 5,000 feet from there.
pub fn half_widths()
    ensures covered { (a : Approach) (o : Offset) → ApproachCovers a o
        → AtMostRoot (lateral_excess a o) (pos 20 *ℤ a.width) o.square }
    ensures beside { (a : Approach) (o : Offset) → ReachesBesideApproach a o
        → AtLeastRoot (lateral_excess a o) (pos 20 *ℤ a.width) o.square }
    ensures beyond { (a : Approach) (o : Offset) → GoesBeyond a o
        → AtMostRoot (lateral_excess a o) (pos 20 *ℤ a.width +ℤ pos 2_000_000) o.square }
{}

/// A lemma, never run: 77.23(b), (c). The transitional surfaces of a heliport rise 2 to 1, which is doubled twice; beside an approach surface, which
/// widens to 500 feet over 4,000, all is times 80,000 or 160,000.
pub fn heliport_slopes()
    ensures axis { (z width : ℤ) → at_axis z width ≡ pos 4 *ℤ z -ℤ width }
    ensures aside { (a : PadApproach) (o : Offset) → pad_excess a o
        ≡ pos 80_000 *ℤ pos o.aside -ℤ (pos 5_000 -ℤ a.width) *ℤ o.along }
    ensures rise { (a : PadApproach) (o : Offset) → rise_at a o
        ≡ a.slope *ℤ pad_excess a o +ℤ pos 160_000 *ℤ o.along }
{}
