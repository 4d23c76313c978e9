//! The runway nearest to a point.

ghost use Rattle.std.specs.Prelude.{◌≡◌, IfSome, option_map};
ghost use Rattle.std.specs.List.{All};
ghost use Rattle.ordered_list.specs.Ordered.{Rises};
ghost use Rattle.airfields.specs.Names.{name_cmp};
ghost use Rattle.airfields.specs.Runways.{IsProper, name_of};
ghost use Rattle.runway_notice.specs.Candidates.{IsCandidate};
ghost use Rattle.runway_notice.specs.Nearest.{nearest as nearest_of};

use crate::candidate::Candidate;
use airfields::Runway;
use grid_exact::Point;

/// The runway nearest to the point. Of runways at the same distance it is the one with the lower centerline, and of those the one with the
/// smaller name, which comes first in the list.
pub(crate) fn nearest<'a>(runways: &'a [Runway], point: &Point) -> Option<Candidate<'a>>
    requires proper { All IsProper runways.now }
    requires order { Rises name_cmp name_of runways.now }
    ensures nearest { option_map (λ c. c.runway.now) result ≡ nearest_of runways.now point.now }
    ensures candidate { IfSome result (λ c. IsCandidate point.now c) }
{
    let (first, others) = runways.split_first()?;
    let mut best = Candidate::of(first, point);
    for runway in others {
        let next = Candidate::of(runway, point);
        if next.is_nearer(&best, point) {
            best = next;
        }
    }
    Some(best)
}
