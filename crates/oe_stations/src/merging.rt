//! The findings of all stations of a way in one list.

ghost use Rattle.std.specs.Prelude.{◌≡◌, ◌≤◌, ◌<◌, ◌+◌, ◌*◌, ℕ, length, IfOk};
ghost use Rattle.surface_tree.specs.declared.square.TheConstants.{TOP_LEVEL};
ghost use Rattle.oe_stations.specs.Ways.{AreNearWay, IsWayList};

use crate::way::Way;
use crate::way_list::WayList;
use finding_lists::Findings;
use grid_exact::{NoMemory, Steps};
use oe_findings::Sky;
use std::alloc::Global;
use std::sync::ledger::Ledger;

/// The findings of a way over all airfields: one entry for each rule and surface that a station exceeds or meets, with the greatest
/// excess of all stations, in tenths of a foot, and the first station that has it, counted from 1. They are in the order of a list of
/// findings; several runways of one airport may stand under 77.9(b), in order of name.
///
/// A step is one square or one airfield of a search: at most `TOP_LEVEL + 1` squares at each station, and as many airfields as there are
/// surfaces near the stations.
///
/// # Errors
///
/// `NoMemory` where memory was refused.
pub fn way_findings<L: Ledger>(
    alloc: Global,
    sky: &Sky,
    way: &Way,
    steps: &mut Steps<L>,
) -> Result<WayList, NoMemory>
    requires some { 0 < length way.now }
    ensures found { IfOk result (λ list. IsWayList sky.now way.now list) }
    ensures near { (n : ℕ) → AreNearWay sky.now way.now n
        → steps.new ≤ steps.old + (length way.now * (TOP_LEVEL + 1) + n) }
{
    let mut list = WayList::empty(alloc);
    let mut found = Findings::new(alloc);
    let mut station = 0;
    for filing in way.stations() {
        station += 1;
        sky.find(alloc, &mut found, filing, steps)?;
        list.put_all(found.as_slice(), station)?;
    }
    Ok(list)
}
