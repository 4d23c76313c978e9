//! The list of the findings of a way.

ghost use Rattle.std.specs.Prelude.{◌≡◌, ◌↔◌, [], length, slice_get, option_copied, nat_le, IsTrue, OnOk};
ghost use Rattle.std.specs.List.Sorted.{IsBinarySearchResult, IsSearchInRange};
ghost use Rattle.oe_stations.specs.Ways.{way_place};
ghost use Rattle.oe_stations.specs.Merging.{with_finding, with_findings};
ghost use Rattle.oe_stations.specs.contracts.place.PlaceOrd.TheImpl as places;

use crate::place::Place;
use finding_lists::Finding;
use grid_exact::NoMemory;
use ordered_list::Keyed;
use std::alloc::Global;
use std::cmp::Ordering;
use std::marker::Model;

/// A standard or notice rule that a way exceeds or meets, with the greatest excess of its stations, and the first station that has it,
/// counted from 1.
#[derive(Clone, Copy, Debug, PartialEq, Eq)]
pub struct WayFinding {
    pub finding: Finding,
    pub station: u32,
}

impl Keyed for WayFinding {
    ghost use Rattle.oe_stations.specs.Ways.{way_place};

    type Key = Place;

    ghost key = { way_place };

    fn key(&self) -> Place {
        Place::of(&self.finding)
    }
}

/// The findings of a way, in the order of a list of findings.
#[derive(Drop)]
pub struct WayList {
    list: Vec<WayFinding>,
}

impl Model for WayList {
    ghost use Rattle.std.specs.Prelude.{List};
    ghost use Rattle.ordered_list.specs.Ordered.{Rises};
    ghost use Rattle.oe_stations.specs.Ways.{way_place};
    ghost use Rattle.oe_stations.specs.contracts.place.PlaceOrd.TheImpl as places;
    ghost use Rattle.oe_stations.specs.declared.way_list.WayFinding.{WayFinding};

    ghost Value = { List WayFinding };

    ghost view = { λ l. l.list.items };

    ghost invariant = { λ l. Rises places.ghosts.cmp way_place l.list.items };
}

/// Where the finding of this place in the order stands, or would be inserted.
fn search(list: &[WayFinding], place: &Place) -> Result<usize, usize>
    ensures within { IsSearchInRange result (length list.now) }
    ensures found { IsBinarySearchResult (λ w. places.ghosts.cmp (way_place w) place.now) list.now
        result }
{
    list.binary_search_by_key(place, |found| found.key())
}

/// The same, where that is looked for at `likely` first.
fn search_from(list: &[WayFinding], place: &Place, likely: usize) -> Result<usize, usize>
    ensures within { IsSearchInRange result (length list.now) }
    ensures found { IsBinarySearchResult (λ w. places.ghosts.cmp (way_place w) place.now) list.now
        result }
{
    let Some(found) = list.get(likely) else {
        return search(list, place);
    };
    match found.key().cmp(place) {
        Ordering::Equal => Ok(likely),
        _ => search(list, place),
    }
}

/// Whether a finding of the way has an excess that is not smaller.
fn is_as_great(before: &WayFinding, finding: &Finding) -> bool
    ensures { result ≡ nat_le finding.now.excess before.now.finding.excess }
{
    before.finding.excess >= finding.excess
}

impl WayList {
    /// A list without findings. It takes no memory.
    pub(crate) fn empty(alloc: Global) -> WayList
        ensures { result ≡ [] }
    {
        WayList {
            list: Vec::new(alloc),
        }
    }

    /// The number of findings.
    pub fn len(&self) -> usize
        ensures { result ≡ length self.now }
    {
        self.list.len()
    }

    /// Whether there is no finding.
    pub fn is_empty(&self) -> bool
        ensures { IsTrue result ↔ self.now ≡ [] }
    {
        self.list.is_empty()
    }

    /// The finding at place `i`, counted from 0; `None` exactly past the end.
    pub fn get(&self, i: usize) -> Option<&WayFinding>
        ensures { option_copied result ≡ slice_get self.now i }
    {
        self.list.get(i)
    }

    /// The findings in their order.
    pub fn as_slice(&self) -> &[WayFinding]
        ensures { result.now ≡ self.now }
    {
        self.list.as_slice()
    }

    /// Puts a finding of a later station into its place, unless there is an excess under its rule and surface that is not smaller. It
    /// is looked for at `likely` first. Returns the number of findings up to it.
    fn put(&mut self, finding: &Finding, station: u32, likely: usize) -> Result<usize, NoMemory>
        ensures { OnOk result (self.new ≡ with_finding station self.old finding.now) }
    {
        // through an array, since a value with options gets no proof where it is put directly
        let [item] = [WayFinding {
            finding: *finding,
            station,
        }];
        match search_from(self.list.as_slice(), &item.key(), likely) {
            Ok(i) => {
                if is_as_great(&self.list[i], finding) {
                    return Ok(i + 1);
                }
                self.list[i] = item;
                Ok(i + 1)
            }
            Err(i) => {
                self.list.insert(i, item)?;
                Ok(i + 1)
            }
        }
    }

    /// Puts the findings of a later station into their places.
    pub(crate) fn put_all(&mut self, findings: &[Finding], station: u32) -> Result<(), NoMemory>
        ensures { OnOk result (self.new ≡ with_findings station self.old findings.now) }
    {
        // the findings of a station are in this order too: where the way has the same ones, each stands next to the one before
        let mut likely = 0;
        for finding in findings {
            likely = self.put(finding, station, likely)?;
        }
        Ok(())
    }
}
