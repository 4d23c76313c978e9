//! A way as a list of stations.

ghost use Rattle.std.specs.Prelude.{◌≡◌, ◌∷◌, ◌++◌, ◌≤◌, ◌↔◌, [], length, IsTrue, MatchResult, OnOk, OnErr, IfErr};
ghost use Rattle.oe_stations.specs.Joining.{AreAlike, CanJoin, IsAlike, IsRefused};

use airfields::Filing;
use std::alloc::Global;
use std::marker::Model;

/// The most stations of a way.
pub const MOST_STATIONS: usize = 64;

/// Why a station does not become part of a way.
#[derive(Clone, Copy, Debug, PartialEq, Eq)]
pub enum WayRefusal {
    /// The way has as many stations as a way may have.
    WayFull,
    /// Its kind, mobile object's height, flags or airfield are not those of the first station.
    WayMixed,
    /// It is an object or an antenna, and no traverse way.
    NotAWay,
    /// Memory was refused.
    NoMemory,
}

/// A road, railroad, waterway or other traverse way of 77.9(c), given as stations along its line; contracts see it as the list of the
/// stations' filings.
#[derive(Drop)]
pub struct Way {
    stations: Vec<Filing>,
}

impl Model for Way {
    ghost use Rattle.std.specs.Prelude.{◌≤◌, List, length};
    ghost use Rattle.airfields.specs.Sites.{Site};
    ghost use Rattle.oe_stations.specs.declared.way.TheConstants.{MOST_STATIONS};

    ghost Value = { List Site };

    ghost view = { λ w. w.stations.items };

    ghost invariant = { λ w. length w.stations.items ≤ MOST_STATIONS };
}

/// Whether two stations may belong to one way.
fn are_alike(a: &Filing, b: &Filing) -> bool
    ensures { IsTrue result ↔ AreAlike a.now b.now }
{
    (a.kind == b.kind && a.mobile == b.mobile) && (a.flags == b.flags && a.on == b.on)
}

impl Way {
    /// A way without stations. It takes no memory.
    pub fn new(alloc: Global) -> Way
        ensures { result ≡ [] }
    {
        Way {
            stations: Vec::new(alloc),
        }
    }

    /// The number of stations.
    pub fn len(&self) -> usize
        ensures number { result ≡ length self.now }
        ensures most { result ≤ MOST_STATIONS }
    {
        self.stations.len()
    }

    /// Whether there is no station.
    pub fn is_empty(&self) -> bool
        ensures { IsTrue result ↔ self.now ≡ [] }
    {
        self.stations.is_empty()
    }

    /// The stations in their order.
    pub(crate) fn stations(&self) -> &[Filing]
        ensures same { result.now ≡ self.now }
        ensures most { length result.now ≤ MOST_STATIONS }
    {
        self.stations.as_slice()
    }

    /// Takes all stations out. It takes no memory.
    pub fn clear(&mut self)
        ensures { self.new ≡ [] }
    {
        self.stations.clear();
    }

    /// Whether the filing is like the first station, where there is one.
    fn is_alike(&self, filing: &Filing) -> bool
        ensures { IsTrue result ↔ IsAlike self.now filing.now }
    {
        match self.stations.first() {
            Some(first) => are_alike(first, filing),
            None => true,
        }
    }

    /// The first rule that forbids the filing to be the next station.
    fn allowed(&self, filing: &Filing) -> Result<(), WayRefusal>
        ensures { MatchResult result (λ _. CanJoin self.now filing.now)
            (λ e. IsRefused self.now filing.now e) }
    {
        if !filing.kind.is_traverse_way() {
            return Err(WayRefusal::NotAWay);
        }
        if !self.is_alike(filing) {
            return Err(WayRefusal::WayMixed);
        }
        if self.stations.len() >= MOST_STATIONS {
            return Err(WayRefusal::WayFull);
        }
        Ok(())
    }

    /// Makes the filing the last station. The way is unchanged where it is refused.
    ///
    /// # Errors
    ///
    /// The first of these that holds: `NotAWay` exactly where the filing is of an object or an antenna; `WayMixed` exactly where its
    /// kind, mobile object's height, flags or airfield differ from those of the first station; `WayFull` exactly where there are
    /// `MOST_STATIONS` stations. `NoMemory` where memory was refused.
    pub fn push(&mut self, filing: &Filing) -> Result<(), WayRefusal>
        ensures exact { MatchResult result (λ _. CanJoin self.old filing.now)
            (λ e. IsRefused self.old filing.now e) }
        ensures pushed { OnOk result (self.new ≡ self.old ++ filing.now ∷ []) }
        ensures kept { OnErr result (self.new ≡ self.old) }
    {
        self.allowed(filing)?;
        match self.stations.push(*filing) {
            Ok(()) => Ok(()),
            Err(_) => Err(WayRefusal::NoMemory),
        }
    }
}
