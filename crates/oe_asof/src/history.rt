//! The versions that a desk keeps.

ghost use Rattle.std.specs.Prelude.{◌≡◌, ◌≤◌, [], length, IfSome, OnOk, OnErr, option_copied, option_map, slice_get};
ghost use Rattle.std.specs.Arc.{arc_value};
ghost use Rattle.std.specs.Ordering.{nat_cmp};
ghost use Rattle.std.specs.List.Sorted.{IsBinarySearchResult, IsSearchInRange};
ghost use Rattle.oe_asof.specs.Versions.{AreRising, airfields_at, latest, number_of, version, with_version};

use crate::version::KeptSky;
use grid_exact::NoMemory;
use oe_findings::Sky;
use std::alloc::Global;
use std::marker::Model;
use std::sync::Arc;

/// Versions of the airfields, each under the number of the entry after which they stood so, in rising order of number. Contracts see them,
/// and for how many more there is room. What an amendment did not change is shared from version to version.
#[derive(Drop)]
pub struct History {
    versions: Vec<KeptSky>,
}

impl Model for History {
    ghost use Rattle.std.specs.Prelude.{◌-◌, vec_capacity, vec_len};
    ghost use Rattle.oe_asof.specs.Versions.{AreRising, Keeping};

    ghost Value = { Keeping };

    ghost view = { λ h. record {
      versions = h.versions.items;
      spare = vec_capacity h.versions - vec_len h.versions;
    } };

    ghost invariant = { λ h. AreRising h.versions.items };
}

/// The place of the version of this number, or the place where it would be inserted.
fn place(versions: &[KeptSky], number: u64) -> Result<usize, usize>
    ensures within { IsSearchInRange result (length versions.now) }
    ensures found { IsBinarySearchResult (λ v. nat_cmp (number_of v) number) versions.now result }
{
    versions.binary_search_by_key(&number, |kept| kept.number())
}

impl History {
    /// A history without versions. It allocates nothing.
    pub fn new(alloc: Global) -> History
        ensures { result.versions ≡ [] }
    {
        History {
            versions: Vec::new(alloc),
        }
    }

    /// Makes room for one more version, if there is none.
    ///
    /// # Errors
    ///
    /// `NoMemory` where memory was refused, only where there was no room. The versions stay as they are, whatever comes of it.
    pub fn reserve(&mut self) -> Result<(), NoMemory>
        ensures same { self.new.versions ≡ self.old.versions }
        ensures room { OnOk result (1 ≤ self.new.spare) }
        ensures full { OnErr result (self.old.spare ≡ 0) }
    {
        self.versions.reserve(1)?;
        Ok(())
    }

    /// The number of the last version; `None` exactly where there is no version.
    pub fn last(&self) -> Option<u64>
        ensures { result ≡ option_map number_of (latest self.now.versions) }
    {
        match self.versions.as_slice().last() {
            Some(kept) => Some(kept.number()),
            None => None,
        }
    }

    /// The number of the first version; `None` exactly where there is no version.
    pub fn first(&self) -> Option<u64>
        ensures { result ≡ option_map number_of (slice_get self.now.versions 0) }
    {
        match self.versions.as_slice().first() {
            Some(kept) => Some(kept.number()),
            None => None,
        }
    }

    /// For proofs: the numbers rise.
    pub fn rising(&self)
        ensures { AreRising self.now.versions }
    {
        let _ = &self.versions; // a proof knows the invariant of a value where it reads a field
    }

    /// Keeps the airfields under a number that is at least the last one; where it is the last one, nothing changes. It allocates nothing.
    pub fn keep(&mut self, number: u64, sky: Arc<Sky>)
        requires room { 1 ≤ self.old.spare }
        requires order { IfSome (latest self.old.versions) (λ v. v.number ≤ number) }
        ensures { self.new.versions ≡ with_version self.old.versions (version number
            (arc_value sky)) }
    {
        if self.last() == Some(number) {
            return;
        }
        self.versions.push_reserved(KeptSky::new(number, sky));
    }

    /// The airfields that are kept under a number; `None` exactly where none are. It allocates nothing.
    pub fn at(&self, number: u64) -> Option<&Sky>
        ensures { option_copied result ≡ airfields_at number self.now.versions }
    {
        match place(self.versions.as_slice(), number) {
            Ok(at) => Some(self.versions[at].sky()),
            Err(_) => None,
        }
    }
}
