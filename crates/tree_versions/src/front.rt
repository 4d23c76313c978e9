//! Fronts: the first entries of a history.
ghost use Rattle.std.specs.Prelude.{◌≡◌, ◌+◌, ◌<◌, ◌^◌, ◌++◌, ◌∷◌, [], length, nat_le, MatchBool};
ghost use mathlib.Core.List.{IsPrefix};

use crate::history::{Addition, History, HistoryRule, NoGain};
use crate::naming::Naming;
use logbook::{Offer, Seen};
use std::marker::{Model, PhantomData};

/// The first entries of the history of an opening, up to some entry. Contracts see the list of them; the code has their number alone.
#[derive(Drop)]
pub struct Front<E, V, J: Naming<V>> {
    count: u64,
    seen: Seen<E, u64, HistoryRule>,
    of: PhantomData<(V, J)>,
}

impl<E, V, J: Naming<V>> Model for Front<E, V, J> {
    ghost use Rattle.std.specs.Prelude.{◌≡◌, ◌+◌, ◌<◌, ◌^◌, List, length};

    ghost Value = { List E };

    ghost view = { λ f. f.seen.log };

    ghost invariant = { λ f. (f.count ≡ length f.seen.log) × (f.seen.book ≡ J.book)
        × (J.base + length f.seen.log < 2 ^ 64) };
}

impl<E, V, J: Naming<V>> Front<E, V, J> {
    /// The front without entries.
    pub(crate) fn empty(seen: Seen<E, u64, HistoryRule>) -> Front<E, V, J>
        requires book { seen.book ≡ J.book }
        requires none { seen.log ≡ [] }
        requires base { J.base < 2 ^ 64 }
        ensures { result ≡ [] }
    {
        Front {
            count: 0,
            seen,
            of: PhantomData,
        }
    }

    /// The number of its entries. With the number that the opening counts from it is below 2^64.
    pub fn len(&self) -> u64
        ensures count { result ≡ length self.now }
        ensures fits { J.base + length self.now < 2 ^ 64 }
    {
        self.count
    }

    /// The same front once more.
    pub fn copy(&self) -> Front<E, V, J>
        ensures { result ≡ self.now }
    {
        Front {
            count: self.count,
            seen: self.seen.again(),
            of: PhantomData,
        }
    }

    /// Whether the other front has no more entries than this one. Of two fronts of one opening the shorter begins the longer.
    pub fn covers(&self, other: &Front<E, V, J>) -> bool
        ensures begun { MatchBool result (IsPrefix other.now self.now) (IsPrefix self.now other.now) }
        ensures exact { result ≡ nat_le (length other.now) (length self.now) }
    {
        let mut both = self.seen.again();
        both.learn(&other.seen);
        if other.count <= self.count {
            return true;
        }
        false
    }

    /// Adds an entry to the history behind this front, and says whether it did. It did not where the history is longer than this front, which
    /// then stays as it was.
    pub(crate) fn add(&mut self, history: &History<E, V, J>, entry: &E) -> bool
        requires { J.base + length self.old + 1 < 2 ^ 64 }
        ensures { MatchBool result (self.new ≡ self.old ++ entry.now ∷ []) (self.new ≡ self.old) }
    {
        let mut seen = self.seen.again();
        let mut offer: Offer<E, u64, HistoryRule, NoGain> = seen.plain::<NoGain, E, Addition>(
            entry,
        );
        let mut pen = seen.no_pen();
        let count = self.count;
        let found = history
            .head
            .compare_exchange::<Addition, NoGain>(
                count,
                count + 1,
                &mut seen,
                &mut offer,
                &mut pen,
            );
        if found != count {
            return false;
        }
        self.seen = seen;
        self.count = count + 1;
        true
    }
}
