//! The history of an opening: all entries that were offered, in order. The code keeps their number alone.
ghost use Rattle.std.specs.Prelude.{◌≡◌, ◌<◌, ◌^◌, []};
ghost use Rattle.tree_versions.specs.History.{head_of};

use crate::front::Front;
use crate::naming::Naming;
use logbook::{Gain, Plain, Play, Rule, Seen, Start, Word};
use std::marker::{Model, PhantomData};

/// The rule of the history: its one word is its length.
pub struct HistoryRule;

impl<E> Rule<E, u64> for HistoryRule {
    ghost use Rattle.std.specs.Prelude.{[]};
    ghost use base.Fml.{ftrue};
    ghost use Rattle.tree_versions.specs.History.{IsKept};

    ghost holds = { λ cells log. IsKept cells log };

    ghost first = { [] };

    ghost hinted = { λ n log. Unit {0} };

    ghost shows = { λ log. [] };

    ghost keeps = { λ names log. ftrue };

    ghost moves = { λ ask before after answer. Unit {0} };
}

/// What a step gives its caller: nothing.
pub struct NoGain;

impl<E> Gain<E, u64> for NoGain {
    ghost use base.Fml.{ftrue};

    ghost after = { λ names about answer. ftrue };
}

/// A step that adds an entry.
pub struct Addition;

impl<E> Play<E, u64> for Addition {
    ghost use Rattle.tree_versions.specs.History.{Adds};

    ghost then = { Adds };
}

impl<E> Plain<E, E, u64> for Addition {
    ghost use Rattle.std.specs.Prelude.{None};

    ghost ask = { λ entry. entry };

    ghost state = { λ entry. None };
}

/// The history of an opening that has no name yet, without entries. Contracts see its book, for which a name is chosen.
#[derive(Drop)]
pub struct Unnamed<E> {
    head: Word<E, u64, HistoryRule>,
    seen: Seen<E, u64, HistoryRule>,
}

impl<E> Model for Unnamed<E> {
    ghost use Rattle.std.specs.Prelude.{◌≡◌, []};
    ghost use Rattle.logbook.specs.Pages.{Book};
    ghost use Rattle.tree_versions.specs.History.{head_of};

    ghost Value = { Book };

    ghost view = { λ u. u.seen.book };

    ghost invariant = { λ u. (u.seen.log ≡ []) × (u.head ≡ head_of u.seen.book) };
}

impl<E> Unnamed<E> {
    /// A new history. It allocates nothing.
    pub fn new() -> Unnamed<E> {
        let (seen, mut first, _second) = Seen::open(Start::alone(), 0, 0);
        Unnamed {
            head: Word::tracked(0, &mut first),
            seen,
        }
    }

    /// The history under a name, and its empty beginning.
    pub(crate) fn begin<V, J: Naming<V>>(self) -> (History<E, V, J>, Front<E, V, J>)
        requires book { self ≡ J.book }
        requires base { J.base < 2 ^ 64 }
        ensures { result.1 ≡ [] }
    {
        let Unnamed { head, seen } = self;
        (
            History {
                head,
                of: PhantomData,
            },
            Front::empty(seen),
        )
    }
}

/// The word that has the length of the history.
#[derive(Drop)]
pub(crate) struct History<E, V, J: Naming<V>> {
    pub head: Word<E, u64, HistoryRule>,
    of: PhantomData<(V, J)>,
    ghost head_is: { head ≡ head_of J.book },
}
