//! The accepted requests, each passed to the keeper before its entry is appended.

ghost use Rattle.std.specs.Prelude.{◌≡◌, ◌<◌, ◌+◌, ◌∷◌, ◌++◌, [], Some, None, IfOk, IfErr, OnOk, OnErr, option_copied, length, slice_get, take};
ghost use Rattle.std.specs.BTreeMap.{Updates, IsUnchanged};
ghost use Rattle.determination_dates.specs.Days.{IsLimited};
ghost use Rattle.determination_dates.specs.Closed.{with_day};
ghost use Rattle.desk_machine.specs.States.{entry_of};
ghost use Rattle.desk_receipts.specs.Handed.{Handed, IsNew, IsUnkept, Keeps};
ghost use Rattle.desk_receipts.specs.Receipts.{IsIndex};
ghost use Rattle.desk_receipts.specs.contracts.receipt_key.ReceiptKeyOrd.TheImpl as keys;

use crate::receipt_key::ReceiptKey;
use case_records::Refusal;
use desk_machine::Entry;
use desk_tables::ChangeList;
use determination_dates::ClosedDays;
use grid_exact::NoMemory;
use jiff::civil::Date;
use oe_keeper::{KeepErr, Keeper, RowChange};
use std::alloc::Global;
use std::collections::BTreeMap;
use std::marker::Model;
use wire_values::Word;

/// An accepted request, and the row changes that store it.
#[derive(Drop)]
pub struct Accepted {
    pub entry: Entry,
    pub changes: ChangeList,
}

/// Applies the row changes through the keeper.
///
/// # Errors
///
/// `NoMemory` where memory ran out, `KeeperFault` where the keeper failed; none of the changes is then made.
fn hand<K: Keeper>(alloc: Global, keeper: &mut K, changes: &[RowChange]) -> Result<(), Refusal>
    requires loaded { ∥ K.IsLoaded keeper.old ∥₁ }
    ensures refused { IfErr result IsUnkept }
    ensures handed { Handed K.Tells K.IsLoaded K.IsSteady K.faults keeper.old keeper.new
        changes.now result }
{
    match keeper.apply(alloc, changes) {
        Ok(()) => Ok(()),
        Err(KeepErr::Failed) => Err(Refusal::KeeperFault),
        Err(KeepErr::NoMemory) => Err(Refusal::NoMemory),
    }
}

/// The accepted requests in order of number, with an index by caller and key.
#[derive(Drop)]
pub struct Receipts {
    entries: Vec<Entry>,
    places: BTreeMap<ReceiptKey, usize>,
}

impl Model for Receipts {
    ghost use Rattle.std.specs.Prelude.{List};
    ghost use Rattle.desk_machine.specs.declared.entry.Entry.{Entry as Seen};
    ghost use Rattle.desk_receipts.specs.Receipts.{IsIndex};

    ghost Value = { List Seen };

    ghost view = { λ r. r.entries.items };

    ghost invariant = { λ r. IsIndex r.places r.entries.items };
}

/// The key by which the entry is found.
fn key_of(entry: &Entry) -> ReceiptKey
    ensures { result ≡ record { key = entry.now.change.key; caller = entry.now.change.caller } }
{
    ReceiptKey {
        key: entry.change.key,
        caller: entry.change.caller,
    }
}

/// Adds an index under a key.
fn remember(
    places: &mut BTreeMap<ReceiptKey, usize>,
    key: ReceiptKey,
    place: usize,
) -> Result<(), NoMemory>
    ensures put { OnOk result (Updates keys.ghosts.cmp places.old places.new key (Some place)) }
    ensures same { OnErr result (IsUnchanged places.old places.new) }
{
    match places.insert(key, place) {
        Ok(_) => Ok(()),
        Err(_) => Err(NoMemory),
    }
}

/// Removes the index under a key.
fn forget(places: &mut BTreeMap<ReceiptKey, usize>, key: ReceiptKey)
    ensures { Updates keys.ghosts.cmp places.old places.new key None }
{
    let _ = places.remove(&key);
}

/// Adds the index of an entry under its caller and key, unless an earlier entry is there.
fn remember_first(
    places: &mut BTreeMap<ReceiptKey, usize>,
    entries: &[Entry],
    place: usize,
) -> Result<(), NoMemory>
    requires there { place < length entries.now }
    requires before { IsIndex places.old (take place entries.now) }
    ensures { OnOk result (IsIndex places.new (take (place + 1) entries.now)) }
{
    let key = key_of(&entries[place]);
    match places.get(&key) {
        Some(_) => Ok(()),
        None => remember(places, key, place),
    }
}

impl Receipts {
    /// No requests. It takes no memory.
    #[tactic(auto, using(crate::proofs::Indexing::indexed_none))]
    pub fn empty(alloc: Global) -> Receipts
        ensures { result ≡ [] }
    {
        Receipts {
            entries: Vec::new(alloc),
            places: BTreeMap::new(alloc),
        }
    }

    /// These requests, in their order.
    ///
    /// # Errors
    ///
    /// `NoMemory` where memory was refused.
    #[tactic(auto, using(crate::proofs::Indexing::indexed_none))]
    pub fn of(alloc: Global, entries: Vec<Entry>) -> Result<Receipts, NoMemory>
        ensures { IfOk result (λ r. r ≡ entries.items) }
    {
        let mut places = BTreeMap::new(alloc);
        for place in 0..entries.len() {
            remember_first(&mut places, &entries, place)?;
        }
        Ok(Receipts { entries, places })
    }

    /// The number of requests.
    pub fn len(&self) -> usize
        ensures { result ≡ length self.now }
    {
        self.entries.len()
    }

    /// The entry at this index.
    pub fn at(&self, place: usize) -> Option<&Entry>
        ensures { option_copied result ≡ slice_get self.now place }
    {
        self.entries.get(place)
    }

    /// The entry of this caller's key.
    pub fn find(&self, caller: Word, key: Word) -> Option<&Entry>
        ensures { option_copied result ≡ entry_of caller key self.now }
    {
        match self.places.get(&ReceiptKey { key, caller }) {
            Some(&place) => self.entries.get(place),
            None => None,
        }
    }

    /// Stores an accepted request through the keeper, and appends its entry.
    ///
    /// # Errors
    ///
    /// `NoMemory` where memory ran out, `KeeperFault` where the keeper failed; the entries are then unchanged.
    #[tactic(auto, using(crate::proofs::Indexing::indexed_on, crate::proofs::Indexing::indexed_off, crate::proofs::Unasked::unasked))]
    pub fn keep<K: Keeper>(
        &mut self,
        alloc: Global,
        keeper: &mut K,
        accepted: Accepted,
    ) -> Result<(), Refusal>
        requires new { IsNew accepted.entry self.old }
        requires loaded { ∥ K.IsLoaded keeper.old ∥₁ }
        ensures { Keeps K.Tells K.IsLoaded K.IsSteady K.faults keeper.old keeper.new
            accepted.changes self.old (self.old ++ accepted.entry ∷ []) self.new result }
    {
        let Accepted { entry, changes } = accepted;
        match self.entries.reserve(1) {
            Ok(()) => {}
            Err(_) => return Err(Refusal::NoMemory),
        }
        let key = key_of(&entry);
        let place = self.entries.len();
        match remember(&mut self.places, key, place) {
            Ok(()) => {}
            Err(_) => return Err(Refusal::NoMemory),
        }
        match hand(alloc, keeper, changes.as_slice()) {
            Ok(()) => {}
            Err(why) => {
                let key = key_of(&entry);
                forget(&mut self.places, key);
                return Err(why);
            }
        }
        self.entries.push_reserved(entry);
        Ok(())
    }

    /// As above, for a request that records a closed day.
    ///
    /// # Errors
    ///
    /// `NoMemory` where memory ran out, `KeeperFault` where the keeper failed; the entries and the closed days are then unchanged.
    #[tactic(auto, using(crate::proofs::Unasked::unasked, crate::proofs::Unasked::closed_already))]
    pub fn keep_closing<K: Keeper>(
        &mut self,
        alloc: Global,
        keeper: &mut K,
        accepted: Accepted,
        closed: &mut ClosedDays,
        day: Date,
    ) -> Result<(), Refusal>
        requires new { IsNew accepted.entry self.old }
        requires loaded { ∥ K.IsLoaded keeper.old ∥₁ }
        requires day { IsLimited day }
        ensures { Keeps {A = _ × _} K.Tells K.IsLoaded K.IsSteady K.faults keeper.old keeper.new
            accepted.changes (self.old, closed.old)
            (self.old ++ accepted.entry ∷ [], with_day day closed.old)
            (self.new, closed.new) result }
    {
        closed.order();
        if closed.has(day) {
            return self.keep(alloc, keeper, accepted);
        }
        match closed.with(day) {
            Ok(()) => {}
            Err(_) => return Err(Refusal::NoMemory),
        }
        match self.keep(alloc, keeper, accepted) {
            Ok(()) => Ok(()),
            Err(why) => {
                closed.without(day);
                Err(why)
            }
        }
    }
}
