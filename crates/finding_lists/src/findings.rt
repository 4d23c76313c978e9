//! Lists of findings.

ghost use Rattle.std.specs.Prelude.{◌≡◌, ◌∷◌, ◌++◌, ◌↔◌, ◌<◌, ◌≤◌, List, [], length, insert, vec_capacity, vec_len, slice_get, option_copied, IfOk, OnOk, OnErr, IsTrue};
ghost use Rattle.finding_lists.specs.declared.finding.Finding.{Finding as AFinding};
ghost use Rattle.finding_lists.specs.Orders.{stays_before, put_in_order, merged_list};

use crate::finding::Finding;
use grid_exact::NoMemory;
use std::alloc::Global;
use std::marker::Model;

/// A list of findings.
#[derive(Drop)]
pub struct Findings {
    items: Vec<Finding>,
    /// Memory for another list while this one is made; reused from list to list.
    spare: Vec<Finding>,
}

/// Makes room for more findings.
#[cold]
#[inline(never)]
fn make_room(items: &mut Vec<Finding>) -> Result<(), NoMemory>
    ensures items { items.new.items ≡ items.old.items }
    ensures room { OnOk result (vec_len items.new < vec_capacity items.new) }
{
    items.reserve(1)?;
    Ok(())
}

/// Makes room for one finding if needed, which is seldom, since memory is reused from list to list.
#[inline(always)]
fn see_to_room(items: &mut Vec<Finding>) -> Result<(), NoMemory>
    ensures items { items.new.items ≡ items.old.items }
    ensures room { OnOk result (vec_len items.new < vec_capacity items.new) }
{
    if items.len() < items.capacity() {
        return Ok(());
    }
    make_room(items)
}

/// Whether `entry` stays before `finding` in a merge: it has no airfield, or one whose name is not greater.
fn stays(entry: &Finding, finding: &Finding) -> bool
    ensures { result ≡ stays_before entry.now finding.now }
{
    match (entry.key.field, finding.key.field) {
        (None, _) => true,
        (Some(_), None) => false,
        (Some(first), Some(second)) => first.cmp(&second).is_le(),
    }
}

/// The place of `finding` in a merge into `items`: before the first entry that does not stay before it.
fn place_among(items: &[Finding], finding: &Finding) -> usize
    ensures within { result ≤ length items.now }
    ensures place { insert items.now result finding.now ≡ put_in_order finding.now items.now }
{
    for (at, entry) in items.iter().enumerate() {
        if !stays(entry, finding) {
            return at;
        }
    }
    items.len()
}

/// Inserts `finding` in its place among `items`.
fn put_among(items: &mut Vec<Finding>, finding: &Finding) -> Result<(), NoMemory>
    ensures { OnOk result (items.new.items ≡ put_in_order finding.now items.old.items) }
{
    let at = place_among(items.as_slice(), finding);
    items.insert(at, *finding)?;
    Ok(())
}

/// Inserts each of `more` in its place among `items`, one after another.
fn put_all_among(items: &mut Vec<Finding>, more: &[Finding]) -> Result<(), NoMemory>
    ensures { OnOk result (items.new.items ≡ merged_list items.old.items more.now) }
{
    for finding in more {
        put_among(items, finding)?;
    }
    Ok(())
}

impl Model for Findings {
    ghost use Rattle.std.specs.Prelude.{List};
    ghost use Rattle.finding_lists.specs.declared.finding.Finding.{Finding};

    ghost Value = { List Finding };

    ghost view = { λ f. f.items.items };
}

impl Findings {
    /// An empty list. It takes no memory.
    pub fn new(alloc: Global) -> Findings
        ensures { result ≡ [] }
    {
        Findings {
            items: Vec::new(alloc),
            spare: Vec::new(alloc),
        }
    }

    /// Appends a finding. It is written directly to its place, field by field, without an intermediate copy.
    ///
    /// # Errors
    ///
    /// `NoMemory` where memory was refused; the list is then unchanged.
    #[inline(always)]
    pub fn push(&mut self, finding: Finding) -> Result<(), NoMemory>
        ensures pushed { OnOk result (self.new ≡ self.old ++ finding ∷ []) }
        ensures kept { OnErr result (self.new ≡ self.old) }
    {
        // through an array, since a parameter with options gets no proof when it is pushed
        let [item] = [finding];
        see_to_room(&mut self.items)?;
        self.items.push_reserved(item);
        Ok(())
    }

    /// The number of findings.
    pub fn len(&self) -> usize
        ensures { result ≡ length self.now }
    {
        self.items.len()
    }

    /// Whether the list is empty.
    pub fn is_empty(&self) -> bool
        ensures { IsTrue result ↔ self.now ≡ [] }
    {
        self.items.is_empty()
    }

    /// The finding at place `i`, counted from 0.
    pub fn get(&self, i: usize) -> Option<&Finding>
        ensures { option_copied result ≡ slice_get self.now i }
    {
        self.items.get(i)
    }

    /// The findings in their order.
    pub fn as_slice(&self) -> &[Finding]
        ensures { result.now ≡ self.now }
    {
        self.items.as_slice()
    }

    /// Two empty lists that reuse the memory of this one.
    pub fn emptied(self, alloc: Global) -> (Findings, Findings)
        ensures first { result.0 ≡ [] }
        ensures second { result.1 ≡ [] }
    {
        let mut first = self.items;
        let mut second = self.spare;
        first.clear();
        second.clear();
        (
            Findings {
                items: first,
                spare: Vec::new(alloc),
            },
            Findings {
                items: second,
                spare: Vec::new(alloc),
            },
        )
    }

    /// The findings of this list followed by those of another, whose memory is kept for reuse.
    ///
    /// # Errors
    ///
    /// `NoMemory` where memory was refused.
    pub fn followed_by(self, rest: Findings) -> Result<Findings, NoMemory>
        ensures { IfOk result (λ f. f ≡ self ++ rest) }
    {
        let mut items = self.items;
        if rest.items.is_empty() {
            return Ok(Findings {
                items,
                spare: rest.items,
            });
        }
        items.extend_from_slice(rest.items.as_slice())?;
        Ok(Findings {
            items,
            spare: rest.items,
        })
    }

    /// Merges the findings from a place on into those before it, by the names of their airfields.
    ///
    /// # Errors
    ///
    /// `NoMemory` where memory was refused; the contents of the list are then unspecified.
    pub fn settle_from(&mut self, from: usize) -> Result<(), NoMemory>
        ensures { OnOk result ((list more : List AFinding) → from ≡ length list →
            self.old ≡ list ++ more → self.new ≡ merged_list list more) }
    {
        if from >= self.items.len() {
            return Ok(());
        }
        let more = Vec::from_slice(*self.items.allocator(), &self.items[from..])?;
        self.items.truncate(from);
        put_all_among(&mut self.items, more.as_slice())
    }

    /// A copy.
    ///
    /// # Errors
    ///
    /// `NoMemory` where memory was refused.
    pub fn copy(&self, alloc: Global) -> Result<Findings, NoMemory>
        ensures { IfOk result (λ f. f ≡ self.now) }
    {
        Ok(Findings {
            items: Vec::from_slice(alloc, self.items.as_slice())?,
            spare: Vec::new(alloc),
        })
    }

    /// Whether the two lists have the same findings in the same order.
    pub fn equal(&self, other: &Findings) -> bool
        ensures { IsTrue result ↔ self.now ≡ other.now }
    {
        self.items == other.items
    }
}
