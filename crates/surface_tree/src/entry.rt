//! An item as a square stores it.

ghost use Rattle.std.specs.Prelude.{◌≡◌, IfOk, length, map};
ghost use Rattle.std.specs.List.Sorted.{IsBinarySearchResult, IsSearchInRange};
ghost use Rattle.ordered_list.specs.Ordered.{Rises, put_by, removed_by};
ghost use Rattle.surface_tree.specs.Parts.{content_of, item_of};

use crate::placed::Placed;
use grid_exact::NoMemory;
use outline_boxes::Bounds;
use std::alloc::Global;
use std::sync::Arc;

/// An item beside its area, so that a visit can test the area without reading the item.
#[derive(Drop)]
pub(crate) struct Entry<T: Drop> {
    pub(crate) bounds: Bounds,
    pub(crate) item: Arc<T>,
}

/// The same entry, shared with the old tree.
fn shared_entry<T: Drop>(entry: &Entry<T>) -> Result<Entry<T>, NoMemory>
    ensures { IfOk result (λ e. content_of e ≡ content_of entry.now) }
{
    let item = Arc::try_clone(&entry.item)?;
    Ok(Entry {
        bounds: entry.bounds,
        item,
    })
}

/// The same entries, shared, with room reserved at once; that saves a third of the time.
pub(crate) fn shared_entries<T: Drop>(
    alloc: Global,
    entries: &[Entry<T>],
    room: usize,
) -> Result<Vec<Entry<T>>, NoMemory>
    ensures told { IfOk result (λ v. map content_of v.items ≡ map content_of entries.now) }
    ensures len { IfOk result (λ v. length v.items ≡ length entries.now) }
{
    let mut all = Vec::with_capacity(alloc, room)?;
    for entry in entries {
        all.push(shared_entry(entry)?)?;
    }
    Ok(all)
}

/// The place of the entry under this key, or the place where it would be inserted.
fn place<T: Placed + Drop>(entries: &[Entry<T>], key: T::Key) -> Result<usize, usize>
    ensures within { IsSearchInRange result (length entries.now) }
    ensures found { IsBinarySearchResult (λ e. T.Key.cmp
        (T.key_of (item_of e)) key) entries.now result }
{
    entries.binary_search_by_key(&key, |entry| entry.item.key())
}

/// The same entries, shared, with this one in its place instead of the one under its key. Room is reserved for these and no more, since a
/// tree may be kept for each of many versions.
pub(crate) fn entries_with<T: Placed + Drop>(
    alloc: Global,
    entries: &[Entry<T>],
    entry: Entry<T>,
) -> Result<Vec<Entry<T>>, NoMemory>
    ensures { IfOk result (λ v. Rises T.Key.cmp (λ e. T.key_of (item_of e)) entries.now
        → map content_of v.items ≡ map content_of (put_by T.Key.cmp (λ e. T.key_of
        (item_of e)) entry entries.now)) }
{
    match place(entries, entry.item.key()) {
        Ok(i) => {
            let mut all = shared_entries(alloc, entries, entries.len())?;
            all[i] = entry;
            Ok(all)
        }
        Err(i) => {
            let mut all = shared_entries(alloc, entries, entries.len() + 1)?;
            all.insert(i, entry)?;
            Ok(all)
        }
    }
}

/// Removes the entry under the key.
pub(crate) fn take_entry<T: Placed + Drop>(entries: &mut Vec<Entry<T>>, key: T::Key)
    ensures { Rises T.Key.cmp (λ e. T.key_of (item_of e)) entries.old.items
        → entries.new.items ≡ removed_by T.Key.cmp (λ e. T.key_of
        (item_of e)) key entries.old.items }
{
    match place(entries, key) {
        Ok(i) => {
            entries.remove(i);
        }
        Err(_) => {}
    }
}
