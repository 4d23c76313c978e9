//! A list in rising order of a key.

ghost use Rattle.std.specs.Prelude.{◌≡◌, [], length, slice_get, option_copied, is_some, map, IfOk, OnErr};
ghost use Rattle.std.specs.Arc.{arc_value};
ghost use Rattle.std.specs.List.Sorted.{IsBinarySearchResult, IsSearchInRange};
ghost use Rattle.ordered_list.specs.Ordered.{Rises, found_by, put_by, removed_by};

use crate::keyed::Keyed;
use std::alloc::{AllocError, Global};
use std::marker::Model;
use std::sync::Arc;

/// A list of items in rising order of their keys, no two of which are equal; contracts see it as the list of the items.
#[derive(Drop)]
pub struct OrderedList<T: Keyed + Drop> {
    items: Vec<T>,
}

impl<T: Keyed + Drop> Model for OrderedList<T> {
    ghost use Rattle.std.specs.Prelude.{List};
    ghost use Rattle.ordered_list.specs.Ordered.{Rises};

    ghost Value = { List T };

    ghost view = { λ l. l.items.items };

    ghost invariant = { λ l. Rises T.Key.cmp T.key l.items.items };
}

/// The place of the item under this key, or the place where it would be inserted.
fn place<T: Keyed + Drop>(items: &[T], key: &T::Key) -> Result<usize, usize>
    ensures within { IsSearchInRange result (length items.now) }
    ensures found { IsBinarySearchResult (λ y. T.Key.cmp (T.key y) key.now) items.now result }
{
    items.binary_search_by_key(key, |item| item.key())
}

impl<T: Keyed + Drop> OrderedList<T> {
    /// An empty list. It takes no memory.
    pub fn empty(alloc: Global) -> OrderedList<T>
        ensures { result ≡ [] }
    {
        OrderedList {
            items: Vec::new(alloc),
        }
    }

    /// The number of items.
    pub fn len(&self) -> usize
        ensures { result ≡ length self.now }
    {
        self.items.len()
    }

    /// The item at place `i`, counted from 0.
    pub fn get(&self, i: usize) -> Option<&T>
        ensures { option_copied result ≡ slice_get self.now i }
    {
        self.items.get(i)
    }

    /// The items in order.
    pub fn as_slice(&self) -> &[T]
        ensures value { result.now ≡ self.now }
        ensures order { Rises T.Key.cmp T.key self.now }
    {
        self.items.as_slice()
    }

    /// The item under the key.
    pub fn find(&self, key: &T::Key) -> Option<&T>
        ensures { option_copied result ≡ found_by T.Key.cmp T.key key.now self.now }
    {
        match place(self.items.as_slice(), key) {
            Ok(i) => Some(&self.items[i]),
            Err(_) => None,
        }
    }

    /// Whether an item stands under the key.
    pub fn has(&self, key: &T::Key) -> bool
        ensures { result ≡ is_some (found_by T.Key.cmp T.key key.now self.now) }
    {
        self.find(key).is_some()
    }

    /// Puts the item in its place, instead of the one under its key, which is returned.
    ///
    /// # Errors
    ///
    /// `AllocError` where memory was refused; the list is then unchanged.
    pub fn put(&mut self, item: T) -> Result<Option<T>, AllocError>
        ensures put { IfOk result (λ _. self.new ≡ put_by T.Key.cmp T.key item self.old) }
        ensures before { IfOk result (λ o. o ≡ found_by T.Key.cmp T.key (T.key item) self.old) }
        ensures same { OnErr result (self.new ≡ self.old) }
    {
        match place(self.items.as_slice(), &item.key()) {
            Ok(i) => {
                let before = std::mem::replace(&mut self.items[i], item);
                Ok(Some(before))
            }
            Err(i) => {
                self.items.insert(i, item)?;
                Ok(None)
            }
        }
    }

    /// Removes the item under the key and returns it.
    pub fn remove(&mut self, key: &T::Key) -> Option<T>
        ensures removed { self.new ≡ removed_by T.Key.cmp T.key key.now self.old }
        ensures taken { result ≡ found_by T.Key.cmp T.key key.now self.old }
    {
        match place(self.items.as_slice(), key) {
            Ok(i) => Some(self.items.remove(i)),
            Err(_) => None,
        }
    }
}

impl<T: Keyed + Copy> OrderedList<T> {
    /// A copy.
    ///
    /// # Errors
    ///
    /// `AllocError` where memory was refused.
    pub fn copy(&self, alloc: Global) -> Result<OrderedList<T>, AllocError>
        ensures { IfOk result (λ l. l ≡ self.now) }
    {
        Ok(OrderedList {
            items: Vec::from_slice(alloc, self.items.as_slice())?,
        })
    }
}

impl<T: Keyed + Drop> OrderedList<Arc<T>> {
    /// A list of the same items, which are shared with this one.
    ///
    /// # Errors
    ///
    /// `AllocError` where memory was refused.
    pub fn share(&self, alloc: Global) -> Result<OrderedList<Arc<T>>, AllocError>
        ensures { IfOk result (λ l. map arc_value l ≡ map arc_value self.now) }
    {
        let mut items = Vec::with_capacity(alloc, self.items.len())?;
        for item in &self.items {
            items.push(Arc::try_clone(item)?)?;
        }
        Ok(OrderedList { items })
    }
}
