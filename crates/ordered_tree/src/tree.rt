//! The tree as its callers see it.

ghost use Rattle.std.specs.Prelude.{◌≡◌, [], length, slice_get, option_copied, option_map, IfOk};
ghost use Rattle.std.specs.Arc.{arc_value};
ghost use Rattle.ordered_list.specs.Ordered.{found_by, put_by, removed_by};

use crate::branch::{Branch, count, shared_branch};
use crate::change::{insert, remove};
use crate::find::{find, get};
use crate::key_of::KeyOf;
use grid_exact::NoMemory;
use std::alloc::Global;
use std::marker::{Model, PhantomData};
use std::sync::Arc;

/// Items, no two of which have equal keys. Contracts see it as the list of the items, in rising order of their keys.
pub struct OrderedTree<T: Drop, K: KeyOf<T>> {
    root: Branch<T>,
    keys: PhantomData<K>,
}

// By hand, so that no crate above proves again how what it holds is dropped.
impl<T: Drop, K: KeyOf<T>> Drop for OrderedTree<T, K> {
    fn drop(self) {
        let OrderedTree { root: _, keys: _ } = self;
    }
}

impl<T: Drop, K: KeyOf<T>> Model for OrderedTree<T, K> {
    ghost use Rattle.std.specs.Prelude.{List};
    ghost use Rattle.ordered_tree.specs.Branches.{items_of};
    ghost use Rattle.ordered_tree.specs.Trees.{IsTree};

    ghost Value = { List T };

    ghost view = { λ t. items_of t.root };

    ghost invariant = { λ t. IsTree K.Key.cmp K.key_of t.root };
}

impl<T: Drop, K: KeyOf<T>> OrderedTree<T, K> {
    /// An empty tree. It takes no memory.
    pub fn empty(_alloc: Global) -> OrderedTree<T, K>
        ensures { result ≡ [] }
    {
        OrderedTree {
            root: Branch::Leaf,
            keys: PhantomData,
        }
    }

    /// The number of items.
    pub fn len(&self) -> usize
        ensures { result ≡ length self.now }
    {
        count(&self.root)
    }

    /// The item at place `i`, counted from 0.
    pub fn get(&self, i: usize) -> Option<&T>
        ensures { option_copied result ≡ slice_get self.now i }
    {
        Some(get(&self.root, i)?)
    }

    /// The item under the key.
    pub fn find(&self, key: &K::Key) -> Option<&T>
        ensures { option_copied result ≡ found_by K.Key.cmp K.key_of key.now self.now }
    {
        Some(self.find_shared(key)?)
    }

    /// The item under the key, for a caller that keeps it longer than the tree.
    pub fn find_shared(&self, key: &K::Key) -> Option<&Arc<T>>
        ensures { option_map arc_value (option_copied result)
            ≡ found_by K.Key.cmp K.key_of key.now self.now }
    {
        find::<T, K>(&self.root, *key)
    }

    /// The tree with the item in its place, instead of the one under its key. This tree is unchanged.
    ///
    /// # Errors
    ///
    /// `NoMemory` where memory was refused.
    pub fn with(&self, alloc: Global, item: Arc<T>) -> Result<OrderedTree<T, K>, NoMemory>
        ensures { IfOk result (λ t. t ≡ put_by K.Key.cmp K.key_of (arc_value item) self.now) }
    {
        let root = insert::<T, K>(alloc, &self.root, item)?;
        Ok(OrderedTree {
            root,
            keys: PhantomData,
        })
    }

    /// The tree without the item under the key. This tree is unchanged.
    ///
    /// # Errors
    ///
    /// `NoMemory` where memory was refused.
    pub fn without(&self, alloc: Global, key: &K::Key) -> Result<OrderedTree<T, K>, NoMemory>
        ensures { IfOk result (λ t. t ≡ removed_by K.Key.cmp K.key_of key.now self.now) }
    {
        let root = remove::<T, K>(alloc, &self.root, *key)?;
        Ok(OrderedTree {
            root,
            keys: PhantomData,
        })
    }

    /// An equal tree, which shares all nodes with this one.
    ///
    /// # Errors
    ///
    /// `NoMemory` where memory was refused.
    pub fn share(&self) -> Result<OrderedTree<T, K>, NoMemory>
        ensures { IfOk result (λ t. t ≡ self.now) }
    {
        let root = shared_branch(&self.root)?;
        Ok(OrderedTree {
            root,
            keys: PhantomData,
        })
    }
}
