//! The tree as its callers see it.

ghost use Rattle.std.specs.Prelude.{◌≡◌, ◌+◌, ◌≤◌, ◌↔◌, ◌++◌, [], List, count_by, IfOk, IsTrue, option_map, option_copied, Some};
ghost use Rattle.std.specs.Arc.{arc_value};
ghost use Rattle.std.specs.List.{filter};
ghost use Rattle.std.specs.List.Sorted.{IsPermutation};
ghost use Rattle.grid_exact.specs.Area.{has_point};
ghost use Rattle.ordered_list.specs.Ordered.{put_by, removed_by};
ghost use Rattle.surface_tree.specs.Levels.{IsPlaced};
ghost use Rattle.surface_tree.specs.Changes.{Follows, IsFound, LiesIn};
ghost use Rattle.surface_tree.specs.Parts.{RootHolds};
ghost use Rattle.surface_tree.specs.Visits.{all_hits, close_area, near_area};
ghost use Rattle.surface_tree.specs.declared.square.TheConstants.{TOP_LEVEL};

use crate::by_key::PlacedKey;
use crate::change::changed_part;
use crate::edit::Edit;
use crate::part::{Part, shared_root};
use crate::placed::{Placed, Plot};
use crate::square::Square;
use crate::visit::visit_root;
use crate::visitor::Visitor;
use grid_exact::{NoMemory, Point, Steps};
use ordered_tree::OrderedTree;
use outline_boxes::Spot;
use std::alloc::Global;
use std::marker::Model;
use std::sync::Arc;
use std::sync::ledger::Ledger;

/// Items under their keys, found by the points of their areas. Contracts see it as the list of the items, in rising order of their keys.
pub struct Tree<T: Placed + Drop> {
    /// The contents of the whole plane; none in the tree that `empty` makes, which takes no memory.
    root: Option<Arc<Part<T>>>,
    by_key: OrderedTree<T, PlacedKey>,
}

// By hand, so that no crate above proves again how what it holds is dropped.
impl<T: Placed + Drop> Drop for Tree<T> {
    fn drop(self) {
        let Tree { root: _, by_key: _ } = self;
    }
}

impl<T: Placed + Drop> Model for Tree<T> {
    ghost use Rattle.std.specs.Prelude.{List, option_map};
    ghost use Rattle.std.specs.Arc.{arc_value};
    ghost use Rattle.surface_tree.specs.Trees.{IsTree};

    ghost Value = { List T };

    ghost view = { λ t. t.by_key };

    ghost invariant = { λ t. IsTree T.Key.cmp T.key_of T.plot_of
        (option_map arc_value t.root) t.by_key };
}

/// The whole tree of squares after a change.
fn changed_root<T: Placed + Drop>(
    alloc: Global,
    root: &Option<Arc<Part<T>>>,
    edit: &Edit<T>,
) -> Result<Option<Arc<Part<T>>>, NoMemory>
    ensures { IfOk result (λ q. Follows T.Key.cmp T.key_of T.plot_of edit.now.key edit.now.plot
        (option_map arc_value edit.now.item)
        (λ xs. RootHolds T.plot_of xs (option_map arc_value root.now))
        (λ xs. RootHolds T.plot_of xs (option_map arc_value q))) }
{
    match root {
        None => {
            let bare = Arc::new(alloc, Part::Bare)?;
            let part = changed_part(alloc, &bare, &Square::whole(), edit)?;
            Ok(Some(part))
        }
        Some(part) => {
            let part = changed_part(alloc, part, &Square::whole(), edit)?;
            Ok(Some(part))
        }
    }
}

/// The squares without the item that was found under a key.
fn cleared_root<T: Placed + Drop>(
    alloc: Global,
    root: &Option<Arc<Part<T>>>,
    key: T::Key,
    old: Option<&Arc<T>>,
) -> Result<Option<Arc<Part<T>>>, NoMemory>
    requires placed { (i : T) → option_map arc_value (option_copied old) ≡ Some i
        → IsPlaced (T.plot_of i) }
    ensures { IfOk result (λ q. (items : List T)
        → IsFound T.Key.cmp T.key_of key (option_map arc_value (option_copied old.entry)) items
        → RootHolds T.plot_of items (option_map arc_value root.now) → RootHolds T.plot_of
        (removed_by T.Key.cmp T.key_of key items) (option_map arc_value q)) }
{
    match old {
        None => shared_root(root),
        Some(old) => changed_root(alloc, root, &Edit::take(key, old)),
    }
}

/// Whether the item's area lies in the plot's area, and squares of the same size hold both.
fn lies_in<T: Placed>(item: &T, plot: &Plot) -> bool
    ensures { IsTrue result → LiesIn (T.plot_of item.now) plot.now }
{
    let inner = item.plot();
    let outer = *plot;
    (inner.level == outer.level)
        & (outer.area.x0 <= inner.area.x0)
        & (inner.area.x1 <= outer.area.x1)
        & (outer.area.y0 <= inner.area.y0)
        & (inner.area.y1 <= outer.area.y1)
}

/// Whether nothing was found under a key, or the squares of the item found all hold the area of the edit too.
fn is_covered<T: Placed + Drop>(old: Option<&Arc<T>>, edit: &Edit<T>) -> bool
    ensures { IsTrue result → (i : T) → option_map arc_value (option_copied old.entry) ≡ Some i
        → LiesIn (T.plot_of i) edit.now.plot }
{
    match old {
        None => true,
        Some(old) => lies_in::<T>(old, &edit.plot),
    }
}

/// The squares with the item instead of the one found under its key. Where the new area covers the old one and squares of the same size
/// hold both (as when a runway is added to an airport) each square is copied once; else the old item is removed first.
fn replaced_root<T: Placed + Drop>(
    alloc: Global,
    root: &Option<Arc<Part<T>>>,
    old: Option<&Arc<T>>,
    item: Arc<T>,
) -> Result<Option<Arc<Part<T>>>, NoMemory>
    requires found { (i : T) → option_map arc_value (option_copied old) ≡ Some i
        → IsPlaced (T.plot_of i) }
    requires placed { IsPlaced (T.plot_of (arc_value item)) }
    ensures { IfOk result (λ q. (items : List T)
        → IsFound T.Key.cmp T.key_of (T.key_of (arc_value item))
        (option_map arc_value (option_copied old.entry)) items
        → RootHolds T.plot_of items (option_map arc_value root.now)
        → RootHolds T.plot_of (put_by T.Key.cmp T.key_of (arc_value item) items)
        (option_map arc_value q)) }
{
    let edit = Edit::put(item);
    if is_covered(old, &edit) {
        return changed_root(alloc, root, &edit);
    }
    let root = cleared_root(alloc, root, edit.key, old)?;
    changed_root(alloc, &root, &edit)
}

impl<T: Placed + Drop> Tree<T> {
    /// An empty tree. It takes no memory.
    pub fn empty(alloc: Global) -> Tree<T>
        ensures { result ≡ [] }
    {
        Tree {
            root: None,
            by_key: OrderedTree::empty(alloc),
        }
    }

    /// The tree with the item in its place, instead of the one under its key. This tree is unchanged.
    ///
    /// The item's area must have its ends in order, and coordinates from `-PLANE_LIMIT` to below `PLANE_LIMIT`. Its squares must be no
    /// larger than the area: of level 0, or with half a side less than the longer of the area's extents.
    ///
    /// # Errors
    ///
    /// `NoMemory` where memory was refused.
    pub fn with(&self, alloc: Global, item: Arc<T>) -> Result<Tree<T>, NoMemory>
        requires { IsPlaced (T.plot_of (arc_value item)) }
        ensures { IfOk result (λ t. t ≡ put_by T.Key.cmp T.key_of (arc_value item) self.now) }
    {
        let by_key = self.by_key.with(alloc, Arc::try_clone(&item)?)?;
        let old = self.by_key.find_shared(&item.key());
        let root = replaced_root(alloc, &self.root, old, item)?;
        Ok(Tree { root, by_key })
    }

    /// The tree without the item under the key. This tree is unchanged.
    ///
    /// # Errors
    ///
    /// `NoMemory` where memory was refused.
    pub fn without_key(&self, alloc: Global, key: T::Key) -> Result<Tree<T>, NoMemory>
        ensures { IfOk result (λ t. t ≡ removed_by T.Key.cmp T.key_of key self.now) }
    {
        let root = cleared_root(alloc, &self.root, key, self.by_key.find_shared(&key))?;
        let by_key = self.by_key.without(alloc, &key)?;
        Ok(Tree { root, by_key })
    }

    /// The tree without the item under this item's key. This tree is unchanged.
    ///
    /// # Errors
    ///
    /// `NoMemory` where memory was refused.
    pub fn without(&self, alloc: Global, item: &T) -> Result<Tree<T>, NoMemory>
        ensures { IfOk result (λ t. t ≡ removed_by T.Key.cmp T.key_of
            (T.key_of item.now) self.now) }
    {
        self.without_key(alloc, item.key())
    }

    /// An equal tree, which shares its nodes with this one.
    ///
    /// # Errors
    ///
    /// `NoMemory` where memory was refused.
    pub fn share(&self) -> Result<Tree<T>, NoMemory>
        ensures { IfOk result (λ t. t ≡ self.now) }
    {
        let root = shared_root(&self.root)?;
        let by_key = self.by_key.share()?;
        Ok(Tree { root, by_key })
    }

    /// Gives the visitor each item whose area contains the point, once, and no other. It takes no memory.
    ///
    /// Items in larger squares come first; items in squares of one size come in the order of their keys.
    ///
    /// A step is counted for each square, at most one per level, and for each item tested.
    pub fn visit<L: Ledger, W: Visitor<T>>(&self, x: &Point, visitor: &mut W, steps: &mut Steps<L>)
        ensures order { (start : W) (xs : List T) → W.seen start visitor.old xs
            → W.seen start visitor.new (xs ++ all_hits T.plot_of x.now self.now) }
        ensures seen { (start : W) (xs : List T) → W.seen start visitor.old xs
            → (ys : List T) × IsPermutation (filter
            (λ i. has_point (T.plot_of i).area x.now) self.now) ys
            × W.seen start visitor.new (xs ++ ys) }
        ensures close { steps.new ≤ steps.old + (TOP_LEVEL + 1) + count_by
            (λ i. close_area x.now (T.plot_of i)) self.now }
        ensures cost { steps.new ≤ steps.old + (TOP_LEVEL + 1) + count_by
            (λ i. near_area x.now (T.plot_of i).area) self.now }
    {
        let spot = Spot::of(x);
        visit_root(&self.root, &Square::whole(), &spot, visitor, steps);
    }
}
