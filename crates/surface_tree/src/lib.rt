//! A tree of areas that finds the areas containing a point. It is copy-on-write: nodes are shared between trees and never change, so a
//! tree in use stays as it is while a changed one is made beside it.
//!
//! The plane is divided into quarters repeatedly. Each item names the square size it is stored at, and stands in every square of that size
//! that its area meets. So a visit of a point follows one path of squares, from the whole plane down. Coordinates are in whole tenths of
//! a foot.
#![tactic(auto)]

mod by_key;
mod change;
mod edit;
mod entry;
mod laws;
mod part;
mod placed;
mod square;
mod tree;
mod visit;
mod visitor;

pub use laws::{close_is_near, each_size_comes_in_order, longer_areas_have_higher_levels};
pub use outline_boxes::PLANE_LIMIT;
pub use placed::{Placed, Plot};
pub use square::TOP_LEVEL;
pub use tree::Tree;
pub use visitor::Visitor;
