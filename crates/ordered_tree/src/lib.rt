//! Ordered trees: shared items under their keys. A tree never changes. A changed one is made beside it, and is meant to share with it all
//! but one path of its nodes; that it does, and that a tree is level, no contract says.
#![tactic(auto)]

mod branch;
mod change;
mod find;
mod key_of;
mod tree;
mod turn;

pub use key_of::{KeyOf, OwnKey};
pub use tree::OrderedTree;
