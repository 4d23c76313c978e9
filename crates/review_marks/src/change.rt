//! Changes of the book, computed before they are made.

use crate::row::Row;

/// Whether a case is marked.
#[derive(Clone, Copy, Debug, PartialEq, Eq)]
pub struct Mark {
    pub case: u32,
    pub marked: bool,
}

/// A change of the book, with all memory that it needs already allocated.
#[derive(Drop)]
pub enum MarkChange {
    /// A case is added to the book, or this row takes the place of its row.
    Added { case: u32, row: Row },
    /// These cases are marked or unmarked; all others are unchanged.
    Marked(Vec<Mark>),
}
