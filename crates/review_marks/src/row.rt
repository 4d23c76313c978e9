//! The book's row of a case.

use airfields::Filing;
use finding_lists::Findings;

/// A case whose determination is watched: its structure, the list that the determination was made on, and its mark.
#[derive(Drop)]
pub struct Row {
    pub filing: Filing,
    pub stored: Findings,
    pub marked: bool,
}
