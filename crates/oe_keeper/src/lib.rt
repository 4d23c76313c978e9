//! The keeper, which stores the desk's tables between runs: the rows of five tables, changes of rows, and the stores for them.
#![tactic(auto)]

mod by_name;
mod change;
mod fail_list;
mod keeper;
pub mod laws;
mod memory;
mod no_keeper;
mod pages;
mod placed;
mod rows;
mod tables;

pub use by_name::ByName;
pub use change::{RowChange, Table};
pub use fail_list::FailList;
pub use keeper::{KeepErr, Keeper};
pub use memory::MemoryKeeper;
pub use no_keeper::NoKeeper;
pub use placed::PlacedKeeper;
pub use tables::Tables;
