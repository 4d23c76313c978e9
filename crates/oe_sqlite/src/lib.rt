//! A keeper over SQLite, in a file or in memory: its one table `kept`, which holds the rows of all five tables, the four SQL texts that run
//! over it, the state of the two files when a store with known rows ends, by a close or a crash, and that the next store over them loads
//! the same rows. Column `t` is the table's index from 0 to 4, `k` the key, `v` the row.
#![tactic(auto)]

mod keeper;
mod laws;
mod leave;
mod opens;
mod place;
mod reopened;
mod rows;
mod schema;
mod stop;
mod store;
mod told;
mod transaction;

pub use keeper::{SqliteKeeper, StoreKeeper};
pub use laws::{told_after_crash, told_again};
pub use opens::{HostFiles, Opens, StartFiles};
