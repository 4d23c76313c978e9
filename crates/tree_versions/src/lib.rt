//! Published versions of a value. One publisher offers entries, each with the value that it makes of the last one, and publishes all that waits
//! at one step. The seats of readers look at the newest version without waiting.
#![tactic(auto)]

mod front;
mod history;
mod naming;
mod publisher;
mod seat;
mod shown;
mod writer;

pub use front::Front;
pub use history::Unnamed;
pub use naming::Naming;
pub use publisher::{MOST_SEATS, Publisher};
pub use seat::{Note, Seat, Seats, Snapshot};
pub use shown::Version;
