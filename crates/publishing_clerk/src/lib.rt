//! The clerk that publishes each accepted register as a version, which the seats of sessions show, and what a session asks of it, whether the
//! clerk is its own or shared with other sessions.
#![tactic(auto)]

mod alone;
mod answered;
mod case_filing;
mod clerk;
mod evaluation;
mod front;
mod laws;
mod locked;
mod opening;
mod publishing;
mod ruling;

pub use alone::Alone;
pub use answered::Answered;
pub use case_filing::CaseFiling;
pub use clerk::PublishingClerk;
pub use evaluation::Evaluation;
pub use front::Front;
pub use laws::each_entry_is_made;
pub use locked::Locked;
pub use opening::Opening;
pub use ruling::Ruling;
