//! A session of HTTP over a link: a response to each request, in order, over anything that answers records. Lengths are in bytes.
#![tactic(auto)]

mod front;
mod laws;
mod link;
mod replying;
mod status;

pub use front::Routed;
pub use laws::reply_status;
pub use link::session;
pub use replying::{Replying, Response};
pub use status::{CONFLICT, MALFORMED_RECORD, NOT_ALLOWED, NOT_FOUND, NOT_KEPT, OK};
