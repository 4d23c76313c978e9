//! Reads HTTP requests from a stream, finds the record that each stands for, and writes responses. A head is decided while its bytes arrive.
//! Lengths are in bytes.
#![tactic(auto)]

mod decision;
mod frame;
mod head;
mod held;
mod laws;
mod lines;
mod places;
mod request;
mod response;
mod routes;
mod said;
mod status;

pub use decision::{Decision, HEAD_LIMIT, MOST_FIELDS, decide};
pub use frame::BODY_LIMIT;
pub use held::Held;
pub use laws::{one_message, one_outcome};
pub use request::{Incoming, held_request, next_request};
pub use response::{SendErr, append_response, write_response};
pub use routes::{Routed, Routes};
pub use status::{
    BODY_TOO_LARGE, HEAD_TOO_LARGE, LENGTH_WANTED, MALFORMED, NO_MEMORY, NO_TRANSFER_ENCODING,
};
