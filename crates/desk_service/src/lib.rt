//! Sessions over seats of one clerk: lines answered over the version that a seat shows, and many sessions of HTTP, each worker with a seat
//! of its own.
#![tactic(auto)]

mod desk;
mod fulfil;
mod place;
mod service;
mod shift;

pub use desk::SeatDesk;
pub use service::{Plan, ServiceEnd, serve};
