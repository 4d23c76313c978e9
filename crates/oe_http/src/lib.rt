//! Streams of bytes that count their faults, the two ends of a link, a reader of lines, writing whole texts, and a session over lines: a
//! reply to each line of an input, in order. Lengths are in bytes.
#![tactic(auto)]

mod answering;
mod fakes;
mod laws;
mod lines;
mod link;
mod session;
mod standard;
mod stream;
mod whole;

pub use answering::Answering;
pub use fakes::{FakeSink, FakeSource};
pub use laws::input_limit;
pub use lines::{BLOCK_SIZE, INPUT_LIMIT, LineReader, Next, ReadError};
pub use link::FakeLink;
pub use session::{Ended, MOST_WAITING, records};
pub use standard::{ReadSource, WriteSink};
pub use stream::{Failed, Sink, Source, TwoWay};
pub use whole::write_whole;
