//! Links in memory.

use grid_exact::Bytes;
use oe_http::{FakeLink, FakeSink, FakeSource};
use std::alloc::Global;
use std::test::Fail;

/// A request, which the clerk answers.
pub(crate) const REQUEST: &[u8] = b"POST /record HTTP/1.1\r\nContent-Length: 7\r\n\r\nreview\n";

/// The response to it of a desk without cases.
pub(crate) const RESPONSE: &str =
    "HTTP/1.1 200 OK\r\nContent-Type: text/plain\r\nContent-Length: 9\r\n\r\nreview,0\n";

/// A link with one request.
pub(crate) fn link(alloc: Global) -> Result<FakeLink, Fail> {
    let source = FakeSource::new(Bytes::from_slice(alloc, REQUEST)?, 10, Vec::new(alloc));
    let sink = FakeSink::new(alloc, 1000, Vec::new(alloc))?;
    Ok(FakeLink::new(source, sink))
}
