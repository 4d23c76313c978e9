//! Links of HTTP, as text.

use crate::broken::Broken;
use crate::signs::{take_signs, write_signs};
use grid_exact::Bytes;
use http_session::{Routed, session};
use line_desk::LineDesk;
use oe_http::{Ended, FakeLink, FakeSink, FakeSource, Sink, write_whole};
use oe_keeper::Keeper;
use std::alloc::Global;

/// There is room for so many bytes of what is written to one link.
const ROOM: usize = 65_536;

/// Writes how the session of a link ended.
fn write_ended<O: Sink>(alloc: Global, ended: Ended, output: &mut O) -> Result<(), Broken> {
    let line = match ended {
        Ended::Refused(status) => format!(in alloc; "-- refused {status}\n")?,
        Ended::Closed => format!(in alloc; "-- closed\n")?,
        Ended::Truncated => format!(in alloc; "-- truncated\n")?,
        _ => return Err(Broken),
    };
    write_whole(output, line.as_bytes())?;
    Ok(())
}

/// One link over the desk.
fn answer_link<K: Keeper + Drop, O: Sink>(
    alloc: Global,
    desk: &mut Routed<LineDesk<K>>,
    bytes: &[u8],
    most: usize,
    output: &mut O,
) -> Result<(), Broken> {
    let source = FakeSource::new(
        Bytes::from_slice(alloc, bytes)?,
        most.max(1),
        Vec::new(alloc),
    );
    let mut link = FakeLink::new(source, FakeSink::new(alloc, ROOM, Vec::new(alloc))?);
    let ended = session(alloc, desk, &mut link);
    write_signs(link.sink().bytes(), output)?;
    write_ended(alloc, ended, output)
}

/// The links of a section, one after another over one desk.
pub(crate) fn answer_links<K: Keeper + Drop, O: Sink>(
    alloc: Global,
    desk: &mut Routed<LineDesk<K>>,
    lines: &[u8],
    most: usize,
    output: &mut O,
) -> Result<(), Broken> {
    let mut bytes = Vec::new(alloc);
    for line in lines.split(|b| *b == b'\n') {
        if line == b"--".as_slice() {
            answer_link(alloc, desk, bytes.as_slice(), most, output)?;
            bytes.clear();
        } else {
            take_signs(line, &mut bytes)?;
        }
    }
    Ok(())
}
