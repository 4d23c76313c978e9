//! Desks that answer lines.

use crate::broken::{Broken, closed};
use crate::rows::write_unopened;
use filing_desk::Clerk;
use line_desk::LineDesk;
use oe_http::{ReadSource, Sink, records};
use oe_keeper::Keeper;
use std::alloc::Global;

/// The replies of a desk over this clerk to some lines; and the clerk after them.
pub(crate) fn answer_lines<K: Keeper + Drop, O: Sink>(
    alloc: Global,
    clerk: Clerk<K>,
    lines: &[u8],
    output: &mut O,
) -> Result<Clerk<K>, Broken> {
    let mut desk = LineDesk::over(alloc, clerk);
    let ended = records(alloc, &mut desk, &mut ReadSource::new(lines), output);
    closed(ended)?;
    Ok(desk.into_clerk())
}

/// A section of a desk of which nothing is kept.
pub(crate) fn unkept<O: Sink>(alloc: Global, lines: &[u8], output: &mut O) -> Result<(), Broken> {
    answer_lines(alloc, Clerk::unkept(alloc), lines, output)?;
    Ok(())
}

/// A section of a desk over this keeper. Answers the keeper after it, and none where no desk was opened.
pub(crate) fn kept<K: Keeper + Drop, O: Sink>(
    alloc: Global,
    keeper: K,
    place: Option<&str>,
    lines: &[u8],
    output: &mut O,
) -> Result<Option<K>, Broken> {
    match Clerk::open(alloc, keeper, place) {
        Ok(clerk) => {
            let clerk = answer_lines(alloc, clerk, lines, output)?;
            Ok(Some(clerk.into_keeper()))
        }
        Err(refusal) => {
            write_unopened(alloc, &refusal, output)?;
            Ok(None)
        }
    }
}
