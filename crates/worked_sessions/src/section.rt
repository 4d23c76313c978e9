//! Sections, one after another.

use crate::broken::Broken;
use crate::desks::{kept, unkept};
use crate::links::answer_links;
use crate::rows::take_rows;
use crate::signs::bytes_of;
use crate::stops::{Stopping, answer_stops};
use crate::title::Wanted;
use crash_disks::MemoryDisk;
use filing_desk::Clerk;
use http_messages::Routes;
use http_session::Routed;
use line_desk::LineDesk;
use oe_http::{Sink, write_whole};
use oe_journal::JournalKeeper;
use oe_keeper::{ByName, FailList, Keeper, MemoryKeeper, Tables};
use std::alloc::Global;

/// The place of a journal.
const PLACE: &str = "x.oej";

/// A keeper of two, of which the first fails where it is loaded.
type TwoKeepers = ByName<MemoryKeeper, JournalKeeper<MemoryDisk>>;

/// What stays from one section to the next.
#[derive(Drop)]
pub(crate) struct Sections {
    alloc: Global,
    /// The rows that the last keeper had.
    rows: Tables,
    /// The keeper that the last section with a journal left.
    journal: Option<TwoKeepers>,
    /// The lines of the section before.
    lines: Vec<u8>,
}

/// What such a desk writes to some links.
fn answer_http<K: Keeper + Drop, O: Sink>(
    alloc: Global,
    clerk: Clerk<K>,
    lines: &[u8],
    most: usize,
    output: &mut O,
) -> Result<(), Broken> {
    let mut desk = Routed::new(Routes::new(alloc)?, LineDesk::over(alloc, clerk));
    answer_links(alloc, &mut desk, lines, most, output)
}

/// Two keepers that were not loaded yet.
fn two_keepers(alloc: Global) -> Result<TwoKeepers, Broken> {
    let mut fails = FailList::new(alloc);
    fails.push(1)?;
    let first = MemoryKeeper::new(alloc, Tables::empty(alloc), fails);
    Ok(ByName::new(first, JournalKeeper::<MemoryDisk>::stopping(alloc, None)))
}

/// A section of links.
fn linked<O: Sink>(
    alloc: Global,
    lines: &[u8],
    is_bytewise: bool,
    output: &mut O,
) -> Result<(), Broken> {
    let most = if is_bytewise { 1 } else { 65_536 };
    answer_http(alloc, Clerk::unkept(alloc), lines, most, output)
}

impl Sections {
    /// No section was answered yet.
    pub(crate) fn new(alloc: Global) -> Sections {
        Sections {
            alloc,
            rows: Tables::empty(alloc),
            journal: None,
            lines: Vec::new(alloc),
        }
    }

    /// Takes the rows, and leaves none.
    fn take_rows(&mut self) -> Tables {
        std::mem::replace(&mut self.rows, Tables::empty(self.alloc))
    }

    /// Writes the replies of a section with a keeper.
    fn keep<O: Sink>(
        &mut self,
        wanted: Wanted,
        lines: &[u8],
        output: &mut O,
    ) -> Result<(), Broken> {
        let mut rows = if wanted.goes_on {
            self.take_rows()
        } else {
            Tables::empty(self.alloc)
        };
        let lines = take_rows(self.alloc, lines, &mut rows)?;
        let keeper = MemoryKeeper::new(self.alloc, rows, wanted.fails);
        self.rows = match kept(self.alloc, keeper, None, lines.as_slice(), output)? {
            Some(mut keeper) => keeper.load(self.alloc, None)?,
            None => Tables::empty(self.alloc),
        };
        Ok(())
    }

    /// Writes the replies of a section with a journal.
    fn keep_journal<O: Sink>(
        &mut self,
        goes_on: bool,
        lines: &[u8],
        output: &mut O,
    ) -> Result<(), Broken> {
        if !goes_on {
            self.journal = Some(two_keepers(self.alloc)?);
        }
        let Some(keeper) = std::mem::replace(&mut self.journal, None) else {
            return Err(Broken);
        };
        self.journal = kept(self.alloc, keeper, Some(PLACE), lines, output)?;
        Ok(())
    }

    /// Writes the replies of a section.
    fn reply<O: Sink>(
        &mut self,
        wanted: Wanted,
        lines: &[u8],
        output: &mut O,
    ) -> Result<(), Broken> {
        if wanted.is_http {
            return linked(self.alloc, lines, wanted.is_bytewise, output);
        }
        if let Some(pick) = wanted.stops {
            return answer_stops::<JournalKeeper<MemoryDisk>, O>(self.alloc, lines, pick, output);
        }
        if wanted.is_journal {
            return self.keep_journal(wanted.goes_on, lines, output);
        }
        if wanted.keeps {
            return self.keep(wanted, lines, output);
        }
        if wanted.has_signs {
            return unkept(self.alloc, bytes_of(self.alloc, lines)?.as_slice(), output);
        }
        unkept(self.alloc, lines, output)
    }

    /// Writes the title of a section and the replies to its lines.
    fn section<O: Sink>(
        &mut self,
        title: &[u8],
        lines: Vec<u8>,
        output: &mut O,
    ) -> Result<(), Broken> {
        write_whole(output, title)?;
        let wanted = Wanted::of(self.alloc, title)?;
        let lines = if wanted.goes_over {
            std::mem::replace(&mut self.lines, Vec::new(self.alloc))
        } else {
            lines
        };
        self.reply(wanted, lines.as_slice(), output)?;
        self.lines = lines;
        Ok(())
    }

    /// Answers all sections of a text.
    pub(crate) fn answer<O: Sink>(&mut self, text: &[u8], output: &mut O) -> Result<(), Broken> {
        let mut title: &[u8] = b"";
        let mut lines = Vec::new(self.alloc);
        for line in text.split_inclusive(|b| *b == b'\n') {
            if line.starts_with(b"== ") {
                let read = std::mem::replace(&mut lines, Vec::new(self.alloc));
                self.section(title, read, output)?;
                title = line;
            } else {
                lines.extend_from_slice(line)?;
            }
        }
        self.section(title, lines, output)
    }
}
