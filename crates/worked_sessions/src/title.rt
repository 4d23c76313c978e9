//! What the words behind a title ask for.

use crate::broken::Broken;
use oe_keeper::FailList;
use std::alloc::Global;

/// What a section asks for.
#[derive(Drop)]
pub(crate) struct Wanted {
    /// A keeper in memory.
    pub keeps: bool,
    /// A journal.
    pub is_journal: bool,
    /// The rows of the section before.
    pub goes_on: bool,
    /// A journal whose disk stops at each of its calls in turn, and the pick of what a crash then leaves.
    pub stops: Option<u64>,
    /// Links of HTTP.
    pub is_http: bool,
    /// One byte in one read.
    pub is_bytewise: bool,
    /// Signs in the lines.
    pub has_signs: bool,
    /// The lines of the section before.
    pub goes_over: bool,
    /// The calls of the keeper that fail.
    pub fails: FailList,
}

impl Wanted {
    fn none(alloc: Global) -> Wanted {
        Wanted {
            keeps: false,
            is_journal: false,
            goes_on: false,
            stops: None,
            is_http: false,
            is_bytewise: false,
            has_signs: false,
            goes_over: false,
            fails: FailList::new(alloc),
        }
    }

    /// Takes one word.
    fn take(&mut self, word: &str) -> Result<(), Broken> {
        match word {
            "keep" | "fail" => self.keeps = true,
            "reopen" => {
                self.keeps = true;
                self.goes_on = true;
            }
            "journal" => self.is_journal = true,
            "stops" => self.stops = Some(0),
            "http" => self.is_http = true,
            "bytewise" => self.is_bytewise = true,
            "signs" => self.has_signs = true,
            "again" => self.goes_over = true,
            number => match number.parse::<u64>() {
                Ok(pick) if self.stops.is_some() => self.stops = Some(pick),
                Ok(call) => self.fails.push(call)?,
                Err(_) => return Err(Broken),
            },
        }
        Ok(())
    }

    /// What the line of a title asks for.
    pub(crate) fn of(alloc: Global, title: &[u8]) -> Result<Wanted, Broken> {
        let mut wanted = Wanted::none(alloc);
        let Ok(title) = str::from_utf8(title) else {
            return Err(Broken);
        };
        if let Some((_, words)) = title.trim_end().split_once(" | ") {
            for word in words.split(' ') {
                wanted.take(word)?;
            }
        }
        Ok(wanted)
    }
}
