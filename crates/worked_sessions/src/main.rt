//! Worked sessions, as text. The input has sections, each headed by a line `== TITLE`; of each the title is written, and the replies of a desk of
//! its own to the section's lines.
//!
//! Behind a title words may stand, after ` | `:
//!
//! - `keep`: a keeper in memory keeps the desk's tables. Lines `+ TABLE|KEY|ROW` are rows that it has at the opening; where no desk opens, the one
//!   reply is `keeper fault` or `bad row TABLE KEY`;
//! - `fail N ..`: such a keeper, which fails at these calls; the opening is call 1, and each change after it one more;
//! - `reopen`: such a keeper, which has the rows that the last section with a keeper left;
//! - `journal`: a journal over a disk in memory keeps the desk's tables, chosen by the name of the place `x.oej` out of two keepers, of which the
//!   other fails; with `reopen` the one that the last section with a journal left;
//! - `stops P`: a journal over a disk in memory keeps them. After the replies comes a line for each call of the disk: the desk answers the same lines
//!   while the disk stops at this call, and the line has how many changes were accepted, the replies from the first on that is not the one without
//!   a stop, and how many entries a desk has that is opened over what a crash leaves of the disk, where the number `P` picks one of the images that
//!   may be left. Where the stop lets no desk be opened, the line has how many rows a load finds in that image. The last line is of the first call
//!   that the section does not make;
//! - `signs`: signs stand in the lines;
//! - `http`: the lines are bytes of links, with signs, one link after another over one desk. The end of a line stands for nothing, and a line `--`
//!   ends a link. What is written to each link is written with signs, and behind each `\n` a line ends; then comes a line `--` with how the session
//!   ended;
//! - `bytewise`: the bytes of a link come one by one;
//! - `again`: the lines are those of the section before.
//!
//! Signs are `\r` and `\n` for a carriage return and a line feed, `\xNN` for a byte, `\\` for a backslash, and `\*N;` for N times the next byte.
#![tactic(auto)]

mod broken;
mod desks;
mod links;
mod rows;
mod section;
mod signs;
mod stops;
mod title;

use crate::broken::Broken;
use crate::section::Sections;
use oe_http::WriteSink;
use std::io::Read;
use std::process::ExitCode;

/// Answers the sections of the standard input.
fn run_on_streams(rt: &HostRuntime) -> Result<(), Broken> {
    let mut text = Vec::new(rt.alloc());
    rt.stdin().read_to_end(&mut text)?;
    let mut output = WriteSink::new(rt.stdout());
    Sections::new(rt.alloc()).answer(text.as_slice(), &mut output)
}

fn main(rt: HostRuntime) -> ExitCode {
    match run_on_streams(&rt) {
        Ok(()) => ExitCode::SUCCESS,
        Err(_) => ExitCode::FAILURE,
    }
}
