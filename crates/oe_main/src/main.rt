//! The program `oe`: an obstruction evaluation desk under 14 CFR Part 77.
//!
//! `run` of oe_commands does all of the work; `main` opens the system's streams, its files and a gate on loopback, and passes them to it.
#![tactic(auto)]

use crash_disks::FileDisk;
use link_gates::TcpGate;
use oe_commands::run::run;
use oe_commands::{Status, Words};
use oe_http::{ReadSource, WriteSink};
use oe_journal::JournalKeeper;
use oe_keeper::{ByName, PlacedKeeper};
use oe_sqlite::SqliteKeeper;
use std::env;
use std::io::ErrorKind;
use std::process::ExitCode;

/// The words after the program's name.
///
/// # Errors
///
/// `NoMemory` where memory ran out, and `Usage` where a word is not UTF-8.
fn arguments(rt: &HostRuntime) -> Result<Words, Status> {
    let mut words = Words::new(rt.alloc());
    let args = match env::args(rt) {
        Ok(args) => args,
        Err(e) if e.kind() == ErrorKind::OutOfMemory => return Err(Status::NoMemory),
        Err(_) => return Err(Status::Usage),
    };
    for word in args.skip(1) {
        if words.push(word.as_str()).is_err() {
            return Err(Status::NoMemory);
        }
    }
    Ok(words)
}

/// Runs the program over the standard streams and a gate on loopback, with its tables in a file where one is named: a journal where the name
/// ends in `.oej`, else a store of SQLite's.
fn main(rt: HostRuntime) -> ExitCode {
    let journal = JournalKeeper::new(FileDisk::new(&rt));
    let status = match arguments(&rt) {
        Ok(words) => run(
            &rt,
            rt.alloc(),
            &words,
            &mut ReadSource::new(rt.stdin()),
            &mut WriteSink::new(rt.stdout()),
            PlacedKeeper::new(ByName::new(SqliteKeeper::new(&rt), journal)),
            &mut TcpGate::new(&rt),
        ),
        Err(status) => status,
    };
    if !matches!(&status, Status::Done) {
        let _ = rt.eprintln(&status);
    }
    ExitCode::from(status.number())
}
