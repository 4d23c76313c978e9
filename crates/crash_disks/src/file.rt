//! The file.

ghost use Rattle.std.specs.Prelude.{◌≡◌, ◌≤◌, ◌<◌, ◌+◌, ◌^◌, IfOk, OnOk, length};

use crate::calls::fault;
use crate::disk::{Disk, Failed};
use std::fs::File;
use std::io;
use std::os::fd::{AsRawFd, RawFd};
use std::os::unix::fs::FileExt;
use std::path::Path;

/// How many bytes a file may have.
const MOST: u64 = 1 << 62;

/// The greatest descriptor of a standard stream.
const LAST_STREAM: RawFd = 2;

/// A file of the machine. It is opened once, and locked.
#[derive(Drop)]
pub struct FileDisk<'a> {
    rt: &'a HostRuntime,
    file: Option<File>,
    faults: u64,
}

impl<'a> FileDisk<'a> {
    /// A disk whose file is not open yet. It takes no memory.
    pub fn new(rt: &'a HostRuntime) -> FileDisk<'a>
        ensures { result.faults ≡ 0 }
    {
        FileDisk {
            rt,
            file: None,
            faults: 0,
        }
    }
}

fn no_file() -> io::Error {
    io::ErrorKind::NotFound.into()
}

/// Opens the file, which is made if it is missing. One of no bytes may be new, so its name is put on the disk.
fn open(rt: &HostRuntime, place: Option<&str>) -> io::Result<File> {
    let Some(place) = place else {
        return Err(no_file());
    };
    let mut file = File::options()
        .read(true)
        .write(true)
        .create(true)
        .open(rt, place)?;
    // The system gives it the number of a standard stream that was closed. What is meant for that stream must not land in the file.
    if file.as_raw_fd() <= LAST_STREAM {
        file = file.try_clone()?;
    }
    if file.try_lock().is_err() {
        return Err(io::ErrorKind::WouldBlock.into());
    }
    if file.metadata()?.len() == 0 {
        file.sync_all()?;
        sync_folder(rt, place)?;
    }
    Ok(file)
}

/// Puts the names of the files beside this one on the disk.
fn sync_folder(rt: &HostRuntime, place: &str) -> io::Result<()> {
    let folder = match Path::new(place).parent() {
        Some(folder) if !folder.as_str().is_empty() => File::open(rt, folder)?,
        _ => File::open(rt, ".")?,
    };
    folder.sync_all()
}

fn size(file: &Option<File>) -> io::Result<u64>
    ensures { IfOk result (λ n. n ≤ 2 ^ 62) }
{
    let Some(file) = file else {
        return Err(no_file());
    };
    let size = file.metadata()?.len();
    if size > MOST {
        return Err(io::ErrorKind::FileTooLarge.into());
    }
    Ok(size)
}

fn read(file: &Option<File>, at: u64, buf: &mut [u8]) -> io::Result<usize>
    ensures bound { IfOk result (λ n. n ≤ length buf.new) }
    ensures some { 0 < length buf.new → IfOk result (λ n. 1 ≤ n) }
{
    let Some(file) = file else {
        return Err(no_file());
    };
    let count = file.read_at(buf, at)?;
    if count == 0 && !buf.is_empty() {
        return Err(io::ErrorKind::UnexpectedEof.into());
    }
    Ok(count)
}

fn write(file: &Option<File>, at: u64, bytes: &[u8]) -> io::Result<()>
    ensures { OnOk result (at + length bytes.now ≤ 2 ^ 62) }
{
    let Some(file) = file else {
        return Err(no_file());
    };
    if at > MOST || bytes.len() as u64 > MOST - at {
        return Err(io::ErrorKind::FileTooLarge.into());
    }
    file.write_all_at(bytes, at)
}

fn cut(file: &Option<File>, len: u64) -> io::Result<()> {
    match file {
        Some(file) => file.set_len(len),
        None => Err(no_file()),
    }
}

fn sync(file: &Option<File>) -> io::Result<()> {
    match file {
        Some(file) => file.sync_all(),
        None => Err(no_file()),
    }
}

impl<'a> Disk for FileDisk<'a> {
    ghost use Rattle.std.specs.Prelude.{[]};

    ghost IsTold = { ⊥ };

    ghost TellsPast = { ⊥ };

    ghost content = { λ d. [] };

    ghost MayLeave = { λ d c. ⊥ };

    ghost moment = { λ d. 0 };

    ghost LeftSince = { λ d t c. ⊥ };

    ghost faults = { λ d. d.faults };

    ghost Opens = { λ d place e. Unit {0} };

    ghost FailsToOpen = { λ d place e. Unit {0} };

    ghost Called = { λ d ok e. Unit {0} };

    ghost content_left = { λ d told. absurd told };

    ghost counts_now = { λ d t c told le now. absurd told };

    ghost only_now = { λ d c told left. absurd told };

    fn open(&mut self, place: Option<&str>) -> Result<(), Failed> {
        match open(self.rt, place) {
            Ok(file) => {
                self.file = Some(file);
                Ok(())
            }
            Err(_) => Err(fault(&mut self.faults)),
        }
    }

    fn size(&mut self) -> Result<u64, Failed> {
        match size(&self.file) {
            Ok(size) => Ok(size),
            Err(_) => Err(fault(&mut self.faults)),
        }
    }

    fn read_at(&mut self, at: u64, buf: &mut [u8]) -> Result<usize, Failed> {
        match read(&self.file, at, buf) {
            Ok(count) => Ok(count),
            Err(_) => Err(fault(&mut self.faults)),
        }
    }

    fn write_at(&mut self, at: u64, bytes: &[u8]) -> Result<(), Failed> {
        match write(&self.file, at, bytes) {
            Ok(()) => Ok(()),
            Err(_) => Err(fault(&mut self.faults)),
        }
    }

    fn cut(&mut self, len: u64) -> Result<(), Failed> {
        match cut(&self.file, len) {
            Ok(()) => Ok(()),
            Err(_) => Err(fault(&mut self.faults)),
        }
    }

    fn sync(&mut self) -> Result<(), Failed> {
        match sync(&self.file) {
            Ok(()) => Ok(()),
            Err(_) => Err(fault(&mut self.faults)),
        }
    }
}
