//! The trait of openers of files.

ghost use Rattle.std.specs.Prelude.{[], IfOk};
ghost use Rattle.sqlite_wal.specs.Files.{image_at};
ghost use Rattle.sqlite_wal.specs.Recovery.{Image};
ghost use Rattle.sqlite.specs.Files.{file_state, IsOpened};
ghost use Rattle.sqlite.specs.Start.{FindsIn};
ghost use Rattle.sqlite.specs.State.{HasCleanDisk};

use sqlite::{Connection, Error, ErrorCode, File, FileFrom, FileStore, Start, Unknown};
use sqlite_disk::Disk;

/// Opens the files of a place.
pub trait Opens: Drop {
    /// The disk that the files are on.
    type Disk: Disk + Drop;

    /// The contents of the files that it opens next.
    ghost image: { Self → Image };

    /// Opens the file at the path, or creates it.
    ///
    /// # Errors
    ///
    /// Those of the store.
    fn open(&mut self, path: &str) -> Result<Connection<FileStore<Self::Disk>>, Error>
        ensures opened { IfOk result (λ c. HasCleanDisk (file_state c) → IsOpened c) }
        ensures found { IfOk result (λ c. HasCleanDisk (file_state c)
            → FindsIn (image self.old) (file_state c)) };
}

/// The files of the machine. Its contracts on their rows hold for new files only.
#[derive(Drop)]
pub struct HostFiles<'a> {
    rt: &'a HostRuntime,
}

impl<'a> HostFiles<'a> {
    /// The files that this runtime reaches.
    pub fn new(rt: &'a HostRuntime) -> HostFiles<'a> {
        HostFiles { rt }
    }
}

impl<'a> Opens for HostFiles<'a> {
    type Disk = File;

    ghost image = { λ _. record { log = []; db = [] } };

    fn open(&mut self, path: &str) -> Result<Connection<FileStore<File>>, Error> {
        match Connection::open_from(self.rt, path, false, Unknown) {
            Ok(conn) => Ok(conn),
            Err((error, _)) => Err(error),
        }
    }
}

/// The files of the machine, opened once, where `S` stands for their contents.
#[derive(Drop)]
pub struct StartFiles<'a, S: Start> {
    rt: &'a HostRuntime,
    start: Option<S>,
}

impl<'a, S: Start> StartFiles<'a, S> {
    /// The files that this runtime reaches.
    pub fn new(rt: &'a HostRuntime, start: S) -> StartFiles<'a, S> {
        StartFiles {
            rt,
            start: Some(start),
        }
    }
}

impl<'a, S: Start> Opens for StartFiles<'a, S> {
    type Disk = FileFrom<S>;

    ghost image = { λ _. image_at S.Start };

    fn open(&mut self, path: &str) -> Result<Connection<FileStore<FileFrom<S>>>, Error> {
        let Some(start) = self.start.take() else {
            return Err(Error::SqliteFailure(ErrorCode::CannotOpen));
        };
        match Connection::open_from(self.rt, path, false, start) {
            Ok(conn) => Ok(conn),
            Err((error, _)) => Err(error),
        }
    }
}
