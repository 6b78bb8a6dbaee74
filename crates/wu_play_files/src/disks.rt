//! Two files in memory, one of which fails after a number of calls.

use sqlite::Files;
use sqlite_disk::{Crash, Disk, Fuse, Memory};
use std::alloc::Global;
use std::{fmt, io};

/// The file that fails.
#[derive(Clone, Copy)]
pub enum Side {
    Log,
    Database,
}

impl fmt::Display for Side {
    fn fmt<W: fmt::Write>(&self, f: &mut fmt::Formatter<W>) -> fmt::Result {
        match self {
            Side::Log => f.write_str("log"),
            Side::Database => f.write_str("database"),
        }
    }
}

/// More calls than any run makes on a file.
pub const MOST_CALLS: u64 = 1000;

/// A file of a scenario: it lies in memory, and may fail after a number of calls.
pub type PlayDisk = Fuse<Memory>;

/// The two files of a scenario.
pub struct PlayFiles {
    files: Files<PlayDisk>,
}

// It is written out, so that a caller does not prove again how each part is dropped.
impl Drop for PlayFiles {
    fn drop(self) {
        let PlayFiles { files: _files } = self;
    }
}

/// What two files hold.
pub struct Saved {
    log: Vec<u8>,
    db: Vec<u8>,
}

// It is written out, so that a caller does not prove again how each part is dropped.
impl Drop for Saved {
    fn drop(self) {
        let Saved { log: _log, db: _db } = self;
    }
}

/// Returns a synced file of these bytes that fails after `calls` calls.
fn file(alloc: Global, bytes: &[u8], calls: u64) -> io::Result<PlayDisk> {
    let mut file = Memory::new(alloc);
    file.write_at(0, bytes)?;
    file.sync()?;
    Ok(Fuse::new(file, calls))
}

impl Saved {
    /// Returns the contents of two empty files.
    pub fn empty(alloc: Global) -> Saved {
        Saved {
            log: Vec::new(alloc),
            db: Vec::new(alloc),
        }
    }

    /// Returns the contents of a database file of these bytes and an empty log.
    pub fn database(alloc: Global, db: Vec<u8>) -> Saved {
        Saved {
            log: Vec::new(alloc),
            db,
        }
    }

    /// Returns whether both files have the same bytes.
    pub fn is_same(&self, other: &Saved) -> bool {
        self.log.as_slice() == other.log.as_slice() && self.db.as_slice() == other.db.as_slice()
    }

    /// Returns whether the database file has the same bytes.
    pub fn has_database_of(&self, other: &Saved) -> bool {
        self.db.as_slice() == other.db.as_slice()
    }

    /// Returns files with these contents, of which the named one fails after `calls` calls.
    pub fn stopping(&self, alloc: Global, side: Side, calls: u64) -> io::Result<PlayFiles> {
        let (log_calls, db_calls) = match side {
            Side::Log => (calls, u64::MAX),
            Side::Database => (u64::MAX, calls),
        };
        let log = file(alloc, self.log.as_slice(), log_calls)?;
        let db = file(alloc, self.db.as_slice(), db_calls)?;
        Ok(PlayFiles::from_files(Files { log, db }))
    }

    /// Returns files with these contents that do not fail.
    pub fn files(&self, alloc: Global) -> io::Result<PlayFiles> {
        self.stopping(alloc, Side::Log, u64::MAX)
    }
}

/// Returns whether a file has failed.
fn is_stopped(file: &mut PlayDisk) -> bool {
    !file.may_be_used() || file.len().is_err()
}

impl PlayFiles {
    pub fn from_files(files: Files<PlayDisk>) -> PlayFiles {
        PlayFiles { files }
    }

    pub fn into_files(self) -> Files<PlayDisk> {
        let PlayFiles { files } = self;
        files
    }

    /// Returns what the files hold, also what was not synced.
    pub fn saved(&self, alloc: Global) -> io::Result<Saved> {
        Ok(Saved {
            log: Vec::from_slice(alloc, self.files.log.inner().bytes())?,
            db: Vec::from_slice(alloc, self.files.db.inner().bytes())?,
        })
    }

    /// Returns what the files hold after a crash: what was not synced is lost.
    pub fn after_stop(mut self, alloc: Global) -> io::Result<Saved> {
        self.files.log.crash();
        self.files.db.crash();
        self.saved(alloc)
    }

    /// Returns whether either of the files has failed.
    pub fn are_stopped(&mut self) -> bool {
        is_stopped(&mut self.files.log) || is_stopped(&mut self.files.db)
    }
}
