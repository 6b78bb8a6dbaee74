//! How the two files of a database, or a copy of them, are opened, and how many of its pages are kept in memory.

ghost use Rattle.std.specs.Prelude.{codes, ◌≡◌, ◌≤◌, true, false, IsTrue, IfOk, IfErr};
ghost use Rattle.sqlite_std_file.specs.File.{file_is_usable, IsFresh};
ghost use Rattle.sqlite_wal.specs.Files.{image_at};
ghost use Rattle.sqlite.specs.Opening.{is_open_error};
ghost use Rattle.wu_cli.specs.LogNames.{names_log};
ghost use Rattle.wu_process.specs.Checks.{OpensCopy};
ghost use Rattle.wu_process.specs.Opening.{in_memory, IsEarly, IsOpenedAt, IsUnopened};

use sqlite::{Connection, Error, ErrorCode, FileFrom, FileStore, Files, Leftover, Options, Start};
use sqlite_disk::Disk;
use sqlite_std_file::OpenError;
use std::alloc::Global;
use std::fs;
use std::hash::{BuildHasher, RandomState};
use std::io::ErrorKind;
use wu_cli::{Reason, Trouble, Work, names_log};
use wu_host::{may_have_log, take_log_back};

/// The fewest and the most pages that are kept in memory. A page of a new database has 4,096 bytes.
const FEWEST_PAGES: usize = 64;

pub const MOST_PAGES: usize = 2_000;

const PAGE_BYTES: u64 = 4_096;

/// How many pages a line adds, as far as that is reckoned with.
const PAGES_OF_A_LINE: usize = 256;

/// A database, and what is left of its files if they were opened.
type Opened<S> = Result<Connection<FileStore<FileFrom<S>>>, (Error, Option<Leftover<FileFrom<S>>>)>;

/// Returns how many pages the database at a path has, reckoned by the length of its file; 0 without a file.
fn pages_at(rt: &HostRuntime, path: &str) -> usize {
    match fs::metadata(rt, path) {
        Ok(found) => usize::try_from(found.len() / PAGE_BYTES).unwrap_or(MOST_PAGES),
        Err(_) => 0,
    }
}

/// Returns how many pages are kept in memory for this work over the database at a path: for a line those of the file and
/// some more, and for a script the most.
pub fn pages_for(rt: &HostRuntime, path: &str, work: &Work) -> usize
    // There are at least 64 pages.
    ensures least { FEWEST_PAGES ≤ result }
    // There are at most 2,000 pages.
    ensures most { result ≤ MOST_PAGES }
{
    match work {
        Work::Line(_) => pages_at(rt, path)
            .saturating_add(PAGES_OF_A_LINE)
            .clamp(FEWEST_PAGES, MOST_PAGES),
        Work::Script(_) => MOST_PAGES,
    }
}

/// Opens the two files of the database at a path, and locks them. A missing file is made.
fn open_pair<S: Start>(rt: &HostRuntime, path: &str, start: S) -> Result<Files<FileFrom<S>>, Error>
    // The path that names a database in memory is refused.
    ensures memory { path.now ≡ in_memory
        → result ≡ Err (Error.SqliteFailure ErrorCode.CannotOpen) }
    // So is one that names a log.
    ensures log { names_log path.now ≡ true
        → result ≡ Err (Error.SqliteFailure ErrorCode.CannotOpen) }
    // An error is one of those that come before the files are opened.
    ensures named { IfErr result (λ e. IsTrue (is_open_error e)) }
    ensures early { IfErr result IsEarly }
    // The files can be used, and are as the start says.
    ensures usable { IfOk result (λ files. IsTrue (file_is_usable S.Start files.log)
        × IsTrue (file_is_usable S.Start files.db)) }
    ensures fresh { IfOk result (λ files. IsFresh true files.log × IsFresh false files.db) }
{
    if path == ":memory:" || path.starts_with("file:") || names_log(path) {
        return Err(Error::SqliteFailure(ErrorCode::CannotOpen));
    }
    match sqlite_std_file::open(rt, path, start) {
        Ok(files) => Ok(files),
        Err(OpenError::Busy) => Err(Error::SqliteFailure(ErrorCode::DatabaseBusy)),
        Err(OpenError::OutOfMemory) => Err(Error::SqliteFailure(ErrorCode::OutOfMemory)),
        Err(OpenError::Io(error)) if error.kind() == ErrorKind::OutOfMemory => Err(
            Error::SqliteFailure(ErrorCode::OutOfMemory),
        ),
        Err(_) => Err(Error::SqliteFailure(ErrorCode::CannotOpen)),
    }
}

/// Returns options with a seed of this run.
pub fn options(rt: &HostRuntime) -> Options {
    let seed = match RandomState::new(rt) {
        Ok(state) => state.hash_one(&0u8),
        Err(_) => 0,
    };
    Options::new(seed)
}

/// Opens the database at a path, and keeps so many of its pages in memory. A missing file is made. An error comes with
/// what is left of the files, once they were opened; a log that was made is taken back then.
///
/// It is `Connection::open_from`, which always keeps 2,000 pages.
pub fn open_at<S: Start>(rt: &HostRuntime, path: &str, start: S, pages: usize) -> Opened<S>
    // A database is opened, over two files that held what the start says. The path names neither a
    // log nor a database in memory.
    ensures opened { IfOk result (IsOpenedAt path.now (image_at S.Start)) }
    // Or it is not, for this error, which leaves this of the files.
    ensures unopened { IfErr result (λ why. IsUnopened path.now why.0 why.1) }
{
    let had_log = may_have_log(rt, path);
    let files = match open_pair(rt, path, start) {
        Ok(files) => files,
        Err(error) => return Err((error, None)),
    };
    let mut options = options(rt);
    options.cache_pages = pages;
    match Connection::open_files_with(rt.alloc(), files, options, false) {
        Ok(conn) => Ok(conn),
        Err((error, left)) => {
            take_log_back(rt, path, had_log);
            Err((error, Some(left)))
        }
    }
}

/// Opens the database in two files. If it cannot be opened, the trouble is why.
pub fn open_copy<D: Disk + Drop>(
    alloc: Global,
    files: Files<D>,
    options: Options,
) -> Result<Connection<FileStore<D>>, Trouble>
    // The log can be used.
    requires log { IsTrue (D.Disk.is_usable files.log) }
    // The file of the database can be used.
    requires db { IsTrue (D.Disk.is_usable files.db) }
    // It is a new connection to the database in the files. Or that cannot be opened, and the reason
    // is reported.
    ensures { OpensCopy D.Disk files result }
{
    match Connection::open_files(alloc, files, options) {
        Ok(conn) => Ok(conn),
        Err((error, _left)) => Err(Trouble::Unchecked(Reason::of_copy(&error))),
    }
}
