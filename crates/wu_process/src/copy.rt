//! The two files of a database, copied into memory: they are read, and nothing of them is made or changed.

ghost use Rattle.std.specs.Prelude.{◌≡◌, IfErr, IfOk};
ghost use Rattle.wu_cli.specs.declared.reason.Reason.TheVariants.{Memory as WantsMemory};
ghost use Rattle.wu_process.specs.Copies.{AreCopiedFrom, AreCopiesOf, IsCopyOf};

use crate::barring::{refuse_present, why_not_found};
use crate::memory_file::MemoryFile;
use sqlite::{FileFrom, Files};
use sqlite_disk::{Disk, Wary};
use sqlite_std_file::OpenError;
use std::alloc::Global;
use std::fs;
use std::io::{self, ErrorKind};
use std::os::unix::fs::MetadataExt;
use std::time::SystemTime;
use wu_cli::Reason;
use wu_host::is_other_kind;

/// The bytes of the files of a database.
#[derive(Drop)]
pub struct FileBytes<'a> {
    /// The path of the database.
    pub path: &'a str,
    /// Of the log; empty if there is no log.
    pub log: Vec<u8>,
    pub db: Vec<u8>,
}

/// Locks a database that has a log against other programs, as an opening does, which makes a log only where there is
/// none. Without a log no such program has it open, and nothing is locked.
fn hold(rt: &HostRuntime, path: &str, log: &str) -> Result<Option<Files<FileFrom<Wary>>>, Reason> {
    match fs::exists(rt, log) {
        Ok(true) => {}
        Ok(false) => return Ok(None),
        Err(error) => return Err(Reason::of_file(&error)),
    }
    match sqlite_std_file::open(rt, path, Wary) {
        Ok(files) => Ok(Some(files)),
        Err(OpenError::Busy) => Err(Reason::InUse),
        Err(OpenError::OutOfMemory) => Err(Reason::Memory),
        Err(OpenError::Io(error)) => Err(Reason::of_file(&error)),
        Err(OpenError::HotJournal) => Err(Reason::Journal),
    }
}

/// Returns when a file was last written to. One with a second name is refused: a log lies beside the name by which the
/// file was opened.
fn written_at(rt: &HostRuntime, path: &str) -> Result<SystemTime, Reason> {
    let found = fs::metadata(rt, path).map_err(|error| Reason::of_file(&error))?;
    if !found.is_file() {
        return Err(Reason::Refused);
    }
    if found.nlink() > 1 {
        return Err(Reason::TwoNames);
    }
    found.modified().map_err(|error| Reason::of_file(&error))
}

/// Returns the bytes of a file; no bytes if there is no file.
fn bytes_if_any(rt: &HostRuntime, path: &str) -> io::Result<Vec<u8>> {
    match fs::read(rt, path) {
        Err(error) if error.kind() == ErrorKind::NotFound => Ok(Vec::new(rt.alloc())),
        read => read,
    }
}

/// Refuses a database with a rollback journal that begins with anything but a zero: only SQLite can roll it back.
fn refuse_journal(rt: &HostRuntime, path: &str) -> Result<(), Reason> {
    let journal = format!(in rt.alloc(); "{path}-journal")?;
    match bytes_if_any(rt, journal.as_str()) {
        Ok(bytes) if bytes.is_empty() || bytes[0] == 0 => Ok(()),
        Ok(_) => Err(Reason::Journal),
        Err(error) => Err(Reason::of_file(&error)),
    }
}

/// Returns the bytes of both files, if no journal lies beside them, before the reading and after it.
fn read_both<'a>(
    rt: &HostRuntime,
    path: &'a str,
    real: &str,
    log: &str,
) -> Result<FileBytes<'a>, Reason>
    ensures { IfOk result (λ bytes. bytes.path.now ≡ path.now) }
{
    refuse_journal(rt, real)?;
    let log = bytes_if_any(rt, log).map_err(|error| Reason::of_reading(&error))?;
    let db = fs::read(rt, real).map_err(|error| Reason::of_reading(&error))?;
    refuse_journal(rt, real)?;
    Ok(FileBytes { path, log, db })
}

/// Returns the bytes of a database that nothing locks, if it has no log and was not written to since this moment.
fn read_unheld<'a>(
    rt: &HostRuntime,
    path: &'a str,
    real: &str,
    log: &str,
    before: SystemTime,
) -> Result<FileBytes<'a>, Reason>
    ensures { IfOk result (λ bytes. bytes.path.now ≡ path.now) }
{
    let bytes = read_both(rt, path, real, log)?;
    if written_at(rt, real)? != before || hold(rt, real, log)?.is_some() {
        return Err(Reason::InUse);
    }
    Ok(bytes)
}

/// Returns the bytes of both files as they are at one moment: of files that are locked, or that nobody wrote to
/// meanwhile.
fn read_at_once<'a>(
    rt: &HostRuntime,
    path: &'a str,
    real: &str,
    log: &str,
) -> Result<FileBytes<'a>, Reason>
    ensures { IfOk result (λ bytes. bytes.path.now ≡ path.now) }
{
    let before = written_at(rt, real)?;
    match hold(rt, real, log)? {
        Some(_held) => read_both(rt, path, real, log),
        None => read_unheld(rt, path, real, log, before),
    }
}

/// Reads the bytes of the database at the path and of its log, as they are at one moment. A file that another program
/// writes to meanwhile is in use. The log lies beside the file to which a link leads.
fn read_database<'a>(rt: &HostRuntime, path: &'a str) -> Result<FileBytes<'a>, Reason>
    // The bytes carry the path that was asked for. What the bytes are is not stated.
    ensures { IfOk result (λ bytes. bytes.path.now ≡ path.now) }
{
    let real = fs::canonicalize(rt, path).map_err(|error| why_not_found(rt, path, &error))?;
    let log = format!(in rt.alloc(); "{}-wal", real.as_str())?;
    refuse_present(rt, real.as_str())?;
    let bytes = read_at_once(rt, path, real.as_str(), log.as_str())?;
    if is_other_kind(&bytes.log, &bytes.db) {
        return Err(Reason::OtherKind);
    }
    Ok(bytes)
}

/// Reads the bytes of the database at the path and of its log, both of which this process has open and locked. So they
/// are as its last commit left them.
fn read_while_open<'a>(rt: &HostRuntime, path: &'a str) -> Result<FileBytes<'a>, Reason>
    // The bytes carry the path that was asked for. What the bytes are is not stated.
    ensures { IfOk result (λ bytes. bytes.path.now ≡ path.now) }
{
    let real = fs::canonicalize(rt, path).map_err(|error| Reason::of_file(&error))?;
    let log = format!(in rt.alloc(); "{}-wal", real.as_str())?;
    read_both(rt, path, real.as_str(), log.as_str())
}

/// Makes a file in memory with these bytes.
fn file_in_memory(alloc: Global, bytes: &[u8]) -> Result<MemoryFile, Reason>
    ensures copy { IfOk result (IsCopyOf bytes.now) }
    ensures refused { IfErr result (λ reason. reason ≡ WantsMemory) }
{
    let mut file = MemoryFile::new(alloc);
    if bytes.is_empty() {
        return Ok(file);
    }
    match file.write_at(0, bytes) {
        Ok(()) => Ok(file),
        Err(_) => Err(Reason::Memory),
    }
}

/// Makes the two files in memory, with these bytes.
fn files_in_memory(alloc: Global, bytes: &FileBytes<'_>) -> Result<Files<MemoryFile>, Reason>
    // Both files in memory have just the bytes that were read, and can be used.
    ensures copies { IfOk result (AreCopiesOf bytes.now) }
    // The only refusal is out of memory.
    ensures refused { IfErr result (λ reason. reason ≡ WantsMemory) }
{
    let log = file_in_memory(alloc, &bytes.log)?;
    let db = file_in_memory(alloc, &bytes.db)?;
    Ok(Files { log, db })
}

/// Copies the two files of the database at the path into memory, as they are at one moment. The copies alone are kept.
pub fn copy_in_memory(rt: &HostRuntime, path: &str) -> Result<Files<MemoryFile>, Reason>
    // The files in memory have just the bytes that were read, and these carry the path.
    ensures { IfOk result (AreCopiedFrom path.now) }
{
    let bytes = read_database(rt, path)?;
    files_in_memory(rt.alloc(), &bytes)
}

/// Copies the two files of the database at the path, which this process has open, into memory. The copies alone are kept.
fn copy_while_open(rt: &HostRuntime, path: &str) -> Result<Files<MemoryFile>, Reason>
    // The files in memory have just the bytes that were read, and these carry the path.
    ensures { IfOk result (AreCopiedFrom path.now) }
{
    let bytes = read_while_open(rt, path)?;
    files_in_memory(rt.alloc(), &bytes)
}

/// Copies the files of the database at the path: of one that this process has open, or of one that no other writes to.
pub fn copy_files(rt: &HostRuntime, path: &str, is_open: bool) -> Result<Files<MemoryFile>, Reason>
    // The files in memory have just the bytes that were read, and these carry the path.
    ensures { IfOk result (AreCopiedFrom path.now) }
{
    if is_open {
        copy_while_open(rt, path)
    } else {
        copy_in_memory(rt, path)
    }
}
