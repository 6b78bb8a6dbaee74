//! What lies at the path of a database and beside it. No clause can say what files there are.

ghost use Rattle.std.specs.Prelude.{◌≡◌, IfErr};
ghost use Rattle.wu_core.specs.declared.fault.Fault.TheVariants.{Memory};

use crate::file::read_file;
use crate::header::{LARGEST_SIZE, SHORTEST_LOG, drops_project, has_other_pages};
use std::alloc::AllocError;
use std::fs;
use std::io::ErrorKind;
use wu_core::Fault;

/// The bytes with which each database begins, after its first one.
const HEADER_REST: &[u8] = b"QLite format 3\0";

/// The first byte of a log. A new log begins with 0 until it is whole.
const LOG_BEGINS: u8 = 0x37;

/// Returns whether something lies at the path that is no file, as a folder or a pipe. It is not opened.
pub fn is_no_file(rt: &HostRuntime, path: &str) -> bool {
    match fs::metadata(rt, path) {
        Ok(found) => !found.is_file(),
        Err(_) => false,
    }
}

/// Returns how many bytes the file at the path has; 0 if there is none, or if that cannot be found out.
fn len_at(rt: &HostRuntime, path: &str) -> u64 {
    match fs::metadata(rt, path) {
        Ok(found) => found.len(),
        Err(_) => 0,
    }
}

/// Returns whether a log of at least so many bytes, or a journal with content, lies beside the path.
fn has_log_of(rt: &HostRuntime, path: &str, fewest: u64) -> Result<bool, AllocError> {
    let log = format!(in rt.alloc(); "{path}-wal")?;
    let journal = format!(in rt.alloc(); "{path}-journal")?;
    Ok(len_at(rt, log.as_str()) >= fewest || len_at(rt, journal.as_str()) > 0)
}

/// Returns whether a log that holds a page, or a journal with content, lies beside the path.
pub fn has_log(rt: &HostRuntime, path: &str) -> Result<bool, AllocError> {
    has_log_of(rt, path, SHORTEST_LOG)
}

/// Returns whether a log or a journal with content lies beside the path.
pub fn has_content_beside(rt: &HostRuntime, path: &str) -> Result<bool, AllocError> {
    has_log_of(rt, path, 1)
}

/// Returns whether a link lies in the place of the log of the database at the path. An opening does not follow it.
pub fn has_linked_log(rt: &HostRuntime, path: &str) -> Result<bool, AllocError> {
    let log = format!(in rt.alloc(); "{path}-wal")?;
    Ok(fs::symlink_metadata(rt, log.as_str()).is_ok_and(|found| found.is_symlink()))
}

/// Returns the path of the log of the database at the path: a link's lies beside the file that it leads to. Out of memory
/// it is `None`.
fn log_of(rt: &HostRuntime, path: &str) -> Option<String> {
    match fs::canonicalize(rt, path) {
        Ok(real) => format!(in rt.alloc(); "{}-wal", real.as_str()).ok(),
        Err(_) => format!(in rt.alloc(); "{path}-wal").ok(),
    }
}

/// Returns whether something lies in the place of the log of the database at the path, as far as that can be found out.
pub fn may_have_log(rt: &HostRuntime, path: &str) -> bool {
    match log_of(rt, path) {
        Some(log) => match fs::symlink_metadata(rt, log.as_str()) {
            Ok(_) => true,
            Err(error) => error.kind() != ErrorKind::NotFound,
        },
        None => true,
    }
}

/// Returns whether what lies at the path itself is no file, as a folder, a pipe or a link.
fn is_other(rt: &HostRuntime, path: &str) -> bool {
    fs::symlink_metadata(rt, path).is_ok_and(|found| !found.is_file())
}

/// Returns whether what lies in the place of the log or of the journal of the database at the path is no file. It is not
/// opened: a pipe would wait for a writer.
fn has_other_beside(rt: &HostRuntime, path: &str) -> Result<bool, AllocError> {
    let log = format!(in rt.alloc(); "{path}-wal")?;
    let journal = format!(in rt.alloc(); "{path}-journal")?;
    Ok(is_other(rt, log.as_str()) || is_other(rt, journal.as_str()))
}

/// Returns whether a log or a journal with content, or something else in the place of one, lies beside the path.
pub fn is_taken_beside(rt: &HostRuntime, path: &str) -> Result<bool, AllocError> {
    Ok(has_content_beside(rt, path)? || has_other_beside(rt, path)?)
}

/// Returns whether the file at the path is empty, and a log that holds a page, or a journal with content, lies beside it.
/// No stop leaves that: a database has its first byte before its log has a page.
pub fn is_emptied(rt: &HostRuntime, path: &str) -> Result<bool, AllocError> {
    Ok(fs::metadata(rt, path).is_ok_and(|found| found.len() == 0) && has_log(rt, path)?)
}

/// Returns whether these first bytes of a file may be what a stop left of a new database: its header after a first byte
/// of 0, or zeros alone.
fn may_be_unmade(bytes: &[u8]) -> bool {
    bytes.first() == Some(&0)
        && (bytes.ends_with(HEADER_REST) || bytes.iter().all(|byte| *byte == 0))
}

/// Returns whether what lies at the path may be what a stop left of a new database, as far as that can be found out.
fn is_unmade(rt: &HostRuntime, path: &str) -> bool {
    match read_file(rt, path, HEADER_REST.len()) {
        Ok(Some(bytes)) => may_be_unmade(&bytes),
        _ => true,
    }
}

/// Removes the log without a page that a refused opening made, if none was there before. Beside what a stop left of a new
/// database it stays: without it that would be a file of something else.
pub fn take_log_back(rt: &HostRuntime, path: &str, had_log: bool) {
    if had_log || is_unmade(rt, path) {
        return;
    }
    if let Some(log) = log_of(rt, path) {
        if len_at(rt, log.as_str()) < SHORTEST_LOG {
            let _ = fs::remove_file(rt, log.as_str());
        }
    }
}

/// Returns whether the file at the path begins as no database does. An empty file can become one. So can what a stop left
/// of a new database, if it has one byte, or if its log lies beside it. Of what cannot be read, or is no file, it is not
/// known. The only fault is `Memory`.
pub fn is_foreign(rt: &HostRuntime, path: &str) -> Result<bool, Fault>
    // The only fault is `Memory`.
    ensures { IfErr result (λ fault. fault ≡ Memory) }
{
    if is_no_file(rt, path) {
        return Ok(false);
    }
    // Of a longer file one byte more is read.
    let Some(bytes) = read_file(rt, path, HEADER_REST.len())? else {
        return Ok(false);
    };
    match bytes.first() {
        None => Ok(false),
        Some(&b'S') => Ok(!bytes.ends_with(HEADER_REST)),
        Some(_) if may_be_unmade(&bytes) => Ok(bytes.len() > 1 && !has_content_beside(rt, path)?),
        Some(_) => Ok(true),
    }
}

/// How many bytes of a log are looked at.
const LOOKED_AT: usize = 1_048_576;

/// Returns whether the log at a path holds a page, and is that of another database than the one at the other path: its
/// pages have another size, or it takes the table `project` out of the database. Only its first 1,048,577 bytes are looked
/// at. The only fault is `Memory`.
fn is_log_of_another(rt: &HostRuntime, log: &str, path: &str) -> Result<bool, Fault>
    // The only fault is `Memory`.
    ensures { IfErr result (λ fault. fault ≡ Memory) }
{
    if len_at(rt, log) < SHORTEST_LOG || is_no_file(rt, path) {
        return Ok(false);
    }
    match (
        read_file(rt, log, LOOKED_AT)?,
        read_file(rt, path, LARGEST_SIZE as usize)?,
    ) {
        (Some(log), Some(db)) => Ok(has_other_pages(&log, &db) || drops_project(&log, &db)),
        _ => Ok(false),
    }
}

/// Returns whether something else lies at the path of a database's log or journal: what is no file, or a log that begins
/// as none does. So does a log that is seen to be that of another database. The only fault is `Memory`.
pub fn has_foreign_log(rt: &HostRuntime, path: &str) -> Result<bool, Fault>
    // The only fault is `Memory`.
    ensures { IfErr result (λ fault. fault ≡ Memory) }
{
    if has_other_beside(rt, path)? {
        return Ok(true);
    }
    let log = format!(in rt.alloc(); "{path}-wal")?;
    let Some(bytes) = read_file(rt, log.as_str(), 0)? else {
        return Ok(false);
    };
    match bytes.first() {
        Some(&LOG_BEGINS) => is_log_of_another(rt, log.as_str(), path),
        Some(&first) => Ok(first != 0),
        None => Ok(false),
    }
}
