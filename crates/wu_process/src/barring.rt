//! Why a database must not be opened: an opening would destroy or make files that are not its own.

ghost use Rattle.std.specs.Prelude.{IfErr};
ghost use Rattle.wu_process.specs.Opening.{IsBar};

use std::fs;
use std::io::{self, ErrorKind};
use wu_cli::{Reason, Trouble, names_log};
use wu_core::Fault;
use wu_host::{
    has_content_beside, has_foreign_log, has_linked_log, has_log, is_emptied, is_foreign,
    is_no_file,
};

/// Refuses the name of a log, and a link, or something else, in the place of a log or a journal.
fn refuse_beside(rt: &HostRuntime, path: &str) -> Result<(), Reason> {
    if names_log(path) {
        return Err(Reason::LogName);
    }
    if has_linked_log(rt, path)? {
        return Err(Reason::LinkedLog);
    }
    if has_foreign_log(rt, path).map_err(|_| Reason::Memory)? {
        return Err(Reason::ForeignLog);
    }
    Ok(())
}

/// Refuses what lies at a path if it is no file, one that was emptied beside its log, or one without a log that begins as
/// no database does; and what `refuse_beside` refuses.
pub fn refuse_present(rt: &HostRuntime, path: &str) -> Result<(), Reason> {
    refuse_beside(rt, path)?;
    if is_no_file(rt, path) {
        return Err(Reason::Refused);
    }
    if is_emptied(rt, path)? {
        return Err(Reason::LogAlone);
    }
    if !has_log(rt, path)? && is_foreign(rt, path).map_err(|_| Reason::Memory)? {
        return Err(Reason::NoDatabase);
    }
    Ok(())
}

/// Returns why no file lies at a path: where its log is there, the database has gone without it. A log without a page
/// counts too: it was beside a database that may be put back.
fn why_no_file(rt: &HostRuntime, path: &str) -> Reason {
    match (refuse_beside(rt, path), has_content_beside(rt, path)) {
        (Err(reason), _) => reason,
        (Ok(()), Ok(true)) => Reason::LogAlone,
        (Ok(()), Ok(false)) => Reason::NoFile,
        (Ok(()), Err(_)) => Reason::Memory,
    }
}

/// Returns why a path leads to no file.
pub fn why_not_found(rt: &HostRuntime, path: &str, error: &io::Error) -> Reason {
    match error.kind() {
        ErrorKind::NotFound => why_no_file(rt, path),
        _ => Reason::of_file(error),
    }
}

/// Returns why the database at the path must not be opened, as far as what lies there and beside it shows; `None` if that
/// shows nothing.
pub fn why_barred(rt: &HostRuntime, path: &str) -> Option<Reason> {
    if names_log(path) {
        return Some(Reason::LogName);
    }
    match fs::canonicalize(rt, path) {
        Ok(real) => refuse_present(rt, real.as_str()).err(),
        Err(error) => Some(why_not_found(rt, path, &error)),
    }
}

/// Refuses a database that must not be opened, as `why_barred` says. One whose file is missing may be opened, which makes
/// it. Out of memory is reported as `Memory`.
pub fn bar(rt: &HostRuntime, path: &str) -> Result<(), Trouble>
    // A refusal is reported as a database that cannot be opened, or as out of memory.
    ensures { IfErr result IsBar }
{
    match why_barred(rt, path) {
        None | Some(Reason::NoFile) => Ok(()),
        Some(Reason::Memory) => Err(Trouble::Fault(Fault::Memory)),
        Some(_) => Err(Trouble::Unopened),
    }
}
