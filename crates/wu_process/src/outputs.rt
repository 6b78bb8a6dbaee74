//! The outputs of a project as files: its database is copied into memory, the copy is checked, and each archived output
//! becomes a file of a folder.

ghost use Rattle.std.specs.Prelude.{IsTrue};
ghost use Rattle.wu_process.specs.Backups.{may_become};
ghost use Rattle.wu_process.specs.Outputs.{DropsKept, KeepsFiles, KeepsOfPath};

use crate::copy::copy_files;
use crate::files::HostFiles;
use crate::opening::{open_copy, options};
use sqlite::{Alter, Connection, Files, Options};
use sqlite_disk::Disk;
use std::alloc::Global;
use std::fs::{self, File};
use std::io::{self, ErrorKind, Read, Write};
use wu_arguments::OutputFiles;
use wu_cli::{KeepFile, Kept, KeptCounts, Trouble, Unmade, keep_sound};
use wu_host::is_no_file;

/// Returns whether the file at the path has exactly these bytes. What cannot be read has none.
fn has_bytes(rt: &HostRuntime, path: &str, bytes: &[u8]) -> Result<bool, Unmade> {
    if is_no_file(rt, path) {
        return Ok(false);
    }
    let Ok(file) = File::open(rt, path) else {
        return Ok(false);
    };
    let Ok(mut found) = Vec::with_capacity(rt.alloc(), bytes.len()) else {
        return Err(Unmade::Memory);
    };
    let most = (bytes.len() as u64).saturating_add(1);
    match file.take(most).read_to_end(&mut found) {
        Ok(_) => Ok(found.as_slice() == bytes),
        Err(error) if error.kind() == ErrorKind::OutOfMemory => Err(Unmade::Memory),
        Err(_) => Ok(false),
    }
}

/// Removes what an earlier run left at a path. Of a link the file stays that it leads to.
fn discard(rt: &HostRuntime, path: &str) -> io::Result<()> {
    match fs::remove_file(rt, path) {
        Err(error) if error.kind() != ErrorKind::NotFound => Err(error),
        _ => Ok(()),
    }
}

/// Makes a file with these bytes by way of the one at `part`, of which nothing is left afterwards. One that an earlier
/// run left there is made anew.
fn make_by(rt: &HostRuntime, part: &str, path: &str, bytes: &[u8]) -> io::Result<()> {
    discard(rt, part)?;
    let mut file = File::create_new(rt, part)?;
    let made = file
        .write_all(bytes)
        .and_then(|()| fs::rename(rt, part, path));
    if made.is_err() {
        let _ = fs::remove_file(rt, part);
    }
    made
}

/// Makes a file with these bytes at a path where nothing lies. Until all of it is written it has another name, which is
/// that of no workunit.
fn make(rt: &HostRuntime, path: &str, bytes: &[u8]) -> Result<Kept, Unmade> {
    let Ok(part) = format!(in rt.alloc(); "{path}+part") else {
        return Err(Unmade::Memory);
    };
    match make_by(rt, part.as_str(), path, bytes) {
        Ok(()) => Ok(Kept::Made),
        Err(error) => Err(Unmade::of(&error)),
    }
}

impl KeepFile for HostFiles<'_> {
    ghost keeps = { λ _ path bytes. may_become path bytes };

    fn keep(&self, path: &str, bytes: &[u8]) -> Result<Kept, Unmade> {
        let rt = self.runtime();
        match fs::symlink_metadata(rt, path) {
            Ok(_) if has_bytes(rt, path, bytes)? => Ok(Kept::There),
            Ok(_) => Err(Unmade::OtherBytes),
            Err(error) if error.kind() == ErrorKind::NotFound => make(rt, path, bytes),
            Err(error) => Err(Unmade::of(&error)),
        }
    }
}

/// Keeps the outputs of an open database, as `keep_sound`, and drops it.
///
/// It stands over any store: what is asked of one over files is proved again at each such call and drop.
fn keep_and_drop<S: Alter + Drop, F: KeepFile>(
    alloc: Global,
    conn: Connection<S>,
    files: &F,
    asked: &OutputFiles,
) -> Result<KeptCounts, Trouble>
    ensures { DropsKept (F.KeepFile.keeps files.now) asked.now S.Store conn result }
{
    let mut conn = conn;
    keep_sound(alloc, &mut conn, files, asked)
}

/// Opens the database in two files, and keeps its outputs. If it cannot be opened, the trouble is why.
fn keep_of_files<D: Disk + Drop, F: KeepFile>(
    alloc: Global,
    copy: Files<D>,
    options: Options,
    files: &F,
    asked: &OutputFiles,
) -> Result<KeptCounts, Trouble>
    requires log { IsTrue (D.Disk.is_usable copy.log) }
    requires db { IsTrue (D.Disk.is_usable copy.db) }
    ensures { KeepsFiles D.Disk (F.KeepFile.keeps files.now) asked.now copy result }
{
    match open_copy(alloc, copy, options) {
        Ok(conn) => keep_and_drop(alloc, conn, files, asked),
        Err(trouble) => Err(trouble),
    }
}

/// Returns whether there is a folder at the path.
fn is_folder(rt: &HostRuntime, path: &str) -> bool {
    fs::metadata(rt, path).is_ok_and(|found| found.is_dir())
}

/// Keeps the outputs of the sound project in the database at a path, which this process may have open, as files of a
/// folder that is there. The database is only read. Returns how many have theirs.
pub fn keep_of_path<F: KeepFile>(
    rt: &HostRuntime,
    path: &str,
    asked: &OutputFiles,
    files: &F,
    is_open: bool,
) -> Result<KeptCounts, Trouble>
    // The files' bytes are copied, and the copy is a sound project. Each wanted output of its
    // archive has its file, with exactly its bytes; or the first ones have. Else the trouble is why
    // not.
    ensures { KeepsOfPath (F.KeepFile.keeps files.now) path.now asked.now result }
{
    if !is_folder(rt, asked.folder.as_str()) {
        return Err(Trouble::NoFolder);
    }
    match copy_files(rt, path, is_open) {
        Ok(copy) => keep_of_files(rt.alloc(), copy, options(rt), files, asked),
        Err(reason) => Err(Trouble::Unchecked(reason)),
    }
}
