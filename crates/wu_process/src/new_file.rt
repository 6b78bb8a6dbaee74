//! The file that a backup makes. It is written under another name, and gets its own once all of it is on the disk.

ghost use Rattle.std.specs.Prelude.{◌≡◌, false, IfOk};
ghost use Rattle.wu_process.specs.Backups.{may_become};
ghost use Rattle.wu_cli.specs.LogNames.{names_log};

use crate::files::HostFiles;
use std::fs::{self, File};
use std::io::{self, ErrorKind, Write};
use wu_cli::{Unmade, names_log};
use wu_host::is_taken_beside;

/// What makes new files.
pub trait MakeFile {
    ghost use Rattle.std.specs.Prelude.{ℕ, IfOk, List};

    /// A new file at this path may have these bytes.
    ghost makes: { Self → List ℕ → List ℕ → Type 0 };

    /// Makes a file with these bytes at a path where nothing lies, all of it or none. Returns why not.
    fn make(&self, path: &str, bytes: &[u8]) -> Result<(), Unmade>
        // The new file at this path has exactly these bytes.
        ensures { IfOk result (λ _. makes self.now path.now bytes.now) };
}

/// Refuses the path of a new database where something lies, which names a log, or beside which a log or a link in its
/// place lies.
pub fn refuse_path(rt: &HostRuntime, path: &str) -> Result<(), Unmade>
    // A path that is not refused names no log.
    ensures { IfOk result (λ _. names_log path.now ≡ false) }
{
    if names_log(path) {
        return Err(Unmade::LogName);
    }
    match fs::symlink_metadata(rt, path) {
        Ok(_) => return Err(Unmade::Taken),
        Err(error) if error.kind() == ErrorKind::NotFound => {}
        Err(error) => return Err(Unmade::of(&error)),
    }
    match is_taken_beside(rt, path) {
        Ok(true) => Err(Unmade::LogBeside),
        Ok(false) => Ok(()),
        Err(_) => Err(Unmade::Memory),
    }
}

/// Writes these bytes into the new file, and waits until they are on the disk.
fn write_through(file: File, bytes: &[u8]) -> io::Result<()> {
    let mut file = file;
    file.write_all(bytes)?;
    file.sync_all()
}

/// Waits until the name of a file is on the disk.
fn sync_folder(rt: &HostRuntime, path: &str) -> io::Result<()> {
    let mut folder = fs::canonicalize(rt, path)?;
    folder.pop();
    File::open(rt, folder.as_str())?.sync_all()
}

/// Gives a file its name. If the name may be lost, there is no such file.
fn rename(rt: &HostRuntime, part: &str, path: &str) -> io::Result<()> {
    fs::rename(rt, part, path)?;
    if let Err(error) = sync_folder(rt, path) {
        let _ = fs::remove_file(rt, path);
        return Err(error);
    }
    Ok(())
}

/// Makes a file with these bytes, by way of the one at `part`, of which nothing is left afterwards.
fn make_by(rt: &HostRuntime, part: &str, path: &str, bytes: &[u8]) -> Result<(), Unmade> {
    let file = match File::create_new(rt, part) {
        Ok(file) => file,
        Err(error) if error.kind() == ErrorKind::AlreadyExists => return Err(Unmade::PartBeside),
        Err(error) => return Err(Unmade::of(&error)),
    };
    let made = write_through(file, bytes).and_then(|()| rename(rt, part, path));
    if let Err(error) = made {
        let _ = fs::remove_file(rt, part);
        return Err(Unmade::of(&error));
    }
    Ok(())
}

impl MakeFile for HostFiles<'_> {
    ghost makes = { λ _ path bytes. may_become path bytes };

    fn make(&self, path: &str, bytes: &[u8]) -> Result<(), Unmade> {
        let rt = self.runtime();
        refuse_path(rt, path)?;
        match format!(in rt.alloc(); "{path}-part") {
            Ok(part) => make_by(rt, part.as_str(), path, bytes),
            Err(_) => Err(Unmade::Memory),
        }
    }
}
