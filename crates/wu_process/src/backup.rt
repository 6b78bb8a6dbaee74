//! A backup of a database: its files are copied into memory, the copy is checked and closed, and becomes a new file.

ghost use Rattle.std.specs.Prelude.{◌≡◌, false, Err, IfErr, IfOk, IfSome, IsTrue, MatchResult};
ghost use Rattle.wu_process.specs.Backups.{BecomesFile, ChecksSound, ClosesFiles, Folds, FoldsFiles, GoesWith, IsFilled, IsFilledInto, IsFilledWith, IsRefillOf, MakesBackup, MakesFile};
ghost use Rattle.wu_refill.specs.Loading.{FindsAlone};
ghost use Rattle.wu_refill.specs.Refilling.{MayBeRefilled};
ghost use Rattle.wu_schema.specs.Asking.{Asks};
ghost use Rattle.wu_schema.specs.Faults.{IsStoreFault};

use crate::copy::copy_files;
use crate::memory_file::MemoryFile;
use crate::new_file::{MakeFile, refuse_path};
use crate::opening::{open_copy, options};
use sqlite::{Alter, Connection, Error, FileStore, Files, Options};
use sqlite_disk::Disk;
use std::alloc::Global;
use wu_audit::Loaded;
use wu_cli::{Counts, Reason, Trouble, count_sound};
use wu_core::Fault;
use wu_host::has_many_free_pages;
use wu_refill::{create_filled, load_alone};

/// What was found of a sound project: its numbers, and its world, if a new file can be made of that.
#[derive(Drop)]
pub struct Checked {
    pub counts: Counts,
    pub world: Option<Loaded>,
}

/// The two files of a sound project that was closed, so that the one of the database holds it alone.
#[derive(Drop)]
pub struct Folded<D: Disk> {
    pub files: Files<D>,
    pub checked: Checked,
}

/// Returns the world of a sound project, if it is wanted and a new file can be made of it.
fn load_if<S: Alter>(
    alloc: Global,
    conn: &mut Connection<S>,
    is_wanted: bool,
) -> Result<Option<Loaded>, Fault>
    ensures asks { Asks S.Store conn.old conn.new result }
    ensures fault { IfErr result IsStoreFault }
    ensures may { IfOk result (λ found. IfSome found MayBeRefilled) }
    ensures found { FindsAlone S.Store conn.old conn.new result }
{
    if is_wanted {
        load_alone(conn, alloc)
    } else {
        Ok(None)
    }
}

/// Checks an open database, and loads its world, if that is wanted and a new file can be made of it.
///
/// It stands over any store: what is asked of one over files is proved again at each such call.
fn check_sound<S: Alter>(
    alloc: Global,
    conn: &mut Connection<S>,
    wants_world: bool,
) -> Result<Checked, Trouble>
    ensures checks { ChecksSound S.Store conn.old conn.new result }
    ensures may { IfOk result (λ it. IfSome it.world MayBeRefilled) }
{
    let counts = count_sound(alloc, conn)?;
    let world = load_if(alloc, conn, wants_world)?;
    Ok(Checked { counts, world })
}

/// Closes a database, and returns its files.
fn close<D: Disk + Drop>(conn: Connection<FileStore<D>>) -> Result<Files<D>, Error>
    ensures { ClosesFiles conn result }
{
    match conn.close_files() {
        Ok(files) => Ok(files),
        Err((error, _store)) => Err(error),
    }
}

/// Returns what a check found, with the files of the database, which was closed after it. A trouble of the check comes
/// before that of the close.
fn into_folded<D: Disk + Drop>(
    checked: Result<Checked, Trouble>,
    closed: Result<Files<D>, Error>,
) -> Result<Folded<D>, Trouble>
    ensures { MatchResult checked (λ it. GoesWith it closed result) (λ told. result ≡ Err told) }
{
    let checked = checked?;
    match closed {
        Ok(files) => Ok(Folded { files, checked }),
        Err(error) => Err(Trouble::Unchecked(Reason::of_copy(&error))),
    }
}

/// Checks an open database, and closes it, whatever the check found.
fn check_and_close<D: Disk + Drop>(
    alloc: Global,
    conn: Connection<FileStore<D>>,
    wants_world: bool,
) -> Result<Folded<D>, Trouble>
    ensures folds { Folds conn result }
    ensures may { IfOk result (λ it. IfSome it.checked.world MayBeRefilled) }
{
    let mut conn = conn;
    let checked = check_sound(alloc, &mut conn, wants_world);
    into_folded(checked, close(conn))
}

/// Opens the database in two files, checks it, and closes it. If it cannot be opened, the trouble is why.
fn fold<D: Disk + Drop>(
    alloc: Global,
    files: Files<D>,
    options: Options,
    wants_world: bool,
) -> Result<Folded<D>, Trouble>
    requires log { IsTrue (D.Disk.is_usable files.log) }
    requires db { IsTrue (D.Disk.is_usable files.db) }
    ensures folds { FoldsFiles D.Disk files result }
    ensures may { IfOk result (λ it. IfSome it.checked.world MayBeRefilled) }
{
    match open_copy(alloc, files, options) {
        Ok(conn) => check_and_close(alloc, conn, wants_world),
        Err(trouble) => Err(trouble),
    }
}

/// Makes a project with a world in an open database. Where that fails, nothing is returned.
///
/// It stands over any store: what is asked of one over files is proved again at each such call and drop.
fn fill<S: Alter + Drop>(alloc: Global, conn: Connection<S>, world: Loaded) -> Option<Connection<S>>
    requires idle { conn.in_transaction ≡ false }
    requires may { MayBeRefilled world }
    ensures { IfSome result (IsFilled S.Store conn world) }
{
    let mut conn = conn;
    match create_filled(&mut conn, alloc, world) {
        Ok(()) => Some(conn),
        Err(_) => None,
    }
}

/// Makes a project with a world in an open database, and closes it. Where that fails, nothing is returned.
fn fill_and_close<D: Disk + Drop>(
    alloc: Global,
    conn: Connection<FileStore<D>>,
    world: Loaded,
) -> Option<Files<D>>
    requires idle { conn.in_transaction ≡ false }
    requires may { MayBeRefilled world }
    ensures { IfSome result (IsFilledInto conn world) }
{
    match fill(alloc, conn, world) {
        Some(conn) => close(conn).ok(),
        None => None,
    }
}

/// Makes two new files in memory with a project that has a world. Where that fails, nothing is returned.
fn fill_files(alloc: Global, world: Loaded, options: Options) -> Option<Files<MemoryFile>>
    requires { MayBeRefilled world }
    ensures { IfSome result (IsFilledWith world) }
{
    let files = Files {
        log: MemoryFile::new(alloc),
        db: MemoryFile::new(alloc),
    };
    match open_copy(alloc, files, options) {
        Ok(conn) => fill_and_close(alloc, conn, world),
        Err(_) => None,
    }
}

/// Makes new files with the world of a sound project, if it was loaded. Where that fails, nothing is returned.
fn refill_files(
    alloc: Global,
    loaded: Option<Loaded>,
    options: Options,
) -> Option<Files<MemoryFile>>
    requires { IfSome loaded MayBeRefilled }
    ensures { IfSome result (IsRefillOf loaded) }
{
    match loaded {
        Some(world) => fill_files(alloc, world, options),
        None => None,
    }
}

/// Makes the file of a backup from two files that were closed. Returns the project's numbers.
fn make_file<F: MakeFile>(
    new_files: &F,
    to: &str,
    files: &Files<MemoryFile>,
    counts: Counts,
) -> Result<Counts, Trouble>
    ensures { MakesFile (F.MakeFile.makes new_files.now) to.now files.now counts result }
{
    match new_files.make(to, files.db.bytes()) {
        Ok(()) => Ok(counts),
        Err(why) => Err(Trouble::Unmade(why)),
    }
}

/// Makes the file of a backup from a sound project that was closed: of its world, if that was loaded, and else of its
/// pages.
fn make_folded<F: MakeFile>(
    alloc: Global,
    new_files: &F,
    to: &str,
    folded: Folded<MemoryFile>,
    options: Options,
) -> Result<Counts, Trouble>
    requires { IfSome folded.checked.world MayBeRefilled }
    ensures { BecomesFile (F.MakeFile.makes new_files.now) to.now folded result }
{
    let Folded { files, checked } = folded;
    match refill_files(alloc, checked.world, options) {
        Some(refilled) => make_file(new_files, to, &refilled, checked.counts),
        None => make_file(new_files, to, &files, checked.counts),
    }
}

/// Makes a new file with a copy of the sound project in the database at a path, which this process may have open. The
/// new file has no log. A path at which something lies is refused. Returns the project's numbers.
///
/// Where many pages of the database are free, the new file is made of the project's world, and is smaller.
pub fn make_backup<F: MakeFile>(
    rt: &HostRuntime,
    path: &str,
    to: &str,
    new_files: &F,
    is_open: bool,
) -> Result<Counts, Trouble>
    // The files' bytes are copied, and the copy is a sound project. The new file has the bytes of
    // the copy after its close, which hold the project without a log; or those of a new database
    // that has its world. Its path names no log. Else the trouble is why not.
    ensures { MakesBackup (F.MakeFile.makes new_files.now) path.now to.now result }
{
    if let Err(why) = refuse_path(rt, to) {
        return Err(Trouble::Unmade(why));
    }
    let files = match copy_files(rt, path, is_open) {
        Ok(files) => files,
        Err(reason) => return Err(Trouble::Unchecked(reason)),
    };
    let wants_world = has_many_free_pages(files.log.bytes(), files.db.bytes());
    let folded = fold(rt.alloc(), files, options(rt), wants_world)?;
    make_folded(rt.alloc(), new_files, to, folded, options(rt))
}
