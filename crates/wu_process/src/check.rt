//! A check of a database: its files are copied into memory, and the copy is opened and looked at.

ghost use Rattle.std.specs.Prelude.{IsTrue};
ghost use Rattle.wu_cli.specs.Checking.{ChecksOver};
ghost use Rattle.wu_process.specs.Checks.{ChecksFiles, ChecksPath, DropsChecked};

use crate::copy::copy_in_memory;
use crate::opening::{open_copy, options};
use sqlite::{Alter, Connection, Files, Options};
use sqlite_disk::Disk;
use std::alloc::Global;
use std::io::Write;
use wu_cli::{Trouble, check_over};

/// Checks an open database, as `check_over`, and drops it. Nothing is written to its files.
///
/// It stands over any store: what is asked of one over files is proved again at each such call and drop.
fn check_and_drop<S: Alter + Drop, O: Write>(
    alloc: Global,
    conn: Connection<S>,
    out: &mut O,
) -> Result<(), Trouble>
    ensures { DropsChecked S.Store O.contents conn out.old out.new result }
{
    let mut conn = conn;
    check_over(alloc, &mut conn, out)
}

/// Opens the database in two files, and checks it. If it cannot be opened, the trouble is why, and nothing goes out.
fn check_files<D: Disk + Drop, O: Write>(
    alloc: Global,
    files: Files<D>,
    options: Options,
    out: &mut O,
) -> Result<(), Trouble>
    requires log { IsTrue (D.Disk.is_usable files.log) }
    requires db { IsTrue (D.Disk.is_usable files.db) }
    ensures { ChecksFiles D.Disk O.contents files out.old out.new result }
{
    match open_copy(alloc, files, options) {
        Ok(conn) => check_and_drop(alloc, conn, out),
        Err(trouble) => Err(trouble),
    }
}

/// Checks a copy of the database at the path. If its files cannot be read or copied, the trouble is why, and nothing
/// goes out.
pub fn check_path<O: Write>(rt: &HostRuntime, path: &str, out: &mut O) -> Result<(), Trouble>
    // A copy with exactly the bytes that were read of both files is opened and checked. Or the
    // reason why it cannot be is reported, and nothing goes out.
    ensures { ChecksPath O.contents path.now out.old out.new result }
{
    match copy_in_memory(rt, path) {
        Ok(files) => check_files(rt.alloc(), files, options(rt), out),
        Err(reason) => Err(Trouble::Unchecked(reason)),
    }
}
