//! The names that SQLite gives to what it keeps beside a database.

ghost use Rattle.std.specs.Prelude.{◌≡◌};
ghost use Rattle.wu_cli.specs.LogNames.{is_reserved, names_log};

/// Returns whether the path names a log or a journal of a database, or what SQLite keeps in memory of a log, and no
/// database.
pub fn names_log(path: &str) -> bool
    // It does exactly if it ends as SQLite names these.
    ensures { result ≡ names_log path.now }
{
    let bytes = path.as_bytes();
    bytes.ends_with(b"-wal") || bytes.ends_with(b"-journal") || bytes.ends_with(b"-shm")
}

/// Returns whether no file of an output has this name: it is that of a folder, or it names a log, which a database beside
/// it would take for its own.
pub(crate) fn is_reserved(name: &str) -> bool
    // It does exactly if it is `.` or `..`, or names a log.
    ensures { result ≡ is_reserved name.now }
{
    name == "." || name == ".." || names_log(name)
}
