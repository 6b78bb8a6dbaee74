//! A project: a session over its database.

ghost use Rattle.std.specs.Prelude.{◌≡◌, false};

mod named;
mod session;
mod summary;
mod waiting;
mod walk;

use sqlite::{Alter, Connection};

/// A session over the database of a project, from its adoption to its release.
///
/// Over an older version than the present one only an upgrade is done: each other command, each walk, the summary and
/// what waits answer `OldSchema`. It stays over that version until an upgrade is done, whatever fault comes between.
///
/// It ends at `Broken` (the disk failed, or something is too big for the store), and at out of memory within a
/// transaction. From then on each call answers `Ended` and changes nothing: what the database holds is known only once
/// it is opened again.
#[derive(Drop)]
pub struct Project<S: Alter> {
    conn: Connection<S>,
    has_ended: bool,
    /// The version that its tables have, if that is older than the present one.
    older: Option<u64>,
    /// Whether its adoption made it.
    is_new: bool,
    ghost idle: { conn.in_transaction ≡ false },
}
