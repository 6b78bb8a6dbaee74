//! A check: whether an open database holds a sound project, and how that is reported.

ghost use Rattle.std.specs.Prelude.{Ok};
ghost use Rattle.wu_cli.specs.Checking.{ChecksOver, TellsSound};

use crate::backup::count_sound;
use crate::findings::write_sound;
use crate::trouble::Trouble;
use sqlite::{Alter, Connection};
use std::alloc::Global;
use std::io::Write;
use wu_check::Counts;

/// Reports a sound project on the writer.
fn tell_sound<W: Write>(out: &mut W, counts: Counts) -> Result<(), Trouble>
    ensures { TellsSound W.contents out.old out.new (Ok counts) result }
{
    write_sound(out, counts)?;
    Ok(())
}

/// Checks whether an open database holds a sound project, as `wu_check::check` does. If so, it prints that on the
/// writer. Else the trouble is what keeps it from that, and nothing is written. Nothing of the database is changed.
pub fn check_over<S: Alter, W: Write>(
    alloc: Global,
    conn: &mut Connection<S>,
    out: &mut W,
) -> Result<(), Trouble>
    // The verdict is that of `wu_check::check`, with all that it means. The line of a sound project
    // goes out, or a prefix of it with `Output`. A finding or a fault is reported as the trouble,
    // and nothing is written.
    ensures { ChecksOver S.Store W.contents conn.old conn.new out.old out.new result }
{
    let counts = count_sound(alloc, conn)?;
    tell_sound(out, counts)
}
