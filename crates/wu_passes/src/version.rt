//! The version of the tables that a command finds.

ghost use Rattle.wu_plans.specs.Planning.{TellsVersion, PlansWorld};
ghost use Rattle.wu_machine.specs.Sound.{IsProject};
ghost use Rattle.wu_passes.specs.Adopting.{IsKnownRow, RefusesRow};
ghost use Rattle.wu_schema.specs.Calls.{OnAnswer, OnFault};

use sqlite::{Alter, Connection};
use wu_core::Fault;
use wu_schema::{check_version, version_of};

/// Returns the version of the project's tables, which this program knows.
///
/// A later version is `NewSchema`. `NotAProject` means that no project is there any more.
pub fn known_version<S: Alter>(conn: &mut Connection<S>) -> Result<u64, Fault>
    // The connection is open afterwards, except after `Memory` and `Broken`.
    // It only reads, and never answers `Ended`.
    // The version is that of each world that the tables represent.
    // Without a limit on steps, over a world that commands run over, `NotAProject` is not returned.
    ensures reads { PlansWorld S.Store conn.old conn.new result TellsVersion IsProject }
    // The version is that of the project's one row, and at most the present one.
    ensures found { OnAnswer S.Store conn.old conn.new result IsKnownRow }
    // A later version in that row is `NewSchema` with it. Without a limit on steps, such a row is
    // refused only so, or with `Memory` or `Broken`.
    ensures later { OnFault S.Store conn.old conn.new result (RefusesRow conn.old.step_limit) }
{
    let Some(version) = version_of(conn)? else {
        return Err(Fault::NotAProject);
    };
    check_version(version)?;
    Ok(version)
}
