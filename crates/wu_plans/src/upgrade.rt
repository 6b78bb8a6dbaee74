//! What bringing a project's schema to the present version answers and changes, before anything is changed.

ghost use Rattle.wu_plans.specs.Planning.{IsOfVersion, PlansUpgrade, PlansWorldIf};
ghost use Rattle.sqlite.specs.Held.{state};
ghost use Rattle.std.specs.Prelude.{IsTrue};

use crate::plan::Plan;
use sqlite::{Alter, Connection};
use std::alloc::Global;
use wu_core::{Fault, PRESENT_VERSION};
use wu_machine::Answer;
use wu_store::{Change, load_marks};

/// Returns what an upgrade of tables of this version answers and changes. It answers that version and the present one.
///
/// At the present version no change is planned. An older one, of whichever version, gets what it lacks, with the marks
/// of all workunits, which are read here.
pub fn plan_upgrade<'a, S: Alter>(
    conn: &mut Connection<S>,
    alloc: Global,
    version: u64,
) -> Result<Plan<'a>, Fault>
    // An open connection stays open, except after `Memory` and `Broken`.
    // It only reads, and never answers `Ended`.
    // The plan answers this version and the present one, at which the world then is; at the present
    // version it changes nothing.
    // Over a project of this version, with no limit on steps, no read is refused.
    ensures reads { PlansWorldIf S.Store conn.old conn.new result
        (IsTrue (state S.Store conn.old).is_open) (PlansUpgrade version) (IsOfVersion version) }
{
    let mut changes = Vec::new(alloc);
    if version < PRESENT_VERSION {
        let rows = load_marks(conn, alloc)?;
        changes.push(Change::Upgrade(version, rows))?;
    }
    Ok(Plan {
        answer: Answer::Upgraded {
            from: version,
            to: PRESENT_VERSION,
        },
        changes,
    })
}
