//! The upgrade of a project on a connection, with no session.

ghost use Rattle.std.specs.Prelude.{◌≡◌, false, true, [], IfErr, OnErr};
ghost use Rattle.wu_machine.specs.Requests.{AskUpgrade};
ghost use Rattle.wu_machine.specs.Sound.{IsProject};
ghost use Rattle.wu_plans.specs.Planning.{PlansFor, PlansProject};
ghost use Rattle.wu_schema.specs.Calls.{CommitsNothing, CrashAllows, GoesBack};
ghost use Rattle.wu_store.specs.Changing.{MakesWorlds};
ghost use Rattle.wu_passes.specs.Upgrading.{KeepsPresent, MakesUpgrade, OpensUnlessFailed, ReadsProject, UpgradesEach};

use crate::commit::change_all;
use crate::version::known_version;
use sqlite::{Alter, Connection};
use std::alloc::Global;
use wu_core::Fault;
use wu_plans::{Plan, plan_upgrade};
use wu_store::Change;

/// Returns what the upgrade of the project changes, or its first refusal.
fn plan_present<'a, S: Alter>(conn: &mut Connection<S>, alloc: Global) -> Result<Plan<'a>, Fault>
    ensures reads { PlansProject S.Store conn.old conn.new result (PlansFor AskUpgrade) IsProject }
{
    let version = known_version(conn)?;
    plan_upgrade(conn, alloc, version)
}

/// Makes the changes of the upgrade in one transaction, if there are any.
fn make_changes<S: Alter>(
    conn: &mut Connection<S>,
    changes: &[Change<'_>],
) -> Result<(), (Fault, bool)>
    requires { conn.old.in_transaction ≡ false }
    ensures mode { conn.new.in_transaction ≡ false }
    ensures made { MakesUpgrade S.Store conn.old conn.new changes.now result }
    ensures back { OnErr result (GoesBack S.Store conn.old conn.new) }
    ensures crash { CrashAllows S.Store conn.old conn.new (MakesWorlds changes.now) }
    ensures opens { OpensUnlessFailed S.Store conn.new result }
    ensures begun { IfErr result (λ refusal. refusal.1 ≡ true) }
    ensures none { changes.now ≡ [] → conn.new ≡ conn.old }
{
    if changes.is_empty() {
        return Ok(());
    }
    match change_all(conn, changes) {
        Ok(()) => Ok(()),
        Err(fault) => Err((fault, true)),
    }
}

/// Upgrades the project in a database to the present version, in one transaction.
///
/// It does what `Project::run` does for the command, with no session over the connection. Beside a fault it returns
/// whether its transaction had begun. If it had, a later opening of the files may find the tables as they were, or the
/// upgraded ones.
pub fn upgrade<S: Alter>(conn: &mut Connection<S>, alloc: Global) -> Result<(), (Fault, bool)>
    // The connection is not inside a transaction.
    requires { conn.old.in_transaction ≡ false }
    // Afterwards the connection is not inside a transaction.
    ensures mode { conn.new.in_transaction ≡ false }
    // With Ok the tables represent the same world at the present version, and a crash leaves only
    // these. Or they had that version, and all is as it was. With a fault they represent the same
    // world while the connection is open. A crash then leaves what it could have left before or, if
    // the transaction had begun, the upgraded tables. Beside upgraded tables those of other
    // programs stay, if they have no foreign key.
    ensures upgrades { UpgradesEach S.Store conn.old conn.new result }
    // With Ok, a project that had the present version is left as it was: every table, and what a
    // crash may leave.
    ensures present { KeepsPresent S.Store conn.old conn.new result }
    // After a fault an open connection shows what it showed, or its last commit.
    ensures back { OnErr result (GoesBack S.Store conn.old conn.new) }
    // After a fault the connection is open, except after `Memory` and `Broken`.
    ensures opens { OpensUnlessFailed S.Store conn.new result }
    // If the transaction had not begun, a fault commits nothing: a crash leaves what it could have
    // left before.
    ensures unbegun { IfErr result (λ refusal. refusal.1 ≡ false
        → CommitsNothing S.Store conn.old conn.new) }
    // Without a limit on steps, a project that commands run over is not refused with `NotAProject`
    // before the transaction.
    ensures unrefused { ReadsProject S.Store conn.old conn.new result }
{
    // outside a transaction what is shown is what is committed
    let is_idle = conn.is_autocommit();
    prove!(is_idle);
    match plan_present(conn, alloc) {
        Ok(Plan { answer, changes }) => {
            drop(answer);
            make_changes(conn, changes.as_slice())
        }
        Err(fault) => Err((fault, false)),
    }
}
