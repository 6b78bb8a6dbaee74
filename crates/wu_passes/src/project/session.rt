//! What a session does: its adoption, its commands, its release.

ghost use Rattle.std.specs.Prelude.{◌≡◌, true, false, [], Ok, Err, IfErr, IfOk, IsTrue, OnOk};
ghost use Rattle.sqlite.specs.Held.{state};
ghost use Rattle.wu_machine.specs.Machine.{has_right_limits, is_upgrade};
ghost use Rattle.wu_plans.specs.Planning.{IsReadyAt, PlansAt, PlansFor, PlansProject, PlansProjectIf};
ghost use Rattle.wu_machine.specs.Commands.{request_of};
ghost use Rattle.wu_machine.specs.Sound.{IsProject};
ghost use Rattle.wu_passes.specs.Standing.{IsCutBy};
ghost use Rattle.wu_passes.specs.Adopting.{Adopts, KnowsVersion, older_than_present, RefusesAdoption, TellsNew};
ghost use Rattle.wu_passes.specs.Projects.{AnswersEnded, BeginsSession, CarriesOut, CarriesOutFrom, connection_of, FailsAgain, GoesOnAgain, IsSessionOpen, has_ended, is_new_project, IsSessionEnded, KeepsAsking, KeepsSession, KeepsVersion, LeavesIdle, LeavesUntouched, PlansOn, RefusesEarly, RunsOver, refused_for, ServesOn, ServesRight, older_version, state_of, TellsWhy};

use crate::commit::change_all;
use crate::project::Project;
use crate::version::known_version;
use sqlite::{Alter, Connection};
use std::alloc::Global;
use wu_core::{Fault, PRESENT_VERSION};
use wu_machine::laws::commands_keep_projects;
use wu_machine::{Answer, Command};
use wu_plans::{
    Ask, Plan, plan_batch, plan_cancel, plan_classes, plan_pass, plan_reported, plan_sent,
    plan_upgrade,
};
use wu_schema::{check_version, create, version_of};
use wu_store::Change;

/// Finds the project of the database, or makes a fresh one if it has none of a project's tables. Returns the version of
/// its schema, and whether it is new. A limit on steps is taken off.
///
/// A connection inside a transaction stays as it was.
fn find_or_create<S: Alter>(conn: &mut Connection<S>) -> Result<(u64, bool), Fault>
    ensures busy { conn.old.in_transaction ≡ true
        → (result ≡ Err Fault.NotAProject) × (conn.new ≡ conn.old) }
    ensures mode { OnOk result (conn.new.in_transaction ≡ false) }
    ensures adopted { OnOk result (Adopts (state S.Store conn.old) (state S.Store conn.new)) }
    ensures refused { IfErr result
        (RefusesAdoption (state S.Store conn.old) (state S.Store conn.new)) }
    ensures version { IfOk result (λ found.
        KnowsVersion (state S.Store conn.old) (state S.Store conn.new) found.0) }
    ensures new { IfOk result (λ found.
        TellsNew (state S.Store conn.old) (state S.Store conn.new) found.1) }
{
    if !conn.is_autocommit() {
        return Err(Fault::NotAProject);
    }
    conn.set_step_limit(None);
    let Some(version) = version_of(conn)? else {
        create(conn)?;
        return Ok((PRESENT_VERSION, true));
    };
    check_version(version)?;
    Ok((version, false))
}

/// Returns the version if it is older than the present one, and otherwise `None`.
fn older_than_present(version: u64) -> Option<u64>
    ensures { result ≡ older_than_present version }
{
    if version < PRESENT_VERSION {
        Some(version)
    } else {
        None
    }
}

/// Returns whether the command is an upgrade.
fn is_upgrade(command: &Command) -> bool
    ensures { result ≡ is_upgrade (request_of command.now) }
{
    matches!(command, Command::Upgrade)
}

/// Returns whether the limit and the least age of a pass are in range. Any other command has none.
fn has_right_limits(command: &Command) -> bool
    // A pass has right limits if its limit is from 1 to 1000 and its least age at most a year; any
    // other command always.
    ensures { result ≡ has_right_limits (request_of command.now) }
{
    match command {
        Command::Transition { now, limit } => Ask::transition(*now, *limit).is_right(),
        Command::Validate { limit } => Ask::validate(*limit).is_right(),
        Command::Assimilate { now, limit } => Ask::assimilate(*now, *limit).is_right(),
        Command::Delete { limit } => Ask::delete(*limit).is_right(),
        Command::Purge {
            now,
            limit,
            min_age,
        } => Ask::purge(*now, *limit, *min_age).is_right(),
        _ => true,
    }
}

/// Returns what a command over tables of this version will answer and what it changes, or its first refusal.
fn plan_at<'a, S: Alter>(
    conn: &mut Connection<S>,
    alloc: Global,
    version: u64,
    command: &'a Command,
) -> Result<Plan<'a>, Fault>
    requires { has_right_limits (request_of command.now) ≡ true }
    ensures reads { PlansProjectIf S.Store conn.old conn.new result
        (IsTrue (state S.Store conn.old).is_open) (PlansAt version (request_of command.now))
        (IsReadyAt version (request_of command.now)) }
{
    match command {
        Command::Batch(batch) => plan_batch(conn, alloc, batch),
        Command::Sent(file) => plan_sent(conn, alloc, file),
        Command::Reported(file) => plan_reported(conn, alloc, file),
        Command::Classes(file) => plan_classes(conn, alloc, file),
        Command::Transition { now, limit } => plan_pass(
            conn,
            alloc,
            &Ask::transition(*now, *limit),
        ),
        Command::Validate { limit } => plan_pass(conn, alloc, &Ask::validate(*limit)),
        Command::Assimilate { now, limit } => plan_pass(
            conn,
            alloc,
            &Ask::assimilate(*now, *limit),
        ),
        Command::Delete { limit } => plan_pass(conn, alloc, &Ask::delete(*limit)),
        Command::Purge {
            now,
            limit,
            min_age,
        } => plan_pass(conn, alloc, &Ask::purge(*now, *limit, *min_age)),
        Command::Cancel { workunit } => plan_cancel(conn, alloc, workunit),
        Command::Upgrade => plan_upgrade(conn, alloc, version),
    }
}

/// Returns what a command will answer and what it changes, or its first refusal. Over tables of an older version than
/// the present one each command but an upgrade is refused.
fn plan<'a, S: Alter>(
    conn: &mut Connection<S>,
    alloc: Global,
    command: &'a Command,
) -> Result<Plan<'a>, Fault>
    requires { has_right_limits (request_of command.now) ≡ true }
    ensures reads { PlansProject S.Store conn.old conn.new result
        (PlansFor (request_of command.now)) IsProject }
{
    let version = known_version(conn)?;
    if version < PRESENT_VERSION && !is_upgrade(command) {
        return Err(Fault::OldSchema(version));
    }
    plan_at(conn, alloc, version, command)
}

impl<S: Alter> Project<S> {
    /// Begins a session over the project in a database, and takes a limit on steps off the connection.
    ///
    /// A project that is found is not touched, whatever comes of it, also one of an older version. A database with none
    /// of the project's tables gets them, in one transaction. Tables of other names are left alone.
    ///
    /// A later version than the present one is `NewSchema`. `NotAProject` is a connection inside a transaction, a taken
    /// name, or a table `project` with other rows. With each refusal the connection comes back. It is open, except
    /// after `Memory` and `Broken`.
    pub fn adopt(mut conn: Connection<S>) -> Result<Self, (Connection<S>, Fault)>
        // A connection inside a transaction comes back as it was, with `NotAProject`.
        ensures busy { conn.in_transaction ≡ true → result ≡ Err (conn, Fault.NotAProject) }
        // A project that was there is found, of a known version, and is not touched. If there was
        // none, its tables are made beside all else that is there, and represent the empty world.
        // The session that begins over it has not ended. It knows the version of the world that the
        // tables represent, and whether the project is new. The connection was in no transaction;
        // it was open and still is, without a limit on steps.
        ensures session { IfOk result (BeginsSession S.Store conn) }
        // The fault is one of the store, or `NewSchema` of a later version that is stored. `Broken`
        // means that the disk failed in this call, or that the connection was not open. If there
        // was no project, the fault is `NotAProject`, `Memory` or such a `Broken`. If the table
        // `project` has just one row, with a version, it is `NewSchema`, `Memory` or `Broken`.
        // `NotAProject` leaves all as it was, and a project that was there is not touched. An open
        // connection shows what it showed, or the last commit. A crash leaves what it could have
        // left before, or the fresh project. The connection is open, except after `Memory` and
        // `Broken`, or if it was inside a transaction.
        ensures refused { IfErr result (λ refusal.
            RefusesAdoption (state S.Store conn) (state S.Store refusal.0) refusal.1) }
    {
        match find_or_create(&mut conn) {
            Ok((version, is_new)) => Ok(Project {
                conn,
                has_ended: false,
                older: older_than_present(version),
                is_new,
            }),
            Err(fault) => Err((conn, fault)),
        }
    }

    /// Returns whether the session has ended.
    pub fn ended(&self) -> bool
        // The answer is whether the session has ended.
        ensures { result ≡ has_ended self.now }
    {
        self.has_ended
    }

    /// Returns the schema version of the project's tables if it is an older one, and `None` at the present version.
    pub fn older_version(&self) -> Option<u64>
        // The answer is the older version that the session knows, or `None`.
        ensures { result ≡ older_version self.now }
    {
        self.older
    }

    /// Returns whether the adoption of this session made the project.
    pub fn is_new(&self) -> bool
        // The answer is whether the project was made.
        ensures { result ≡ is_new_project self.now }
    {
        self.is_new
    }

    /// Ends the session, and gives its connection back, in no transaction.
    pub fn release(self) -> Connection<S>
        // The connection is the session's, unchanged.
        ensures same { result ≡ connection_of self }
        // The connection is not inside a transaction.
        ensures idle { result.in_transaction ≡ false }
    {
        let Project {
            conn,
            has_ended: _,
            older: _,
            is_new: _,
        } = self;
        conn
    }

    /// Ends the session, and begins another over its connection.
    ///
    /// If a fault ended it and left the connection open, the new one goes on over the world from before the cut
    /// command. Then only `Memory` and `Broken` refuse it.
    pub fn begin_again(self) -> Result<Self, (Connection<S>, Fault)>
        // A session begins as at an adoption of the connection. It has not ended, and knows the
        // version of the world that the tables represent.
        ensures session { IfOk result (BeginsSession S.Store (connection_of self)) }
        // The fault is one of the store, or a later version that is stored. `NotAProject` leaves
        // all as it was, and a project that was there is not touched. An open connection shows what
        // it showed, or the last commit.
        ensures refused { IfErr result (λ refusal.
            RefusesAdoption (state_of self) (state S.Store refusal.0) refusal.1) }
        // If a fault ended the old session and left its connection open, the new session goes on
        // over the world from before the cut command.
        ensures goes { IfOk result (GoesOnAgain self) }
        // If a fault ended the old session and left its connection open, only `Memory` and `Broken`
        // refuse the new one, and the world stays.
        ensures fails { IfErr result (FailsAgain self) }
    {
        Self::adopt(self.release())
    }

    /// Runs a command: its changes in one transaction, then its answer.
    ///
    /// Over an older version each command but an upgrade is `OldSchema`, whatever its limits. Then a pass whose limit
    /// or least age is out of range is `BadLimit`. Nothing is touched for either.
    ///
    /// All else is computed before the transaction begins. A fault before it leaves the project as it was, and only
    /// `Broken` ends the session there. A statement that is refused within it is `NotAProject`, and is rolled back.
    /// `Memory` and `Broken` from within it end the session.
    ///
    /// An open connection stays open, unless the disk fails in this call. A command of which the machine makes nothing,
    /// such as a repeated import, begins no transaction. After an answer the session is over no older version; a fault
    /// leaves it over the same version.
    pub fn run(&mut self, alloc: Global, command: &Command) -> Result<Answer, Fault>
        // After the end of a session it answers `Ended`, and touches nothing.
        ensures ended { IsSessionEnded self.old → AnswersEnded self.old self.new result }
        // The session ends only with `Memory` or `Broken`, and always with `Broken`; until then it
        // never answers `Ended`. Only a disk that fails in this call closes an open connection, and
        // nothing opens a closed one. After an answer the session is over no older version; a fault
        // leaves it over the same one. The limit on steps stays, and no fault of the disk is
        // forgotten.
        ensures session { KeepsSession self.old self.new result }
        // The connection is open afterwards, except after `Memory` and `Broken`, and after a
        // command that is refused for its version or its limits.
        ensures opens { IsSessionOpen self.old → ServesRight self.old self.new command.now result }
        // Over an older version each command but an upgrade is `OldSchema`; over the present one a
        // pass with wrong limits is `BadLimit`. Nothing is touched.
        ensures refused { IsSessionOpen self.old
            → RefusesEarly self.old self.new command.now result }
        // An answer is the machine's reply, and the tables then represent the machine's step. A
        // crash then leaves only that; or nothing is made, and all is as it was. A fault is the
        // machine's refusal, or one of the store, and the tables represent the same world while the
        // connection is open. A crash then leaves what it could have left before or, if the session
        // ended, the step. Wherever the step is, the tables of other programs stay, if they have no
        // foreign key. If a crash could leave only that world before, then after a fault too, while
        // the connection is open.
        ensures runs { IsSessionOpen self.old → RunsOver self.old self.new command.now result }
        // Without a limit on steps, a fault that ends the session is `Broken` of a failed disk or
        // of a connection that was not open. Or it is `Memory` or `Broken` of a command of which
        // the machine makes something. Any other fault is the machine's refusal, `Memory`, or
        // `NotAProject` of a statement that writes.
        ensures why { IsSessionOpen self.old → TellsWhy self.old self.new command.now result }
        // A command that fails, except with `Memory` or `Broken`, changes no table, nor what a
        // crash may leave.
        ensures untouched { LeavesUntouched self.old self.new result }
        // If the machine makes nothing of the world, as of a repeated import, a command that is
        // answered changes no table, nor what a crash may leave.
        ensures idle { IsSessionOpen self.old → LeavesIdle self.old self.new command.now result }
    {
        if self.has_ended {
            return Err(Fault::Ended);
        }
        if let Some(version) = self.older_for(command) {
            return Err(Fault::OldSchema(version));
        }
        if !has_right_limits(command) {
            return Err(Fault::BadLimit);
        }
        // a law, for the proof alone: what the command makes of a project is one
        commands_keep_projects(command);
        match self.prepare(alloc, command) {
            Ok(Plan { answer, changes }) => self.carry_out(answer, changes.as_slice()),
            Err(refusal) => Err(refusal),
        }
    }

    /// Returns the older version for which a command is refused, if there is one.
    fn older_for(&self, command: &Command) -> Option<u64>
        ensures { result ≡ refused_for (request_of command.now) (older_version self.now) }
    {
        if is_upgrade(command) {
            None
        } else {
            self.older
        }
    }

    /// Returns what a command will answer and what it changes: all of it that comes before its transaction.
    ///
    /// `Broken` ends the session here, and nothing else does, not even out of memory.
    fn prepare<'a>(&mut self, alloc: Global, command: &'a Command) -> Result<Plan<'a>, Fault>
        requires still { IsSessionOpen self.old }
        requires right { has_right_limits (request_of command.now) ≡ true }
        // Before the transaction only `Broken` ends the session, and it always does; the session
        // stays over its version.
        ensures session { KeepsAsking self.old self.new result }
        ensures reads { PlansOn self.old self.new command.now result }
    {
        // outside a transaction what is shown is what is committed
        let is_idle = self.conn.is_autocommit();
        prove!(is_idle);
        match plan(&mut self.conn, alloc, command) {
            Ok(plan) => Ok(plan),
            Err(fault) => {
                if fault == Fault::Broken {
                    self.has_ended = true;
                }
                Err(fault)
            }
        }
    }

    /// Makes the changes of a plan, if there are any, and gives its answer.
    fn carry_out(&mut self, answer: Answer, changes: &[Change<'_>]) -> Result<Answer, Fault>
        requires { IsSessionOpen self.old }
        // The session ends only with `Memory` or `Broken`, and always with `Broken`. Only a disk
        // that fails in this call closes an open connection.
        ensures session { KeepsSession self.old self.new result }
        ensures opens { IsTrue (state_of self.old).is_open → ServesOn self.new result }
        // A fault that ends the session is `Memory` or `Broken`; one that does not is
        // `NotAProject`.
        ensures cause { IfErr result (IsCutBy (has_ended self.new)) }
        ensures done { CarriesOut self.old self.new answer changes.now result }
        ensures from { CarriesOutFrom self.old self.new answer changes.now result }
        ensures untouched { LeavesUntouched self.old self.new result }
        ensures none { changes.now ≡ []
            → (result ≡ Ok answer) × (connection_of self.new ≡ connection_of self.old) }
    {
        if changes.is_empty() {
            // an upgrade of an older version changes something
            self.older = None;
            return Ok(answer);
        }
        // outside a transaction what is shown is what is committed
        let is_idle = self.conn.is_autocommit();
        prove!(is_idle);
        match change_all(&mut self.conn, changes) {
            Ok(()) => {
                // no command but an upgrade changes tables of an older version
                self.older = None;
                Ok(answer)
            }
            Err(Fault::NotAProject) => {
                drop(answer);
                Err(Fault::NotAProject)
            }
            Err(fault) => {
                drop(answer);
                self.has_ended = true;
                Err(fault)
            }
        }
    }

    /// Ends the session.
    pub fn end_session(&mut self)
        // Afterwards the session has ended.
        ensures over { IsSessionEnded self.new }
        // The connection stays as it was.
        ensures same { connection_of self.new ≡ connection_of self.old }
        // The session stays over the version that it was over.
        ensures version { KeepsVersion self.old self.new }
    {
        self.has_ended = true;
    }
}
