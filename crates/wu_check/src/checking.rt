//! Whether an open database holds a sound project.

ghost use Rattle.std.specs.Prelude.{◌≡◌};
ghost use Rattle.wu_check.specs.Examining.{unless_refused, Examines, OnLegible};
ghost use Rattle.wu_check.specs.Findings.{FindsOfTables, HasWrongRow, IsBasis, IsBasisLater, IsBasisOf, Says, SaysLater, Tells, TellsLaterFirst};
ghost use Rattle.wu_check.specs.Verdicts.{Checks};
ghost use Rattle.wu_schema.specs.Asking.{ServesUnlessFailed};
ghost use Rattle.wu_schema.specs.Calls.{OnAnswer};
ghost use Rattle.wu_store.specs.Loading.{StaysUnlessFailed};

use crate::counts::instances_in;
use crate::finding::{Counts, Finding, Verdict};
use crate::judging::{is_known, judge_world};
use crate::version::{FIRST_VERSION, version_told};
use sqlite::{Alter, Connection};
use sqlite_schema::schema::Schema;
use std::alloc::Global;
use wu_audit::Loaded;
use wu_audit::laws::sound_in_any_order;
use wu_core::Fault;
use wu_loader::finding::{Found, WrongRow};
use wu_loader::totals::OtherSums;
use wu_loader::{load_world, other_sums};
use wu_schema::{ProjectTable, version_of};
use wu_tables::{Misfit, know_tables, taken_from_new, taken_name};

/// The world that the tables represent, or what keeps them from it.
#[derive(Drop)]
enum Basis {
    World(Loaded),
    Unsound(Finding),
}

/// Returns that nothing is found where a question was refused.
fn unless_refused(found: Result<Option<OtherSums>, Fault>) -> Result<Option<OtherSums>, Fault>
    ensures { result ≡ unless_refused found }
{
    match found {
        Err(Fault::NotAProject) => Ok(None),
        found => found,
    }
}

/// Returns the finding on the wrong row, with both sums if it is that of a host with other sums than its grants.
fn finding_of_row<S: Alter>(
    conn: &mut Connection<S>,
    alloc: Global,
    wrong: WrongRow,
) -> Result<Finding, Fault>
    // Only reads; if the row is the first wrong one of the database, the finding is true.
    ensures examines { Examines S.Store conn.old conn.new result
        (λ db found. HasWrongRow db wrong → Tells db found) }
    // A connection that was open is open afterwards, except after `Memory` and `Broken`.
    ensures stays { StaysUnlessFailed S.Store conn.old conn.new result }
{
    let ProjectTable::Host = wrong.table else {
        return Ok(Finding::Row(wrong));
    };
    let found = unless_refused(other_sums(conn, alloc))?;
    match found {
        Some(sums) => Ok(Finding::Sums(sums)),
        None => Ok(Finding::Row(wrong)),
    }
}

/// Returns the finding on tables that are not those of a project. Without a table `project` that is the first name that
/// keeps a new project from being made, if something has one.
fn finding_of_tables(schema: &Schema, misfit: Misfit) -> Finding
    // The finding is the misfit; or it is `Barred` if the table `project` is missing, with the first
    // name of a new project that something has.
    ensures { FindsOfTables schema.now misfit result }
{
    let Misfit::Missing(ProjectTable::Project) = misfit else {
        return Finding::Tables(misfit);
    };
    match taken_from_new(schema) {
        Some(name) => Finding::Barred(name),
        None => Finding::Tables(misfit),
    }
}

/// Returns the finding, or that the project is of a later version, which may have other tables and rows.
fn unless_later<S: Alter>(conn: &mut Connection<S>, finding: Finding) -> Result<Finding, Fault>
    // Only reads; if the finding is true of the database, so is the one that is returned.
    ensures examines { Examines S.Store conn.old conn.new result (λ db found. Tells db finding
        → Tells db found) }
    ensures opens { ServesUnlessFailed S.Store conn.new result }
    // With no limit on steps, the later version of a project's one row is what is found.
    ensures later { OnAnswer S.Store conn.old conn.new result
        (TellsLaterFirst conn.old.step_limit) }
{
    match version_of(conn) {
        Ok(Some(version)) if !is_known(version) => Ok(Finding::Version(version)),
        Ok(_) | Err(Fault::NotAProject) => Ok(finding),
        Err(fault) => Err(fault),
    }
}

/// Returns the world of this version that the tables represent, or what keeps them from it.
fn find_world_of<S: Alter>(
    conn: &mut Connection<S>,
    alloc: Global,
    version: u64,
) -> Result<Basis, Fault>
    // Only reads; if the project has this version, the tables represent the world that is returned,
    // or the finding is true.
    ensures examines { Examines S.Store conn.old conn.new result (IsBasisOf version) }
    ensures opens { ServesUnlessFailed S.Store conn.new result }
    // With no limit on steps, a finding over a project's one row with a later version is that
    // version.
    ensures later { OnAnswer S.Store conn.old conn.new result (IsBasisLater conn.old.step_limit) }
{
    if let Err(misfit) = know_tables(conn.schema(), version) {
        let finding = unless_later(conn, Finding::Tables(misfit))?;
        return Ok(Basis::Unsound(finding));
    }
    match load_world(conn, alloc, version)? {
        Found::World(loaded) => Ok(Basis::World(loaded)),
        Found::Wrong(wrong) => {
            let found = finding_of_row(conn, alloc, wrong)?;
            let finding = unless_later(conn, found)?;
            Ok(Basis::Unsound(finding))
        }
    }
}

/// Returns the world that the tables represent, or what keeps them from it.
fn find_world<S: Alter>(conn: &mut Connection<S>, alloc: Global) -> Result<Basis, Fault>
    // Only reads; the tables represent the world that is returned, or the finding is true.
    ensures examines { Examines S.Store conn.old conn.new result IsBasis }
    ensures opens { ServesUnlessFailed S.Store conn.new result }
    // With no limit on steps, a finding over a project's one row with a later version is that
    // version.
    ensures later { OnAnswer S.Store conn.old conn.new result (IsBasisLater conn.old.step_limit) }
{
    if let Err(misfit) = know_tables(conn.schema(), FIRST_VERSION) {
        let found = finding_of_tables(conn.schema(), misfit);
        let finding = unless_later(conn, found)?;
        return Ok(Basis::Unsound(finding));
    }
    let version = version_told(conn)?;
    find_world_of(conn, alloc, version)
}

/// Returns the verdict, for what is found first.
fn examine<S: Alter>(conn: &mut Connection<S>, alloc: Global) -> Result<Verdict, Fault>
    // Only reads; `Sound` is of a sound world of a known version with these numbers, whose upgrade
    // finds its names free, and a finding is true.
    ensures examines { Examines S.Store conn.old conn.new result Says }
    ensures opens { ServesUnlessFailed S.Store conn.new result }
    // With no limit on steps, a finding over a project's one row with a later version is that
    // version.
    ensures later { OnLegible S.Store conn.old conn.new result (SaysLater conn.old.step_limit) }
{
    let loaded = match find_world(conn, alloc)? {
        Basis::World(loaded) => loaded,
        Basis::Unsound(finding) => return Ok(Verdict::Unsound(finding)),
    };
    if let Some(finding) = judge_world(conn, alloc, &loaded)? {
        return Ok(Verdict::Unsound(finding));
    }
    if let Some(name) = taken_name(conn.schema(), loaded.version()) {
        let taken = Finding::Taken(loaded.version(), name);
        return Ok(Verdict::Unsound(taken));
    }
    Ok(Verdict::Sound(Counts {
        version: loaded.version(),
        workunits: loaded.workunits().len() as u64,
        results: instances_in(loaded.workunits()),
    }))
}

/// Returns whether the database holds a sound project of a version that this program knows, and nothing that keeps it
/// from an upgrade, or what was found first. Reads all tables whole, and changes nothing.
pub fn check<S: Alter>(conn: &mut Connection<S>, alloc: Global) -> Result<Verdict, Fault>
    // It only reads, and each of its answers and faults means what `Checks` says. `Sound` is of a
    // sound project with these numbers, and a finding is true and the first in the written order.
    // With no limit on steps the only faults are `Memory` and `Broken`.
    ensures { Checks S.Store conn.old conn.new result }
{
    sound_in_any_order();
    examine(conn, alloc)
}
