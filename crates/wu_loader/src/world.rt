//! The world that the rows of a project's tables are those of.

ghost use Rattle.std.specs.Prelude.{◌≡◌, ◌≢◌, [], ◌∷◌, IfErr, IfOk, Some, map, slice_get};
ghost use Rattle.wu_core.specs.Classes.{AreInOrder};
ghost use Rattle.wu_core.specs.World.{World};
ghost use Rattle.wu_schema.specs.Stored.{workunit_row};
ghost use Rattle.wu_loader.specs.Rows.{project_row_of, IsStoredProject};
ghost use Rattle.wu_loader.specs.Whole.{IsIn, UnlessMemory};
ghost use Rattle.wu_loader.specs.Worlds.{plain_world, AreAnyClassRowsOf, ArePlainRowsOf, AreRowsOf, HasClassesOf, IsOrdered, IsReadable};
ghost use Rattle.wu_loader.specs.First.{AreRightBefore, IsFirstClass, IsFirstPlain, IsFirstWrong};
ghost use Rattle.wu_loader.specs.Wrongs.{IsWrongProject, LacksProjectRow};
ghost use Rattle.wu_loader.specs.declared.finding.NoWorld.TheVariants.{Wrong};
ghost use Rattle.wu_loader.specs.declared.rows.ProjectRow.{ProjectRow};

use crate::classes::{host_classes, with_classes, without_classes};
use crate::finding::{NoWorld, WrongRow};
use crate::hosts::know_hosts;
use crate::rows::{Classed, FromRow, ProjectRow};
use crate::tables::{ClassRows, PlainRows, TableRows};
use crate::works::works_from;
use sqlite::Row;
use std::alloc::Global;
use wu_audit::{Imported, Loaded};
use wu_core::{Archived, Fault, Grant, HostClass, Workunit};
use wu_schema::ProjectTable;

/// Returns the report of this place in the table of the project.
fn wrong_project(place: u64) -> NoWorld
    ensures { result ≡ Wrong (record { table = ProjectTable.Project; place = place }) }
{
    NoWorld::Wrong(WrongRow {
        table: ProjectTable::Project,
        place,
    })
}

/// Returns the project of the first row. Reports the first place if that is the row of no project, or is missing.
fn first_project(alloc: Global, rows: &[Row]) -> Result<ProjectRow, NoWorld>
    // After `Ok` the first row is that of this project.
    ensures first { IfOk result (λ project. slice_get rows.now 0 ≡ Some (project_row_of project)) }
    // After `Ok` the project is in its ranges.
    ensures stored { IfOk result IsStoredProject }
    // The first place is reported, and no row of a project is there.
    ensures none { IfErr result (λ reason. UnlessMemory reason (λ wrong.
        IsIn ProjectTable.Project (λ place. (place ≡ 1) × LacksProjectRow rows.now) wrong)) }
{
    match rows {
        [] => Err(wrong_project(1)),
        [row, ..] => match ProjectRow::from_row(alloc, 1, row) {
            Ok(project) => Ok(project),
            Err(Fault::NotAProject) => Err(wrong_project(1)),
            Err(_) => Err(NoWorld::Memory),
        },
    }
}

/// Returns the one row of a project of this version. Reports the first place if there is no such row, and the second if
/// there are more.
fn project_from(alloc: Global, version: u64, rows: &[Row]) -> Result<ProjectRow, NoWorld>
    // After `Ok` the one row is that of this project.
    ensures project { IfOk result (λ project. rows.now ≡ project_row_of project ∷ []) }
    // After `Ok` the project is of this version.
    ensures version { IfOk result (λ project. project.version ≡ version) }
    // After `Ok` the project is in its ranges.
    ensures stored { IfOk result IsStoredProject }
    // A row that is reported means that the rows are not the one row of a project of this version.
    ensures none { IfErr result (λ reason. UnlessMemory reason (λ _. (project : ProjectRow)
        → IsStoredProject project → project.version ≡ version
        → rows.now ≢ project_row_of project ∷ [])) }
    // The place is the first at which a project of this version has another row, or none.
    ensures told { IfErr result (λ reason. UnlessMemory reason (IsIn ProjectTable.Project
        (IsWrongProject version rows.now))) }
{
    let project = first_project(alloc, rows)?;
    if rows.len() > 1 {
        return Err(wrong_project(2));
    }
    if project.version != version {
        return Err(wrong_project(1));
    }
    Ok(project)
}

/// What the rows of the tables that every version has are those of.
#[derive(Drop)]
struct Plain {
    project: ProjectRow,
    workunits: Vec<Workunit>,
    grants: Vec<Grant>,
    archived: Vec<Archived>,
    imports: Vec<Imported>,
}

/// Returns what these rows of a project of this version are those of. Else it returns the first row that keeps them from
/// that, in the order of the tables.
fn plain_from(alloc: Global, version: u64, rows: PlainRows) -> Result<Plain, NoWorld>
    // After `Ok` the rows of the tables of every version are those of these values.
    ensures plain { IfOk result (λ plain. ArePlainRowsOf rows (plain_world plain)) }
    // After `Ok` the project is of this version.
    ensures version { IfOk result (λ plain. plain.project.version ≡ version) }
    // After `Ok` no row of these tables is wrong.
    ensures right { IfOk result (λ _. AreRightBefore version rows 7) }
    // A row that is reported means that the rows are those of no readable world of this version in
    // order of number.
    ensures none { IfErr result (λ reason. UnlessMemory reason (λ _. (world : World)
        → IsReadable world → world.version ≡ version → IsOrdered world.workunits
        → ¬ ArePlainRowsOf rows world)) }
    // The reported row is the first that is missing or invalid at its place, in the written order.
    ensures told { IfErr result (λ reason. UnlessMemory reason (IsFirstPlain version rows)) }
{
    let project = project_from(alloc, version, &rows.project)?;
    let workunits = works_from(alloc, rows.workunits, rows.instances)?;
    let grants = rows.grants.into_values(ProjectTable::Grant)?;
    know_hosts(alloc, rows.hosts, &grants)?;
    let archived = rows.archived.into_values(ProjectTable::Archived)?;
    let imports = rows.imports.into_values(ProjectTable::Import)?;
    Ok(Plain {
        project,
        workunits,
        grants,
        archived,
        imports,
    })
}

/// The workunits with their classes, and the hosts with theirs.
#[derive(Drop)]
struct WithClasses {
    workunits: Vec<Workunit>,
    hosts: Vec<HostClass>,
}

/// Returns the workunits with the classes of these rows, and the hosts with theirs. Without such rows none has one.
fn classes_from(
    alloc: Global,
    workunits: Vec<Workunit>,
    rows: Option<ClassRows>,
) -> Result<WithClasses, NoWorld>
    // After `Ok` the rows of classes, or that there are none, are those of these workunits and
    // hosts.
    ensures found { IfOk result (HasClassesOf workunits.items rows) }
    // A row that is reported means that the rows of classes are those of no readable world with
    // these workunits.
    ensures none { IfErr result (λ reason. UnlessMemory reason (λ _. (world : World)
        → IsReadable world → AreInOrder world.classes
        → map workunit_row workunits.items ≡ map workunit_row world.workunits
        → ¬ AreAnyClassRowsOf rows world)) }
    // The reported row of a table of classes is the first that is missing or invalid at its place.
    ensures told { IfErr result (λ reason. UnlessMemory reason
        (IsFirstClass (map workunit_row workunits.items) rows)) }
{
    let Some(rows) = rows else {
        return Ok(WithClasses {
            workunits: without_classes(workunits),
            hosts: Vec::new(alloc),
        });
    };
    let hosts = host_classes(rows.hosts)?;
    let classes = rows.workunits.into_values(ProjectTable::WorkunitClass)?;
    let workunits = with_classes(workunits, &classes)?;
    Ok(WithClasses { workunits, hosts })
}

/// Returns the world of these rows of a project of this version, or the first row that keeps them from being those of
/// one, in the order of the tables.
pub fn world_from(alloc: Global, version: u64, rows: TableRows) -> Result<Loaded, NoWorld>
    // After `Ok` the rows are those of this world, which is of this version.
    ensures world { IfOk result (AreRowsOf version rows) }
    // A row that is reported means that the rows are those of no readable world of this version.
    ensures none { IfErr result (λ reason. UnlessMemory reason (λ _. (world : World)
        → IsReadable world → IsOrdered world.workunits → ¬ AreRowsOf version rows world)) }
    // The reported row is the first that is missing, or invalid for a project of this version, in
    // the written order.
    ensures told { IfErr result (λ reason. UnlessMemory reason (IsFirstWrong version rows)) }
{
    let Plain {
        project,
        workunits,
        grants,
        archived,
        imports,
    } = plain_from(alloc, version, rows.plain)?;
    let WithClasses { workunits, hosts } = classes_from(alloc, workunits, rows.classes)?;
    Ok(Loaded::new(
        workunits,
        grants,
        archived,
        imports,
        hosts,
        project.next_number,
        version,
    ))
}
