//! Rows of the tables as values.

ghost use Rattle.std.specs.Prelude.{ℕ};
ghost use Rattle.sqlite.specs.Order.{Row};
ghost use Rattle.wu_core.specs.Storable.{IsStoredArchived, IsStoredWorkunit};
ghost use Rattle.wu_schema.specs.Restoring.{Restores};
ghost use Rattle.wu_schema.specs.Stored.{class_cells, import_cells, workunit_row};
ghost use Rattle.wu_schema.specs.Reading.{host_row, IsStoredHost, IsStoredHostClass};
ghost use Rattle.wu_loader.specs.Rows.{archived_row_at, classed_row, grant_row, placed_row, project_row_of, IsStoredClass, IsStoredGrant, IsStoredImport, IsStoredPlaced, IsStoredProject};

use sqlite::Row;
use std::alloc::Global;
use wu_audit::Imported;
use wu_core::{Archived, Fault, Grant, HostClass, Instance, MOST_WORKUNITS, Workunit};
use wu_schema::number_at;
use wu_schema::rows::{
    HostSum, bytes_at, class_at, host_class_from, host_from, instance_at, instance_number_at,
    kind_at, name_at, placed_archived_from, verdicts_at, workunit_from,
};

/// What a row of a table represents.
pub trait FromRow: Sized {
    /// The row of a value at a place among the rows, counted from 1.
    ghost cells: { ℕ → Self → Row };

    /// The values that rows may represent.
    ghost is_value: { Self → Type 0 };

    /// Returns the value that the row at this place represents. Returns `NotAProject` if there is none.
    fn from_row(alloc: Global, place: u64, row: &Row) -> Result<Self, Fault>
        // The row of a value in its ranges, at this place, is read as that value, or out of memory;
        // any other row is refused.
        ensures { Restores (cells place) is_value row.now result };
}

/// The one row of a project, whose key is 1.
#[derive(Clone, Copy)]
pub struct ProjectRow {
    pub version: u64,
    pub next_number: u64,
}

impl FromRow for ProjectRow {
    ghost cells = { λ _. project_row_of };

    ghost is_value = { IsStoredProject };

    fn from_row(alloc: Global, place: u64, row: &Row) -> Result<Self, Fault> {
        if row.column_count() != 3 {
            return Err(Fault::NotAProject);
        }
        let one = number_at(row, 0)?;
        let version = number_at(row, 1)?;
        let next_number = number_at(row, 2)?;
        if one == 1 && version >= 1 && 1 <= next_number && next_number <= MOST_WORKUNITS + 1 {
            Ok(ProjectRow {
                version,
                next_number,
            })
        } else {
            Err(Fault::NotAProject)
        }
    }
}

impl FromRow for Grant {
    ghost cells = { grant_row };

    ghost is_value = { IsStoredGrant };

    fn from_row(alloc: Global, place: u64, row: &Row) -> Result<Self, Fault> {
        if row.column_count() != 5 {
            return Err(Fault::NotAProject);
        }
        if number_at(row, 0)? != place {
            return Err(Fault::NotAProject);
        }
        let workunit = number_at(row, 1)?;
        let n = instance_number_at(row, 2)?;
        let credit = number_at(row, 4)?;
        let host = name_at(alloc, row, 3)?;
        Ok(Grant {
            workunit,
            n,
            host,
            credit,
        })
    }
}

impl FromRow for Archived {
    ghost cells = { archived_row_at };

    ghost is_value = { IsStoredArchived };

    fn from_row(alloc: Global, place: u64, row: &Row) -> Result<Self, Fault> {
        if row.column_count() != 7 {
            return Err(Fault::NotAProject);
        }
        if number_at(row, 0)? != place {
            return Err(Fault::NotAProject);
        }
        placed_archived_from(alloc, row)
    }
}

impl FromRow for HostSum {
    ghost cells = { λ _. host_row };

    ghost is_value = { IsStoredHost };

    fn from_row(alloc: Global, place: u64, row: &Row) -> Result<Self, Fault> {
        host_from(alloc, row)
    }
}

impl FromRow for Imported {
    ghost cells = { λ _. import_cells };

    ghost is_value = { IsStoredImport };

    fn from_row(alloc: Global, place: u64, row: &Row) -> Result<Self, Fault> {
        if row.column_count() != 6 {
            return Err(Fault::NotAProject);
        }
        let kind = kind_at(row, 0)?;
        let first_number = number_at(row, 4)?;
        let template = bytes_at(row, 2)?;
        let content = bytes_at(row, 3)?;
        let name = name_at(alloc, row, 1)?;
        let verdicts = verdicts_at(alloc, kind, row, 5)?;
        let import = Imported::new(kind, name, template, content, first_number, verdicts);
        if import.may_be_kept() {
            Ok(import)
        } else {
            Err(Fault::NotAProject)
        }
    }
}

impl FromRow for Workunit {
    ghost cells = { λ _. workunit_row };

    ghost is_value = { IsStoredWorkunit };

    /// Returns the workunit of the row, with no instances.
    fn from_row(alloc: Global, place: u64, row: &Row) -> Result<Self, Fault> {
        workunit_from(alloc, row)
    }
}

/// A workunit, by its number, and its class.
#[derive(Clone, Copy)]
pub struct Classed {
    pub workunit: u64,
    pub class: u32,
}

impl FromRow for Classed {
    ghost cells = { λ _. classed_row };

    ghost is_value = { IsStoredClass };

    fn from_row(alloc: Global, place: u64, row: &Row) -> Result<Self, Fault> {
        if row.column_count() != 2 {
            return Err(Fault::NotAProject);
        }
        let workunit = number_at(row, 0)?;
        let class = class_at(row, 1)?;
        Ok(Classed { workunit, class })
    }
}

impl FromRow for HostClass {
    ghost cells = { λ _. class_cells };

    ghost is_value = { IsStoredHostClass };

    fn from_row(alloc: Global, place: u64, row: &Row) -> Result<Self, Fault> {
        host_class_from(alloc, row)
    }
}

/// An instance, with the number of its workunit and its own.
#[derive(Drop)]
pub struct Placed {
    pub workunit: u64,
    pub n: u64,
    pub instance: Instance,
}

impl FromRow for Placed {
    ghost cells = { λ _. placed_row };

    ghost is_value = { IsStoredPlaced };

    fn from_row(alloc: Global, place: u64, row: &Row) -> Result<Self, Fault> {
        if row.column_count() != 11 {
            return Err(Fault::NotAProject);
        }
        let workunit = number_at(row, 0)?;
        let n = number_at(row, 1)?;
        let instance = instance_at(alloc, row, 2)?;
        Ok(Placed {
            workunit,
            n,
            instance,
        })
    }
}
