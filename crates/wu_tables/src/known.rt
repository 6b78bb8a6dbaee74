//! The tables that the program makes.

ghost use Rattle.std.specs.Prelude.{◌≡◌, ℕ, codes};
ghost use Rattle.wu_schema.specs.Tables.{queue_at};
ghost use Rattle.wu_tables.specs.Forms.{table_of_form};
ghost use Rattle.wu_schema.specs.ProjectTables.{table_name, table_at};

use crate::forms::ColumnForm::{May, Needs};
use crate::forms::{ReferenceForm, TableForm};
use sqlite_schema::schema::Kind::{Blob, Integer, Text};
use wu_schema::{
    ProjectTable, archived_columns, grant_columns, host_class_columns, host_columns,
    import_columns, project_columns, queue_columns, result_columns, workunit_class_columns,
    workunit_columns,
};

// The forms of these columns.
macro_rules! formed {
    ($($column:literal $type:literal $has:ident $kind:ident $value:literal),*) => {
        &[$($has($column, $kind)),*]
    };
}

const PROJECT: TableForm = TableForm {
    name: "project",
    columns: project_columns!(formed),
    key: Some(0),
    primary: &[0],
    uniques: &[],
    is_single: true,
    references: &[],
};

const WORKUNIT: TableForm = TableForm {
    name: "workunit",
    columns: workunit_columns!(formed),
    key: Some(0),
    primary: &[0],
    uniques: &[&[2]],
    is_single: false,
    references: &[],
};

const RESULT: TableForm = TableForm {
    name: "result",
    columns: result_columns!(formed),
    key: None,
    primary: &[1, 2],
    uniques: &[&[1, 2]],
    is_single: false,
    references: &[ReferenceForm {
        places: &[1],
        parent: "workunit",
        parent_columns: &["number"],
    }],
};

const GRANT: TableForm = TableForm {
    name: "credit_grant",
    columns: grant_columns!(formed),
    key: Some(0),
    primary: &[0],
    uniques: &[&[2, 3]],
    is_single: false,
    references: &[],
};

const HOST: TableForm = TableForm {
    name: "host",
    columns: host_columns!(formed),
    key: None,
    primary: &[1],
    uniques: &[&[1]],
    is_single: false,
    references: &[],
};

const ARCHIVED: TableForm = TableForm {
    name: "archived",
    columns: archived_columns!(formed),
    key: Some(0),
    primary: &[0],
    uniques: &[&[2], &[3]],
    is_single: false,
    references: &[],
};

const IMPORT: TableForm = TableForm {
    name: "import",
    columns: import_columns!(formed),
    key: None,
    primary: &[1, 2],
    uniques: &[&[1, 2]],
    is_single: false,
    references: &[],
};

const HOST_CLASS: TableForm = TableForm {
    name: "host_class",
    columns: host_class_columns!(formed),
    key: None,
    primary: &[1],
    uniques: &[&[1]],
    is_single: false,
    references: &[],
};

const WORKUNIT_CLASS: TableForm = TableForm {
    name: "workunit_class",
    columns: workunit_class_columns!(formed),
    key: Some(0),
    primary: &[0],
    uniques: &[],
    is_single: false,
    references: &[ReferenceForm {
        places: &[0],
        parent: "workunit",
        parent_columns: &["number"],
    }],
};

const QUEUE: TableForm = TableForm {
    name: "queue",
    columns: queue_columns!(formed),
    key: Some(0),
    primary: &[0],
    uniques: &[],
    is_single: false,
    references: &[ReferenceForm {
        places: &[0],
        parent: "workunit",
        parent_columns: &["number"],
    }],
};

/// Returns the form of the table.
pub fn form_of(table: ProjectTable) -> TableForm
    // The form has the name of the table.
    ensures name { result.name.now ≡ table_name table }
    // In any tree the form describes the table as the program makes it.
    ensures table { (tree : ℕ) → table_of_form result tree ≡ table_at table tree }
{
    match table {
        ProjectTable::Project => PROJECT,
        ProjectTable::Workunit => WORKUNIT,
        ProjectTable::Result => RESULT,
        ProjectTable::Grant => GRANT,
        ProjectTable::Host => HOST,
        ProjectTable::Archived => ARCHIVED,
        ProjectTable::Import => IMPORT,
        ProjectTable::HostClass => HOST_CLASS,
        ProjectTable::WorkunitClass => WORKUNIT_CLASS,
    }
}

/// Returns the form of the queue of version 2.
pub fn queue_form() -> TableForm
    // The form has the name `queue`.
    ensures name { result.name.now ≡ codes "queue" }
    // In any tree the form describes the queue as the program makes it.
    ensures table { (tree : ℕ) → table_of_form result tree ≡ queue_at tree }
{
    QUEUE
}
