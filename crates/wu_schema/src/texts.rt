//! The texts that make the tables of schema versions 1 and 2.

use crate::{
    archived_columns, created, grant_columns, host_columns, import_columns, inserted,
    project_columns, queue_columns, result_columns, selected, workunit_columns,
};

pub const CREATE_PROJECT: &str = project_columns!(created "project" "":);

pub const CREATE_WORKUNIT: &str = workunit_columns!(created "workunit" "":);

pub const CREATE_RESULT: &str = result_columns!(created "result" ",\n  PRIMARY KEY (workunit, n)":);

pub const CREATE_CREDIT_GRANT: &str =
    grant_columns!(created "credit_grant" ",\n  UNIQUE (workunit, n)":);

pub const CREATE_HOST: &str = host_columns!(created "host" "":);

pub const CREATE_ARCHIVED: &str = archived_columns!(created "archived" "":);

pub const CREATE_IMPORT: &str = import_columns!(created "import" ",\n  PRIMARY KEY (kind, name)":);

/// The one row of a fresh project: its version, and the number of its first workunit.
pub const INSERT_PROJECT: &str = project_columns!(inserted "project" "":);

pub const CREATE_QUEUE: &str = queue_columns!(created "queue" "":);

pub const CREATE_QUEUE_WAKE: &str = "CREATE INDEX queue_wake ON queue (wake)";

pub const CREATE_QUEUE_VALIDATE: &str =
    "CREATE INDEX queue_validate ON queue (to_validate, workunit)";

pub const CREATE_QUEUE_ASSIMILATE: &str =
    "CREATE INDEX queue_assimilate ON queue (to_assimilate, workunit)";

pub const CREATE_QUEUE_DELETE: &str = "CREATE INDEX queue_delete ON queue (to_delete, workunit)";

pub const CREATE_QUEUE_PURGE: &str = "CREATE INDEX queue_purge ON queue (purge_from)";

/// Asks for the version of a project.
pub const SELECT_VERSION: &str = project_columns!(selected " FROM project":);

/// A question without a table, which only an open connection prepares.
pub const SELECT_ONE: &str = "SELECT 1";
