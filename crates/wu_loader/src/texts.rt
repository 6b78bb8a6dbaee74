//! The questions for all rows of a table: in order of the key if that is the rowid, else in any order.

use wu_schema::{
    archived_columns, grant_columns, host_class_columns, host_columns, import_columns,
    project_columns, result_columns, selected, workunit_class_columns, workunit_columns,
};

pub const SELECT_PROJECT: &str = project_columns!(selected " FROM project ORDER BY one":);

pub const SELECT_WORKUNITS: &str = workunit_columns!(selected " FROM workunit ORDER BY number":);

pub const SELECT_RESULTS: &str = result_columns!(selected " FROM result":);

pub const SELECT_GRANTS: &str = grant_columns!(selected " FROM credit_grant ORDER BY seq":);

pub const SELECT_HOSTS: &str = host_columns!(selected " FROM host":);

pub const SELECT_ARCHIVE: &str = archived_columns!(selected " FROM archived ORDER BY seq":);

pub const SELECT_IMPORTS: &str = import_columns!(selected " FROM import":);

pub const SELECT_HOST_CLASSES: &str = host_class_columns!(selected " FROM host_class":);

pub const SELECT_WORKUNIT_CLASSES: &str =
    workunit_class_columns!(selected " FROM workunit_class ORDER BY workunit":);
