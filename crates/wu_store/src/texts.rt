//! The statements of the store.

use wu_schema::{
    archived_columns, grant_columns, host_class_columns, host_columns, import_columns,
    import_values, inserted, queue_columns, queue_values, result_columns, result_values, selected,
    updated, workunit_class_columns, workunit_columns, workunit_values,
};

/// Asks for the import of a kind and a name.
pub const SELECT_IMPORT: &str =
    import_values!(selected " FROM import WHERE kind = ?1 AND name = ?2":);

/// Asks for the number of the workunit of a name.
pub const SELECT_NUMBER: &str = "SELECT number FROM workunit WHERE name = ?1";

/// Asks for the workunit of a name.
pub const SELECT_NAMED: &str = workunit_columns!(selected " FROM workunit WHERE name = ?1":);

/// Asks for the workunit of a number.
pub const SELECT_NUMBERED: &str = workunit_columns!(selected " FROM workunit WHERE number = ?1":);

/// Asks for the first workunit above a number.
pub const SELECT_ABOVE: &str =
    workunit_columns!(selected " FROM workunit WHERE number > ?1 ORDER BY number LIMIT 1":);

/// Asks for the instances of a workunit, in order.
pub const SELECT_INSTANCES: &str =
    result_values!(selected " FROM result WHERE workunit = ?1 ORDER BY n":);

/// Asks for the number of the archived workunit of a name.
pub const SELECT_ARCHIVED: &str = "SELECT number FROM archived WHERE name = ?1";

/// Asks for the number of the next workunit.
pub const SELECT_NEXT_NUMBER: &str = "SELECT next_number FROM project";

/// Asks for the place of the last grant.
pub const SELECT_LAST_GRANT: &str = "SELECT seq FROM credit_grant ORDER BY seq DESC LIMIT 1";

/// Asks for the place of the last archived workunit.
pub const SELECT_LAST_ARCHIVED: &str = "SELECT seq FROM archived ORDER BY seq DESC LIMIT 1";

/// Asks for the class of a workunit.
pub const SELECT_CLASS: &str = "SELECT class FROM workunit_class WHERE workunit = ?1";

/// Asks for the class of a host.
pub const SELECT_HOST_CLASS: &str = "SELECT class FROM host_class WHERE host = ?1";

/// Asks for the workunits that a transition changes.
pub const SELECT_TO_WAKE: &str =
    "SELECT workunit FROM queue WHERE wake >= ?1 AND wake <= ?2 ORDER BY workunit LIMIT ?3";

/// Asks for the workunits that are to be validated.
pub const SELECT_TO_VALIDATE: &str =
    "SELECT workunit FROM queue WHERE to_validate = ?1 ORDER BY workunit LIMIT ?2";

/// Asks for the workunits that are to be assimilated.
pub const SELECT_TO_ASSIMILATE: &str =
    "SELECT workunit FROM queue WHERE to_assimilate = ?1 ORDER BY workunit LIMIT ?2";

/// Asks for the workunits with files that are to be deleted.
pub const SELECT_TO_DELETE: &str =
    "SELECT workunit FROM queue WHERE to_delete = ?1 ORDER BY workunit LIMIT ?2";

/// Asks for the workunits that a purge removes.
pub const SELECT_TO_PURGE: &str =
    "SELECT workunit FROM queue WHERE purge_from >= ?1 AND purge_from <= ?2 ORDER BY workunit LIMIT ?3";

/// Adds a workunit.
pub const INSERT_WORKUNIT: &str = workunit_columns!(inserted "workunit" "":);

/// Adds an instance.
pub const INSERT_RESULT: &str = result_columns!(inserted "result" "":);

/// Adds a grant.
pub const INSERT_GRANT: &str = grant_columns!(inserted "credit_grant" "":);

/// Adds an archived workunit.
pub const INSERT_ARCHIVED: &str = archived_columns!(inserted "archived" "":);

/// Adds an import.
pub const INSERT_IMPORT: &str = import_columns!(inserted "import" "":);

/// Adds the marks of a workunit.
pub const INSERT_MARKS: &str = queue_columns!(inserted "queue" "":);

/// Adds the class of a workunit.
pub const INSERT_CLASS: &str = workunit_class_columns!(inserted "workunit_class" "":);

/// Adds the class of a host.
pub const INSERT_HOST_CLASS: &str = host_class_columns!(inserted "host_class" "":);

/// Adds a sum to the total of a host, and a number to its grants.
pub const UPSERT_HOST: &str =
    host_columns!(inserted "host" " ON CONFLICT (name) DO UPDATE SET total = total + excluded.total, grants = grants + excluded.grants":);

/// Sets the values of a workunit.
pub const UPDATE_WORKUNIT: &str = workunit_values!(updated "workunit" " WHERE number = ?1":);

/// Sets the values of an instance.
pub const UPDATE_RESULT: &str = result_values!(updated "result" " WHERE workunit = ?1 AND n = ?2":);

/// Sets the marks of a workunit.
pub const UPDATE_MARKS: &str = queue_values!(updated "queue" " WHERE workunit = ?1":);

/// Sets the class of a workunit.
pub const UPDATE_CLASS: &str = "UPDATE workunit_class SET class = ?2 WHERE workunit = ?1";

/// Sets the number of the next workunit.
pub const UPDATE_NEXT_NUMBER: &str = "UPDATE project SET next_number = ?1";

/// Sets the version of the schema.
pub const UPDATE_VERSION: &str = "UPDATE project SET version = ?1";

/// Deletes a workunit, and with it what refers to it.
pub const DELETE_WORKUNIT: &str = "DELETE FROM workunit WHERE number = ?1";

/// Deletes the class of a host.
pub const DELETE_HOST_CLASS: &str = "DELETE FROM host_class WHERE host = ?1";
