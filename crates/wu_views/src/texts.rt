//! The questions of the views and of the summary.

use wu_schema::{
    archived_columns, host_class_columns, host_columns, result_values, selected, workunit_columns,
};

// The columns of workunits after what is listed before them: the length of an input, and the class at the end.
macro_rules! workunits_listed {
    ($($text:literal),*: "input" $type:literal $has:ident $kind:ident $value:literal, $($rest:tt)*) => {
        workunits_listed!($($text,)* "length(input), ": $($rest)*)
    };
    ($($text:literal),*: $column:literal $type:literal $has:ident $kind:ident $value:literal, $($rest:tt)*) => {
        workunits_listed!($($text,)* $column, ", ": $($rest)*)
    };
    ($($text:literal),*: $column:literal $type:literal $has:ident $kind:ident $value:literal) => {
        concat!($($text,)* $column, ", class FROM workunit, workunit_class WHERE workunit = number ORDER BY number")
    };
}

// The columns of instances after what is listed before them: in place of an output its instance's number, the name of
// the workunit, and the output's length.
macro_rules! results_listed {
    ($($text:literal),*: "file_delete" $type:literal $has:ident $kind:ident $value:literal, $($rest:tt)*) => {
        results_listed!($($text,)* "result.file_delete, ": $($rest)*)
    };
    ($($text:literal),*: "output" $type:literal $has:ident $kind:ident $value:literal) => {
        concat!($($text,)* "n, name, length(output) FROM result, workunit WHERE number = workunit ORDER BY workunit, n")
    };
    ($($text:literal),*: $column:literal $type:literal $has:ident $kind:ident $value:literal, $($rest:tt)*) => {
        results_listed!($($text,)* $column, ", ": $($rest)*)
    };
}

/// Counts the workunits by the narrow table of their classes.
pub const COUNT_WORKUNITS: &str = "SELECT count(*) FROM workunit_class";

/// Counts the imports.
pub const COUNT_IMPORTS: &str = "SELECT count(*) FROM import";

/// Counts the hosts with a class.
pub const COUNT_CLASSES: &str = "SELECT count(*) FROM host_class";

/// Asks for the state of each instance.
pub const SELECT_STATES: &str = "SELECT server_state FROM result";

/// Asks for the credit of each grant.
pub const SELECT_CREDIT: &str = "SELECT credit FROM credit_grant";

/// Lists the workunits with their classes, in order of number.
pub const LIST_WORKUNITS: &str = workunit_columns!(workunits_listed "SELECT ":);

/// Lists the instances with the names of their workunits, in order of workunit and of their own numbers.
pub const LIST_RESULTS: &str = result_values!(results_listed "SELECT ":);

/// Lists the hosts with grants, in order of name.
pub const LIST_HOSTS: &str = host_columns!(selected " FROM host ORDER BY name":);

/// Lists the archived workunits, in order of their archiving.
pub const LIST_ARCHIVE: &str = archived_columns!(selected " FROM archived ORDER BY seq":);

/// Lists the hosts with a class, in order of name.
pub const LIST_CLASSES: &str = host_class_columns!(selected " FROM host_class ORDER BY host":);

/// Lists the imports, in order of kind and name.
pub const LIST_IMPORTS: &str =
    "SELECT kind, name, first_number, verdicts FROM import ORDER BY kind, name";
