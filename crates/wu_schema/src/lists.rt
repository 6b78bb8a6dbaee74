//! The columns of each table, once: all statements name them by these lists.
//!
//! A column is its name, its type with its constraints, whether it needs a value, its kind, and what an INSERT gives it.
//! A list is a macro. It calls the macro that it is given: first with the words of that one, which end in a colon, and
//! then with the columns.

/// The columns of the project: one row.
#[macro_export]
macro_rules! project_columns {
    ($then:ident $($rest:tt)*) => {
        $then!($($rest)*
            "one" "INTEGER PRIMARY KEY CHECK (one = 1)" May Integer "1",
            "version" "INTEGER NOT NULL" Needs Integer "?1",
            "next_number" "INTEGER NOT NULL" Needs Integer "1"
        )
    };
}

/// The columns of workunits, without the key.
#[macro_export]
macro_rules! workunit_values {
    ($then:ident $($rest:tt)*) => {
        $then!($($rest)*
            "name" "TEXT NOT NULL UNIQUE" Needs Text "?2",
            "min_quorum" "INTEGER NOT NULL" Needs Integer "?3",
            "target_nresults" "INTEGER NOT NULL" Needs Integer "?4",
            "max_error_results" "INTEGER NOT NULL" Needs Integer "?5",
            "max_total_results" "INTEGER NOT NULL" Needs Integer "?6",
            "max_success_results" "INTEGER NOT NULL" Needs Integer "?7",
            "delay_bound" "INTEGER NOT NULL" Needs Integer "?8",
            "credit" "INTEGER NOT NULL" Needs Integer "?9",
            "input" "BLOB NOT NULL" Needs Blob "?10",
            "error_mask" "INTEGER NOT NULL" Needs Integer "?11",
            "canonical" "INTEGER" May Integer "?12",
            "assimilate" "INTEGER NOT NULL" Needs Integer "?13",
            "file_delete" "INTEGER NOT NULL" Needs Integer "?14",
            "done_at" "INTEGER" May Integer "?15"
        )
    };
}

/// The columns of workunits.
#[macro_export]
macro_rules! workunit_columns {
    ($then:ident $($rest:tt)*) => {
        $crate::workunit_values!($then $($rest)*
            "number" "INTEGER PRIMARY KEY" May Integer "?1",
        )
    };
}

/// The columns of instances, without the key.
#[macro_export]
macro_rules! result_values {
    ($then:ident $($rest:tt)*) => {
        $then!($($rest)*
            "server_state" "INTEGER NOT NULL" Needs Integer "?3",
            "outcome" "INTEGER NOT NULL" Needs Integer "?4",
            "validate_state" "INTEGER NOT NULL" Needs Integer "?5",
            "file_delete" "INTEGER NOT NULL" Needs Integer "?6",
            "host" "TEXT" May Text "?7",
            "sent_at" "INTEGER" May Integer "?8",
            "deadline" "INTEGER" May Integer "?9",
            "received_at" "INTEGER" May Integer "?10",
            "output" "BLOB NOT NULL" Needs Blob "?11"
        )
    };
}

/// The columns of instances.
#[macro_export]
macro_rules! result_columns {
    ($then:ident $($rest:tt)*) => {
        $crate::result_values!($then $($rest)*
            "workunit" "INTEGER NOT NULL REFERENCES workunit (number) ON DELETE CASCADE" Needs Integer "?1",
            "n" "INTEGER NOT NULL" Needs Integer "?2",
        )
    };
}

/// The columns of grants.
#[macro_export]
macro_rules! grant_columns {
    ($then:ident $($rest:tt)*) => {
        $then!($($rest)*
            "seq" "INTEGER PRIMARY KEY" May Integer "?1",
            "workunit" "INTEGER NOT NULL" Needs Integer "?2",
            "n" "INTEGER NOT NULL" Needs Integer "?3",
            "host" "TEXT NOT NULL" Needs Text "?4",
            "credit" "INTEGER NOT NULL" Needs Integer "?5"
        )
    };
}

/// The columns of hosts with grants.
#[macro_export]
macro_rules! host_columns {
    ($then:ident $($rest:tt)*) => {
        $then!($($rest)*
            "name" "TEXT PRIMARY KEY NOT NULL" Needs Text "?1",
            "total" "INTEGER NOT NULL" Needs Integer "?2",
            "grants" "INTEGER NOT NULL" Needs Integer "?3"
        )
    };
}

/// The columns of the archive.
#[macro_export]
macro_rules! archived_columns {
    ($then:ident $($rest:tt)*) => {
        $then!($($rest)*
            "seq" "INTEGER PRIMARY KEY" May Integer "?1",
            "number" "INTEGER NOT NULL UNIQUE" Needs Integer "?2",
            "name" "TEXT NOT NULL UNIQUE" Needs Text "?3",
            "error_mask" "INTEGER NOT NULL" Needs Integer "?4",
            "canonical" "INTEGER" May Integer "?5",
            "output" "BLOB NOT NULL" Needs Blob "?6",
            "done_at" "INTEGER NOT NULL" Needs Integer "?7"
        )
    };
}

/// The columns of imports, without the key.
#[macro_export]
macro_rules! import_values {
    ($then:ident $($rest:tt)*) => {
        $then!($($rest)*
            "template" "BLOB NOT NULL" Needs Blob "?3",
            "content" "BLOB NOT NULL" Needs Blob "?4",
            "first_number" "INTEGER NOT NULL" Needs Integer "?5",
            "verdicts" "TEXT NOT NULL" Needs Text "?6"
        )
    };
}

/// The columns of imports.
#[macro_export]
macro_rules! import_columns {
    ($then:ident $($rest:tt)*) => {
        $crate::import_values!($then $($rest)*
            "kind" "INTEGER NOT NULL" Needs Integer "?1",
            "name" "TEXT NOT NULL" Needs Text "?2",
        )
    };
}

/// The columns of the queue, without the key.
#[macro_export]
macro_rules! queue_values {
    ($then:ident $($rest:tt)*) => {
        $then!($($rest)*
            "wake" "INTEGER" May Integer "?2",
            "to_validate" "INTEGER NOT NULL" Needs Integer "?3",
            "to_assimilate" "INTEGER NOT NULL" Needs Integer "?4",
            "to_delete" "INTEGER NOT NULL" Needs Integer "?5",
            "purge_from" "INTEGER" May Integer "?6"
        )
    };
}

/// The columns of the queue.
#[macro_export]
macro_rules! queue_columns {
    ($then:ident $($rest:tt)*) => {
        $crate::queue_values!($then $($rest)*
            "workunit" "INTEGER PRIMARY KEY REFERENCES workunit (number) ON DELETE CASCADE" May Integer "?1",
        )
    };
}

/// The columns of the classes of hosts.
#[macro_export]
macro_rules! host_class_columns {
    ($then:ident $($rest:tt)*) => {
        $then!($($rest)*
            "host" "TEXT PRIMARY KEY NOT NULL" Needs Text "?1",
            "class" "INTEGER NOT NULL" Needs Integer "?2"
        )
    };
}

/// The columns of the classes of workunits.
#[macro_export]
macro_rules! workunit_class_columns {
    ($then:ident $($rest:tt)*) => {
        $then!($($rest)*
            "workunit" "INTEGER PRIMARY KEY REFERENCES workunit (number) ON DELETE CASCADE" May Integer "?1",
            "class" "INTEGER NOT NULL" Needs Integer "?2"
        )
    };
}

/// The statement that makes a table of these columns, with what is said of several at its end.
#[macro_export]
macro_rules! created {
    ($table:literal $end:literal: $first:literal $type:literal $has:ident $kind:ident $value:literal
        $(, $column:literal $types:literal $have:ident $kinds:ident $values:literal)*) => {
        concat!("CREATE TABLE ", $table, " (\n  ", $first, " ", $type
            $(, ",\n  ", $column, " ", $types)*, $end, ") STRICT")
    };
}

/// The question for these columns, with what follows them.
#[macro_export]
macro_rules! selected {
    ($end:literal: $first:literal $type:literal $has:ident $kind:ident $value:literal
        $(, $column:literal $types:literal $have:ident $kinds:ident $values:literal)*) => {
        concat!("SELECT ", $first $(, ", ", $column)*, $end)
    };
}

/// The statement that adds a row of these columns, with what follows their values.
#[macro_export]
macro_rules! inserted {
    ($table:literal $end:literal: $first:literal $type:literal $has:ident $kind:ident $value:literal
        $(, $column:literal $types:literal $have:ident $kinds:ident $values:literal)*) => {
        concat!("INSERT INTO ", $table, " (", $first $(, ", ", $column)*, ") VALUES (", $value
            $(, ", ", $values)*, ")", $end)
    };
}

/// The statement that sets these columns, with what tells the rows.
#[macro_export]
macro_rules! updated {
    ($table:literal $end:literal: $first:literal $type:literal $has:ident $kind:ident $value:literal
        $(, $column:literal $types:literal $have:ident $kinds:ident $values:literal)*) => {
        concat!("UPDATE ", $table, " SET ", $first, " = ", $value
            $(, ", ", $column, " = ", $values)*, $end)
    };
}
