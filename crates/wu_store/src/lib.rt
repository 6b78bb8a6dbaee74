//! A project's tables as a world: queries and statements, what they find, and lists of changes.
//!
//! A world is *represented* by tables of the schema that hold exactly its values. A workunit is *readable* if
//! its number is below 2^63, its values are in their ranges, and it is well formed with its instances. The comments
//! over clauses on a database leave out a premise that all of these clauses have: the disk is clean. It returns what
//! was written, and nobody else writes the file.
#![tactic(auto)]

mod changes;
mod classes;
mod differences;
mod due;
pub mod laws;
mod loading;
mod sets;
mod statements;
mod texts;
mod verdicts;

pub use changes::{Change, Import, apply};
pub use classes::{class_of, class_of_workunit};
pub use due::{due_numbers, load_due, load_marks};
pub use loading::{
    import_of, load, load_named, next_archived_place, next_grant_place, next_number,
};
pub use statements::{ask_row, has_archived, has_workunit};
pub use verdicts::Verdicts;
