//! The form of a table, as plain values.

use sqlite_schema::schema::Kind;

/// A column that takes values of its kind alone, is compared by bytes and has no default.
#[derive(Clone, Copy)]
pub enum ColumnForm {
    /// It may be empty.
    May(&'static str, Kind),
    /// It has to have a value.
    Needs(&'static str, Kind),
}

/// Places of a row that refer to columns of another table. A row goes with the one that it refers to.
#[derive(Clone, Copy)]
pub struct ReferenceForm {
    pub places: &'static [usize],
    pub parent: &'static str,
    pub parent_columns: &'static [&'static str],
}

/// What a table is, without its tree. A row is its rowid and then its columns, so a column's place is one more than its
/// number, and the rowid's is 0.
#[derive(Clone, Copy)]
pub struct TableForm {
    pub name: &'static str,
    pub columns: &'static [ColumnForm],
    /// The column that is the rowid.
    pub key: Option<usize>,
    /// The places of the primary key.
    pub primary: &'static [usize],
    /// The places of each further key, compared by bytes.
    pub uniques: &'static [&'static [usize]],
    /// Whether the rowid has to be 1.
    pub is_single: bool,
    pub references: &'static [ReferenceForm],
}
