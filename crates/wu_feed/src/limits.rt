//! The limits of the files that are read, each in one place: `specs/Limits.antt` names these constants.

/// The longest file, in bytes.
pub const LONGEST_FILE: usize = 1_048_576;

/// The longest template, in bytes.
pub const LONGEST_TEMPLATE: usize = 65_536;

/// The most rows that a file may have after its header.
pub const MOST_ROWS: u32 = 1_000;

/// The number of the last row that a file may have. The header is row 1.
pub const LAST_ROW: u32 = MOST_ROWS + 1;

/// The header, the rows that a file may have, and one more.
pub const MOST_RECORDS: usize = MOST_ROWS as usize + 2;

/// The most lines that a script may have.
pub const MOST_LINES: usize = 1_000;

/// The most bytes of a field that a report shows.
pub const MOST_SHOWN: usize = 64;
