//! Files of rows under a header: one reader for each kind of row.

ghost use Rattle.std.specs.Prelude.{◌≡◌, ◌↔◌, ◌≤◌, ◌<◌, ◌^◌, IfOk, IsTrue, List, [], length, map};
ghost use Rattle.std.specs.Iterator.Adapters.{IterYieldsInOrder};
ghost use Rattle.std.specs.Slice.Iter.{iter_rest};
ghost use Rattle.csv.specs.Records.{fields_of};
ghost use Rattle.wu_core.specs.Reads.{IsOrWantsMemory};
ghost use Rattle.wu_feed.specs.Limits.{most_rows};
ghost use Rattle.wu_feed.specs.Rows.{is_header, row_at, rows_from, rows_under, rows_of_file, TellsFields, TellsHeader, TellsTooLong};
ghost use Rattle.wu_feed.specs.Told.{TellsFound};

use crate::limits::{LAST_ROW, LONGEST_FILE};
use crate::records::{fault_at, first_records};
use csv::ByteRecord;
use std::alloc::Global;
use std::marker::Model;
use std::slice::Iter;
use wu_core::{Fault, FileCause};

/// The rows of a file in their order, which contracts see as a list.
#[derive(Drop)]
pub struct Rows<R> {
    items: Vec<R>,
}

impl<R> Model for Rows<R> {
    ghost use Rattle.std.specs.Prelude.{List};

    ghost Value = { List R };

    ghost view = { λ rows. rows.items.items };
}

impl<R> Rows<R> {
    /// Returns these rows; takes no memory.
    pub fn from_vec(items: Vec<R>) -> Self
        // The result has the vector's rows.
        ensures { result ≡ items.items }
    {
        Rows { items }
    }

    /// Returns the rows as a vector; takes no memory.
    pub fn into_vec(self) -> Vec<R>
        // The vector has the same rows.
        ensures { result.items ≡ self }
    {
        self.items
    }

    /// Returns the rows in the order of the file.
    pub fn as_slice(&self) -> &[R]
        // The slice has the same rows.
        ensures { result.now ≡ self.now }
    {
        self.items.as_slice()
    }

    /// Returns the number of rows.
    pub fn len(&self) -> usize
        // The result is the number of rows.
        ensures { result ≡ length self.now }
    {
        self.items.len()
    }

    /// Returns whether there are no rows.
    pub fn is_empty(&self) -> bool
        // The result is true exactly if there are no rows.
        ensures { IsTrue result ↔ (self.now ≡ []) }
    {
        self.items.is_empty()
    }

    /// Returns an iterator over the rows in the order of the file.
    pub fn iter(&self) -> Iter<'_, R>
        // The iterator has all rows before it.
        ensures rest { iter_rest result ≡ self.now }
        // Their number is below 2^64.
        ensures fits { length (iter_rest result) < 2 ^ 64 }
        // The iterator yields each row once, in order.
        ensures runs { IterYieldsInOrder R }
    {
        self.items.as_slice().iter()
    }
}

/// A kind of row of a file.
pub trait Row: Drop {
    ghost use Rattle.std.specs.Prelude.{◌≡◌, ℕ, List, Result};
    ghost use Rattle.wu_core.specs.declared.fault.Fault.{Fault};

    /// The fields of its header.
    ghost names: { List (List ℕ) };

    /// The value of the row of this number with these fields, or its fault.
    ghost row_of: { ℕ → List (List ℕ) → Result Self Fault };

    /// Returns whether the row is the header.
    fn is_header(row: &ByteRecord) -> bool
        // The result is true exactly if the fields are the header's names, in this order.
        ensures { result ≡ is_header names (fields_of row.now) };

    /// Reads the row of this number, or returns the first cause for which it is refused.
    fn read(alloc: Global, number: u32, row: &ByteRecord) -> Result<Self, Fault>
        // The fields read as the row's value, or as out of memory; otherwise the row is `BadFile`
        // with its first cause.
        ensures exact { IsOrWantsMemory result (row_of number (fields_of row.now)) }
        // A row with another number of fields than the header is refused as that, even if the
        // program is out of memory.
        ensures fields { TellsFields result number names (fields_of row.now) }
        // A row that is refused for anything but its input or output is never reported as out of
        // memory.
        ensures told { TellsFound result (row_of number (fields_of row.now)) };
}

/// Reads the row of this number. A row after the thousandth is refused.
fn read_row<R: Row>(alloc: Global, number: u32, row: &ByteRecord) -> Result<R, Fault>
    // A row up to the thousandth reads as its value, or as out of memory; otherwise it is `BadFile`
    // with its first cause.
    ensures exact { IsOrWantsMemory result (row_at R.row_of number (fields_of row.now)) }
    // A row that is refused for anything but its input or output is never reported as out of
    // memory.
    ensures told { TellsFound result (row_at R.row_of number (fields_of row.now)) }
{
    if number > LAST_ROW {
        return Err(fault_at(number, FileCause::TooManyRows));
    }
    R::read(alloc, number, row)
}

/// Reads the rows after the header, which are numbered from 2. The first faulty row decides.
fn read_rows<R: Row>(alloc: Global, rows: &[ByteRecord]) -> Result<Rows<R>, Fault>
    ensures { IsOrWantsMemory result (rows_from R.row_of 2 (map fields_of rows.now)) }
{
    let mut items = Vec::new(alloc);
    let mut number = 2;
    for row in rows {
        let item: R = read_row(alloc, number, row)?;
        items.push(item)?;
        number += 1;
    }
    Ok(Rows::from_vec(items))
}

/// Reads the rows of a file's records, of which the first is the header.
fn read_records<R: Row>(alloc: Global, records: &[ByteRecord]) -> Result<Rows<R>, Fault>
    // Records with the header read as the rows after it, or as out of memory; any other are
    // `BadFile` with the first faulty row.
    ensures exact { IsOrWantsMemory result
        (rows_under R.names R.row_of (map fields_of records.now)) }
    // Records without the header are refused as that, even if the program is out of memory.
    ensures header { TellsHeader result R.names (map fields_of records.now) }
{
    match records {
        [header, rows @ ..] if R::is_header(header) => read_rows(alloc, rows),
        _ => Err(fault_at(1, FileCause::Header)),
    }
}

/// Reads the rows of a file of at most 1,048,576 bytes: its header and at most 1,000 rows. Any other file is `BadFile`
/// with its first faulty row and the first cause there. Rows are numbered from 1, the header; 0 stands for the whole
/// file.
pub fn read_file<R: Row>(alloc: Global, file: &[u8]) -> Result<Rows<R>, Fault>
    // A file with the header reads as its rows, or as out of memory; any other is `BadFile` with
    // its first faulty row and cause.
    ensures exact { IsOrWantsMemory result (rows_of_file R.names R.row_of file.now) }
    // A file above 1,048,576 bytes is refused as too long, even if the program is out of memory.
    ensures long { TellsTooLong result file.now }
    // There are at most 1,000 rows.
    ensures few { IfOk result (λ rows. length rows ≤ most_rows) }
{
    if file.len() > LONGEST_FILE {
        return Err(fault_at(0, FileCause::TooLong));
    }
    let records = first_records(alloc, file)?;
    read_records(alloc, records.as_slice())
}
