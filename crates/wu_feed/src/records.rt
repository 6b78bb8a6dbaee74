//! The records of a file, header and rows.

ghost use Rattle.std.specs.Prelude.{◌≡◌, ◌≢◌, ◌<◌, ◌∷◌, [], ℕ, List, Some, true, length, map, option_map, take, IfOk, IfSome, IfNone};
ghost use Rattle.csv.specs.Reading.{default_config, error_kind, records, source_of, stops_reader};
ghost use Rattle.csv.specs.Records.{field_at, fields_of};
ghost use Rattle.wu_core.specs.declared.fault.Fault.TheVariants.{BadFile, Memory};
ghost use Rattle.wu_core.specs.Reads.{FailsForMemory};
ghost use Rattle.wu_feed.specs.Fields.{two_of};
ghost use Rattle.wu_feed.specs.Limits.{most_records};
ghost use Rattle.wu_feed.specs.Readers.{GivesNext, IsFresh, TakesAny};
ghost use Rattle.wu_feed.specs.Rows.{first_records_of, is_header};

use crate::limits::MOST_RECORDS;
use csv::{ByteRecord, Reader, ReaderBuilder};
use std::alloc::Global;
use wu_core::{Fault, FileCause};

/// Returns the fault of an error that ended the reading of a slice. It is out of memory, as a slice cannot fail to be
/// read.
pub fn fault_of(_error: &csv::Error) -> Fault
    // The error ended the reading; bytes that are no text never do, and so never count as out of
    // memory.
    requires { stops_reader (error_kind _error.now) ≡ true }
    // The fault is `Memory`.
    ensures { result ≡ Memory }
{
    Fault::Memory
}

/// Reads the next record; returns `None` after the last one. The only fault is `Memory`.
pub fn read_record(alloc: Global, reader: &mut Reader<&[u8]>) -> Result<Option<ByteRecord>, Fault>
    // The reader accepts records of any lengths, as they are.
    requires { TakesAny reader.old }
    // The result is the next record, or `None` after the last one.
    ensures found { IfOk result (GivesNext (λ s. Some s.now) reader.old reader.new) }
    // The only fault is `Memory`.
    ensures refused { FailsForMemory result }
{
    let mut record = ByteRecord::new(alloc);
    match reader.read_byte_record(&mut record) {
        Ok(true) => Ok(Some(record)),
        Ok(false) => Ok(None),
        Err(error) => Err(fault_of(&error)),
    }
}

/// Reads the records, at most the first 1,002. The only fault is `Memory`.
fn read_first(alloc: Global, reader: &mut Reader<&[u8]>) -> Result<Vec<ByteRecord>, Fault>
    // The reader stands before the first record of a text, with the default settings of `csv`.
    requires { IsFresh reader.old }
    // The result has the records of the text, or the first 1,002.
    ensures found { IfOk result (λ rows. (text : List ℕ)
        → source_of (λ s. Some s.now) reader.old ≡ Some text
        → map fields_of rows.items ≡ take most_records (records default_config text)) }
    // The only fault is `Memory`.
    ensures refused { FailsForMemory result }
{
    let mut records = Vec::new(alloc);
    for _ in 0..MOST_RECORDS {
        let Some(record) = read_record(alloc, reader)? else {
            return Ok(records);
        };
        records.push(record)?;
    }
    Ok(records)
}

/// Reads the records of a text, at most the first 1,002. Records of any lengths are read; the reader of a row reports
/// its faults. The only fault is `Memory`.
pub fn first_records(alloc: Global, text: &[u8]) -> Result<Vec<ByteRecord>, Fault>
    // The result has the records of the text, or the first 1,002.
    ensures found { IfOk result (λ rows. map fields_of rows.items ≡ first_records_of text.now) }
    // The only fault is `Memory`.
    ensures refused { FailsForMemory result }
{
    let mut reader = ReaderBuilder::new()
        .has_headers(false)
        .flexible(true)
        .from_reader(alloc, text);
    read_first(alloc, &mut reader)
}

/// Returns the fault of a file at a row.
pub fn fault_at(row: u32, cause: FileCause) -> Fault
    // The fault is `BadFile` with this row and cause.
    ensures { result ≡ BadFile row cause }
{
    Fault::BadFile { row, cause }
}

/// Returns the field of a row at a place that it has.
fn field_in(row: &ByteRecord, place: usize) -> &[u8]
    requires { place < length (fields_of row.now) }
    ensures { Some result.now ≡ field_at (fields_of row.now) place }
{
    row.get(place).unwrap()
}

/// Returns whether the fields of a row are these names, in this order.
pub fn has_names(row: &ByteRecord, names: &[&[u8]]) -> bool
    // The result is true exactly if the fields are these names, in this order.
    ensures { result ≡ is_header (map (λ name. name.now) names.now) (fields_of row.now) }
{
    if row.len() != names.len() {
        return false;
    }
    for (place, name) in names.iter().enumerate() {
        if field_in(row, place) != *name {
            return false;
        }
    }
    true
}

/// Returns the fields of a row of two; `None` for any other row.
pub fn two_fields(row: &ByteRecord) -> Option<(&[u8], &[u8])>
    // A row of two fields gives these, and any other row `None`.
    ensures { option_map (λ pair. (pair.0.now, pair.1.now)) result ≡ two_of (fields_of row.now) }
{
    if row.len() != 2 {
        return None;
    }
    Some((field_in(row, 0), field_in(row, 1)))
}

/// Returns the fields of a row of three; `None` for any other row.
pub fn three_fields(row: &ByteRecord) -> Option<(&[u8], &[u8], &[u8])>
    // The result has the fields of the row.
    ensures found { IfSome result (λ f. fields_of row.now ≡ f.0.now ∷ f.1.now ∷ f.2.now ∷ []) }
    // A row that gives `None` does not have three fields.
    ensures other { IfNone result (length (fields_of row.now) ≢ 3) }
{
    if row.len() != 3 {
        return None;
    }
    Some((field_in(row, 0), field_in(row, 1), field_in(row, 2)))
}

/// Returns the fields of a row of five; `None` for any other row.
pub fn five_fields(row: &ByteRecord) -> Option<(&[u8], &[u8], &[u8], &[u8], &[u8])>
    // The result has the fields of the row.
    ensures found { IfSome result (λ f. fields_of row.now ≡ f.0.now ∷ f.1.now ∷ f.2.now ∷ f.3.now
        ∷ f.4.now ∷ []) }
    // A row that gives `None` does not have five fields.
    ensures other { IfNone result (length (fields_of row.now) ≢ 5) }
{
    if row.len() != 5 {
        return None;
    }
    let (first, second, third) = (field_in(row, 0), field_in(row, 1), field_in(row, 2));
    Some((first, second, third, field_in(row, 3), field_in(row, 4)))
}
