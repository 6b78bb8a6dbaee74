//! Files of jobs: a header `name,input`, and a row for each job.

ghost use Rattle.std.specs.Prelude.{◌∷◌, [], All};
ghost use Rattle.std.specs.Option.{ok_or};
ghost use Rattle.wu_core.specs.Reads.{IsOrWantsMemory};
ghost use Rattle.wu_core.specs.declared.fault.Fault.TheVariants.{BadFile};
ghost use Rattle.wu_core.specs.declared.fault.FileCause.TheVariants.{Input};
ghost use Rattle.wu_feed.specs.Inputs.{input_of};
ghost use Rattle.wu_feed.specs.Ranges.{IsJob};
ghost use Rattle.wu_feed.specs.Rows.{ReadsFile};
ghost use Rattle.wu_feed.specs.Jobs.{job_of, jobs_of_file};
ghost use Rattle.wu_feed.specs.Told.{TellsFound};

use crate::inputs::read_hex;
use crate::records;
use crate::rows::{Row, Rows, read_file};
use crate::told::{at_field, both};
use csv::ByteRecord;
use std::alloc::Global;
use wu_core::{Bytes, Fault, FileCause, LONGEST_INPUT, Name};

/// A job of a batch: the name of its workunit, and its input of at most 4,096 bytes.
#[derive(Drop)]
pub struct Job {
    pub name: Name,
    pub input: Bytes,
}

/// Jobs in the order of their rows.
pub type Jobs = Rows<Job>;

/// Reads the input of a field, which is hex digits. Memory is allocated before the digits are checked.
fn read_input(alloc: Global, number: u32, text: &[u8]) -> Result<Bytes, Fault>
    ensures { IsOrWantsMemory result (ok_or (input_of text.now) (BadFile number Input)) }
{
    match read_hex(alloc, text, LONGEST_INPUT)? {
        Some(input) => Ok(input),
        None => Err(records::fault_at(number, FileCause::Input)),
    }
}

/// Reads a job from two fields: its name and its input. The first field at fault decides.
fn read_job(alloc: Global, number: u32, name: &[u8], input: &[u8]) -> Result<Job, Fault>
    // The fields read as a job, or as out of memory; otherwise the row is `BadFile` with its first
    // cause.
    ensures exact { IsOrWantsMemory result (job_of number (name.now ∷ input.now ∷ [])) }
    // A row that is refused for its name is never reported as out of memory.
    ensures told { TellsFound result (job_of number (name.now ∷ input.now ∷ [])) }
{
    let name = at_field(number, FileCause::Name, Name::read(alloc, name));
    let input = read_input(alloc, number, input);
    let (name, input) = both(name, input)?;
    Ok(Job { name, input })
}

impl Row for Job {
    ghost use Rattle.wu_feed.specs.Jobs.{job_of, jobs_header};

    ghost names = { jobs_header };

    ghost row_of = { job_of };

    fn is_header(row: &ByteRecord) -> bool {
        records::has_names(row, &[b"name", b"input"])
    }

    fn read(alloc: Global, number: u32, row: &ByteRecord) -> Result<Self, Fault> {
        match records::two_fields(row) {
            Some((name, input)) => read_job(alloc, number, name, input),
            None => Err(records::fault_at(number, FileCause::Fields)),
        }
    }
}

/// Reads the jobs of a file of at most 1,048,576 bytes: a header `name,input` and at most 1,000 rows. Each row has a
/// name and an input of at most 4,096 bytes in hex.
///
/// Any other file is `BadFile` with its first faulty row and the first cause there, from left to right. Rows are
/// numbered from 1, the header; 0 stands for the whole file.
pub fn read_jobs(alloc: Global, file: &[u8]) -> Result<Jobs, Fault>
    // A file of jobs reads as its rows, at most 1,000, or as out of memory; any other is `BadFile`
    // with its first faulty row and first cause. A file above 1,048,576 bytes is refused as too
    // long, even if the program is out of memory. Each name has the written form of a name, and
    // each input has at most 4,096 bytes.
    ensures { ReadsFile result file.now jobs_of_file (All IsJob) }
{
    read_file(alloc, file)
}
