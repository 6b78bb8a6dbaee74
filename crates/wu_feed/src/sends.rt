//! Files of sends: a header `result,host,moment`, and a row for each instance that was sent.

ghost use Rattle.std.specs.Prelude.{◌∷◌, [], All};
ghost use Rattle.wu_core.specs.Reads.{IsOrWantsMemory, TellsRefusal};
ghost use Rattle.wu_feed.specs.Ranges.{IsSendRow};
ghost use Rattle.wu_feed.specs.Rows.{is_header, ReadsFile};
ghost use Rattle.wu_feed.specs.Sends.{send_of, sends_header, sends_of_file};

use crate::moment::read_moment;
use crate::records::{fault_at, has_names, three_fields};
use crate::rows::{Row, Rows, read_file};
use crate::told::{at_field, both};
use csv::ByteRecord;
use std::alloc::Global;
use wu_core::{Fault, FileCause, Moment, Name, ResultName};

/// A send: an instance, by its workunit's name and its number, the host and the moment.
#[derive(Drop)]
pub struct SendRow {
    pub workunit: Name,
    /// 0 to 99.
    pub n: u32,
    pub host: Name,
    pub moment: Moment,
}

/// Sends in the order of their rows.
pub type Sends = Rows<SendRow>;

/// Reads a send from three fields: the instance, the host and the moment. The first field at fault decides.
pub fn read_send(
    alloc: Global,
    number: u32,
    name: &[u8],
    host: &[u8],
    moment: &[u8],
) -> Result<SendRow, Fault>
    // The fields read as a send, or as out of memory; otherwise the row is `BadFile` with its first
    // cause.
    ensures exact { IsOrWantsMemory result
        (send_of number (name.now ∷ host.now ∷ moment.now ∷ [])) }
    // A row that is refused is never reported as out of memory.
    ensures told { TellsRefusal result (send_of number (name.now ∷ host.now ∷ moment.now ∷ [])) }
{
    let name = at_field(number, FileCause::Result, ResultName::read(alloc, name));
    let host = at_field(number, FileCause::Host, Name::read(alloc, host));
    let moment = at_field(number, FileCause::Moment, read_moment(moment));
    let (name, (host, moment)) = both(name, both(host, moment))?;
    Ok(SendRow {
        workunit: name.workunit,
        n: name.n,
        host,
        moment,
    })
}

impl Row for SendRow {
    ghost use Rattle.wu_feed.specs.Sends.{send_of, sends_header};

    ghost names = { sends_header };

    ghost row_of = { send_of };

    fn is_header(row: &ByteRecord) -> bool {
        has_names(row, &[b"result", b"host", b"moment"])
    }

    fn read(alloc: Global, number: u32, row: &ByteRecord) -> Result<Self, Fault> {
        match three_fields(row) {
            Some((name, host, moment)) => read_send(alloc, number, name, host, moment),
            None => Err(fault_at(number, FileCause::Fields)),
        }
    }
}

/// Reads the sends of a file of at most 1,048,576 bytes: a header `result,host,moment` and at most 1,000 rows. Each row
/// has the name of an instance, a host and a moment.
///
/// Any other file is `BadFile` with its first faulty row and the first cause there, from left to right. Rows are
/// numbered from 1, the header; 0 stands for the whole file.
pub fn read_sends(alloc: Global, file: &[u8]) -> Result<Sends, Fault>
    // A file of sends reads as its rows, at most 1,000, or as out of memory; any other is `BadFile`
    // with its first faulty row and first cause. A file above 1,048,576 bytes is refused as too
    // long, even if the program is out of memory. Each name has the written form of a name; numbers
    // are 0 to 99, and moments up to the end of 2099.
    ensures { ReadsFile result file.now sends_of_file (All IsSendRow) }
{
    read_file(alloc, file)
}
