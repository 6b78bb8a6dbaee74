//! Files of reports: a header `result,host,moment,status,output`, and a row for each instance that was reported.

ghost use Rattle.std.specs.Prelude.{All};
ghost use Rattle.csv.specs.Records.{fields_of};
ghost use Rattle.wu_core.specs.Reads.{IsOrWantsMemory};
ghost use Rattle.wu_feed.specs.Ranges.{IsReportRow};
ghost use Rattle.wu_feed.specs.Reports.{ending_of, report_of, reported_output, reports_header, reports_of_file};
ghost use Rattle.wu_feed.specs.Rows.{is_header, TellsFields, ReadsFile};
ghost use Rattle.wu_core.specs.Statuses.{status_of};
ghost use Rattle.wu_feed.specs.Told.{TellsFound};

use crate::inputs::read_hex;
use crate::records::{fault_at, five_fields, has_names};
use crate::rows::{Row, Rows, read_file};
use crate::sends::read_send;
use crate::told::both;
use csv::ByteRecord;
use std::alloc::Global;
use wu_core::{Bytes, Fault, FileCause, LONGEST_OUTPUT, Moment, Name, Status};

/// A report: an instance, by its workunit's name and its number, the host, the moment, the status and the output.
#[derive(Drop)]
pub struct ReportRow {
    pub workunit: Name,
    /// 0 to 99.
    pub n: u32,
    pub host: Name,
    pub moment: Moment,
    pub status: Status,
    /// At most 65,536 bytes; empty unless the instance succeeded.
    pub output: Bytes,
}

/// Reports in the order of their rows.
pub type Reports = Rows<ReportRow>;

/// Reads the output of a success, in hex. An instance with any other status has no output, and the text is empty.
/// Returns `None` for any other text.
fn read_output(alloc: Global, status: Status, text: &[u8]) -> Result<Option<Bytes>, Fault>
    ensures { IsOrWantsMemory result (Ok (reported_output status text.now)) }
{
    if status == Status::Success {
        read_hex(alloc, text, LONGEST_OUTPUT)
    } else if text.is_empty() {
        Ok(Some(Bytes::new(alloc)))
    } else {
        Ok(None)
    }
}

/// Reads the status of a report, and its output. The first of the two at fault decides.
fn read_ending(
    alloc: Global,
    number: u32,
    status: &[u8],
    output: &[u8],
) -> Result<(Status, Bytes), Fault>
    // The fields read as a status and its output, or as out of memory; otherwise the row is
    // `BadFile` with its first cause.
    ensures exact { IsOrWantsMemory result (ending_of number (status_of status.now) output.now) }
    // A row that is refused for its status is never reported as out of memory.
    ensures told { TellsFound result (ending_of number (status_of status.now) output.now) }
{
    let Some(status) = Status::from_word(status) else {
        return Err(fault_at(number, FileCause::Status));
    };
    match read_output(alloc, status, output)? {
        Some(output) => Ok((status, output)),
        None => Err(fault_at(number, FileCause::Output)),
    }
}

/// Reads a report from a row: the instance, the host, the moment, the status and the output. The first field at fault
/// decides.
fn read_report(alloc: Global, number: u32, row: &ByteRecord) -> Result<ReportRow, Fault>
    // The fields read as a report, or as out of memory; otherwise the row is `BadFile` with its
    // first cause.
    ensures exact { IsOrWantsMemory result (report_of number (fields_of row.now)) }
    // A row that does not have five fields is refused as that, even if the program is out of
    // memory.
    ensures fields { TellsFields result number reports_header (fields_of row.now) }
    // A row that is refused for anything but its output is never reported as out of memory.
    ensures told { TellsFound result (report_of number (fields_of row.now)) }
{
    let Some((name, host, moment, status, output)) = five_fields(row) else {
        return Err(fault_at(number, FileCause::Fields));
    };
    let sent = read_send(alloc, number, name, host, moment);
    let ending = read_ending(alloc, number, status, output);
    let (sent, (status, output)) = both(sent, ending)?;
    Ok(ReportRow {
        workunit: sent.workunit,
        n: sent.n,
        host: sent.host,
        moment: sent.moment,
        status,
        output,
    })
}

impl Row for ReportRow {
    ghost use Rattle.wu_feed.specs.Reports.{report_of, reports_header};

    ghost names = { reports_header };

    ghost row_of = { report_of };

    fn is_header(row: &ByteRecord) -> bool {
        has_names(row, &[b"result", b"host", b"moment", b"status", b"output"])
    }

    fn read(alloc: Global, number: u32, row: &ByteRecord) -> Result<Self, Fault> {
        read_report(alloc, number, row)
    }
}

/// Reads the reports of a file of at most 1,048,576 bytes: a header `result,host,moment,status,output` and at most
/// 1,000 rows. Each row has the name of an instance, a host, a moment, a status, and an output of at most 65,536 bytes
/// in hex. The output is empty unless the status is `success`.
///
/// Any other file is `BadFile` with its first faulty row and the first cause there, from left to right. Rows are
/// numbered from 1, the header; 0 stands for the whole file.
pub fn read_reports(alloc: Global, file: &[u8]) -> Result<Reports, Fault>
    // A file of reports reads as its rows, at most 1,000, or as out of memory; any other is
    // `BadFile` with its first faulty row and first cause. A file above 1,048,576 bytes is refused
    // as too long, even if the program is out of memory. Each name has its written form; numbers
    // are 0 to 99, moments up to the end of 2099, and outputs at most 65,536 bytes.
    ensures { ReadsFile result file.now reports_of_file (All IsReportRow) }
{
    read_file(alloc, file)
}
