//! Files of classes: a header `host,class`, and a row for each host that gets a class.

ghost use Rattle.std.specs.Prelude.{◌≡◌, ◌∷◌, []};
ghost use Rattle.std.specs.Char.{is_ascii_digit};
ghost use Rattle.std.specs.List.{list_all};
ghost use Rattle.wu_core.specs.Classes.{AreClassed};
ghost use Rattle.wu_core.specs.Reads.{IsOrWantsMemory, TellsRefusal};
ghost use Rattle.wu_feed.specs.Classes.{class_written, classes_of_file, host_class_of, is_decimal};
ghost use Rattle.wu_feed.specs.Rows.{ReadsFile};

use crate::records::{fault_at, has_names, two_fields};
use crate::rows::{Row, Rows, read_file};
use crate::told::{at_field, both};
use csv::ByteRecord;
use std::alloc::Global;
use wu_core::{Fault, FileCause, HostClass, Name};

/// Hosts and their classes in the order of their rows.
pub type Classes = Rows<HostClass>;

/// Returns whether each byte of the text is a digit.
fn are_digits(text: &[u8]) -> bool
    ensures { result ≡ list_all is_ascii_digit text.now }
{
    text.iter().all(|byte| byte.is_ascii_digit())
}

/// Returns whether the text is digits of which the first is not 0.
fn is_decimal(text: &[u8]) -> bool
    ensures { result ≡ is_decimal text.now }
{
    !text.is_empty() && text[0] != b'0' && are_digits(text)
}

/// Reads a class from its decimal text: 1 to 65535, without leading zeros. Returns `None` for any other text.
fn read_class(text: &[u8]) -> Option<u32>
    ensures { result ≡ class_written text.now }
{
    if !is_decimal(text) {
        return None;
    }
    let Ok(digits) = std::str::from_utf8(text) else {
        return None;
    };
    match digits.parse::<u16>() {
        Ok(class) => Some(u32::from(class)),
        Err(_) => None,
    }
}

/// Reads a host and its class from two fields. The first field at fault decides.
fn read_host_class(
    alloc: Global,
    number: u32,
    host: &[u8],
    class: &[u8],
) -> Result<HostClass, Fault>
    // The fields read as a host and its class, or as out of memory; otherwise the row is `BadFile`
    // with its first cause.
    ensures exact { IsOrWantsMemory result (host_class_of number (host.now ∷ class.now ∷ [])) }
    // A row that is refused is never reported as out of memory.
    ensures told { TellsRefusal result (host_class_of number (host.now ∷ class.now ∷ [])) }
{
    let host = at_field(number, FileCause::Host, Name::read(alloc, host));
    let class = read_class(class).ok_or(fault_at(number, FileCause::Class));
    let (host, class) = both(host, class)?;
    Ok(HostClass { host, class })
}

impl Row for HostClass {
    ghost use Rattle.wu_feed.specs.Classes.{classes_header, host_class_of};

    ghost names = { classes_header };

    ghost row_of = { host_class_of };

    fn is_header(row: &ByteRecord) -> bool {
        has_names(row, &[b"host", b"class"])
    }

    fn read(alloc: Global, number: u32, row: &ByteRecord) -> Result<Self, Fault> {
        match two_fields(row) {
            Some((host, class)) => read_host_class(alloc, number, host, class),
            None => Err(fault_at(number, FileCause::Fields)),
        }
    }
}

/// Reads the hosts and classes of a file of at most 1,048,576 bytes: a header `host,class` and at most 1,000 rows. Each
/// row has a host and a class from 1 to 65535 in decimal, without leading zeros.
///
/// Any other file is `BadFile` with its first faulty row and the first cause there, from left to right. Rows are
/// numbered from 1, the header; 0 stands for the whole file.
pub fn read_classes(alloc: Global, file: &[u8]) -> Result<Classes, Fault>
    // A file of classes reads as its rows, at most 1,000, or as out of memory; any other is
    // `BadFile` with its first faulty row and first cause. A file above 1,048,576 bytes is refused
    // as too long, even if the program is out of memory. Each host has the written form of a name,
    // and each class is 1 to 65535.
    ensures { ReadsFile result file.now classes_of_file AreClassed }
{
    read_file(alloc, file)
}
