//! What is read of the files that words name.

ghost use Rattle.std.specs.Prelude.{◌≡◌, IfSome, take};
ghost use Rattle.std.specs.IoError.{error_kind};
ghost use Rattle.wu_core.specs.Reads.{OkOrWantsMemory};
ghost use Rattle.wu_core.specs.declared.fault.Fault.TheVariants.{Memory};
ghost use Rattle.wu_arguments.specs.Reading.{IsTextOf, KeepsRead, ReadsNothing, read_at_most};

use std::alloc::Global;
use std::io::{self, ErrorKind, Read};
use wu_core::{Fault, FileCause};

/// Returns what a file that cannot be read holds: `None`. The only fault is `Memory`.
pub fn unread(error: &io::Error) -> Result<Option<Vec<u8>>, Fault>
    // A file that cannot be read has no content; out of memory alone is a fault.
    ensures { ReadsNothing (error_kind error.now) result }
{
    if error.kind() == ErrorKind::OutOfMemory {
        Err(Fault::Memory)
    } else {
        Ok(None)
    }
}

/// Returns what was read to its end, or what a file that cannot be read holds.
fn read_whole(read: io::Result<usize>, bytes: Vec<u8>) -> Result<Option<Vec<u8>>, Fault>
    // What was read to its end is kept; only an error of reading is reported, as unreadable or as
    // out of memory.
    ensures { KeepsRead read bytes result }
{
    match read {
        Ok(_) => Ok(Some(bytes)),
        Err(error) => unread(&error),
    }
}

/// How many bytes there is room for at first: most files are read at once.
const FIRST_ROOM: usize = 16_384;

/// Returns what a reader holds, at most so many bytes and one more, by which a file that is too long is noticed.
/// Returns `None` if it cannot be read to there. The only fault is `Memory`.
pub fn read_up_to<R: Read + Drop>(
    alloc: Global,
    reader: R,
    most: usize,
) -> Result<Option<Vec<u8>>, Fault>
    // What is read is the first bytes of the reader, at most the limit and one more. The only fault
    // is `Memory`.
    ensures { OkOrWantsMemory result (λ read. IfSome read (λ bytes. IfSome (R.remaining reader)
        (λ all. bytes.items ≡ take (read_at_most most) all))) }
{
    let mut bytes = Vec::with_capacity(alloc, FIRST_ROOM)?;
    let most = (most as u64).saturating_add(1);
    let read = reader.take(most).read_to_end(&mut bytes);
    read_whole(read, bytes)
}

/// Returns the text of a script that was read, or the fault of one that could not be.
pub fn text_of_script(read: Option<Vec<u8>>) -> Result<Vec<u8>, Fault>
    // The text of a script is what was read; a script that could not be read is `BadFile` with row
    // 0 and `Unreadable`.
    ensures { IsTextOf read result }
{
    match read {
        Some(text) => Ok(text),
        None => Err(Fault::BadFile {
            row: 0,
            cause: FileCause::Unreadable,
        }),
    }
}
