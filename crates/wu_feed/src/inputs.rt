//! Inputs and outputs in hex.

ghost use Rattle.hex.specs.Hex.{decode_of};
ghost use Rattle.wu_core.specs.Reads.{IsOrWantsMemory};
ghost use Rattle.wu_feed.specs.Inputs.{KeepsDecoded, short_enough};

use hex::FromHexError;
use std::alloc::Global;
use wu_core::{Bytes, Fault};

/// Returns the decoded bytes if they are at most so many, and `None` if they are more or the text is no hex. The caller
/// reports the fault of the row. If out of memory, returns `Memory`.
fn decoded_within(
    decoded: Result<Vec<u8>, FromHexError>,
    longest: usize,
) -> Result<Option<Bytes>, Fault>
    // Decoded bytes are kept if they are not too long; out of memory is `Memory`, and any other
    // error of `hex` is `None`.
    ensures { KeepsDecoded longest decoded result }
{
    match decoded {
        Ok(bytes) if bytes.len() <= longest => Ok(Some(Bytes::from_vec(bytes))),
        Err(FromHexError::OutOfMemory) => Err(Fault::Memory),
        _ => Ok(None),
    }
}

/// Reads the bytes of hex digits of either case, if they are at most so many; otherwise returns `None`. A text without
/// digits has no bytes.
pub fn read_hex(alloc: Global, text: &[u8], longest: usize) -> Result<Option<Bytes>, Fault>
    // Hex digits read as their bytes, or as out of memory; a text that is too long, or no hex,
    // reads as `None`.
    ensures { IsOrWantsMemory result (Ok (short_enough longest (decode_of text.now))) }
{
    decoded_within(hex::decode(alloc, text), longest)
}
