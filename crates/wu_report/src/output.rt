//! Text on its way to a writer, in pieces that take no memory.

ghost use Rattle.std.specs.Prelude.{◌≤◌, [], ◌∷◌, flat_map, IsOkUnless};
ghost use Rattle.std.specs.Fmt.{decimal};
ghost use Rattle.std.specs.Io.KnownBytes.{Keeps};
ghost use Rattle.hex.specs.Hex.{encode_lower};
ghost use Rattle.wu_core.specs.Limits.{last_deadline};
ghost use Rattle.wu_core.specs.declared.fault.Fault.TheVariants.{Output};
ghost use Rattle.wu_report.specs.Texts.{moment_text};
ghost use Rattle.wu_report.specs.Writing.{piece_text, Prints};

use hex::encode_to_slice;
use itoa::Buffer;
use jiff::Timestamp;
use jiff::fmt::temporal::DateTimePrinter;
use std::io::Write;
use wu_core::{Deadline, Fault, Moment};

/// What is printed: its text, and how it is written.
pub trait Printed {
    ghost use Rattle.std.specs.Prelude.{ℕ, List};
    ghost use Rattle.wu_report.specs.Writing.{Prints};

    /// The text, with the ends of its lines.
    ghost text: { Self → List ℕ };

    /// Writes the text. The only fault is `Output`, where some bytes of it did not go out.
    fn write<W: Write>(&self, out: &mut W) -> Result<(), Fault>
        // With Ok exactly the text is written. Else the fault is `Output`, and a part of it is missing.
        ensures { Prints W.contents out.old out.new (text self.now) result };
}

/// A piece of a line.
#[derive(Drop)]
pub enum Piece<'a> {
    Text(&'a str),
    /// In decimal, without leading zeros.
    Number(u64),
    /// The number, or `-`.
    Place(Option<u32>),
    /// As `YYYY-MM-DDTHH:MM:SSZ`, or `-`.
    When(Option<Moment>),
    /// As a moment is.
    Due(Option<Deadline>),
    /// In hex, two lower-case digits a byte.
    Hex(&'a [u8]),
}

/// Writes all bytes. A fault, or a `write` that takes no byte, is `Output`: then some bytes were not written.
///
/// `write_all` does not say what it wrote before it failed; this says that it was a prefix of the bytes.
fn write_bytes<W: Write>(out: &mut W, bytes: &[u8]) -> Result<(), Fault>
    ensures { Prints W.contents out.old out.new bytes.now result }
{
    let mut rest = bytes;
    while !rest.is_empty() {
        match out.write(rest) {
            Ok(0) => return Err(Fault::Output),
            Ok(count) => rest = &rest[count..],
            Err(_) => return Err(Fault::Output),
        }
    }
    Ok(())
}

/// Writes the number in decimal, without leading zeros.
fn write_number<W: Write>(out: &mut W, number: u64) -> Result<(), Fault>
    ensures { Prints W.contents out.old out.new (decimal number) result }
{
    let mut digits = Buffer::new();
    write_bytes(out, digits.format(number).as_bytes())
}

/// Writes the date and the time so many seconds after the start of 1970, in UTC. It takes what a deadline may be.
fn write_seconds<W: Write>(out: &mut W, seconds: u64) -> Result<(), Fault>
    requires { seconds ≤ last_deadline }
    ensures { Prints W.contents out.old out.new (moment_text seconds) result }
{
    let Ok(timestamp) = Timestamp::from_second(seconds as i64) else {
        unreachable!()
    };
    let text = DateTimePrinter::new().timestamp_text(timestamp.to_plain());
    write_bytes(out, text.as_str().as_bytes())
}

/// Writes the two digits of a byte.
fn write_hex_byte<W: Write>(out: &mut W, byte: u8) -> Result<(), Fault>
    ensures { Prints W.contents out.old out.new (encode_lower (byte ∷ [])) result }
{
    let mut digits = [0; 2];
    let Ok(()) = encode_to_slice([byte], &mut digits) else {
        unreachable!()
    };
    write_bytes(out, &digits)
}

/// Writes the digits of each byte.
fn write_hex<W: Write>(out: &mut W, bytes: &[u8]) -> Result<(), Fault>
    ensures { Prints W.contents out.old out.new (encode_lower bytes.now) result }
{
    for byte in bytes {
        write_hex_byte(out, *byte)?;
    }
    Ok(())
}

impl Printed for Piece<'_> {
    ghost text = { piece_text };

    fn write<W: Write>(&self, out: &mut W) -> Result<(), Fault> {
        match self {
            Piece::Text(text) => write_bytes(out, text.as_bytes()),
            Piece::Number(number) => write_number(out, *number),
            Piece::Place(Some(place)) => write_number(out, u64::from(*place)),
            Piece::When(Some(moment)) => write_seconds(out, moment.seconds()),
            Piece::Due(Some(deadline)) => write_seconds(out, deadline.seconds()),
            Piece::Hex(bytes) => write_hex(out, bytes),
            Piece::Place(None) | Piece::When(None) | Piece::Due(None) => write_bytes(out, b"-"),
        }
    }
}

/// Writes the texts of these in turn, without taking memory.
pub fn write_all<T: Printed, W: Write>(out: &mut W, all: &[T]) -> Result<(), Fault>
    // With Ok exactly the texts are written, one after another. Else the fault is `Output`, and a
    // part of them is missing.
    ensures { Prints W.contents out.old out.new (flat_map T.Printed.text all.now) result }
{
    for one in all {
        one.write(out)?;
    }
    Ok(())
}

/// Writes the pieces in turn, without taking memory.
pub fn write_pieces<W: Write>(out: &mut W, pieces: &[Piece<'_>]) -> Result<(), Fault>
    // With Ok exactly the texts of the pieces are written, one after another. Else the fault is
    // `Output`, and a part of them is missing.
    ensures { Prints W.contents out.old out.new (flat_map piece_text pieces.now) result }
{
    write_all(out, pieces)
}

/// Flushes the writer.
pub fn flush<W: Write>(out: &mut W) -> Result<(), Fault>
    // What was written stays, and nothing is added.
    ensures bytes { Keeps (W.contents out.old) (W.contents out.new) }
    // The only fault is `Output`.
    ensures fault { IsOkUnless result Output }
{
    out.flush().map_err(|_| Fault::Output)
}
