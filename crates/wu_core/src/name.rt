//! Names of workunits, hosts and imports, and of instances.

ghost use Rattle.std.specs.Prelude.{◌≡◌, ℕ, List, true, string_bytes, IfOk, IfSome, IfNone};
ghost use Rattle.std.specs.List.{list_all};
ghost use Rattle.wu_core.specs.Names.{is_name, is_name_byte, name_of, place_of};
ghost use Rattle.wu_core.specs.Reads.{IsOrWantsMemory, TellsRefusal};
ghost use Rattle.wu_core.specs.ResultNames.{result_name_of, IsFreeFrom, IsLastUnderscore};

use crate::fault::Fault;
use crate::limits::LONGEST_NAME;
use std::alloc::{AllocError, Global};
use std::fmt;
use std::marker::Model;

/// A name of a workunit, a host or an import: 1 to 64 bytes, each an ASCII letter, a digit, `_`, `.` or `-`.
pub struct Name {
    text: String,
}

// It is written out, so that a caller does not prove again how each part is dropped.
impl Drop for Name {
    fn drop(self) {
        let Name { text: _text } = self;
    }
}

impl Model for Name {
    ghost use Rattle.std.specs.Prelude.{◌≡◌, ℕ, List, true, string_bytes};
    ghost use Rattle.wu_core.specs.Names.{is_name};

    ghost Value = { List ℕ };

    ghost view = { λ name. string_bytes name.text };

    ghost invariant = { λ name. is_name (string_bytes name.text) ≡ true };
}

/// Returns whether a name may contain the byte.
fn may_stand_in_name(byte: u8) -> bool
    ensures { result ≡ is_name_byte byte }
{
    byte.is_ascii_alphanumeric() || byte == b'_' || byte == b'.' || byte == b'-'
}

/// Returns whether a name may contain each byte of the text.
fn may_all_stand_in_name(text: &[u8]) -> bool
    ensures { result ≡ list_all is_name_byte text.now }
{
    text.iter().all(|byte| may_stand_in_name(*byte))
}

/// Returns whether the text is a name.
fn is_name(text: &[u8]) -> bool
    ensures { result ≡ is_name text.now }
{
    1 <= text.len() && text.len() <= LONGEST_NAME && may_all_stand_in_name(text)
}

impl Name {
    /// Reads a name from its text. Any other text is `BadName`, even if the program is out of memory.
    pub fn read(alloc: Global, text: &[u8]) -> Result<Self, Fault>
        // A text with the written form of a name is that name, or out of memory; any other is
        // `BadName`.
        ensures name { IsOrWantsMemory result (name_of text.now) }
        // A text that is no name is never reported as out of memory.
        ensures told { TellsRefusal result (name_of text.now) }
    {
        if !is_name(text) {
            return Err(Fault::BadName);
        }
        let Ok(text) = std::str::from_utf8(text) else {
            return Err(Fault::BadName);
        };
        Ok(Name {
            text: String::from_str(alloc, text)?,
        })
    }

    /// Returns the text of the name: 1 to 64 characters, each an ASCII letter, a digit, `_`, `.` or `-`.
    pub fn as_str(&self) -> &str
        // The text has the bytes of the name.
        ensures { result.now ≡ self.now }
    {
        self.text.as_str()
    }

    /// Returns the bytes of the name: 1 to 64, each an ASCII letter, a digit, `_`, `.` or `-`.
    pub fn as_bytes(&self) -> &[u8]
        // The slice has the bytes of the name.
        ensures bytes { result.now ≡ self.now }
        // The bytes have the written form of a name.
        ensures name { is_name self.now ≡ true }
    {
        self.text.as_bytes()
    }

    /// Returns a copy of the name.
    pub fn copy(&self) -> Result<Self, AllocError>
        // If there is memory, the result is the same name.
        ensures { IfOk result (λ name. name ≡ self.now) }
    {
        Ok(Name {
            text: self.text.clone()?,
        })
    }
}

impl PartialEq for Name {
    ghost use Rattle.std.specs.Prelude.{bytes_eq, ℕ, List};
    ghost use Rattle.std.specs.Cmp.{partial_equiv_from_equiv};
    ghost use Rattle.std.specs.Cmp.Lexicographic.{nat_list_eq_equiv};

    // Two names are equal exactly if their bytes are.
    ghost eq = { bytes_eq };

    ghost laws = { partial_equiv_from_equiv nat_list_eq_equiv };

    fn eq(&self, other: &Self) -> bool {
        self.as_str() == other.as_str()
    }
}

impl Eq for Name {
    ghost use Rattle.std.specs.Cmp.Lexicographic.{nat_list_eq_equiv};

    ghost laws = { nat_list_eq_equiv };
}

impl fmt::Display for Name {
    ghost use Rattle.std.specs.Prelude.{Some};

    // A name prints its own text.
    ghost output = { λ name. Some name };

    fn fmt<W: fmt::Write>(&self, f: &mut fmt::Formatter<W>) -> fmt::Result {
        f.write_str(self.as_str())
    }
}

/// The name of an instance: its workunit's name, and its number among the workunit's instances, 0 to 99.
#[derive(Drop)]
pub struct ResultName {
    pub workunit: Name,
    pub n: u32,
}

/// Returns the number that one digit writes, or two digits of which the first is not 0; `None` for any other text.
fn place(digits: &[u8]) -> Option<u32>
    ensures { result ≡ place_of digits.now }
{
    match digits {
        [ones] if ones.is_ascii_digit() => Some(u32::from(*ones - b'0')),
        [tens, ones] if tens.is_ascii_digit() && ones.is_ascii_digit() && *tens != b'0' => {
            Some(10 * u32::from(*tens - b'0') + u32::from(*ones - b'0'))
        }
        _ => None,
    }
}

/// Returns the place of the last `_` of the text, or `None` if it has none.
fn last_underscore(text: &[u8]) -> Option<usize>
    // Without a result no `_` is in the text.
    ensures none { IfNone result (IsFreeFrom text.now 0) }
    // The result is the place of a `_`, and none comes after it.
    ensures found { IfSome result (IsLastUnderscore text.now) }
{
    text.iter().rposition(|byte| *byte == b'_')
}

impl fmt::Display for ResultName {
    ghost use Rattle.std.specs.Prelude.{Some};
    ghost use Rattle.wu_core.specs.ResultNames.{result_name_text};

    // The name of an instance prints its workunit's name, `_` and its number in decimal.
    ghost output = { λ name. Some (result_name_text name) };

    fn fmt<W: fmt::Write>(&self, f: &mut fmt::Formatter<W>) -> fmt::Result {
        write!(f, "{}_{}", self.workunit, self.n)
    }
}

impl ResultName {
    /// Reads the name of an instance: a workunit's name, `_` and the instance's number in decimal, 0 to 99, without
    /// leading zeros. Any other text is `BadName`, even if the program is out of memory.
    pub fn read(alloc: Global, text: &[u8]) -> Result<Self, Fault>
        // A text with the written form of an instance's name is that name, or out of memory; any
        // other is `BadName`.
        ensures name { IsOrWantsMemory result (result_name_of text.now) }
        // A text that is no instance's name is never reported as out of memory.
        ensures told { TellsRefusal result (result_name_of text.now) }
    {
        let Some(cut) = last_underscore(text) else {
            return Err(Fault::BadName);
        };
        let Some(n) = place(&text[cut + 1..]) else {
            return Err(Fault::BadName);
        };
        let workunit = Name::read(alloc, &text[..cut])?;
        Ok(ResultName { workunit, n })
    }
}
