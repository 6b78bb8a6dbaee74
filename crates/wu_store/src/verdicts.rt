//! The verdicts of a file's rows, as the table of imports keeps them: a text of one digit a row.

ghost use Rattle.std.specs.Prelude.{◌≡◌, ◌<◌, ◌≤◌, ◌+◌, All, Ok};
ghost use Rattle.wu_core.specs.Reads.{IsOrWantsMemory};
ghost use Rattle.wu_schema.specs.Stored.{verdict_digits};

use std::alloc::Global;
use std::marker::Model;
use wu_core::Fault;

/// The verdicts of a file's rows, in order: 0 if a row was applied, otherwise the number of its skip, at most 9.
pub struct Verdicts {
    digits: String,
}

// It is written out, so that a caller does not prove again how each part is dropped.
impl Drop for Verdicts {
    fn drop(self) {
        let Verdicts { digits: _digits } = self;
    }
}

impl Model for Verdicts {
    ghost use Rattle.std.specs.Prelude.{◌≡◌, ℕ, List, string_bytes};
    ghost use Rattle.wu_schema.specs.Stored.{verdict_digits};
    ghost use Rattle.wu_store.specs.Verdicts.{verdicts_of};

    ghost Value = { List ℕ };

    ghost view = { λ verdicts. verdicts_of (string_bytes verdicts.digits) };

    ghost invariant = { λ verdicts. verdict_digits (verdicts_of (string_bytes verdicts.digits))
        ≡ string_bytes verdicts.digits };
}

/// Returns the digit of a verdict of at most 9.
fn digit_of(verdict: u8) -> char
    ensures digit { verdict ≤ 9 → result ≡ 48 + verdict }
    ensures short { result < 128 }
{
    match verdict {
        0 => '0',
        1 => '1',
        2 => '2',
        3 => '3',
        4 => '4',
        5 => '5',
        6 => '6',
        7 => '7',
        8 => '8',
        _ => '9',
    }
}

impl Verdicts {
    /// Makes verdicts of these numbers, each at most 9. Returns `Memory` if out of memory.
    pub fn from_slice(alloc: Global, verdicts: &[u8]) -> Result<Self, Fault>
        // Each verdict is at most 9.
        requires { All (λ verdict. verdict ≤ 9) verdicts.now }
        // The result is these verdicts, or out of memory.
        ensures { IsOrWantsMemory result (Ok verdicts.now) }
    {
        let mut digits = String::new(alloc);
        for verdict in verdicts {
            digits.push(digit_of(*verdict))?;
        }
        Ok(Verdicts { digits })
    }

    /// Returns the text that the table keeps.
    pub(crate) fn digits(&self) -> &str
        // The text has one digit for each verdict, in order.
        ensures { result.now ≡ verdict_digits self.now }
    {
        self.digits.as_str()
    }
}
