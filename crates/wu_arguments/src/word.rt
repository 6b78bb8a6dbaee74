//! A text of the command line.

ghost use Rattle.std.specs.Prelude.{◌≡◌, string_bytes, IfOk};

use std::alloc::{AllocError, Global};
use std::marker::Model;

/// A text that contracts see as the list of its bytes.
pub struct Word {
    text: String,
}

// It is written out, so that a caller does not prove again how its text is dropped.
impl Drop for Word {
    fn drop(self) {
        let Word { text: _text } = self;
    }
}

impl Model for Word {
    ghost use Rattle.std.specs.Prelude.{ℕ, List, string_bytes};

    ghost Value = { List ℕ };

    ghost view = { λ word. string_bytes word.text };
}

impl Word {
    /// Copies the text.
    pub fn from_text(alloc: Global, text: &str) -> Result<Self, AllocError>
        // The word has the bytes of the text.
        ensures { IfOk result (λ word. word ≡ text.now) }
    {
        Ok(Word {
            text: String::from_str(alloc, text)?,
        })
    }

    /// Takes the text over, without taking memory.
    pub fn from_string(text: String) -> Self
        // The word has the bytes of the text.
        ensures { result ≡ string_bytes text }
    {
        Word { text }
    }

    /// Returns its text.
    pub fn as_str(&self) -> &str
        // The text has the bytes of the word.
        ensures { result.now ≡ self.now }
    {
        self.text.as_str()
    }
}
