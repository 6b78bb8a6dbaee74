//! The words of a line.

ghost use Rattle.std.specs.Prelude.{◌≡◌, map, string_bytes};

use std::marker::Model;

/// The words of a line in their order, which contracts see as a list of texts.
#[derive(Drop)]
pub struct Words {
    items: Vec<String>,
}

impl Model for Words {
    ghost use Rattle.std.specs.Prelude.{ℕ, List, map, string_bytes};

    ghost Value = { List (List ℕ) };

    ghost view = { λ words. map string_bytes words.items.items };
}

impl Words {
    /// Returns these words; takes no memory.
    pub fn from_vec(items: Vec<String>) -> Self
        // The result has the bytes of the vector's texts.
        ensures { result ≡ map string_bytes items.items }
    {
        Words { items }
    }

    /// Returns the words as a vector; takes no memory.
    pub fn into_vec(self) -> Vec<String>
        // The vector has the same texts.
        ensures { map string_bytes result.items ≡ self }
    {
        self.items
    }

    /// Returns the words in the order of the line.
    pub fn as_slice(&self) -> &[String]
        // The slice has the same texts.
        ensures { map string_bytes result.now ≡ self.now }
    {
        self.items.as_slice()
    }
}
