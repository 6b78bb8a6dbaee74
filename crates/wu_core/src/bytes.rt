//! A string of bytes: an input, an output or the content of a file.

ghost use Rattle.std.specs.Prelude.{◌≡◌, ◌↔◌, ℕ, List, [], length, IsTrue};

use std::alloc::Global;
use std::marker::Model;

/// Bytes that contracts see as a list.
pub struct Bytes {
    items: Vec<u8>,
}

// It is written out, so that a caller does not prove again how each part is dropped.
impl Drop for Bytes {
    fn drop(self) {
        let Bytes { items: _items } = self;
    }
}

impl Model for Bytes {
    ghost Value = { List ℕ };

    ghost view = { λ bytes. bytes.items.items };
}

impl Bytes {
    /// Returns no bytes; takes no memory.
    pub fn new(alloc: Global) -> Self
        // The result has no bytes.
        ensures { result ≡ [] }
    {
        Bytes {
            items: Vec::new(alloc),
        }
    }

    /// Returns these bytes; takes no memory.
    pub fn from_vec(items: Vec<u8>) -> Self
        // The result has the vector's bytes.
        ensures { result ≡ items.items }
    {
        Bytes { items }
    }

    /// Returns the bytes as a vector; takes no memory.
    pub fn into_vec(self) -> Vec<u8>
        // The vector has the same bytes.
        ensures { result.items ≡ self }
    {
        let Bytes { items } = self;
        items
    }

    /// Returns the bytes.
    pub fn as_slice(&self) -> &[u8]
        // The slice has the same bytes.
        ensures { result.now ≡ self.now }
    {
        self.items.as_slice()
    }

    /// Returns the number of bytes.
    pub fn len(&self) -> usize
        // The result is the number of bytes.
        ensures { result ≡ length self.now }
    {
        self.items.len()
    }

    /// Returns whether there are no bytes.
    pub fn is_empty(&self) -> bool
        // The result is true exactly if there are no bytes.
        ensures { IsTrue result ↔ (self.now ≡ []) }
    {
        self.items.is_empty()
    }

    /// Drops the bytes; takes no memory.
    pub fn clear(&mut self)
        // No bytes are left.
        ensures { self.new ≡ [] }
    {
        self.items.clear();
    }
}
