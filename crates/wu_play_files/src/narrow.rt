//! A writer that fails after a number of bytes or of flushes.

use std::alloc::Global;
use std::io::{self, ErrorKind, Write};

/// What a writer does when it is full.
#[derive(Clone, Copy)]
pub enum Full {
    /// It returns an error.
    Fails,
    /// It takes no byte, without an error.
    TakesNone,
}

/// A writer with room for a number of bytes, that takes at most so many a call. It fails when it is full, and after a
/// number of flushes.
pub struct Narrow {
    pub taken: Vec<u8>,
    room: usize,
    /// The most bytes that it takes in one call.
    most: usize,
    full: Full,
    /// How many bytes had been taken at each flush that succeeded.
    pub flushed: Vec<usize>,
    flushes: usize,
    has_failed: bool,
    /// Whether it was called again after a call that failed.
    pub is_called_again: bool,
}

// It is written out, so that a caller does not prove again how each part is dropped.
impl Drop for Narrow {
    fn drop(self) {
        let Narrow {
            taken: _taken,
            room: _room,
            most: _most,
            full: _full,
            flushed: _flushed,
            flushes: _flushes,
            has_failed: _has_failed,
            is_called_again: _is_called_again,
        } = self;
    }
}

impl Narrow {
    /// Returns a writer with room for `room` bytes, at most `most` a call, of which the first `flushes` flushes
    /// succeed.
    pub fn new(alloc: Global, room: usize, most: usize, full: Full, flushes: usize) -> Narrow {
        Narrow {
            taken: Vec::new(alloc),
            room,
            most,
            full,
            flushed: Vec::new(alloc),
            flushes,
            has_failed: false,
            is_called_again: false,
        }
    }

    /// Returns a writer that takes all bytes and never fails.
    pub fn wide(alloc: Global) -> Narrow {
        Narrow::new(alloc, usize::MAX, usize::MAX, Full::Fails, usize::MAX)
    }
}

impl Write for Narrow {
    fn write(&mut self, bytes: &[u8]) -> io::Result<usize> {
        self.is_called_again |= self.has_failed;
        if self.room == 0 {
            self.has_failed = true;
            return match self.full {
                Full::Fails => Err(io::Error::from(ErrorKind::Other)),
                Full::TakesNone => Ok(0),
            };
        }
        let count = bytes.len().min(self.room).min(self.most);
        self.room -= count;
        self.taken.extend_from_slice(&bytes[..count])?;
        Ok(count)
    }

    fn flush(&mut self) -> io::Result<()> {
        self.is_called_again |= self.has_failed;
        if self.flushes == 0 {
            self.has_failed = true;
            return Err(io::Error::from(ErrorKind::Other));
        }
        self.flushes -= 1;
        self.flushed.push(self.taken.len())?;
        Ok(())
    }
}
