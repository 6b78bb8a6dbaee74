//! A file of a database that is held in memory.

ghost use Rattle.std.specs.Prelude.{◌≡◌, [], IsTrue, true, refl};
ghost use Rattle.wu_process.specs.MemoryFiles.{bytes_held, serves};

use sqlite_disk::{Disk, Memory, Tally};
use std::alloc::Global;
use std::io;

/// A file that this process holds in memory, for as long as it runs.
///
/// A `Memory` keeps what was synced beside what it holds, so that tests can make it crash. Here a sync has nothing to
/// do, so a large file takes half as much.
#[derive(Drop)]
pub struct MemoryFile {
    file: Memory,
}

impl MemoryFile {
    /// Makes an empty file.
    pub fn new(alloc: Global) -> MemoryFile
        // The file is empty.
        ensures empty { bytes_held result ≡ [] }
        // The file can be used.
        ensures serves { IsTrue (serves result) }
    {
        MemoryFile {
            file: Memory::new(alloc),
        }
    }

    /// Returns the bytes of the file.
    pub fn bytes(&self) -> &[u8]
        // These are the bytes of the file.
        ensures { result.now ≡ bytes_held self.now }
    {
        self.file.bytes()
    }
}

impl Disk for MemoryFile {
    ghost use Rattle.std.specs.Prelude.{◌≡◌, true, refl};
    ghost use Rattle.wu_process.specs.MemoryFiles.{bytes_held, serves};

    ghost seen = { bytes_held };

    ghost may_leave = { λ m bytes. bytes ≡ bytes_held m };

    ghost is_usable = { serves };

    ghost faults = { λ m. m.file.faults };

    ghost is_clean = { λ _. true };

    ghost tally_of = { λ m. record { caught = m.file.caught; refused = 0 } };

    ghost key_of = { λ _. 0 };

    ghost is_fair = { λ _ _. true };

    ghost fair_if_clean = { λ _ _ _. refl };

    ghost seen_may_stay = { λ m. refl };

    fn mixes(&self) -> bool {
        false
    }

    fn key(&self) -> u64 {
        self.file.key()
    }

    fn tally(&self) -> Tally {
        self.file.tally()
    }

    fn may_be_used(&self) -> bool {
        self.file.may_be_used()
    }

    fn len(&mut self) -> io::Result<usize> {
        self.file.len()
    }

    fn read_at(&mut self, at: usize, buf: &mut [u8]) -> io::Result<()> {
        self.file.read_at(at, buf)
    }

    fn read_checked(&mut self, key: u64, want: u64, at: usize, buf: &mut [u8]) -> io::Result<()> {
        self.file.read_checked(key, want, at, buf)
    }

    fn write_at(&mut self, at: usize, bytes: &[u8]) -> io::Result<()> {
        self.file.write_at(at, bytes)
    }

    fn set_len(&mut self, len: usize) -> io::Result<()> {
        self.file.set_len(len)
    }

    fn sync(&mut self) -> io::Result<()> {
        Ok(())
    }
}
