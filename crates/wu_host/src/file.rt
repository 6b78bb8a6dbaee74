//! A file of the host, read up to a limit.

ghost use Rattle.std.specs.Prelude.{◌≡◌, IfErr};
ghost use Rattle.wu_core.specs.declared.fault.Fault.TheVariants.{Memory};

use std::fs::File;
use wu_arguments::{read_up_to, unread};
use wu_core::Fault;

/// Returns what the file at the path holds, at most so many bytes and one more, by which a file that is too long is
/// noticed. Returns `None` if it cannot be read to there. The only fault is `Memory`.
pub fn read_file(rt: &HostRuntime, path: &str, most: usize) -> Result<Option<Vec<u8>>, Fault>
    // The only fault is `Memory`.
    ensures { IfErr result (λ fault. fault ≡ Memory) }
{
    match File::open(rt, path) {
        Ok(file) => read_up_to(rt.alloc(), file, most),
        Err(error) => unread(&error),
    }
}
