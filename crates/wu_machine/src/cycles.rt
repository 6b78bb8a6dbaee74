//! The list of commands that does the passes of one moment.

ghost use Rattle.std.specs.Prelude.{◌≡◌, MatchResult};
ghost use Rattle.wu_core.specs.declared.fault.Fault.TheVariants.{Memory};
ghost use Rattle.wu_machine.specs.Cycles.{cycle};

use crate::command::Command;
use std::alloc::Global;
use wu_core::{Fault, Moment};

/// Returns the commands of a cycle at a moment, each pass over at most `limit` workunits. They are transition,
/// validate, transition, assimilate, transition, delete, and a purge with the least age `min_age` in seconds. The limit
/// (1 to 1000) and the age (at most 365 days) are checked when the commands run. If out of memory, returns `Memory`.
pub fn cycle(alloc: Global, now: Moment, limit: u64, min_age: u64) -> Result<Vec<Command>, Fault>
    // The commands are transition, validate, transition, assimilate, transition, delete and purge,
    // with this moment, limit and least age; the only fault is `Memory`.
    ensures { MatchResult result
        (λ commands. commands.items ≡ cycle now limit min_age) (λ fault. fault ≡ Memory) }
{
    let commands = Vec::from_array(
        alloc,
        [
            Command::Transition { now, limit },
            Command::Validate { limit },
            Command::Transition { now, limit },
            Command::Assimilate { now, limit },
            Command::Transition { now, limit },
            Command::Delete { limit },
            Command::Purge {
                now,
                limit,
                min_age,
            },
        ],
    )?;
    Ok(commands)
}
