//! The assimilator.

ghost use Rattle.std.specs.Prelude.{◌≡◌, IfOk, OnOk, OnErr};
ghost use Rattle.wu_core.specs.Reads.{FailsForMemory};
ghost use Rattle.wu_rules.specs.Assimilation.{canonical_output, archived_row, archived, assimilated};

use crate::validator::output_at;
use std::alloc::{AllocError, Global};
use wu_core::{Archived, Assimilate, Bytes, Fault, Moment, Workunit};

/// Returns the canonical output, or no bytes without a canonical result.
fn canonical_output(workunit: &Workunit) -> &[u8]
    ensures { result.now ≡ canonical_output workunit.now }
{
    match workunit.canonical {
        Some(n) => output_at(workunit.instances.as_slice(), n as usize),
        None => &[],
    }
}

/// Returns the archived row of the workunit at this moment.
fn archived_row(alloc: Global, workunit: &Workunit, now: Moment) -> Result<Archived, AllocError>
    ensures { IfOk result (λ row. row ≡ archived_row workunit.now now) }
{
    let output = Vec::from_slice(alloc, canonical_output(workunit))?;
    Ok(Archived {
        number: workunit.number,
        name: workunit.name.copy()?,
        error_mask: workunit.error_mask,
        canonical: workunit.canonical,
        output: Bytes::from_vec(output),
        done_at: now,
    })
}

/// Assimilates a workunit that is READY, and returns the row that is archived permanently. Any other workunit stays as
/// it was, and the result is `None`. If out of memory, nothing changes.
#[tactic(auto, unfolding(crate::specs::Assimilation::assimilated, crate::specs::Assimilation::archived))]
pub fn assimilate(
    alloc: Global,
    workunit: &mut Workunit,
    now: Moment,
) -> Result<Option<Archived>, Fault>
    // On success a READY workunit is DONE at this moment, and any other stays as it was.
    ensures image { OnOk result (workunit.new ≡ assimilated workunit.old now) }
    // The result is the archived row of a READY workunit, and `None` of any other.
    ensures archived { IfOk result (λ row. row ≡ archived workunit.old now) }
    // The only fault is `Memory`.
    ensures fault { FailsForMemory result }
    // On a fault the workunit stays as it was.
    ensures unchanged { OnErr result (workunit.new ≡ workunit.old) }
{
    if workunit.assimilate != Assimilate::Ready {
        return Ok(None);
    }
    let row = archived_row(alloc, workunit, now)?;
    workunit.assimilate = Assimilate::Done;
    workunit.done_at = Some(now);
    Ok(Some(row))
}
