//! The workunits of a project, each with its instances.

ghost use Rattle.std.specs.Prelude.{◌≡◌, All, IfErr, IfOk, List};
ghost use Rattle.wu_core.specs.Storable.{IsStorable};
ghost use Rattle.wu_core.specs.declared.workunit.Workunit.{Workunit};
ghost use Rattle.wu_loader.specs.Whole.{UnlessMemory};
ghost use Rattle.wu_loader.specs.Worlds.{AreRowsOfWorks, IsOrdered};
ghost use Rattle.wu_loader.specs.Wrongs.{AreWorkunits, IsWrongWork};
ghost use Rattle.wu_loader.specs.First.{AreResults};

use crate::dealing::{deal, sort};
use crate::finding::NoWorld;
use crate::rows::Placed;
use crate::whole::RowsOf;
use std::alloc::Global;
use std::collections::VecDeque;
use wu_core::Workunit;
use wu_schema::ProjectTable;

/// Returns the workunits of these rows, with the instances of those.
pub(crate) fn works_from(
    alloc: Global,
    rows: RowsOf<Workunit>,
    instances: RowsOf<Placed>,
) -> Result<Vec<Workunit>, NoWorld>
    // After `Ok` the rows are those of these workunits and, in some order, of their instances.
    ensures works { IfOk result (λ works. AreRowsOfWorks rows instances works.items) }
    // After `Ok` no row of a workunit is wrong.
    ensures workunits { IfOk result (λ _. AreWorkunits rows) }
    // After `Ok` no row of a result is wrong.
    ensures results { IfOk result (λ _. AreResults rows instances) }
    // A row that is reported means that the rows are those of no readable workunits in order of
    // number.
    ensures none { IfErr result (λ reason. UnlessMemory reason (λ _. (works : List Workunit)
        → IsOrdered works → All IsStorable works
        → ¬ AreRowsOfWorks rows instances works)) }
    // The reported row is the first of no workunit; else the first of no instance; else the first
    // result that is of none of the workunits.
    ensures told { IfErr result (λ reason. UnlessMemory reason
        (IsWrongWork rows instances)) }
{
    let workunits = rows.into_values(ProjectTable::Workunit)?;
    let mut placed = instances.into_values(ProjectTable::Result)?;
    sort(&mut placed);
    let queue = VecDeque::from(placed);
    deal(alloc, workunits, queue)
}
