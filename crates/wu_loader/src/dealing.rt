//! Each workunit with its instances.

ghost use Rattle.std.specs.Prelude.{◌≡◌, ◌↔◌, ◌++◌, ◌<◌, ◌≤◌, length, IfErr, IfOk, IsTrue, List};
ghost use Rattle.std.specs.List.Sorted.{IsPermutation, IsSorted};
ghost use Rattle.wu_core.specs.Limits.{most_instances};
ghost use Rattle.wu_core.specs.declared.workunit.Workunit.{Workunit};
ghost use Rattle.wu_loader.specs.Dealing.{by_place, placed_from, AreDealt, IsNext};
ghost use Rattle.wu_loader.specs.Whole.{IsIn, UnlessMemory};
ghost use Rattle.wu_loader.specs.Worlds.{IsOrdered};
ghost use Rattle.wu_loader.specs.Wrongs.{IsUndealtAt};

use crate::finding::{NoWorld, WrongRow};
use crate::rows::Placed;
use std::alloc::{AllocError, Global};
use std::collections::VecDeque;
use wu_core::{Instance, Instances, MOST_INSTANCES, Workunit};
use wu_schema::ProjectTable;

/// Sorts the instances by their workunits' numbers, and those of a workunit by their own. It takes no memory.
pub(crate) fn sort(placed: &mut Vec<Placed>)
    // The instances are the same afterwards, in some order.
    ensures same { IsPermutation placed.old.items placed.new.items }
    // They are in order of their workunits' numbers, and then of their own.
    ensures sorted { IsSorted by_place placed.new.items }
{
    placed.sort_unstable_by(|one, other| {
        one.workunit.cmp(&other.workunit).then(one.n.cmp(&other.n))
    })
}

/// Returns whether the first of these is the one of this workunit and this number.
fn is_next(left: &VecDeque<Placed>, workunit: u64, n: usize) -> bool
    ensures { IsTrue result ↔ IsNext workunit n left.now.items }
{
    match left.front() {
        Some(placed) => placed.workunit == workunit && placed.n == n as u64,
        None => false,
    }
}

/// Returns how many of the first of these are of this workunit: for so many room is made. No clause speaks of it.
fn room_for(left: &VecDeque<Placed>, workunit: u64) -> usize {
    left.iter()
        .take(MOST_INSTANCES as usize)
        .take_while(|placed| placed.workunit == workunit)
        .count()
}

/// Takes the instances of this workunit from the front: those that are numbered from 0, as far as they go, but no more
/// than a workunit may have.
fn take_instances(
    alloc: Global,
    workunit: u64,
    left: &mut VecDeque<Placed>,
) -> Result<Vec<Instance>, AllocError>
    // After `Ok` the taken instances, numbered from 0, and those that are left are all that were
    // there.
    ensures taken { IfOk result
        (λ instances. left.old.items ≡ placed_from workunit instances.items ++ left.new.items) }
    // After `Ok` they are at most 100.
    ensures few { IfOk result (λ instances. length instances.items ≤ most_instances) }
    // After `Ok` the next one is not the first that is left, unless 100 were taken.
    ensures all { IfOk result (λ instances. length instances.items < most_instances
        → ¬ IsNext workunit (length instances.items) left.new.items) }
{
    let mut instances = Vec::with_capacity(alloc, room_for(left, workunit))?;
    'each: while instances.len() < MOST_INSTANCES as usize
        && is_next(left, workunit, instances.len())
    {
        if let Some(placed) = left.pop_front() {
            instances.push(placed.instance)?;
        }
    }
    Ok(instances)
}

/// Gives back the memory of the instances that were taken, each time that an eighth is free. No instance goes. No
/// clause speaks of the memory.
fn give_back(left: &mut VecDeque<Placed>)
    ensures { left.new.items ≡ left.old.items }
{
    let capacity = left.capacity();
    if left.len() < capacity - capacity / 8 {
        left.shrink_to_fit();
    }
}

/// Returns the workunits with these instances, which are in order. Returns the first result that is of none of them, or
/// one too many of a workunit.
///
/// The memory of the instances goes over to the workunits bit by bit.
pub(crate) fn deal(
    alloc: Global,
    workunits: Vec<Workunit>,
    placed: VecDeque<Placed>,
) -> Result<Vec<Workunit>, NoWorld>
    // After `Ok` these are the workunits with exactly these instances, at most 100 each.
    ensures dealt { IfOk result (λ dealt. AreDealt workunits.items placed.items dealt.items) }
    // A row that is reported means that the instances, in order, are not those of any such
    // workunits in order of number.
    ensures none { IfErr result (λ reason. UnlessMemory reason (λ _. (dealt : List Workunit)
        → IsOrdered dealt → ¬ AreDealt workunits.items placed.items dealt)) }
    // The results before the reported one are instances of the workunits; with it they are not.
    ensures told { IfErr result (λ reason. UnlessMemory reason (IsIn ProjectTable.Result
        (IsUndealtAt workunits.items placed.items))) }
{
    let total = placed.len();
    let mut left = placed;
    let mut dealt = workunits;
    for workunit in dealt.iter_mut() {
        let instances = take_instances(alloc, workunit.number, &mut left)?;
        workunit.instances = Instances::from_vec(instances);
        give_back(&mut left);
    }
    if left.is_empty() {
        Ok(dealt)
    } else {
        let place = (total - left.len()) as u64 + 1;
        Err(NoWorld::Wrong(WrongRow {
            table: ProjectTable::Result,
            place,
        }))
    }
}
