//! The classes of workunits and of hosts.

ghost use Rattle.std.specs.Prelude.{◌≡◌, ◌↔◌, ◌<◌, All, IfErr, IfOk, IfSome, IsTrue, List, MatchOption, OnOk, length, map};
ghost use Rattle.wu_store.specs.Loading.{classless};
ghost use Rattle.std.specs.List.Sorted.{IsPermutation, IsSorted};
ghost use Rattle.std.specs.declared.cmp.Ordering.TheVariants.{Less};
ghost use Rattle.wu_core.specs.Classes.{AreInOrder};
ghost use Rattle.wu_core.specs.declared.workunit.HostClass.{HostClass};
ghost use Rattle.wu_schema.specs.Stored.{class_cells};
ghost use Rattle.wu_schema.specs.Reading.{IsStoredHostClass};
ghost use Rattle.wu_loader.specs.Classing.{by_classed_host, numbers, numbers_classed, AreClassedBy, AreOfOthers, AreRising};
ghost use Rattle.wu_loader.specs.Whole.{DiffersAt, IsIn, IsNotAbove, UnlessMemory};
ghost use Rattle.wu_loader.specs.Wrongs.{IsWrongHostClass};

use crate::finding::{NoWorld, WrongRow};
use crate::rows::Classed;
use crate::whole::RowsOf;
use std::alloc::AllocError;
use wu_core::{HostClass, Workunit};
use wu_schema::ProjectTable;

/// Returns the workunits, each with class 0.
pub(crate) fn without_classes(workunits: Vec<Workunit>) -> Vec<Workunit>
    // These are the workunits, each with class 0.
    ensures { result.items ≡ map classless workunits.items }
{
    let mut unbound = workunits;
    for workunit in unbound.iter_mut() {
        workunit.class = 0;
    }
    unbound
}

/// Returns the workunits, each with its class. Returns the first place whose class is that of another workunit, or the
/// place after the last class if one is missing.
pub(crate) fn with_classes(
    workunits: Vec<Workunit>,
    classes: &[Classed],
) -> Result<Vec<Workunit>, NoWorld>
    // After `Ok` these are the workunits, each with the class of its row, and no row is left.
    ensures classed { IfOk result (λ classed. AreClassedBy workunits.items classes.now
        classed.items) }
    // A row that is reported means that the rows of classes are not those of these workunits.
    ensures none { IfErr result (λ reason. UnlessMemory reason
        (λ _. AreOfOthers workunits.items classes.now)) }
    // The reported row is the first, by number, of which the workunits' numbers and those of the
    // rows of classes differ.
    ensures told { IfErr result (λ reason. UnlessMemory reason (IsIn ProjectTable.WorkunitClass
        (DiffersAt (numbers workunits.items) (numbers_classed classes.now)))) }
{
    let mut classed = workunits;
    for (n, workunit) in classed.iter_mut().enumerate() {
        match classes.get(n) {
            Some(one) if one.workunit == workunit.number => workunit.class = one.class,
            _ => {
                return Err(NoWorld::Wrong(WrongRow {
                    table: ProjectTable::WorkunitClass,
                    place: n as u64 + 1,
                }));
            }
        }
    }
    let n = classed.len();
    if n < classes.len() {
        return Err(NoWorld::Wrong(WrongRow {
            table: ProjectTable::WorkunitClass,
            place: n as u64 + 1,
        }));
    }
    Ok(classed)
}

/// Sorts the hosts by their names.
fn sort(classes: &mut Vec<HostClass>) -> Result<(), AllocError>
    ensures same { IsPermutation classes.old.items classes.new.items }
    ensures sorted { OnOk result (IsSorted by_classed_host classes.new.items) }
{
    classes.sort_by(|one, other| one.host.as_str().cmp(other.host.as_str()))
}

/// Returns whether the name of the one is below that of the other.
fn is_below(one: &HostClass, other: &HostClass) -> bool
    ensures { IsTrue result ↔ (by_classed_host one.now other.now ≡ Less) }
{
    one.host.as_str().cmp(other.host.as_str()).is_lt()
}

/// Returns the first host whose name is not above that of the one before it, or `None` if there is none.
fn first_out_of_order(classes: &[HostClass]) -> Option<usize>
    ensures order { MatchOption result (AreRising classes.now) (λ _. ¬ AreRising classes.now) }
    ensures within { IfSome result (λ place. place < length classes.now) }
    ensures told { IfSome result (IsNotAbove by_classed_host classes.now) }
{
    for place in 1..classes.len() {
        if !is_below(&classes[place - 1], &classes[place]) {
            return Some(place);
        }
    }
    None
}

/// Returns the hosts of these rows with their classes, in order of their names. Reports a host that occurs twice.
pub(crate) fn host_classes(rows: RowsOf<HostClass>) -> Result<Vec<HostClass>, NoWorld>
    // After `Ok` the rows are those of these hosts and classes, in some order.
    ensures same { IfOk result (λ classes. IsPermutation (map class_cells classes.items) rows) }
    // After `Ok` the hosts are in order of their names' bytes, each once.
    ensures order { IfOk result (λ classes. AreInOrder classes.items) }
    // After `Ok` each name and class is in its range.
    ensures stored { IfOk result (λ classes. All IsStoredHostClass classes.items) }
    // A row that is reported means that the rows are those of no hosts in order with names and
    // classes in range.
    ensures none { IfErr result (λ reason. UnlessMemory reason (λ _. (classes : List HostClass)
        → All IsStoredHostClass classes → AreInOrder classes
        → ¬ IsPermutation (map class_cells classes) rows)) }
    // The reported row of `host_class` is the first that is that of no host and class; else, in
    // order of names, the first of a host that occurred before.
    ensures told { IfErr result (λ reason. UnlessMemory reason (IsIn ProjectTable.HostClass
        (IsWrongHostClass rows))) }
{
    let mut classes = rows.into_values(ProjectTable::HostClass)?;
    sort(&mut classes)?;
    match first_out_of_order(&classes) {
        Some(wrong) => {
            let place = wrong as u64 + 1;
            Err(NoWorld::Wrong(WrongRow {
                table: ProjectTable::HostClass,
                place,
            }))
        }
        None => Ok(classes),
    }
}
