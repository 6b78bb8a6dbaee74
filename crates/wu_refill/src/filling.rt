//! The changes that make a world of an empty one.

ghost use Rattle.std.specs.Prelude.{◌≡◌, ◌++◌, map, All, IfErr, IfOk, OnOk};
ghost use Rattle.wu_core.specs.Reads.{OkOrWantsMemory};
ghost use Rattle.wu_audit.specs.LoadedWorlds.{world_of_parts};
ghost use Rattle.wu_core.specs.declared.fault.Fault.TheVariants.{Memory};
ghost use Rattle.wu_core.specs.Storable.{AreVerdicts};
ghost use Rattle.wu_plans.specs.Planning.{sets_class};
ghost use Rattle.wu_refill.specs.Refilling.{AddsFirstGrants, AddsKept, MakesTheWorld, MayBeRefilled, Refills};
ghost use Rattle.wu_store.specs.Changing.{import_of_change};
ghost use Rattle.wu_store.specs.declared.changes.Change.TheVariants.{Add};

use std::alloc::Global;
use wu_audit::{Imported, LoadedParts};
use wu_core::{Fault, Grant, HostClass, Workunit};
use wu_plans::{with_archived, with_grants};
use wu_store::{Change, Import, Verdicts};

/// Adds the changes that set the classes of these hosts, in their order.
fn add_classes(changes: &mut Vec<Change<'_>>, classes: Vec<HostClass>) -> Result<(), Fault>
    ensures added { OnOk result
        (changes.new.items ≡ changes.old.items ++ map sets_class classes.items) }
    ensures fault { IfErr result (λ fault. fault ≡ Memory) }
{
    for row in classes {
        changes.push(Change::Class(row.host, row.class))?;
    }
    Ok(())
}

/// Adds the changes that add these workunits, in their order.
fn add_workunits(changes: &mut Vec<Change<'_>>, workunits: Vec<Workunit>) -> Result<(), Fault>
    ensures added { OnOk result
        (changes.new.items ≡ changes.old.items ++ map Add workunits.items) }
    ensures fault { IfErr result (λ fault. fault ≡ Memory) }
{
    for workunit in workunits {
        changes.push(Change::Add(workunit))?;
    }
    Ok(())
}

/// Adds the one change that keeps these grants from the first place on, with their sums, if there are any.
fn add_grants(alloc: Global, changes: &mut Vec<Change<'_>>, grants: Vec<Grant>) -> Result<(), Fault>
    ensures added { OnOk result (AddsFirstGrants grants.items changes.old.items changes.new.items) }
    ensures fault { IfErr result (λ fault. fault ≡ Memory) }
{
    if grants.is_empty() {
        return Ok(());
    }
    with_grants(alloc, changes, 1, grants)
}

/// Returns what is kept of an import, which lends its content.
fn kept_of<'a>(alloc: Global, import: &'a Imported) -> Result<Import<'a>, Fault>
    requires { AreVerdicts import.now.kind import.now.verdicts }
    ensures { OkOrWantsMemory result (λ kept. import_of_change kept ≡ import.now) }
{
    Ok(Import {
        kind: import.kind(),
        name: import.name(),
        template: import.template().as_slice(),
        content: import.content().as_slice(),
        first_number: import.first_number(),
        verdicts: Verdicts::from_slice(alloc, import.verdicts().as_slice())?,
    })
}

/// Adds the changes that keep these imports, in their order.
fn add_imports<'a>(
    alloc: Global,
    changes: &mut Vec<Change<'a>>,
    imports: &'a [Imported],
) -> Result<(), Fault>
    requires { All (λ import. AreVerdicts import.kind import.verdicts) imports.now }
    ensures added { OnOk result (AddsKept imports.now changes.old.items changes.new.items) }
    ensures fault { IfErr result (λ fault. fault ≡ Memory) }
{
    for import in imports {
        changes.push(Change::Keep(kept_of(alloc, import)?))?;
    }
    Ok(())
}

/// Returns the changes that make the world of these parts and imports of an empty one. They borrow the contents of its
/// imports, and take all else.
pub fn changes_of<'a>(
    alloc: Global,
    parts: LoadedParts,
    imports: &'a [Imported],
) -> Result<Vec<Change<'a>>, Fault>
    // The world is of the present version and in order, and its imports may be kept.
    requires { MayBeRefilled (world_of_parts parts imports.now) }
    // The next number and classes are set; each workunit is added; grants and archived rows are
    // kept from the first place on; imports are kept.
    ensures changes { IfOk result (λ changes.
        Refills (world_of_parts parts imports.now) changes.items) }
    // Of an empty world they make exactly this one, and each of them may be made where it comes.
    ensures makes { IfOk result (λ changes.
        MakesTheWorld (world_of_parts parts imports.now) changes.items) }
    // The only fault is out of memory.
    ensures fault { IfErr result (λ fault. fault ≡ Memory) }
{
    let mut changes = Vec::new(alloc);
    changes.push(Change::Next(parts.next_number))?;
    add_classes(&mut changes, parts.classes)?;
    add_workunits(&mut changes, parts.workunits)?;
    add_grants(alloc, &mut changes, parts.grants)?;
    with_archived(&mut changes, 1, parts.archived)?;
    add_imports(alloc, &mut changes, imports)?;
    Ok(changes)
}
