//! Whether changes make a world of an empty one.

ghost use Rattle.std.specs.Prelude.{◌≡◌, ◌↔◌, All, IfErr, IfOk, IsTrue};
ghost use Rattle.wu_core.specs.World.{MayBeKept};
ghost use Rattle.wu_core.specs.declared.fault.Fault.TheVariants.{Memory};
ghost use Rattle.wu_machine.specs.Machine.{IsUpToDate};
ghost use Rattle.wu_machine.specs.Sound.{IsSound};
ghost use Rattle.wu_refill.specs.Refilling.{MayBeRefilled};

use std::alloc::Global;
use wu_audit::{Imported, Loaded, audit};
use wu_core::{Fault, PRESENT_VERSION};

/// Returns whether each of these imports may be kept.
fn may_be_kept(imports: &[Imported]) -> bool
    ensures { IsTrue result ↔ All MayBeKept imports.now }
{
    imports.iter().all(|import| import.may_be_kept())
}

/// Returns whether the world is sound and of the present version, and each of its imports may be kept. Then changes
/// make it of an empty one.
pub fn may_be_refilled(alloc: Global, world: &Loaded) -> Result<bool, Fault>
    // The answer is true exactly for a sound world of the present version whose imports may be
    // kept.
    ensures exact { IfOk result (λ may. IsTrue may
        ↔ (IsSound world.now × IsUpToDate world.now × All MayBeKept world.now.imports)) }
    // Such a world is one that changes make of an empty one.
    ensures may { IfOk result (λ may. IsTrue may → MayBeRefilled world.now) }
    // The only fault is out of memory.
    ensures fault { IfErr result (λ fault. fault ≡ Memory) }
{
    let is_sound = audit(alloc, world)?.is_none();
    let is_present = world.version() == PRESENT_VERSION;
    let is_kept = may_be_kept(world.imports());
    Ok(is_sound && is_present && is_kept)
}
