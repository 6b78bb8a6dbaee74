//! The world of a sound project, as it is loaded for a refill.

ghost use Rattle.std.specs.Prelude.{◌≡◌, IfErr, IfOk, IfSome};
ghost use Rattle.wu_core.specs.declared.fault.Fault.TheVariants.{Memory};
ghost use Rattle.wu_refill.specs.Loading.{FindsAlone, FindsSound, FindsTheirs, KeepsSoundWorld};
ghost use Rattle.wu_refill.specs.Refilling.{MayBeRefilled};
ghost use Rattle.wu_schema.specs.Asking.{Asks, ServesUnlessFailed};
ghost use Rattle.wu_schema.specs.Faults.{IsStoreFault};

use crate::readiness::may_be_refilled;
use sqlite::{Alter, Connection};
use std::alloc::Global;
use wu_audit::Loaded;
use wu_audit::laws::sound_in_any_order;
use wu_core::{Fault, PRESENT_VERSION};
use wu_loader::finding::Found;
use wu_loader::load_world;
use wu_schema::version_of;
use wu_tables::has_only_a_project;

/// Returns the world that was found, if changes make it of an empty one.
fn keep_refillable(alloc: Global, found: Found) -> Result<Option<Loaded>, Fault>
    ensures may { IfOk result (λ kept. IfSome kept MayBeRefilled) }
    ensures kept { IfOk result (KeepsSoundWorld found) }
    ensures same { IfOk result (λ kept. IfSome kept (λ it. found ≡ Found.World it)) }
    ensures fault { IfErr result (λ fault. fault ≡ Memory) }
{
    let Found::World(world) = found else {
        return Ok(None);
    };
    if may_be_refilled(alloc, &world)? {
        Ok(Some(world))
    } else {
        Ok(None)
    }
}

/// Returns the world that the tables represent, if it is sound and of the present version. Then changes make it of an
/// empty one. Changes nothing.
pub fn load_refillable<S: Alter>(
    conn: &mut Connection<S>,
    alloc: Global,
) -> Result<Option<Loaded>, Fault>
    // Begins no transaction and commits nothing; except after `Memory` and `Broken` all is as
    // before; `Broken` means a failed disk or a closed connection.
    ensures asks { Asks S.Store conn.old conn.new result }
    // The connection is open afterwards, except after `Memory` and `Broken`.
    ensures opens { ServesUnlessFailed S.Store conn.new result }
    // A fault is `Memory`, `Broken` or `NotAProject`.
    ensures fault { IfErr result IsStoreFault }
    // A world that is returned is one that changes make of an empty one.
    ensures may { IfOk result (λ found. IfSome found MayBeRefilled) }
    // If the tables represent a sound world of the present version, a sound world that they
    // represent is returned.
    ensures found { FindsSound S.Store conn.old conn.new result }
    // If the tables represent a world of the present version, they represent the one that is
    // returned.
    ensures theirs { FindsTheirs S.Store conn.old conn.new result }
{
    sound_in_any_order();
    let found = load_world(conn, alloc, PRESENT_VERSION)?;
    keep_refillable(alloc, found)
}

/// Returns the world that the tables represent, if it is sound and of the present version and the database has nothing
/// else. Then changes make all that it has of an empty one. Changes nothing.
pub fn load_alone<S: Alter>(
    conn: &mut Connection<S>,
    alloc: Global,
) -> Result<Option<Loaded>, Fault>
    // Begins no transaction and commits nothing; except after `Memory` and `Broken` all is as
    // before; `Broken` means a failed disk or a closed connection.
    ensures asks { Asks S.Store conn.old conn.new result }
    // The connection is open afterwards, except after `Memory` and `Broken`.
    ensures opens { ServesUnlessFailed S.Store conn.new result }
    // A fault is `Memory`, `Broken` or `NotAProject`.
    ensures fault { IfErr result IsStoreFault }
    // A world that is returned is one that changes make of an empty one.
    ensures may { IfOk result (λ found. IfSome found MayBeRefilled) }
    // If a world is returned, all that the database has is a project's; and if the tables represent
    // a world, they represent the one that is returned.
    ensures found { FindsAlone S.Store conn.old conn.new result }
{
    let version = version_of(conn)?;
    if version != Some(PRESENT_VERSION) || !has_only_a_project(conn.schema()) {
        return Ok(None);
    }
    load_refillable(conn, alloc)
}
