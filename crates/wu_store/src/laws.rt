//! Laws: which world a database represents, and what changes make of it.

ghost use Rattle.std.specs.Prelude.{◌≡◌, ◌≢◌, ◌<◌, ℕ, All, List, [], ◌∷◌, ◌++◌, Some, None};
ghost use Rattle.sqlite.specs.Effect.{Database};
ghost use Rattle.wu_core.specs.declared.workunit.Archived.{Archived};
ghost use Rattle.wu_core.specs.declared.workunit.Grant.{Grant};
ghost use Rattle.wu_core.specs.declared.workunit.Instance.{Instance};
ghost use Rattle.wu_core.specs.declared.workunit.Workunit.{Workunit};
ghost use Rattle.wu_core.specs.World.{World, IsInOrder};
ghost use Rattle.wu_schema.specs.Refines.{Refines};
ghost use Rattle.wu_store.specs.Answers.{all_above, first_above, numbered};
ghost use Rattle.wu_store.specs.Changes.{HasNumber, IsNextPlace, LacksNumber, and_instance, with_instance, with_placed, with_replaced, without_workunit};
ghost use Rattle.wu_store.specs.Changing.{archived_from, made_all, AreRight, KeepsGrants};
ghost use Rattle.wu_store.specs.declared.changes.Change.{Change};
ghost use Rattle.wu_store.specs.Worlds.{SameWorld};

/// A database represents one world, except for the order of its imports.
pub fn one_database_is_one_world()
    // Two worlds that one database represents are the same, except for the order of their imports.
    ensures { (db : Database) (a b : World) → Refines db a → Refines db b → SameWorld a b }
{}

/// A world that tables represent has its workunits in order of number.
pub fn stored_worlds_are_in_order()
    // The numbers of the workunits rise in each world that a database represents.
    ensures { (db : Database) (world : World) → Refines db world → IsInOrder world }
{}

/// Adding instances one by one makes the workunit with all of them.
pub fn instances_are_added_one_by_one()
    // An instance added to a workunit of a new number that was put in place makes the world with
    // that longer workunit in place.
    ensures { (w : Workunit) (i : Instance) (world : World) → LacksNumber w.number world.workunits
        → with_instance w.number i (with_placed w world)
        ≡ with_placed (and_instance w.number i w) world }
{}

/// Deleting the workunit of a number and adding one of that number is replacing it.
pub fn deleting_and_adding_is_replacing()
    // In a represented world that has this number, deleting that workunit and then adding one of
    // the number makes what replacing makes.
    ensures { (db : Database) (world : World) (w : Workunit) → Refines db world
        → HasNumber w.number world.workunits
        → with_placed w (without_workunit w.number world) ≡ with_replaced w world }
{}

/// Taking the first workunit above the last one, again and again, goes through all above a number, in order.
pub fn the_first_above_the_last_is_the_next()
    // If a workunit is the first above a number, all above the number are this one and then all
    // above its number.
    ensures more { (db : Database) (world : World) (number : ℕ) (w : Workunit) → Refines db world
        → first_above number world ≡ Some w
        → all_above number world ≡ w ∷ all_above w.number world }
    // If no workunit is the first above a number, none is above it.
    ensures none { (db : Database) (world : World) (number : ℕ) → Refines db world
        → first_above number world ≡ None → all_above number world ≡ [] }
    // If each workunit of a world is above a number, all above the number are all workunits.
    ensures all { (world : World) (number : ℕ)
        → All (λ (w : Workunit). number < w.number) world.workunits
        → all_above number world ≡ world.workunits }
{}

/// A workunit that was removed is not found, and each other one is as it was.
pub fn a_removed_workunit_is_not_found()
    // The workunit of a number that was removed is not found.
    ensures gone { (number : ℕ) (world : World)
        → numbered number (without_workunit number world) ≡ None }
    // The workunit of each other number is found as before.
    ensures others { (number other : ℕ) (world : World) → number ≢ other
        → numbered other (without_workunit number world) ≡ numbered other world }
{}

/// Changes that keep grants at consecutive places from the next one on are right, and add the grants after those that
/// are there.
pub fn grants_in_a_row_are_right()
    // Changes that keep grants at consecutive places from the next one on, with their sums, are
    // right for the world.
    ensures right { (grants : List Grant) (changes : List Change) (world : World)
        → KeepsGrants world.grants grants changes → AreRight changes world }
    // Such changes make the world with these grants after its own, and nothing else.
    ensures made { (before grants : List Grant) (changes : List Change) (world : World)
        → KeepsGrants before grants changes
        → made_all changes world ≡ record world { grants = world.grants ++ grants } }
{}

/// Changes that keep archived rows at consecutive places from the next one on are right, and add them after those that
/// are there.
pub fn archived_rows_in_a_row_are_right()
    // Changes that keep archived rows at consecutive places from the next one on are right for the
    // world.
    ensures right { (place : ℕ) (rows : List Archived) (world : World)
        → IsNextPlace place world.archived
        → AreRight (archived_from place rows) world }
    // Such changes make the world with these archived rows after its own, and nothing else.
    ensures made { (place : ℕ) (rows : List Archived) (world : World)
        → made_all (archived_from place rows) world
        ≡ record world { archived = world.archived ++ rows } }
{}
