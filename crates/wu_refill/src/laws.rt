//! Laws of the changes that make a world of an empty one: each function's contract is one.

ghost use Rattle.wu_refill.specs.Laws.{RefillingMakesTheWorld, SoundMayBeRefilled};

/// The changes that refill a project make its world of an empty one.
pub fn refilling_makes_the_world()
    // Of an empty world they make exactly the world, and each of them may be made where it comes.
    ensures { RefillingMakesTheWorld }
{}

/// A sound world of the present version that tables represent may be refilled.
pub fn sound_may_be_refilled()
    // Its workunits and its hosts with a class are in order, its imports may be kept, and their
    // verdicts are in range.
    ensures { SoundMayBeRefilled }
{}
