//! Laws of sound worlds: each function's contract is one.

ghost use Rattle.wu_audit.specs.Laws.{RecordedByRows, SoundInAnyOrder};

/// Where keys are used once, workunits, grants and archived rows agree exactly where each row does.
pub fn recorded_by_rows()
    // Where keys are used once, workunits, grants and archived rows agree exactly where each of
    // these rows agrees with the others.
    ensures { RecordedByRows }
{}

/// A sound world is one in any order of its imports.
pub fn sound_in_any_order()
    // A sound world is sound with its imports in any other order.
    ensures { SoundInAnyOrder }
{}
