//! What histories of sessions leave of a sound project is sound: the function's contract is the law.

ghost use Rattle.wu_lives.specs.Soundness.{LeavesSound};

/// Shows that a history of sessions leaves a sound world sound: verdicts, grants, totals and archived rows agree in it.
pub fn leaves_sound()
    // A history of sessions whose commands have values in range leaves a sound world sound,
    // whichever of its cut commands were done.
    ensures { LeavesSound }
{}
