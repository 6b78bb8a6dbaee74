//! Laws of sound worlds: each function's contract is one.

ghost use Rattle.wu_core.specs.World.{empty_world};
ghost use Rattle.wu_machine_laws.specs.Sound.{KeepsSound, ListsKeepSound, SoundIsEnough};
ghost use Rattle.wu_machine.specs.Sound.{IsSound};

/// Proves that commands run over sound worlds.
pub fn a_sound_world_is_a_project()
    // A sound world of a version from 1 to the present one is one that commands run over.
    ensures { SoundIsEnough }
{}

/// Proves that a fresh project is sound.
pub fn a_fresh_project_is_sound()
    // A world without any contents, at the present version, is sound.
    ensures { IsSound empty_world }
{}

/// Proves that each request keeps a world sound.
pub fn keeps_sound()
    // A request with values in range (an import's name, a pass's moment) keeps a sound world sound.
    // In a sound world no instance has two grants, and an instance of a present workunit has one
    // exactly if it is VALID.
    ensures { KeepsSound }
{}

/// Proves that lists of requests keep a world sound.
pub fn lists_keep_sound()
    // Any list of requests with values in range keeps a sound world sound.
    ensures { ListsKeepSound }
{}
