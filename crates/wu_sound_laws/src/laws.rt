//! Laws of sound worlds: totals, views, lists of commands and histories of sessions.

ghost use Rattle.wu_sound_laws.specs.Laws.{BeginningsStaySound, BoundsTotals, CanAllBeShown, HaveValues, LivesStaySound, NoSoundViewIsMarked, SessionsHaveValues};

use wu_drive::Command;
use wu_machine::laws::has_values;

/// Shows that in a sound world all credit, and the total of each host, is at most 10^17.
pub fn bounds_totals()
    // A sound world has at most 10^11 grants; all credit, and the total of each host, is at most
    // 10^17.
    ensures { BoundsTotals }
{}

/// Shows that each view of a sound world of the present version can be read.
pub fn can_all_be_shown()
    // Each view of a sound world of the present version is of readable values.
    ensures { CanAllBeShown }
{}

/// Shows that no line of a view of a sound world begins with `=`.
pub fn no_view_of_a_sound_world_is_marked()
    // No line of a view of a sound world begins with `=`.
    ensures { NoSoundViewIsMarked }
{}

/// Shows that the values of each command are in their ranges.
pub fn commands_have_values(commands: &[Command])
    // The values of each command are in their ranges: an import has a name, and a pass a moment in
    // range.
    ensures { HaveValues commands.now }
{
    for command in commands {
        has_values(command);
    }
}

/// Shows that a prefix of a list of commands leaves a sound world sound.
pub fn beginnings_stay_sound()
    // A prefix of a list of commands leaves a sound world sound, if their values are in range.
    ensures { BeginningsStaySound }
{}

/// Shows that a session accepts only requests whose values are in their ranges.
pub fn sessions_have_values()
    // The values of all that a session of such commands accepts are in their ranges.
    ensures { SessionsHaveValues }
{}

/// Shows that a history of sessions leaves a sound world sound.
pub fn lives_stay_sound()
    // A history of sessions leaves a sound world sound, whichever of its cut commands were found
    // done.
    ensures { LivesStaySound }
{}
