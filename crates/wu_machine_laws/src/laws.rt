//! Laws of passes: each function's contract is one, for every world and every moment.

ghost use Rattle.wu_machine_laws.specs.Laws.{TellsWhatChanges, HandlesUpToTheLimit, SoundWorldsAreInOrder, TakesTheFirst, LeavesTheOthers, RecordsMore, AnswersHowMany, AnswersZeroForNothing, AddsUpGrants, ListsEachHostOnce};

/// Proves which workunits a pass changes.
pub fn tells_what_changes()
    // A pass other than a purge selects a workunit exactly if it would change it. A purge selects
    // one exactly if it may be purged, and leaves nothing of it.
    ensures { TellsWhatChanges }
{}

/// Proves how many workunits a pass takes.
pub fn handles_up_to_the_limit()
    // A pass handles as many workunits as it would change, or its limit if that is less.
    ensures { HandlesUpToTheLimit }
{}

/// Proves the order of workunits.
pub fn sound_worlds_are_in_order()
    // A sound world has its workunits in ascending order of number.
    ensures { SoundWorldsAreInOrder }
{}

/// Proves which workunits a pass takes.
pub fn takes_the_first()
    // In a world in order of number, a pass takes the first workunits by number that it changes, at
    // most its limit. It leaves one that it would change only if the limit is reached.
    ensures { TakesTheFirst }
{}

/// Proves what a pass leaves.
pub fn leaves_the_others()
    // The workunits that a pass does not take are after it as they were, in their order.
    ensures { LeavesTheOthers }
{}

/// Proves what a pass records.
pub fn records_more()
    // A pass removes or changes no grant, archived row or import, and changes no class, next number
    // or version. Only the validator grants, and only the assimilator archives.
    ensures { RecordsMore }
{}

/// Proves the answer of a pass.
pub fn answers_how_many()
    // A pass answers how many workunits it would change, or its limit if that is less.
    ensures { AnswersHowMany }
{}

/// Proves when a pass answers 0.
pub fn answers_zero_for_nothing()
    // A pass answers 0 exactly if it leaves the world as it was.
    ensures { AnswersZeroForNothing }
{}

/// Proves how the credit of hosts grows.
pub fn adds_up_grants()
    // A pass adds the credit and the number of its new grants to those of each host. A host is
    // listed exactly if it was, or a new grant is to it.
    ensures { AddsUpGrants }
{}

/// Proves which hosts are listed.
pub fn lists_each_host_once()
    // The hosts of grants are exactly those with a grant, each once, in ascending order of their
    // names' bytes.
    ensures { ListsEachHostOnce }
{}
