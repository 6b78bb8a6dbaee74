//! Laws of what a request leaves, removes and adds: each function's contract is one, for every world.

ghost use Rattle.wu_machine_laws.specs.Leaving.{CancelsAndUpgrades, GoesByPurgeAlone, LeavesWhatIsNotNamed, NumbersBatches, OlderProjectsUpgradeFirst, PurgedIsGone, StaysByNothing, StaysPresent};

/// Proves that only a purge removes a workunit.
pub fn goes_by_purge_alone()
    // In a world in order of number, a workunit is present after a request, unless that is a purge
    // and the workunit may be purged.
    ensures { GoesByPurgeAlone }
{}

/// Proves that a purge removes a workunit.
pub fn what_is_purged_is_gone()
    // A workunit that a purge takes is not present after it.
    ensures { PurgedIsGone }
{}

/// Proves which workunits a request leaves as they were.
pub fn leaves_what_is_not_named()
    // A file of sends or reports changes only workunits that its rows name, and a cancel only its
    // own. Both keep all workunits with their numbers and names, all grants and archived rows, the
    // classes of hosts, the next number and the version. A batch leaves all workunits that are
    // present, and a file of classes and an upgrade leave all. A refused request leaves the world.
    ensures { LeavesWhatIsNotNamed }
{}

/// Proves which workunits a new batch adds.
pub fn numbers_batches()
    // A new batch adds an undecided workunit for each job, as the job says, after the others, with
    // consecutive numbers from the next one. It answers the first of them, or 0 without a job.
    ensures { NumbersBatches }
{}

/// Proves what the answers of a cancel and of an upgrade mean.
pub fn cancels_and_upgrades()
    // A cancel that succeeds was of a present and undecided workunit of that name, which is then
    // cancelled. An upgrade answers the version found and the present one, which the world then
    // has.
    ensures { CancelsAndUpgrades }
{}

/// Proves what an older project answers.
pub fn older_projects_upgrade_first()
    // A world of an older version refuses each request except an upgrade as `OldSchema` with its
    // version. An upgrade answers the version found and the present one, and changes only the
    // version.
    ensures { OlderProjectsUpgradeFirst }
{}

/// Proves that a project stays at the present version.
pub fn projects_stay_present()
    // A world of the present version stays at it over any list of requests, if the result is a
    // world that commands run over.
    ensures { StaysPresent }
{}

/// Proves which requests change nothing.
pub fn stays_where_nothing_is_made()
    // A repeated import, a pass that takes no workunit, and an upgrade at the present version leave
    // the world as it was.
    ensures { StaysByNothing }
{}
