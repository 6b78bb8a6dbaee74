//! Laws of the rules: each function's contract is one, for every workunit and every moment.

ghost use Rattle.wu_core.specs.declared.workunit.Workunit.{Workunit};
ghost use Rattle.wu_rules_laws.specs.Laws.{TransitionsOnce, TimesOutWhatIsLate, WakesInTime, LooksWhereItChanges, KeepsFinalVerdicts, AssimilatesWhatIsReady, ArchivesWhatWasRead, DeletesWhereItChanges, HoldsNothingReady, SelectsByMarks, PurgesWhatIsThrough, RefusesWhatIsEmpty, StaysPurgeable, ChoosesByAgreement, ChoosesOnlyByQuorum, ChoosesWithoutHosts, AgreeFromDifferentHosts, DecidesByConsensus, DecidesWithItsQuorum, JudgesWhatComesLate, GrantsToTheValid, GrantsOnce, KeepsWorkunitsFormed, CancelsWhatIsUnsent, AsksForMoreOrGivesUp};

/// Proves that a transition is idempotent.
pub fn transitions_once()
    // A second transition at the same moment changes nothing.
    ensures { TransitionsOnce }
{}

/// Proves that a transition misses no timeout.
pub fn times_out_what_is_late()
    // After a transition no instance is in progress past its deadline.
    ensures { TimesOutWhatIsLate }
{}

/// Proves that `wake` says when a transition is due.
pub fn wakes_in_time()
    // `wake` is a moment up to now exactly if a transition now changes the workunit.
    ensures { WakesInTime }
{}

/// Proves which workunits need validation.
pub fn looks_where_it_changes()
    // A workunit needs validation exactly if the validator changes it.
    ensures { LooksWhereItChanges }
{}

/// Proves that a validation keeps final verdicts.
pub fn keeps_final_verdicts()
    // No validation changes a final verdict.
    ensures { KeepsFinalVerdicts }
{}

/// Proves which workunits the assimilator changes.
pub fn assimilates_what_is_ready()
    // The assimilator changes a workunit exactly if it is READY for assimilation.
    ensures { AssimilatesWhatIsReady }
{}

/// Proves which output is archived.
pub fn archives_what_was_read()
    // A READY workunit alone is archived, with the canonical output as it was just before, or with
    // no bytes without a canonical result.
    ensures { ArchivesWhatWasRead }
{}

/// Proves for which workunits the file deleter is due.
pub fn deletes_where_it_changes()
    // The file deleter is due for a workunit exactly if it changes it.
    ensures { DeletesWhereItChanges }
{}

/// Proves what the file deleter deletes.
pub fn holds_nothing_ready()
    // The file deleter leaves no byte of an input or output that is READY for deletion, and no file
    // READY. Each other instance stays as it was.
    ensures { (w : Workunit) → HoldsNothingReady w }
{}

/// Proves that the queue's marks select for each pass the right workunits.
pub fn selects_by_marks()
    // At every moment and least age, the marks of a workunit select it for a pass exactly if the
    // pass is due for it.
    ensures { SelectsByMarks }
{}

/// Proves that a workunit that may be purged needs no assimilation and no deletion.
pub fn purges_what_is_through()
    // Neither the assimilator nor the file deleter would change a workunit that may be purged.
    ensures { PurgesWhatIsThrough }
{}

/// Proves that a workunit that may be purged need not be purged at once.
pub fn stays_purgeable()
    // A workunit that may be purged at a moment may be purged at each later one.
    ensures { StaysPurgeable }
{}

/// Proves which result is the consensus.
pub fn chooses_by_agreement()
    // A result is the consensus exactly if it is the first viable success with whose output enough
    // viable successes agree, byte for byte. Enough are `min_quorum / 2 + 1`, itself included.
    ensures { ChoosesByAgreement }
{}

/// Proves how a result becomes canonical, and that it stays so.
pub fn chooses_only_by_quorum()
    // Only the validator makes a result canonical, and only the consensus of the results that are
    // left after empty outputs are refused. No rule removes or replaces a canonical result.
    ensures { ChoosesOnlyByQuorum }
{}

/// Proves how empty outputs are refused.
pub fn refuses_what_is_empty()
    // In a workunit that needs validation, a success that the validator judges and whose output is
    // empty becomes VALIDATE_ERROR and INVALID. No instance with another output does. No empty
    // output becomes canonical, newly VALID or granted. If the workunit then no longer needs
    // validation, nothing else changes.
    ensures { RefusesWhatIsEmpty }
{}

/// Proves which verdicts the validator gives.
pub fn decides_by_consensus()
    // If an undecided workunit still needs validation after empty outputs are refused, its
    // consensus becomes canonical. A viable success is then VALID if its output equals the
    // canonical one, else INVALID; without a consensus it is INCONCLUSIVE. A new success after the
    // decision is judged likewise, or is TOO_LATE if the canonical output was deleted.
    ensures { DecidesByConsensus }
{}

/// Proves that agreement decides.
pub fn decides_with_its_quorum()
    // If an undecided workunit has a new success and a quorum of viable ones after empty outputs
    // are refused, the validator makes their consensus canonical.
    ensures { DecidesWithItsQuorum }
{}

/// Proves that a late success gets its verdict.
pub fn judges_what_comes_late()
    // A validation leaves no new success in a workunit with a canonical result and mask 0.
    ensures { JudgesWhatComesLate }
{}

/// Proves that hosts do not affect the consensus.
pub fn chooses_without_hosts()
    // The consensus is the same, whatever hosts the instances have.
    ensures { ChoosesWithoutHosts }
{}

/// Proves that agreeing results come from different hosts.
pub fn agree_from_different_hosts()
    // If a workunit is well formed and no host has two of its instances, viable successes with
    // equal outputs are all from different hosts.
    ensures { AgreeFromDifferentHosts }
{}

/// Proves to whom credit is granted.
pub fn grants_to_the_valid()
    // Each grant is for the host of an instance without a final verdict before and VALID now, with
    // the workunit's number and credit.
    ensures { GrantsToTheValid }
{}

/// Proves that a validation grants no instance twice.
pub fn grants_once()
    // The grants of one validation are in ascending order of instances, so no instance gets two.
    ensures { GrantsOnce }
{}

/// Proves that each rule keeps a workunit well formed.
pub fn keeps_workunits_formed()
    // Each rule keeps a well-formed workunit well formed; a report does if it is applied.
    ensures { KeepsWorkunitsFormed }
{}

/// Proves what a cancel changes.
pub fn cancels_what_is_unsent()
    // A cancel sets its bit of the mask, ends each unsent instance as DIDNT_NEED, and changes
    // nothing else.
    ensures { CancelsWhatIsUnsent }
{}

/// Proves what a validation without a consensus does.
pub fn asks_for_more_or_gives_up()
    // Without a consensus after empty outputs are refused, bit 4 is set exactly if the viable
    // successes are more than `max_success_results`. If not, a target that they have reached is
    // raised to their number plus one. A validation changes no other parameter and no other bit,
    // and neither in a workunit with a canonical result.
    ensures { AsksForMoreOrGivesUp }
{}
