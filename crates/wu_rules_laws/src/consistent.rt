//! Laws of consistent workunits: each rule keeps states, verdicts, grants and archived rows in agreement. Each
//! function's contract is one.

ghost use Rattle.wu_rules_laws.specs.Consistent.{KeepsWorkunitsConsistent, KeepsAllVerdicts, KeepsOneClass, IdleIsOneClass, AgreesWithinOneClass, SendsWhatIsUndecided};

/// Proves that each rule keeps states, verdicts, grants and archived rows in agreement.
pub fn keeps_workunits_consistent()
    // Each rule keeps a well-formed and consistent workunit so, with its number, name and credit. A
    // canonical result, a final verdict, an instance's host, that the workunit is given up, and
    // DONE with its mask and moment stay. A host gets no second instance, if none has two. An
    // instance gets one grant exactly if it becomes VALID, and the workunit one archived row
    // exactly if it becomes DONE. A cancel does so for an undecided workunit, a send and a report
    // if they are applied.
    ensures { KeepsWorkunitsConsistent }
{}

/// Proves that no rule changes a final verdict.
pub fn keeps_all_verdicts()
    // No rule changes a final verdict; nor does a report that is applied, if the workunit is
    // consistent.
    ensures { KeepsAllVerdicts }
{}

/// Proves that active instances stay in one class, except after a late report.
pub fn keeps_one_class()
    // If the hosts of all active instances have the workunit's class, each rule keeps that, also an
    // applied send with its host's class. An applied report does exactly if it is no success or its
    // host has that class. The host of an instance in progress has it.
    ensures { KeepsOneClass }
{}

/// Proves that a workunit without an active instance is of one class.
pub fn idle_is_one_class()
    // In a workunit without an active instance all active instances are of one class, whatever
    // classes hosts have.
    ensures { IdleIsOneClass }
{}

/// Proves that results of one class decide.
pub fn agrees_within_one_class()
    // If the hosts of all active instances have the workunit's class, so has each host that a
    // validation grants credit to. The host of a newly canonical result has it too.
    ensures { AgreesWithinOneClass }
{}

/// Proves that only undecided workunits are sent.
pub fn sends_what_is_undecided()
    // In a consistent workunit a send is applied only if the workunit is undecided.
    ensures { SendsWhatIsUndecided }
{}
