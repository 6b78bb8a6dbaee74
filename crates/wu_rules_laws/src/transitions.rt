//! Laws of the transitioner: each function's contract is one, for every workunit and every moment.

ghost use Rattle.wu_rules_laws.specs.Transitions.{BringsUpToTheTarget, GivesUpWhatGetsNoFurther, EndsWhatIsNotAwaited, LeavesNothingOpen, NamesWhatMayGo};

/// Proves how many instances a transition makes.
pub fn brings_up_to_the_target()
    // A workunit that stays undecided gets as many new instances as bring it up to its target,
    // within `max_total_results`. Unsent instances, those in progress and successes that are not
    // INVALID count. A workunit that is decided or given up gets none, and no parameter changes.
    ensures { BringsUpToTheTarget }
{}

/// Proves when a transition gives a workunit up.
pub fn gives_up_what_gets_no_further()
    // After timeouts, an undecided workunit gets bit 2 exactly if it has more errors than
    // `max_error_results`. Otherwise it gets bit 8 exactly if it lacks results, may have no more
    // instances, has none unsent or in progress, and needs no validation. No other bit changes, and
    // none of a workunit that is not undecided.
    ensures { GivesUpWhatGetsNoFurther }
{}

/// Proves which instances a transition ends.
pub fn ends_what_is_not_awaited()
    // A transition ends an overdue instance as NO_REPLY. In a workunit that is given up it ends
    // unsent ones as DIDNT_NEED, and makes viable successes NO_CHECK. No other state, outcome or
    // verdict changes, and no host, moment or output.
    ensures { EndsWhatIsNotAwaited }
{}

/// Proves that a transition closes a workunit that is given up.
pub fn leaves_nothing_open()
    // After a transition, a workunit whose mask is not 0 has no unsent instance, no viable success,
    // and is READY or DONE for assimilation.
    ensures { LeavesNothingOpen }
{}

/// Proves which files a transition marks for deletion.
pub fn names_what_may_go()
    // A transition marks files as READY for deletion only if the workunit is DONE, and only files
    // that are INIT. It marks the input exactly if all instances are over. It marks an output
    // exactly if its instance is over and not viable, the canonical one if all are. Each other file
    // stays as it was.
    ensures { NamesWhatMayGo }
{}
