//! Worked examples, computed on the definitions: each function's contract is what the rules make of a workunit.
#![tactic(auto, unfolding(wu_rules::specs::Transition::transitioned, wu_rules::specs::Waking::wake, wu_rules::specs::Validation::validated, wu_rules::specs::Validation::concluded, wu_rules::specs::Validation::grants, wu_rules::specs::Validation::credited, wu_rules::specs::Assimilation::assimilated, wu_rules::specs::Assimilation::emptied, wu_rules::specs::Assimilation::is_purgeable, wu_rules::specs::Assimilation::is_to_delete, wu_rules::specs::Marks::marks, wu_rules::specs::Cancelling::cancelled))]

ghost use Rattle.std.specs.Prelude.{◌≡◌, ◌∷◌, [], true, false, Some, None};
ghost use Rattle.wu_core.specs.Classes.{class_of};
ghost use Rattle.wu_core.specs.Workunit.{fresh};
ghost use Rattle.wu_core.specs.declared.states.Status.TheVariants as status;
ghost use Rattle.wu_core.specs.declared.states.ValidateState.TheVariants as validate;
ghost use Rattle.wu_rules.specs.Transition.{transitioned};
ghost use Rattle.wu_rules.specs.Validation.{is_to_validate, validated, grants};
ghost use Rattle.wu_rules.specs.Cancelling.{cancelled};
ghost use Rattle.wu_rules.specs.Consistent.{IsOneClass};
ghost use Rattle.wu_rules.specs.Counts.{errors, is_undecided};
ghost use Rattle.wu_rules.specs.Reporting.{report_verdict_in, reported_in};
ghost use Rattle.wu_rules.specs.Sending.{send_verdict_in, sent_in};
ghost use Rattle.wu_rules.specs.declared.verdicts.ReportVerdict.TheVariants as report;
ghost use Rattle.wu_rules.specs.declared.verdicts.SendVerdict.TheVariants as send;
ghost use Rattle.wu_rules.specs.Marks.{marks};
ghost use Rattle.wu_rules.specs.Waking.{wake};
ghost use Rattle.wu_rules_laws.specs.Marking.{wakes_at};
ghost use Rattle.wu_rules.specs.Assimilation.{assimilated, emptied, is_purgeable};
ghost use Rattle.wu_rules.specs.Examples.{noon, sending, due, a_second_late, reporting, h1, h2, h3, h4, aa, an_hour_late, credit, in_class, ready, masked, cancelled_mask, lost, three_classed};
ghost use Rattle.wu_rules.specs.Examples.{new_job, two_unsent, one_out, one_lost, one_back, one_late, one_failed, two_differ, two_doubted, third_unsent, third_agrees, second_chosen, two_of_three, two_of_three_chosen, two_of_four, two_of_four_doubted, one_of_one, one_of_one_chosen, empty, no_result, one_and_a_result, holding_two, after_decision, after_all, four_failed, ended_by_errors, last_out, ended_by_total, three_differ, three_doubted, one_left, ended_by_successes, two_agree, first_chosen, second_may_go, second_out_and, late_success, third_after_all, two_unneeded, two_may_go, one_may_go, one_gone_since, one_emptied};

/// Computes that a new workunit gets its two instances at once, and no more.
pub fn makes_instances()
    // A transition of a new workunit with target 2 makes two unsent instances.
    ensures made { transitioned new_job noon ≡ two_unsent }
    // A second transition at that moment changes nothing.
    ensures once { transitioned two_unsent noon ≡ two_unsent }
{}

/// Computes that an instance goes once to a host that has none of its workunit, with a deadline a week later.
pub fn sends_to_each_host_once()
    // A send of an instance that the workunit has not is `unknown`.
    ensures unknown { send_verdict_in two_unsent 2 h1 0 ≡ send.Unknown }
    // A send of an unsent instance to a host without one is applied.
    ensures applied { send_verdict_in two_unsent 0 h1 0 ≡ send.Applied }
    // The instance is then in progress at the host, and due a week later.
    ensures sent { sent_in two_unsent 0 h1 0 sending ≡ one_out }
    // A second send of the same instance is `not_unsent`.
    ensures again { send_verdict_in one_out 0 h1 0 ≡ send.NotUnsent }
    // A send of the other instance to the same host is `same_host`.
    ensures same_host { send_verdict_in one_out 1 h1 0 ≡ send.SameHost }
    // A send of the other instance to another host is applied.
    ensures other_host { send_verdict_in one_out 1 h2 0 ≡ send.Applied }
{}

/// Computes the classes of hosts after a file of classes.
pub fn knows_the_classes_of_hosts()
    // The first host has class 1.
    ensures first { class_of three_classed h1 ≡ 1 }
    // The second host has class 2.
    ensures second { class_of three_classed h2 ≡ 2 }
    // The third host has class 1.
    ensures third { class_of three_classed h3 ≡ 1 }
    // A host that no row names has class 0.
    ensures no_class { class_of three_classed h4 ≡ 0 }
{}

/// Computes that a workunit with an instance in progress goes to hosts of its class only.
pub fn sends_to_one_class()
    // A send to a host of class 1 gives the workunit class 1.
    ensures sent { sent_in two_unsent 0 h1 (class_of three_classed h1) sending
        ≡ in_class 1 one_out }
    // A send to a host of another class is then `class`.
    ensures other_class { send_verdict_in (in_class 1 one_out) 1 h2 (class_of three_classed h2)
        ≡ send.Class }
    // A send to a host without a class is then `class`.
    ensures no_class { send_verdict_in (in_class 1 one_out) 1 h4 (class_of three_classed h4)
        ≡ send.Class }
    // A send to another host of class 1 is then applied.
    ensures its_class { send_verdict_in (in_class 1 one_out) 1 h3 (class_of three_classed h3)
        ≡ send.Applied }
{}

/// Computes that a workunit whose only sent instance timed out is free of its class.
pub fn frees_what_is_lost()
    // At the deadline a transition changes nothing.
    ensures at { transitioned (in_class 1 one_out) due ≡ in_class 1 one_out }
    // A second later the instance times out, another is made, and the class is 0.
    ensures after { transitioned (in_class 1 one_out) a_second_late ≡ one_lost }
    // A transition is due at once for a workunit with a class and no active instance.
    ensures due { wake (in_class 1 two_unsent) ≡ Some 0 }
    // That transition sets the class to 0.
    ensures freed { transitioned (in_class 1 two_unsent) noon ≡ two_unsent }
{}

/// Computes that a late success from any class is accepted, so that two active instances may have different classes.
pub fn takes_a_late_report_of_another_class()
    // After the timeout the next instance may go to a host of another class.
    ensures applied { send_verdict_in one_lost 1 h2 (class_of three_classed h2) ≡ send.Applied }
    // The workunit then has an instance in progress of the other class.
    ensures sent { sent_in one_lost 1 h2 (class_of three_classed h2) an_hour_late
        ≡ second_out_and (lost h1) }
    // A late report of the first instance is applied.
    ensures taken { report_verdict_in (second_out_and (lost h1)) 0 h1 an_hour_late
        ≡ report.Applied }
    // The first instance is then a success.
    ensures reported { reported_in (second_out_and (lost h1)) 0 an_hour_late status.Success aa
        ≡ second_out_and late_success }
    // The active instances are then of different classes.
    ensures mixed { ¬ IsOneClass three_classed (second_out_and late_success) }
{}

/// Computes that a late success leaves a freed workunit in class 0.
pub fn keeps_class_0_with_a_late_report()
    // A send to a host of the success's class is then `class`.
    ensures its_class { send_verdict_in one_late 1 h3 (class_of three_classed h3) ≡ send.Class }
    // A send to a host without a class is then applied.
    ensures no_class { send_verdict_in one_late 1 h4 (class_of three_classed h4) ≡ send.Applied }
{}

/// Computes that a report is applied once, from the host that has the instance, and not from before its sending.
pub fn takes_a_report_once()
    // A report of an instance that the workunit has not is `unknown`.
    ensures unknown { report_verdict_in one_out 2 h1 reporting ≡ report.Unknown }
    // A report of an unsent instance is `not_sent`.
    ensures not_sent { report_verdict_in one_out 1 h1 reporting ≡ report.NotSent }
    // A report from another host is `wrong_host`.
    ensures wrong_host { report_verdict_in one_out 0 h2 reporting ≡ report.WrongHost }
    // A report from before the sending is `before_sent`.
    ensures before_sent { report_verdict_in one_out 0 h1 1772369999 ≡ report.BeforeSent }
    // A report from the host of the instance is applied.
    ensures applied { report_verdict_in one_out 0 h1 reporting ≡ report.Applied }
    // The instance is then over with the reported output.
    ensures reported { reported_in one_out 0 reporting status.Success aa ≡ one_back }
    // A second report of the instance is `over`.
    ensures over { report_verdict_in one_back 0 h1 reporting ≡ report.Over }
{}

/// Computes which cause is reported first, and that the moment of the sending is not too early.
pub fn tells_the_first_cause_of_a_report()
    // A report from before the sending is `before_sent`, even if the instance is over.
    ensures before_over { report_verdict_in one_back 0 h1 1772369999 ≡ report.BeforeSent }
    // A report of the moment of the sending is applied.
    ensures at_once { report_verdict_in one_out 0 h1 sending ≡ report.Applied }
{}

/// Computes that a report after the timeout is applied.
pub fn takes_a_late_report()
    // A report of an instance that timed out is applied.
    ensures applied { report_verdict_in one_lost 0 h1 a_second_late ≡ report.Applied }
    // The instance is then a success.
    ensures reported { reported_in one_lost 0 a_second_late status.Success aa ≡ one_late }
{}

/// Computes that an instance is late one second after its deadline.
pub fn times_out_after_the_deadline()
    // At the deadline a transition changes nothing.
    ensures at { transitioned one_out due ≡ one_out }
    // A second later the instance is over without a reply, and another one is made.
    ensures after { transitioned one_out a_second_late ≡ one_lost }
{}

/// Computes when a transition is due.
pub fn wakes()
    // A new workunit is due at once.
    ensures empty { wake new_job ≡ Some 0 }
    // A workunit that only waits to be sent is never due.
    ensures waiting { wake two_unsent ≡ None }
    // A workunit with an instance in progress is due a second after its deadline.
    ensures out { wake one_out ≡ Some a_second_late }
    // A workunit with a failed instance is due at once.
    ensures failed { wake one_failed ≡ Some 0 }
    // A cancelled workunit is due at once.
    ensures cancelled { wake (masked cancelled_mask new_job) ≡ Some 0 }
{}

/// Computes the marks of a workunit in several states, from its making to its purge.
pub fn marks_what_is_due()
    // A new workunit is marked for a transition at once.
    ensures empty { marks new_job ≡ wakes_at (Some 0) }
    // A workunit with an instance in progress is marked for a transition a second after its
    // deadline.
    ensures out { marks one_out ≡ wakes_at (Some a_second_late) }
    // A workunit that is DONE with all files deleted is marked for its purge alone.
    ensures through { marks (one_gone_since 1000)
        ≡ record (wakes_at None) { purge_from = Some 1000 } }
    // A workunit with two new successes and an instance in progress is marked for a validation, and
    // for a transition after the deadline.
    ensures back { marks two_agree
        ≡ record (wakes_at (Some a_second_late)) { to_validate = true } }
    // A cancelled workunit is marked for a transition at once.
    ensures closed { marks two_unneeded ≡ wakes_at (Some 0) }
    // A workunit with a file READY for deletion is marked for the file deleter alone.
    ensures deleting { marks one_may_go ≡ record (wakes_at None) { to_delete = true } }
    // A workunit that is READY for assimilation is marked for the assimilator alone.
    ensures ended { marks (ready ended_by_total)
        ≡ record (wakes_at None) { to_assimilate = true } }
{}

/// Computes that two results that differ are INCONCLUSIVE, and a third one decides.
pub fn asks_for_a_third_result()
    // Two results that differ become INCONCLUSIVE, and the target is raised to 3.
    ensures doubted { validated two_differ ≡ two_doubted }
    // The next transition makes a third instance.
    ensures made { transitioned two_doubted due ≡ third_unsent }
    // A third result that agrees with the second makes the second canonical.
    ensures decided { validated third_agrees ≡ second_chosen }
    // The second and the third result are granted.
    ensures granted { grants third_agrees ≡ credit 1 h2 ∷ credit 2 h3 ∷ [] }
{}

/// Computes that the validator ignores INCONCLUSIVE results if none is new.
pub fn looks_once()
    // A workunit with INCONCLUSIVE results and none new needs no validation.
    ensures { is_to_validate third_unsent ≡ false }
{}

/// Computes that two of three results decide with a quorum of three, and not with a quorum of four.
pub fn agrees_by_half_and_one()
    // With a quorum of three, two results that agree decide.
    ensures three { validated two_of_three ≡ two_of_three_chosen }
    // Each of the two is granted.
    ensures granted { grants two_of_three ≡ credit 0 h1 ∷ credit 2 h3 ∷ [] }
    // With a quorum of four, two that agree do not decide.
    ensures four { validated two_of_four ≡ two_of_four_doubted }
    // With a quorum of one, one result decides.
    ensures one { validated one_of_one ≡ one_of_one_chosen }
{}

/// Computes that an empty output is refused, and another instance made.
pub fn refuses_empty_outputs()
    // An empty output is refused, and the result beside it stays without a verdict.
    ensures one { validated (one_and_a_result (empty h1) [])
        ≡ one_and_a_result (no_result h1) [] }
    // Nothing is granted.
    ensures nothing { grants (one_and_a_result (empty h1) []) ≡ [] }
    // The next transition makes another instance.
    ensures made { transitioned (one_and_a_result (no_result h1) []) sending
        ≡ one_and_a_result (no_result h1) (fresh ∷ []) }
    // Two empty outputs are both refused.
    ensures both { validated (holding_two (empty h1) (empty h2))
        ≡ holding_two (no_result h1) (no_result h2) }
    // They count as two errors.
    ensures errors { errors (holding_two (no_result h1) (no_result h2)) ≡ 2 }
{}

/// Computes that an empty output after the decision is refused, even if the canonical output was deleted.
pub fn refuses_late_empty_outputs()
    // An empty output after the decision is refused.
    ensures late { validated (after_decision (empty h3)) ≡ after_decision (no_result h3) }
    // It is refused even if the canonical output was deleted.
    ensures not_too_late { validated (after_all (empty h3)) ≡ after_all (no_result h3) }
    // Nothing is granted.
    ensures nothing { grants (after_decision (empty h3)) ≡ [] }
{}

/// Computes that more errors than `max_error_results` give a workunit up.
pub fn ends_by_errors()
    // With four errors and 3 allowed the workunit is given up, and its one success becomes
    // NO_CHECK.
    ensures { transitioned four_failed sending ≡ ended_by_errors }
{}

/// Computes that a workunit that may have no more instances waits for those in progress, and is then given up.
pub fn ends_by_total()
    // At the deadline of the last instance nothing changes.
    ensures at { transitioned last_out due ≡ last_out }
    // A second later the workunit is given up with bit 8.
    ensures after { transitioned last_out a_second_late ≡ ended_by_total }
{}

/// Computes that more successes without a consensus than `max_success_results` give a workunit up.
pub fn ends_by_successes()
    // Three results that differ give the workunit up, and its unsent instance is closed.
    ensures doubted { validated three_differ ≡ three_doubted }
    // A transition of a workunit that is given up so makes its success NO_CHECK, and the workunit
    // READY for assimilation.
    ensures ended { transitioned (one_left validate.Inconclusive) due ≡ ended_by_successes }
{}

/// Computes that a success after the deletion of the canonical output is TOO_LATE, without credit.
pub fn comes_too_late()
    // Two results that agree decide.
    ensures decided { validated two_agree ≡ first_chosen }
    // After the assimilation a transition marks the second output for deletion.
    ensures readied { transitioned (assimilated first_chosen sending) sending ≡ second_may_go }
    // A success after the deletion of the canonical output is TOO_LATE.
    ensures late { validated (third_after_all validate.Init) ≡ third_after_all validate.TooLate }
    // Nothing is granted for it.
    ensures nothing { grants (third_after_all validate.Init) ≡ [] }
{}

/// Computes that a cancelled workunit is closed, assimilated, deleted, and purged exactly at its least age.
pub fn cancels_and_purges()
    // A cancel closes the two unsent instances.
    ensures cancelled { cancelled two_unsent ≡ two_unneeded }
    // The workunit is then no longer undecided.
    ensures closed { is_undecided two_unneeded ≡ false }
    // A transition makes it READY for assimilation.
    ensures ready { transitioned two_unneeded sending ≡ ready two_unneeded }
    // After the assimilation a transition marks its files for deletion.
    ensures readied { transitioned (assimilated (ready two_unneeded) sending) sending
        ≡ two_may_go }
    // The file deleter empties them.
    ensures emptied { emptied one_may_go ≡ one_emptied }
    // A second before the least age the workunit may not be purged.
    ensures early { is_purgeable (one_gone_since 1000) 4599 3600 ≡ false }
    // At the least age it may be purged.
    ensures purged { is_purgeable (one_gone_since 1000) 4600 3600 ≡ true }
{}
