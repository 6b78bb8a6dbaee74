//! Worked examples, computed on the definitions: each function's contract is what the machine answers or makes.

ghost use Rattle.std.specs.Prelude.{◌≡◌, ◌∷◌, [], Err};
ghost use Rattle.wu_core.specs.declared.fault.Fault.TheVariants.{WorkunitUsed, UnknownWorkunit, BadLimit};
ghost use Rattle.wu_core.specs.Parameters.{default_parameters};
ghost use Rattle.wu_core.specs.World.{empty_world};
ghost use Rattle.wu_machine.specs.Batches.{jobs_added};
ghost use Rattle.wu_machine.specs.Examples.{job_1, three_late, numbers_of, world_of_one_out, world_of_two_unsent, three_classes, three_sends, sends_to_three, six_reports, one_archived, one_job};
ghost use Rattle.wu_machine.specs.Machine.{reply};
ghost use Rattle.wu_rules.specs.Due.{chosen};
ghost use Rattle.wu_machine.specs.Requests.{AskPass, AskCancel};
ghost use Rattle.wu_rules.specs.declared.due.Pass.TheVariants.{Transition, Validate, Purge};
ghost use Rattle.wu_feed.specs.Classes.{classed};
ghost use Rattle.wu_rules.specs.Examples.{h1, h2};
ghost use Rattle.wu_machine.specs.FileRows.{after_classes, report_rule, row_verdicts, send_rule};

/// Computes that a pass takes workunits in order of number, not of deadline.
#[tactic(auto, unfolding(wu_rules::specs::Transition::transitioned, wu_rules::specs::Waking::wake))]
pub fn passes_go_by_number()
    // A transition of at most 2 workunits takes the first two, though the third has the earliest
    // deadline.
    ensures { numbers_of (chosen Transition 1773014400 0 2 three_late) ≡ 1 ∷ 2 ∷ [] }
{}

/// Computes that a host gets one instance of a workunit, and that an instance is sent once.
pub fn sends_one_instance_a_host()
    // Of three sends the first is `same_host`, the second `not_unsent`, and the third is applied.
    ensures { row_verdicts (send_rule []) world_of_one_out three_sends ≡ 3 ∷ 2 ∷ 0 ∷ [] }
{}

/// Computes that a workunit with an instance in progress goes to hosts of its class only.
pub fn sends_within_a_class()
    // Of three sends the second, to a host of another class, is `class`, and the others are
    // applied.
    ensures { row_verdicts (send_rule three_classes) world_of_two_unsent sends_to_three
        ≡ 0 ∷ 4 ∷ 0 ∷ [] }
{}

/// Computes the classes of hosts after three rows of classes.
pub fn sets_classes()
    // Of two rows for one host the later counts, and hosts are in order of their names' bytes.
    ensures { (after_classes empty_world
        (classed h2 1 ∷ classed h1 2 ∷ classed h2 3 ∷ [])).classes
        ≡ classed h1 2 ∷ classed h2 3 ∷ [] }
{}

/// Computes the verdicts of six reports.
pub fn skips_five_reports()
    // The reports are `unknown`, `not_sent`, `wrong_host`, `before_sent`, applied and `over`.
    ensures { row_verdicts report_rule world_of_one_out six_reports ≡ 1 ∷ 2 ∷ 3 ∷ 4 ∷ 0 ∷ 5 ∷ [] }
{}

/// Computes that the name of a purged workunit stays taken.
pub fn keeps_the_names_of_the_archive()
    // A job with the name of a purged workunit is refused at its row.
    ensures taken { jobs_added one_archived default_parameters one_job ≡ Err (WorkunitUsed 2) }
    // A cancel of a purged workunit is `UnknownWorkunit`.
    ensures gone { reply one_archived (AskCancel job_1) ≡ Err UnknownWorkunit }
{}

/// Computes that limits are 1 to 1000, and a least age at most 365 days.
pub fn refuses_other_limits()
    // A limit of 0 is `BadLimit`.
    ensures none { reply empty_world (AskPass Validate 0 0 0) ≡ Err BadLimit }
    // A limit of 1001 is `BadLimit`.
    ensures more { reply empty_world (AskPass Validate 0 1001 0) ≡ Err BadLimit }
    // A least age of 31,536,001 seconds is `BadLimit`.
    ensures age { reply empty_world (AskPass Purge 0 10 31536001) ≡ Err BadLimit }
{}
