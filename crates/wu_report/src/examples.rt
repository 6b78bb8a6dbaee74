//! Worked examples, computed on the definitions: each function's contract is a text that is printed.

ghost use Rattle.std.specs.Prelude.{◌≡◌, ◌∷◌, ◌++◌, [], codes};
ghost use Rattle.wu_core.specs.declared.states.ValidateState.TheVariants.{Invalid};
ghost use Rattle.wu_core.specs.World.{empty_world};
ghost use Rattle.wu_core.specs.Workunit.{fresh};
ghost use Rattle.wu_rules.specs.Examples.{h1, out, success};
ghost use Rattle.wu_machine.specs.declared.view.View.TheVariants.{Archive, Classes, Hosts, Import, Imports, Results, Summary, Workunits};
ghost use Rattle.wu_report.specs.Examples.{after_a_batch, decided_row, given_up_row, holding, job_having, archiving, first_job, three_grants, three_hosts, three_imports};
ghost use Rattle.wu_report.specs.Texts.{moment_text, view_text};

/// Shows the first and the last moment, noon of a day, a leap day and the last deadline, as text.
pub fn prints_moments()
    // The first moment is the start of 1970.
    ensures first { moment_text 0 ≡ codes "1970-01-01T00:00:00Z" }
    // A moment has its date and its time in UTC.
    ensures noon { moment_text 1772366400 ≡ codes "2026-03-01T12:00:00Z" }
    // A leap day is printed as 29 February.
    ensures leap_day { moment_text 1835395200 ≡ codes "2028-02-29T00:00:00Z" }
    // The last moment is the end of 2099.
    ensures last { moment_text 4102444799 ≡ codes "2099-12-31T23:59:59Z" }
    // The last deadline is the end of 2100.
    ensures last_deadline { moment_text 4133980799 ≡ codes "2100-12-31T23:59:59Z" }
{}

/// Shows the line of a new workunit.
pub fn prints_a_workunit()
    // A new workunit without a template has the default parameters, and `-` for what is not there
    // yet.
    ensures { view_text (holding first_job) Workunits
        ≡ codes "1 job_1 input=2 quorum=2 target=2 max_error=3 max_total=10 max_success=6"
        ++ codes " delay=604800 credit=1 mask=0 canonical=- assimilate=INIT delete=INIT"
        ++ codes " done=- class=0\n" }
{}

/// Shows the lines of two instances before they are sent, of one that is out, and of one that was found invalid.
pub fn prints_instances()
    // An instance that was not sent has no host and no moments.
    ensures unsent { view_text (holding (job_having (fresh ∷ fresh ∷ []))) Results
        ≡ codes "job_1_0 UNSENT INIT INIT INIT host=- sent=- deadline=- received=- output=0\n"
        ++ codes "job_1_1 UNSENT INIT INIT INIT host=- sent=- deadline=- received=- output=0\n" }
    // An instance that is out has its host, its moment and its deadline.
    ensures sent { view_text (holding (job_having (out h1 ∷ []))) Results
        ≡ codes "job_1_0 IN_PROGRESS INIT INIT INIT host=h1 sent=2026-03-01T13:00:00Z"
        ++ codes " deadline=2026-03-08T13:00:00Z received=- output=0\n" }
    // An instance that was found invalid has the length of its output.
    ensures invalid { view_text (holding (job_having (success h1 (0 ∷ []) Invalid ∷ []))) Results
        ≡ codes "job_1_0 OVER SUCCESS INVALID INIT host=h1 sent=2026-03-01T13:00:00Z"
        ++ codes " deadline=2026-03-08T13:00:00Z received=2026-03-01T14:00:00Z output=1\n" }
{}

/// Shows the lines of the hosts, in order of their names.
pub fn prints_hosts()
    // Each host has one line, with its total and the number of its grants.
    ensures { view_text three_grants Hosts
        ≡ codes "h1 total=1 grants=1\n"
        ++ codes "h2 total=2 grants=2\n" }
{}

/// Shows the lines of the hosts that have a class.
pub fn prints_classes()
    // Each host that has a class has one line, in order of names.
    ensures { view_text three_hosts Classes
        ≡ codes "h1 class=1\n"
        ++ codes "h2 class=2\n"
        ++ codes "h3 class=1\n" }
{}

/// Shows the lines of the imports, in order of their kinds and names.
pub fn prints_imports()
    // A batch has the number of its first workunit; of sends, each row was applied or skipped.
    ensures { view_text three_imports Imports
        ≡ codes "batch b1 rows=2 applied=2 skipped=0 first=1\n"
        ++ codes "batch b2 rows=0 applied=0 skipped=0 first=-\n"
        ++ codes "sent a rows=3 applied=2 skipped=1 first=-\n" }
{}

/// Shows the imports of one name, in order of their kinds, each with its skipped rows.
pub fn prints_imports_of_a_name()
    // Below the line of an import is one for each row that was skipped, with why it was.
    ensures of_sends { view_text three_imports (Import (codes "a"))
        ≡ codes "sent a rows=3 applied=2 skipped=1 first=-\n"
        ++ codes "  row 3: same_host\n" }
    // An import without a skipped row has its line alone.
    ensures of_a_batch { view_text three_imports (Import (codes "b1"))
        ≡ codes "batch b1 rows=2 applied=2 skipped=0 first=1\n" }
    // Of a name that no import has, nothing is printed.
    ensures of_none { view_text three_imports (Import (codes "b")) ≡ [] }
{}

/// Shows the line of an archived workunit that was given up, and of one whose output has two bytes.
pub fn prints_the_archive()
    // A workunit that was given up has no canonical result, and `-` for its output.
    ensures without { view_text (archiving given_up_row) Archive
        ≡ codes "1 job_1 mask=2 canonical=- done=2026-03-02T00:00:00Z output=-\n" }
    // The output of a decided workunit is in hex.
    ensures output { view_text (archiving decided_row) Archive
        ≡ codes "1 job_1 mask=0 canonical=0 done=2026-03-02T00:00:00Z output=00ff\n" }
{}

/// Shows the summary of the empty world, and of one after a batch of one job and a transition.
pub fn prints_summaries()
    // A fresh project has all counts at 0, and 1 as its next number.
    ensures empty { view_text empty_world Summary
        ≡ codes "version 3\nnext 1\n"
        ++ codes "workunits 0\nresults 0\nunsent 0\nin_progress 0\nover 0\n"
        ++ codes "archived 0\ngrants 0\ncredit 0\nimports 0\nclasses 0\n" }
    // After the batch and the transition there is one workunit with two unsent instances.
    ensures batch { view_text after_a_batch Summary
        ≡ codes "version 3\nnext 2\n"
        ++ codes "workunits 1\nresults 2\nunsent 2\nin_progress 0\nover 0\n"
        ++ codes "archived 0\ngrants 0\ncredit 0\nimports 1\nclasses 0\n" }
{}

/// Shows that no view but the summary writes anything of the empty world.
pub fn prints_nothing_of_nothing()
    // The empty world has no line of a workunit.
    ensures workunits { view_text empty_world Workunits ≡ [] }
    // The empty world has no line of an instance.
    ensures results { view_text empty_world Results ≡ [] }
    // The empty world has no line of a host.
    ensures hosts { view_text empty_world Hosts ≡ [] }
    // The empty world has no line of an archived workunit.
    ensures archive { view_text empty_world Archive ≡ [] }
    // The empty world has no line of a host with a class.
    ensures classes { view_text empty_world Classes ≡ [] }
    // The empty world has no line of an import.
    ensures imports { view_text empty_world Imports ≡ [] }
{}
