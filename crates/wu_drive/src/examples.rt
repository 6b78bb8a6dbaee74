//! Worked examples, computed on the definitions: each function's contract is a text that is printed.

ghost use Rattle.std.specs.Prelude.{◌≡◌, ◌∷◌, ◌++◌, [], codes};
ghost use Rattle.wu_core.specs.declared.fault.Fault.TheVariants.{BadFile, BadTemplate};
ghost use Rattle.wu_core.specs.declared.fault.FileCause.TheVariants.{Class, TooManyRows};
ghost use Rattle.wu_core.specs.declared.fault.TemplateKey.TheVariants.{TargetNresults};
ghost use Rattle.wu_core.specs.declared.import.ImportKind.TheVariants.{Batch, Classes, Reported, Sent};
ghost use Rattle.wu_drive.specs.Texts.{fault_text, import_text};

/// Shows the answer to a batch, and to one without rows.
pub fn prints_batches()
    // The answer to a batch `b1` of one job, with number 1, is `batch b1: 1 added, first 1`.
    ensures one { import_text Batch (codes "b1") 1 (0 ∷ []) ≡ codes "batch b1: 1 added, first 1\n" }
    // The answer to a batch without rows is `batch b0: 0 added, first -`: it has no first number.
    ensures none { import_text Batch (codes "b0") 0 [] ≡ codes "batch b0: 0 added, first -\n" }
{}

/// Shows the answer to a file of classes.
pub fn prints_class_import()
    // The answer to a file of classes with three rows is `classes c1: 3 applied`.
    ensures { import_text Classes (codes "c1") 0 (0 ∷ 0 ∷ 0 ∷ [])
        ≡ codes "classes c1: 3 applied\n" }
{}

/// Shows the answers to a file of sends and to one of reports, with why rows were skipped.
pub fn prints_skipped_rows()
    // The answer to two sends, the second with verdict 3, is `sent s1: 1 applied, 1 skipped` and
    // `row 3: same_host`.
    ensures sends { import_text Sent (codes "s1") 0 (0 ∷ 3 ∷ [])
        ≡ codes "sent s1: 1 applied, 1 skipped\n"
        ++ codes "  row 3: same_host\n" }
    // The answer to two sends, the second with verdict 4, is `sent s1: 1 applied, 1 skipped` and
    // `row 3: class`.
    ensures classes { import_text Sent (codes "s1") 0 (0 ∷ 4 ∷ [])
        ≡ codes "sent s1: 1 applied, 1 skipped\n"
        ++ codes "  row 3: class\n" }
    // The answer to six reports, one of them applied, counts both kinds. It gives the word of each
    // other verdict at its row: `unknown`, `not_sent`, `wrong_host`, `before_sent`, `over`.
    ensures reports { import_text Reported (codes "r1") 0 (1 ∷ 2 ∷ 3 ∷ 4 ∷ 0 ∷ 5 ∷ [])
        ≡ codes "reported r1: 1 applied, 5 skipped\n"
        ++ codes "  row 2: unknown\n"
        ++ codes "  row 3: not_sent\n"
        ++ codes "  row 4: wrong_host\n"
        ++ codes "  row 5: before_sent\n"
        ++ codes "  row 7: over\n" }
{}

/// Shows the lines of three faults.
pub fn prints_faults()
    // The text of the fault of too many rows, at row 1002, is `F3 BadFile 1002 too_many_rows`.
    ensures rows { fault_text (BadFile 1002 TooManyRows) ≡ codes "F3 BadFile 1002 too_many_rows" }
    // The text of the fault of a class out of range, at row 2, is `F3 BadFile 2 class`.
    ensures class { fault_text (BadFile 2 Class) ≡ codes "F3 BadFile 2 class" }
    // The text of `BadTemplate` of `target_nresults` is `F2 BadTemplate target_nresults`.
    ensures target { fault_text (BadTemplate TargetNresults)
        ≡ codes "F2 BadTemplate target_nresults" }
{}
