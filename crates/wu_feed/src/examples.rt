//! Worked examples, computed on the definitions: each function's contract is what a small script or
//! a small file reads as.

ghost use Rattle.std.specs.Prelude.{◌≡◌, ◌∷◌, ◌++◌, [], Err, Ok, codes, replicate};
ghost use Rattle.wu_core.specs.declared.fault.Fault.TheVariants.{BadFile};
ghost use Rattle.wu_core.specs.declared.fault.FileCause.TheVariants.{Class};
ghost use Rattle.wu_feed.specs.Classes.{classed, classes_of_file};
ghost use Rattle.wu_feed.specs.Scripts.{at_fault, script_of, with_words};
ghost use Rattle.wu_feed.specs.declared.script.LineCause.TheVariants.{NotText, OpenQuote, TooManyLines};

/// Computes the lines of scripts. A comment and a line without words are left out, and their numbers are counted. Words
/// are separated by blanks; a word in quotes may contain blanks and quotes.
#[tactic(auto, unfolding(crate::proofs::OnLiterals::scripts_on_literals))]
pub fn reads_a_script()
    // Words are separated by one blank or more, and a comment and an empty line are left out.
    ensures blanks { script_of
        (codes "# a job\n\nbatch --name \"the first\"  --jobs jobs.csv\nshow")
        ≡ Ok (with_words 3 (codes "batch" ∷ codes "--name" ∷ codes "the first" ∷ codes "--jobs"
        ∷ codes "jobs.csv" ∷ []) ∷ with_words 4 (codes "show" ∷ []) ∷ []) }
    // A carriage return at the end of a line is no part of it.
    ensures returns { script_of (codes "show --view\r\n\r\nshow\r\n")
        ≡ Ok (with_words 1 (codes "show" ∷ codes "--view" ∷ [])
        ∷ with_words 3 (codes "show" ∷ []) ∷ []) }
    // A word in quotes may contain blanks and doubled quotes, and `#` within a line is a word.
    ensures quotes { script_of (codes "\"a \"\"b\"\" c\" # d\n")
        ≡ Ok (with_words 1 (codes "a \"b\" c" ∷ codes "#" ∷ codes "d" ∷ []) ∷ []) }
{}

/// Computes the lines of scripts with a faulty line, which has its cause. The lines after it are read.
#[tactic(auto, unfolding(crate::proofs::OnLiterals::scripts_on_literals))]
pub fn reads_faulty_lines()
    // A line with an open quote has this cause, and the next line is read.
    ensures quote { script_of (codes "show --view \"results\nshow\n")
        ≡ Ok (at_fault 1 OpenQuote ∷ with_words 2 (codes "show" ∷ []) ∷ []) }
    // A line with a word that is no UTF-8 text has this cause, and the next line is read.
    ensures text { script_of (codes "show " ++ 255 ∷ 10 ∷ codes "show")
        ≡ Ok (at_fault 1 NotText ∷ with_words 2 (codes "show" ∷ []) ∷ []) }
    // A line after the thousandth has this cause.
    ensures many { script_of (replicate 1000 10 ++ codes "show")
        ≡ Ok (at_fault 1001 TooManyLines ∷ []) }
{}

/// Computes the lines of scripts without commands.
#[tactic(auto, unfolding(crate::proofs::OnLiterals::scripts_on_literals))]
pub fn reads_no_line()
    // A script without a byte has no line.
    ensures empty { script_of [] ≡ Ok [] }
    // A line of blanks is left out, and a line that begins with blanks is no comment.
    ensures blank { script_of (codes " \n\n  # \n") ≡ Ok (with_words 3 (codes "#" ∷ []) ∷ []) }
{}

/// Computes the rows of files of classes: a class is 1 to 65535 in decimal, without leading zeros.
#[tactic(auto, unfolding(crate::proofs::OnLiterals::rows_on_literals))]
pub fn reads_classes()
    // The classes 1 and 65535 are read.
    ensures read { classes_of_file (codes "host,class\nh1,1\nh2,65535\n")
        ≡ Ok (classed (codes "h1") 1 ∷ classed (codes "h2") 65535 ∷ []) }
    // The class 0 is refused.
    ensures zero { classes_of_file (codes "host,class\nh1,0\n") ≡ Err (BadFile 2 Class) }
    // The class 65536 is refused.
    ensures high { classes_of_file (codes "host,class\nh1,65536\n") ≡ Err (BadFile 2 Class) }
    // A class with a leading zero is refused.
    ensures padded { classes_of_file (codes "host,class\nh1,01\n") ≡ Err (BadFile 2 Class) }
{}
