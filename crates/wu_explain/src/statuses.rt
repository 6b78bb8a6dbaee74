//! The statuses that the program ends with.

ghost use Rattle.std.specs.Prelude.{◌≤◌, IfSome, length};

/// Returns the explanation of the status of this number; `None` if there is no such status.
pub fn status_text<'a>(name: &str) -> Option<&'a str>
    // A text that is returned is not empty.
    ensures { IfSome result (λ text. 1 ≤ length text.now) }
{
    match name {
        "0" => Some(
            "Status 0
Done: what was asked for was done, and its answer was written.
",
        ),
        "1" => Some(
            "Status 1
F1 to F13: that command was refused, or a check found no sound project, or a backup
or outputs were refused; the line on standard error says why, and explain F1 to
explain F13 what to do, or explain checks, backups, outputs. The tables are as they
were before it. Of a cycle and of a script the commands before it are done.
",
        ),
        "2" => Some(
            "Status 2
The words of a line are invalid or no UTF-8, ask for help or the version, or name no
view, topic or kind; nothing of that line was done. lintelthyme help lists the
subcommands, and lintelthyme help SUBCOMMAND their options.
",
        ),
        "3" => Some(
            "Status 3
The database can't be opened, or F15 or F16: the next opening shows whether the
last command was done.
Where it can't be opened, a terminal shows the cause, or check --db PATH does:
explain openings says what to do after each. While another process has the file, wait
or use flock.
Where the disk did not take a backup or an output, the project is as it was.
Else open it again by show --view summary: each command that was acknowledged is
there, and the last one whole or not at all. Then repeat that command. An import
under its name with its content acts once, a pass does what is still to do, a
cancel that was done is refused with F10 or F9.
",
        ),
        "4" => Some(
            "Status 4
Out of memory (F14): again the next opening shows whether the last command was done.
Give the program more memory, or fewer workunits at a time by --limit. Then
repeat the command: an import under its name with its content acts once, a pass
does what is still to do, a cancel that was done is refused with F10 or F9.
",
        ),
        "5" => Some(
            "Status 5
The output could not be written (F17): a command whose text was cut was done, and
those after it, in a cycle or a script, were not run. A view may be shown again.
A reader that stops early, as in show .. | head -1, ends a long view so.
",
        ),
        _ => None,
    }
}
