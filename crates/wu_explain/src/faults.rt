//! The faults.

ghost use Rattle.std.specs.Prelude.{◌≤◌, IfSome, length};

/// Returns the explanation of the fault of this number, as `F3`; `None` if there is no such fault.
pub fn fault_text<'a>(number: &str) -> Option<&'a str>
    // A text that is returned is not empty.
    ensures { IfSome result (λ text. 1 ≤ length text.now) }
{
    match number {
        "F1" => Some(
            "F1 BadName
The name of an import or of a workunit is not valid. Write 1 to 64 letters,
digits, _, . or -.
Nothing was done. Status 1.
",
        ),
        "F2" => Some(
            "F2 BadTemplate KEY
The first key of the template at fault, or document, or unknown. Set it within
its range: explain template.
No job was added; the import's name is still free. Status 1.
",
        ),
        "F3" => Some(
            "F3 BadFile ROW CAUSE
The first faulty row of the file, and its first cause there: explain causes.
Mend the row, and import again under the same name. Row 1 is the header. Row 0 is
the file as a whole: where that is unreadable, see its path and who may read it,
also of a template.
No row was applied. Status 1.
",
        ),
        "F4" => Some(
            "F4 NameUsed
A file of this kind came under this name with other content. Choose another
name, or give the first content.
Nothing was done, and what came first under the name stands. Status 1.
",
        ),
        "F5" => Some(
            "F5 WorkunitUsed ROW
The first row whose name a workunit, an archived one or an earlier row has. No
job of the file was added. Rename that job, or leave it out.
The import's name is still free. Status 1.
",
        ),
        "F6" => Some(
            "F6 TooMany
With these jobs there would be more than 1,000,000,000 workunits ever. Begin
another project.
No job of the file was added. Status 1.
",
        ),
        "F7" => Some(
            "F7 BadMoment
The text of --now is no moment. Write YYYY-MM-DDTHH:MM:SSZ, 1970 to 2099, of a
day that exists.
Nothing was done. `date -u +%FT%TZ` prints the present moment. Status 1.
",
        ),
        "F8" => Some(
            "F8 BadLimit
The limit is not 1 to 1000, or the least age is above 31536000. Choose one in
its range.
The pass changed nothing. Of a cycle with a wrong age the six passes before the
purge were done. Status 1.
",
        ),
        "F9" => Some(
            "F9 UnknownWorkunit
No workunit of this name is present, or none any more. Look at show --view
workunits, and at show --view archive.
Nothing was done. Status 1.
",
        ),
        "F10" => Some(
            "F10 NotOpenToCancel
The workunit is decided, or was given up before. Nothing is to be done: the passes
go on with it.
Nothing was changed. Status 1.
",
        ),
        "F11" => Some(
            "F11 OldSchema VERSION
The project is of this older version. Copy its file, and its log where there is
one, then run upgrade.
Nothing was done. Status 1.
",
        ),
        "F12" => Some(
            "F12 NewSchema VERSION
The project is of this later version, which the program does not know. Run the
later program.
Nothing was done. Status 1.
",
        ),
        "F13" => Some(
            "F13 NotAProject
A table of another program has one of our names, or a stored row is no value of its
type. Or a statement was refused, say by somebody's index, or by a foreign key that
refers to one of our tables. See whether it is the right file, and who else wrote to
it; take out what refuses, or take a copy from before.
The tables are as they were before the command; of a cycle, the passes before it
are done. Status 1.
",
        ),
        "F14" => Some(
            "F14 Memory
Out of memory. Give more, and go on as after status 4: explain 4.
",
        ),
        "F15" => Some(
            "F15 Broken
The disk failed or is full, the file is damaged, a size was too big, the
connection was closed, or a commit or a rollback failed. See to the disk, and go
on as after status 3: explain 3.
",
        ),
        "F16" => Some(
            "F16 Ended
The session had ended. A caller of the library may see it; a line and a script
end at the fault before it.
",
        ),
        "F17" => Some(
            "F17 Output
The output took no more bytes. Go on as after status 5: explain 5.
",
        ),
        _ => None,
    }
}
