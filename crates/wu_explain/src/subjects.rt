//! Other subjects.

ghost use Rattle.std.specs.Prelude.{◌≤◌, IfSome, length};

/// Returns the explanation of this subject; with no name, the list of all topics. Returns `None` if there is no such
/// subject.
pub fn subject_text<'a>(name: &str) -> Option<&'a str>
    // A text that is returned is not empty.
    ensures { IfSome result (λ text. 1 ≤ length text.now) }
{
    match name {
        "" => Some(
            "lintelthyme explain TOPIC says what is meant, what stands afterwards, what to do
  F1 to F17     a fault, as it is printed: explain F3
  0 to 5        the status that the program ends with: explain 3
  view          which views there are
  view VIEW     workunits, results, hosts, archive, summary or classes: explain view
                hosts
  file FILE     jobs, sends, reports or classes: explain file jobs
  causes        why a file is refused
  skips         why a row of sends or reports is skipped
  template      the keys of a template, with their ranges and defaults
  names         of imports, workunits, hosts and instances
  moments       how a moment is written
  imports       what becomes of one that comes again
  passes        what each pass does, and whether there is more to do
  mask          why a workunit is given up
  waits         what the subcommand status prints
  scripts       many commands in one opening
  cancels       how a workunit is given up by hand
  upgrade       a project of an older version
  checks        whether a database holds a sound project, and what it reports
  openings      why a database can't be opened
  backups       a copy of a project in a file of its own
  outputs       the outputs of finished jobs as files
  lint          whether a file reads as its import would read it
Faults, causes, words of skipped rows, columns, states and counts, and what a check, a
backup or outputs report are taken as they are printed. Quote a line of more than six
words.
",
        ),
        "view" => Some(
            "The views, each printed by lintelthyme show --db PATH --view VIEW
  workunits     a line for each workunit
  results       a line for each instance
  hosts         the credit of each host with a grant
  archive       a line for each workunit that was assimilated
  summary       counts of all of it
  classes       the class of each host that has one
explain view workunits says what stands in a line.
",
        ),
        "status" => Some(
            "The status that the program ends with
  0  done
  1  refused, as F1 to F13; no sound project; no backup or outputs
  2  the words are no command, or ask for help
  3  the database can't be opened or failed: F15, F16
  4  out of memory: F14
  5  the output failed: F17
explain 3 says what to do after 3. The command status prints what waits. As a cause
of F3, status is a word of a report that is no status: explain causes.
",
        ),
        "causes" => Some(
            "Why a file is refused, as F3 BadFile ROW CAUSE: the first faulty row, and there
the first of
  unreadable    row 0: the program could not read the file
  too_long      row 0: it has more than 1,048,576 bytes
  header        row 1: it does not begin with its header
  too_many_rows row 1002: it has more than 1,000 rows
  fields        it has more or fewer fields than the header
  name input    of a job: the name is not valid; the input is no hex, or too long
  result host moment
                of a send or a report: no instance's name, no name, no moment
  status output of a report: no status; no hex, too long, or an output where the
                status has none
  class         of a host: no number from 1 to 65535, or one with leading zeros
",
        ),
        "skips" => Some(
            "Why a row of sends or reports is skipped: the first of
  unknown       the instance is not there
and of sends
  not_unsent    it does not wait to be sent
  same_host     it would go to a host that has an instance of the workunit
  class         the workunit has instances in progress, or successes that may still
                count, and the host is not of their class
and of reports
  not_sent      it was never sent
  wrong_host    it was sent to another host
  before_sent   it was sent after the moment of the report
  over          it has ended; only one that ended for want of a reply may still be
                reported
The other rows are applied. A row is judged once: give one that was skipped again
in a file of another name.
",
        ),
        "template" => Some(
            "A template: TOML of at most 65,536 bytes, with whole numbers
  key                  range              default
  min_quorum           1 to 20            2
    successes that have to be there before the validator looks
  target_nresults      min_quorum to 20   2
    results that are needed
  max_error_results    0 to 100           3
    errors that a workunit bears
  max_total_results    1 to 100           10
    instances that may be made
  max_success_results  0 to 100           6
    successes without a consensus that a workunit bears
  delay_bound          1 to 31536000      604800
    seconds from the sending of an instance to its deadline
  credit               0 to 1000000       1
    what a valid result is worth
A key that is absent has its default. A quorum above 2 needs a target. Refused as
F2 BadTemplate KEY: document (too long, no UTF-8 or no TOML), unknown, or the first
key at fault.
",
        ),
        "names" => Some(
            "A name of an import, a workunit or a host: 1 to 64 ASCII letters, digits, _, . or -
An instance is its workunit's name, _ and its number, 0 to 99 without leading
zeros: job_1_0. It is cut at the last _.
",
        ),
        "moments" => Some(
            "A moment is the one text of 20 bytes YYYY-MM-DDTHH:MM:SSZ, in UTC, of a day and a
time that exist, from 1970 to 2099: 2026-03-01T13:00:00Z
`date -u +%FT%TZ` prints the present one.
",
        ),
        "imports" => Some(
            "An import is known by its kind (batch, sent, reported, classes) and its name. The
same name and content again, and for a batch the same template, answers what it
answered first and changes nothing of the project; other content under the name is
F4. A name that was refused is not used up. So after a stop an import may be
repeated under its name: it acts once. Its rows are judged once too: give a row
that was skipped again under another name.
The subcommand imports prints a line for each, in order of kind and of the bytes of
its name
  kind name
  rows=         how many rows its file had, without the header
  applied= skipped=
                how many of them were, and were not: explain skips
  first=        of a batch the number of its first workunit, - where it has none
With --name it prints the imports of that name alone, each with a line for every row
that was skipped: explain skips
",
        ),
        "passes" => Some(
            "A pass takes the first workunits by number that it changes, up to its limit. Where
it answers its limit, more may be left: run it again, or after repeat in a script.
  transition    times out what is overdue, makes instances, closes what is given up
  validate      compares results, finds canonical ones and grants credit
  assimilate    closes what is ready, and keeps its canonical output for good
  delete        deletes the inputs and outputs that nobody needs any more
  purge         removes workunits that are finished and were assimilated long enough
                ago
A cycle runs transition, validate, transition, assimilate, transition, delete and
purge. A pass that is repeated does what is still to do.
The subcommand status prints how many workunits each would change: explain waits.
",
        ),
        "mask" => Some(
            "The mask of a workunit is a sum, 0 where it is not given up
  2             too many errors
  4             too many successes without a consensus
  8             too many instances
  16            cancelled
",
        ),
        "waits" => Some(
            "lintelthyme status --db PATH --now MOMENT: what is open at that moment
  transition validate assimilate delete purge
                for each pass the workunits that it would change, if it had no limit,
                a purge with the least age 0
  undecided     workunits without a canonical result that are not given up
  given_up      workunits that are given up: explain mask
  overdue       instances in progress whose deadline has passed
  next_deadline the earliest deadline of the others in progress, - where there is none
  host          a host, with its instances that ended with an error, and those that
                ended without a reply; the ten hosts with most of both
",
        ),
        "scripts" => Some(
            "A script has a command a line, without the program's name and without --db. Blanks
stand between words; a word in double quotes may hold blanks. A line that begins
with # is a comment. At most 1,000 lines, in at most 1,048,576 bytes.
All lines, and all files that they name, are read before the database is opened: a
line that can't be run is reported with its number, and nothing is done. Then the
commands run in one opening up to the first fault; the lines before it are done.
After the word repeat a pass is run until it answers less than its limit, each time
as a command of its own, and at most a million times:
  repeat transition --now 2026-03-01T12:00:00Z --limit 1000
After the word try a command, a cycle or a view is run. Where it is refused with F1
to F11 or F13, that fault is printed in place of its answer, of a view after the
lines before it, and the script goes on:
  try cancel --workunit job_7
The last lines may ask for what is made of a copy of the project:
  backup --to FILE
  outputs --to FOLDER
They run after the other lines, if none of these ended the script, and up to the
first that is not made. The database is closed then, and no other process has it.
A session takes such lines one by one from standard input, backups between them too,
each of at most 65,536 bytes:
  lintelthyme session --db PATH
",
        ),
        "cancels" => Some(
            "cancel --db PATH --workunit NAME gives up a workunit that is undecided, and prints
  cancel NAME: done
Its mask has 16 from then on: explain mask. The passes close its instances, and
archive and remove it as any other. A cancel that was done is refused as F10, or as
F9 after the purge. So in a script put try before it: explain scripts.
",
        ),
        "upgrade" => Some(
            "upgrade --db PATH makes a project of version 1 or 2 one of version 3, and prints the
version that it had and the one that it has
  upgrade: 1 to 3
Until then every other command and view is refused as F11. A check, a backup and
outputs work: make a backup before. A project of version 3 stays as it is: upgrade:
3 to 3.
",
        ),
        "checks" => Some(
            "Whether a database holds a sound project
lintelthyme check --db PATH reads all tables whole, and answers with status 0
  ok version=3 workunits=4 results=8
or reports with status 1 the first thing that is wrong: the table, the key of the
row or its place in order of the key, and what is the matter; or with status 3
why the database can't be opened: explain openings. It changes no table and makes no
database, and its memory grows with the tables. Where it reports something, stop all
passes, keep a copy of both files, and go back to a copy that a check calls sound.
The order is: tables, their rows, rows that do not agree, the queue, and last the
names that an upgrade gives. If something has such a name, the project is sound,
and only its upgrade is refused: set back a version that was lowered by hand, or
rename what has the name. If there is no table project, and something has a name that
a new project gives, no command can make one: rename that, or take another file. If
the name is project, it is a view, or a table with somebody's trigger: drop that.
A table that has somebody's trigger is reported as missing, or its file as no
database that this program reads. So is a file with a row that refers to none, with a
virtual table, or with somebody's index that has a WHERE or is over an expression.
sqlite3 finds the first two by
  SELECT name, tbl_name FROM sqlite_schema WHERE type = 'trigger'
  PRAGMA foreign_key_check
",
        ),
        "openings" => Some(
            "Why a database can't be opened, as a check or a terminal says, and what to do
  there is no such file
                see the path
  its name is that of a log
                give the path of the database
  its log or its journal is there, and its file is gone or empty
                put the database back beside it
  its log is a link
                put the log itself there
  something else lies in the place of its log or its journal
                move it away, and put the right log there
  it is in use
                wait until no other process has it
  it is no database that this program reads
                see whether it is the right file, and explain checks
  it has auto-vacuum or texts in UTF-16
                such a database cannot be used
  its file has a second name, and its log may lie beside that
                remove the other hard link
  it has a rollback journal, which only sqlite3 rolls back
                open it with sqlite3 first
  it is damaged, or the log beside it is of another database
                go back to a copy of both files
  the disk failed, the disk is full
                see to the disk
  the file cannot be opened
                see who may read and write it and its folder, and that it is a file
Only a terminal shows the cause after a command; check --db PATH reports it, where a
copy of both files shows it. Where that prints ok, see who may write the file and its
folder, and that no other program has it.
The log of PATH is PATH-wal, and its journal PATH-journal. Never move one of the two
files, the database and its log, alone.
Where there is no file and no log, a command other than check, backup and outputs
makes a project, and a terminal shows
  made PATH
Where none was to be made, see the path.
",
        ),
        "backups" => Some(
            "A copy of a project in a file of its own
lintelthyme backup --db PATH --to FILE reads a project as a check does, makes FILE
with all of its tables and without a log, and answers once FILE is on the disk
  backup FILE: version=3 workunits=4 results=8
What a check finds wrong is reported instead, with its status, and no file is made. So
is a path where something lies, with status 1, and with 3 a disk that does not take
the file. While another process has the project, there is no backup of it; a line
  backup --to FILE
of a session makes one between two commands, and at the end of a script it makes one
after the others. After a crash FILE is there whole or not at all; a FILE-part that
is left may be removed.
",
        ),
        "lint" => Some(
            "lint --kind KIND --file FILE reads a file as its import would read it, and prints ok and
its path. A kind is jobs, sends, reports, classes, template or script. Else the fault
is that of the import: explain causes, explain template. A script is read with the
files of its lines, as before it is run: explain scripts. No database is opened, so
that a name is taken, or that a workunit is not there, is not noticed.
",
        ),
        "outputs" => Some(
            "The outputs of finished jobs as files
lintelthyme outputs --db PATH --to FOLDER reads a project as a check does, and
writes each archived canonical output into a file of FOLDER with the name of its
workunit; with --name NAME, that of this workunit alone. It answers
  outputs FOLDER: made=2 there=1
where one file of three was there already, with the same bytes. A name that is . or
.., or ends in -wal, -journal or -shm, has a + after it, since it is that of a
folder, or of what a database keeps beside its file. Anything else in a file's place
is reported with the number and the name of the workunit, with status 1, and a disk
that takes no more with 3; the files before it stay. FOLDER has to be there. While
another process has the project, there are no outputs of it; a line
  outputs --to FOLDER
of a session writes them between two commands, and at the end of a script after the
others. Of a run that was stopped a NAME+part may be left, which the next one
replaces. The project keeps each output: where the power failed during a run, empty
FOLDER and run it again.
",
        ),
        _ => None,
    }
}
