//! The files of rows.

ghost use Rattle.std.specs.Prelude.{◌≤◌, IfSome, length};

/// Returns the explanation of the file of this name; `None` if there is no such file.
pub fn file_text<'a>(name: &str) -> Option<&'a str>
    // A text that is returned is not empty.
    ensures { IfSome result (λ text. 1 ≤ length text.now) }
{
    match name {
        "jobs" => Some(
            "A file of jobs: CSV with the header
name,input
and at most 1,000 rows, in at most 1,048,576 bytes
  name          of the workunit: explain names
  input         in hex, 0 to 4,096 bytes
Its jobs become workunits, all of them or none. Why it is refused: explain causes.
",
        ),
        "sends" => Some(
            "A file of sends: CSV with the header
result,host,moment
and at most 1,000 rows, in at most 1,048,576 bytes
  result        the instance that was sent: explain names
  host          to whom
  moment        when: explain moments
Each row finds what the rows before it left; one that does not fit is skipped:
explain skips. Why the file is refused: explain causes.
",
        ),
        "reports" => Some(
            "A file of reports: CSV with the header
result,host,moment,status,output
and at most 1,000 rows, in at most 1,048,576 bytes
  result        the instance that was reported: explain names
  host          by whom
  moment        when: explain moments
  status        success, client_error (it failed there) or detached (the host gave
                it up)
  output        of a success in hex, 0 to 65,536 bytes; else empty
Each row finds what the rows before it left; one that does not fit is skipped:
explain skips. Why the file is refused: explain causes.
",
        ),
        "classes" => Some(
            "A file of classes: CSV with the header
host,class
and at most 1,000 rows, in at most 1,048,576 bytes
  host          whose results are comparable with those of its class alone
  class         1 to 65535, in decimal without leading zeros; a host that no file
                named has class 0
Each row sets the class of its host, a later row over an earlier one. While an
instance of a workunit is in progress, or a success that may still count, its
others go to hosts of the same class. Why the file is refused: explain causes.
",
        ),
        _ => None,
    }
}
