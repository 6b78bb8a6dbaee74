//! The views.

ghost use Rattle.std.specs.Prelude.{◌≤◌, IfSome, length};

/// Returns the explanation of the view of this name; `None` if there is no such view.
pub fn view_text<'a>(name: &str) -> Option<&'a str>
    // A text that is returned is not empty.
    ensures { IfSome result (λ text. 1 ≤ length text.now) }
{
    match name {
        "workunits" => Some(
            "show --view workunits: a line for each workunit, in order of number
  number name
  input=        bytes of the input that are held, 0 once it is deleted
  quorum= target= max_error= max_total= max_success= delay= credit=
                its parameters: explain template
  mask=         why it is given up, 0 where it is not: explain mask
  canonical=    the number of the instance whose output was accepted
  assimilate=   INIT, READY to be assimilated, DONE
  delete=       of its input: INIT, READY to be deleted, DONE
  done=         when it was assimilated
  class=        of the host that an instance was sent to last; 0 once a transition
                finds none in progress, and no success that may still count
A value that is not there is -.
",
        ),
        "results" => Some(
            "show --view results: a line for each instance, in order of its workunit's number
and its own
  name          its workunit's name, _ and its number
  where it is   UNSENT, IN_PROGRESS, OVER
  how it ended  INIT, SUCCESS, CLIENT_ERROR, NO_REPLY (its deadline passed),
                DIDNT_NEED (it was closed unsent), VALIDATE_ERROR (a success with
                an empty output), CLIENT_DETACHED
  its verdict   INIT, VALID, INVALID, NO_CHECK (its workunit was given up),
                INCONCLUSIVE (more results are needed), TOO_LATE
  its output    INIT, READY to be deleted, DONE
  host= sent= deadline= received=
  output=       bytes of the output that are held
A value that is not there is -.
",
        ),
        "hosts" => Some(
            "show --view hosts: a line for each host with a grant, in order of the bytes of
its name
  name
  total=        the sum of its grants' credit
  grants=       how many grants it has
",
        ),
        "archive" => Some(
            "show --view archive: a line for each workunit that was assimilated, in that order
  number name
  mask=         why it was given up, 0 where it was not: explain mask
  canonical=    the number of the instance whose output was accepted
  done=         when it was assimilated
  output=       that output in hex, - where there is none or it is empty
Archived rows stay when their workunits are purged.
",
        ),
        "summary" => Some(
            "show --view summary: twelve lines
  version       of the tables
  next          the number that the next workunit gets
  workunits results unsent in_progress over
                how many are present, and of the results how many are so
  archived      workunits that were assimilated, purged ones too
  grants credit how many grants there are, and the sum of their credit
  imports       batches, files of sends, of reports and of classes
  classes       hosts that have a class
",
        ),
        "classes" => Some(
            "show --view classes: a line for each host that has a class, in order of the bytes
of its name
  name
  class=        1 to 65535: explain file classes
A host that no file named has class 0, and no line.
",
        ),
        _ => None,
    }
}
