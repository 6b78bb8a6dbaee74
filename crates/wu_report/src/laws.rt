//! Laws of the texts of views.

ghost use Rattle.wu_report.specs.Marks.{NoViewLineIsMarked, ReadableNamesAreValid};
ghost use Rattle.wu_report.specs.Statuses.{PassesAnswerStatus};

/// Proves that no line of a view begins with `=`. In a session such a line ends an answer.
pub fn no_view_line_is_marked()
    // If the names in a view are valid, no line of its text begins with `=`.
    ensures text { NoViewLineIsMarked }
    // The names in a view that can be read are valid.
    ensures names { ReadableNamesAreValid }
{}

/// Proves that what waits for a pass is what the pass answers.
pub fn status_is_what_passes_answer()
    // Of a project of the present version, a pass with the least age 0 answers the number of its
    // line in the status of its moment, up to its limit.
    ensures { PassesAnswerStatus }
{}
