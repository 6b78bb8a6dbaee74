//! Laws of the texts of answers.

ghost use Rattle.wu_drive.specs.Marks.{AnswersHaveValidNames, HasUnmarkedAnswer, NoAnswerLineIsMarked, NoFaultLineIsMarked};
ghost use Rattle.wu_machine.specs.Commands.{request_of};

use wu_machine::Command;
use wu_machine::laws::has_values;

/// Proves that no line of an answer begins with `=`. In a session such a line ends an answer.
pub fn no_answer_line_is_marked()
    // If the name in an answer is valid, no line of its text begins with `=`.
    ensures text { NoAnswerLineIsMarked }
    // The answer to a request with values in range, over a world that commands run over, has a valid
    // name.
    ensures names { AnswersHaveValidNames }
{}

/// Proves that no line of the answer to a command begins with `=`.
pub fn no_answer_to_a_command_is_marked(command: &Command)
    // Over a world that commands run over, no line of the answer to the command begins with `=`.
    ensures { HasUnmarkedAnswer (request_of command.now) }
{
    has_values(command);
    no_answer_line_is_marked();
}

/// Proves that no line of a fault begins with `=`. In a session such a line goes out for a refusal that is passed over.
pub fn no_fault_line_is_marked()
    // No line of the text of a fault, with its line end, begins with `=`.
    ensures { NoFaultLineIsMarked }
{}
