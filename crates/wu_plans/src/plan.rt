//! The plan of a command: what it will answer and what it changes, computed before anything is changed.

use wu_machine::Answer;
use wu_store::Change;

/// What a command will answer, and what it changes.
pub struct Plan<'a> {
    pub answer: Answer,
    pub changes: Vec<Change<'a>>,
}
