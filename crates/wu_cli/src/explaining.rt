//! The explanation of a topic: a fault, a status, a view, a file or another.

ghost use Rattle.wu_cli.specs.Explaining.{ExplainsTopic};

use crate::texts::write_text;
use crate::trouble::Trouble;
use std::alloc::Global;
use std::io::Write;
use wu_arguments::{Topic, Usage, Word};
use wu_explain::{explanation, nearest};

/// Returns the text of a word; empty where there is none.
fn text_or_empty(word: &Option<Word>) -> &str {
    match word {
        Some(word) => word.as_str(),
        None => "",
    }
}

/// Returns the topic that is near to the first two words of this one. Out of memory it is `None`.
fn near_topic(alloc: Global, topic: &Topic) -> Option<Word> {
    let first = text_or_empty(&topic.name);
    let second = text_or_empty(&topic.detail);
    let near = nearest(alloc, first, second)?;
    Word::from_text(alloc, near).ok()
}

/// Writes the explanation of a topic, and flushes. Words that name no topic are refused with status 2, and nothing is
/// written; a topic that is near to them is named.
pub fn explain<W: Write>(alloc: Global, topic: &Topic, out: &mut W) -> Result<(), Trouble>
    // The text of the topic goes out, which is not empty; or a prefix of it with `Output`. Or the
    // words name no topic, which is reported, and nothing goes out.
    ensures { ExplainsTopic W.contents out.old out.new result }
{
    let told = explanation(
        text_or_empty(&topic.name),
        text_or_empty(&topic.detail),
        text_or_empty(&topic.fault_detail),
        text_or_empty(&topic.fault_cause),
    );
    let Some(text) = told else {
        let near = near_topic(alloc, topic);
        return Err(Trouble::Usage(Usage::UnknownTopic(near)));
    };
    write_text(out, text)?;
    Ok(())
}
