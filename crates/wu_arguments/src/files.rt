//! The files that a line names, and what reads them.

ghost use Rattle.std.specs.Prelude.{◌≡◌, IfErr, IfOk, true};
ghost use Rattle.wu_core.specs.Reads.{OkOrWantsMemory};
ghost use Rattle.wu_core.specs.declared.fault.Fault.TheVariants.{Memory};
ghost use Rattle.wu_arguments.specs.Actions.{bytes_of, content_bytes};
ghost use Rattle.wu_arguments.specs.Contents.{AreContentsOf, IsTemplateOf, names_files};

use crate::line::Asking;
use crate::word::Word;
use std::alloc::Global;
use wu_core::{Fault, ImportKind};
use wu_feed::{LONGEST_FILE, LONGEST_TEMPLATE};

/// What reads the files that words name.
pub trait ReadFile {
    ghost use Rattle.std.specs.Prelude.{ℕ, List, Option};
    ghost use Rattle.wu_core.specs.Reads.{OkOrWantsMemory};
    ghost use Rattle.wu_arguments.specs.Actions.{content_bytes};

    /// This may be what a reading of the path gives, of so many bytes at most and one more.
    ghost gives: { Self → List ℕ → ℕ → Option (List ℕ) → Type 0 };

    /// Returns the bytes of the file at the path, at most so many and one more, by which a file that is too long is
    /// noticed. Returns `None` if it cannot be read. The only fault is `Memory`.
    fn read(&self, path: &str, most: usize) -> Result<Option<Vec<u8>>, Fault>
        // What is read is what the file at this path may give, of at most so many bytes and one
        // more. The only fault is `Memory`.
        ensures { OkOrWantsMemory result
            (λ bytes. gives self.now path.now most (content_bytes bytes)) };
}

/// Returns what a template holds. One that is left out has no bytes.
fn template_content<F: ReadFile>(
    alloc: Global,
    files: &F,
    template: &Option<Word>,
) -> Result<Option<Vec<u8>>, Fault>
    ensures { OkOrWantsMemory result (λ content. IsTemplateOf (F.ReadFile.gives files.now)
        template.now (content_bytes content)) }
{
    match template {
        Some(path) => files.read(path.as_str(), LONGEST_TEMPLATE),
        None => Ok(Some(Vec::new(alloc))),
    }
}

impl Asking {
    /// Returns what the line's files hold, in the order of its usage line: jobs and template, the one file of rows, or
    /// nothing. A content is `None` for a file that could not be read. The only fault is `Memory`, of an import alone.
    pub fn read_files<F: ReadFile>(
        &self,
        alloc: Global,
        files: &F,
    ) -> Result<Vec<Option<Vec<u8>>>, Fault>
        // There is a content for each file of the line, in the order of its usage line; a template
        // left out has no bytes.
        ensures contents { IfOk result (λ contents.
            AreContentsOf (F.ReadFile.gives files.now) self.now (bytes_of contents.items)) }
        // The only fault is `Memory`, and only of a line that names files.
        ensures fault { IfErr result (λ fault.
            (fault ≡ Memory) × (names_files self.now ≡ true)) }
    {
        let Asking::Import {
            kind,
            file,
            template,
            ..
        } = self
        else {
            return Ok(Vec::new(alloc));
        };
        let content = files.read(file.as_str(), LONGEST_FILE)?;
        let contents = match kind {
            ImportKind::Batch => {
                Vec::from_array(alloc, [content, template_content(alloc, files, template)?])?
            }
            _ => Vec::from_array(alloc, [content])?,
        };
        Ok(contents)
    }
}
