//! The imports of one name.

ghost use Rattle.std.specs.Prelude.{◌≡◌, IfOk};
ghost use Rattle.wu_store.specs.Loading.{LoadsImport};
ghost use Rattle.wu_store.specs.Reads.{FindsAt, ReadsWorld};
ghost use Rattle.wu_views.specs.Lines.{AreImportsStorable, FindsLinesNamed, import_line_named, stored_line};

use crate::lines::ImportLine;
use sqlite::{Alter, Connection};
use std::alloc::{AllocError, Global};
use wu_core::{Fault, ImportKind, Name};
use wu_schema::rows::StoredImport;
use wu_store::import_of;

/// All kinds of imports, in the order in which they are listed.
const KINDS: [ImportKind; 4] = [
    ImportKind::Batch,
    ImportKind::Sent,
    ImportKind::Reported,
    ImportKind::Classes,
];

/// Makes the line of what is stored of an import of this kind and name.
fn line_of_stored(
    kind: ImportKind,
    name: &Name,
    stored: StoredImport,
) -> Result<ImportLine, AllocError>
    ensures { IfOk result (λ line. line ≡ stored_line kind name.now stored) }
{
    let StoredImport {
        template: _template,
        content: _content,
        first_number,
        verdicts,
    } = stored;
    Ok(ImportLine {
        kind,
        name: name.copy()?,
        first_number,
        verdicts,
    })
}

/// Returns the line of the import of this kind and name, or `None` if there is none. Returns `NotAProject` if its row is
/// invalid.
fn import_line<S: Alter>(
    conn: &mut Connection<S>,
    alloc: Global,
    kind: ImportKind,
    name: &Name,
) -> Result<Option<ImportLine>, Fault>
    ensures reads { ReadsWorld S.Store conn.old conn.new result
        (FindsAt (import_line_named kind name.now)) (LoadsImport kind name.now) }
{
    match import_of(conn, alloc, kind, name)? {
        Some(stored) => Ok(Some(line_of_stored(kind, name, stored)?)),
        None => Ok(None),
    }
}

/// Returns the lines of the imports of this name, in order of kind. Each kind is asked for by its key.
///
/// Returns `NotAProject` if the row of such an import is invalid.
pub fn import_lines_named<S: Alter>(
    conn: &mut Connection<S>,
    alloc: Global,
    name: &Name,
) -> Result<Vec<ImportLine>, Fault>
    // The connection is open afterwards, except after `Memory` and `Broken`.
    // It only reads, and a fault is `Memory`, `Broken` or `NotAProject`.
    // In each represented world it finds a line for each kind of which there is an import of this
    // name.
    // Over a represented world whose imports can be read, with no limit on steps, `NotAProject` is
    // not returned.
    ensures reads { ReadsWorld S.Store conn.old conn.new result (FindsLinesNamed name.now)
        AreImportsStorable }
{
    let mut lines = Vec::new(alloc);
    for kind in KINDS {
        if let Some(line) = import_line(conn, alloc, kind, name)? {
            lines.push(line)?;
        }
    }
    Ok(lines)
}
