//! The queue of version 2.

ghost use Rattle.std.specs.Prelude.{◌↔◌, IsTrue};
ghost use Rattle.std.specs.List.{AllByRecursion};
ghost use Rattle.wu_schema.specs.Indexes.{IsIndexed, queue_indexes};
ghost use Rattle.wu_tables.specs.Found.{FindsPlace, HasQueueIn};

use crate::known::queue_form;
use crate::lookup::{is_indexed, tree_of};
use sqlite_schema::schema::Schema;

/// Returns whether the table in this tree has the five indexes of the queue.
fn has_indexes(schema: &Schema, tree: u32) -> bool
    ensures { IsTrue result ↔ AllByRecursion (IsIndexed schema.now tree) queue_indexes }
{
    is_indexed(schema, tree, "queue_validate", &[3, 0])
        && is_indexed(schema, tree, "queue_assimilate", &[4, 0])
        && is_indexed(schema, tree, "queue_delete", &[5, 0])
        && is_indexed(schema, tree, "queue_wake", &[2])
        && is_indexed(schema, tree, "queue_purge", &[6])
}

/// Returns where the queue is, or `None` if it is not there in its form and a tree of its own, with its five indexes.
pub fn queue_tree(schema: &Schema) -> Option<u32>
    // A tree is returned exactly where the queue is there in its form, in a tree of its own, with
    // its five indexes.
    ensures { FindsPlace (HasQueueIn schema.now) result }
{
    let tree = tree_of(schema, &queue_form())?;
    if has_indexes(schema, tree) {
        Some(tree)
    } else {
        None
    }
}
