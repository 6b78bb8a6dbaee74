//! A walk over what a view lists: each line is handed on before the next row is asked for.

ghost use Rattle.wu_views.specs.Walking.{Walked};

use crate::listings::Listing;
use sqlite::{Alter, Connection, Rows};
use std::alloc::Global;
use wu_core::Fault;
use wu_schema::fault_of;

/// What takes the lines of a view, one after another.
pub trait Takes<T> {
    ghost use Rattle.std.specs.Prelude.{IsOkUnless, MatchResult};
    ghost use Rattle.wu_core.specs.declared.fault.Fault.TheVariants.{Output};

    /// The states before and after it takes this line.
    ghost takes: { Self → Self → T → Type 0 };

    /// The states before and after it refuses this line, and takes no more.
    ghost refuses: { Self → Self → T → Type 0 };

    /// Takes a line. Returns `Output` if it takes no more.
    fn take(&mut self, line: &T) -> Result<(), Fault>
        // After `Ok` the line is taken, as `takes` says; a fault means that it takes no more at
        // this line.
        ensures taken { MatchResult result (λ _. takes self.old self.new line.now)
            (λ _. refuses self.old self.new line.now) }
        // The only fault is `Output`.
        ensures fault { IsOkUnless result Output };
}

/// Hands each line of a view to what takes them, as the database hands out its row. It holds no list of rows.
///
/// Returns `NotAProject` if a row is no line, and `Output` if no more lines are taken.
pub fn walk<S: Alter, L: Listing, K: Takes<L::Item>>(
    conn: &mut Connection<S>,
    alloc: Global,
    taker: &mut K,
) -> Result<(), Fault>
    // Hands on the lines of each represented world with classes, in order and each once: all, or
    // the first ones up to a fault. Whatever the tables hold, it hands on one line after another;
    // over a shut connection, none. `Output` means exactly that the taker takes no more; each other
    // fault is of the store. It only reads: except after `Memory` and `Broken` all is as before and
    // the connection open. Where the lines are readable, with no limit on steps, no row is refused.
    ensures { Walked S.Store L.Listing.lines L.Listing.is_readable K.Takes.takes K.Takes.refuses
        conn.old conn.new taker.old taker.new result }
{
    let mut rows = match conn.query(L::question::<S>(), &[]) {
        Ok(rows) => rows,
        Err(error) => return Err(fault_of(&error)),
    };
    // no table has so many rows
    'rows: for _ in 0..u64::MAX {
        if let Err(error) = rows.advance() {
            return Err(fault_of(&error));
        }
        let Some(row) = rows.get() else {
            return Ok(());
        };
        let line = L::read(alloc, row)?;
        taker.take(&line)?;
    }
    Err(Fault::Memory)
}
