//! Whether a table has a form.

ghost use Rattle.std.specs.Prelude.{◌≡◌, ◌↔◌, IsTrue, map, pos};
ghost use Rattle.sqlite_schema.specs.Code.{term_in};
ghost use Rattle.wu_tables.specs.Forms.{checks_of, column_of_form, is_one, no_stamps, op_at, orders_of, places_of, reference_of, table_of_form, HasKeysOf, HasRules, SaysOne};

use crate::forms::{ColumnForm, ReferenceForm, TableForm};
use sqlite_items::Items;
use sqlite_schema::code::{Op, Terms};
use sqlite_schema::schema::{Action, Column, Reference, Stamps, Table};
use sqlite_sql::ops::{BinaryOp, CompareOp};
use sqlite_value::keys::{Collation, Order};
use sqlite_value::value::{Bytes, Value};

/// Returns whether the column has the form.
fn is_column(column: &Column, form: &ColumnForm) -> bool
    ensures { IsTrue result ↔ (column.now ≡ column_of_form form.now) }
{
    let (name, kind, not_null) = match form {
        ColumnForm::May(name, kind) => (*name, *kind, false),
        ColumnForm::Needs(name, kind) => (*name, *kind, true),
    };
    column.name.as_slice() == name.as_bytes()
        && column.kind == kind
        && column.is_strict
        && column.not_null == not_null
        && matches!(column.default, Value::Null)
        && column.collation == Collation::Binary
}

/// Returns whether the columns have the forms.
fn are_columns(columns: &[Column], forms: &[ColumnForm]) -> bool
    ensures { IsTrue result ↔ (columns.now ≡ map column_of_form forms.now) }
{
    columns.len() == forms.len()
        && columns
            .iter()
            .zip(forms)
            .all(|(column, form)| is_column(column, form))
}

/// Returns whether these are the names.
fn are_names(names: &[Bytes], wanted: &[&str]) -> bool
    ensures { IsTrue result ↔ (names.now ≡ map (λ name. name.now) wanted.now) }
{
    names.len() == wanted.len()
        && names
            .iter()
            .zip(wanted)
            .all(|(name, wanted)| name.as_slice() == wanted.as_bytes())
}

/// Returns whether the reference has the form.
fn is_reference(reference: &Reference, form: &ReferenceForm) -> bool
    ensures { IsTrue result ↔ (reference.now ≡ reference_of form.now) }
{
    reference.columns.as_slice() == form.places
        && reference.parent.as_slice() == form.parent.as_bytes()
        && are_names(reference.parent_columns.as_slice(), form.parent_columns)
        && reference.on_delete == Action::Cascade
        && reference.on_update == Action::NoAction
        && !reference.is_deferred
}

/// Returns whether the references have the forms.
fn are_references(references: &[Reference], forms: &[ReferenceForm]) -> bool
    ensures { IsTrue result ↔ (references.now ≡ map reference_of forms.now) }
{
    references.len() == forms.len()
        && references
            .iter()
            .zip(forms)
            .all(|(reference, form)| is_reference(reference, form))
}

/// Returns whether these are the places of the keys.
fn are_places(keys: &[Items<usize>], wanted: &[&[usize]]) -> bool
    ensures { IsTrue result ↔ (keys.now ≡ places_of wanted.now) }
{
    keys.len() == wanted.len()
        && keys
            .iter()
            .zip(wanted)
            .all(|(places, wanted)| places.as_slice() == *wanted)
}

/// Returns whether each of so many keys ascends by its bytes.
fn are_plain(orders: &[Order], keys: &[&[usize]]) -> bool
    ensures { IsTrue result ↔ (orders.now ≡ orders_of keys.now) }
{
    orders.len() == keys.len()
        && orders
            .iter()
            .zip(keys)
            .all(|(order, _)| *order == Order::PLAIN)
}

/// Returns whether the expression at this place is the rowid.
fn is_rowid(ops: &[Op], at: usize) -> bool
    ensures { IsTrue result ↔ (op_at ops.now at ≡ Op.Column 1 0) }
{
    matches!(ops.get(at), Some(Op::Column(1, 0)))
}

/// Returns whether the expression at this place is the number 1.
fn is_number_one(ops: &[Op], at: usize) -> bool
    ensures { IsTrue result ↔ (op_at ops.now at ≡ Op.Literal (Value.Int (pos 1))) }
{
    matches!(ops.get(at), Some(Op::Literal(Value::Int(1))))
}

/// Returns whether a binary expression of these parts says that the rowid is 1.
fn says_one(ops: &[Op], op: BinaryOp, left: usize, right: usize) -> bool
    ensures { IsTrue result ↔ SaysOne ops.now op left right }
{
    op == BinaryOp::Compare(CompareOp::Eq, Collation::Binary)
        && is_rowid(ops, left)
        && is_number_one(ops, right)
}

/// Returns whether the expression at this place says that the rowid is 1.
fn is_one(ops: &[Op], at: usize) -> bool
    ensures { IsTrue result ↔ (term_in ops.now at ≡ is_one) }
{
    match ops.get(at) {
        Some(Op::Binary(op, left, right)) => says_one(ops, *op, *left, *right),
        _ => false,
    }
}

/// Returns whether there is no check, or exactly the one that the rowid is 1, as `is_single` says.
fn are_checks(checks: &Terms, is_single: bool) -> bool
    ensures { IsTrue result ↔ (checks.now ≡ checks_of is_single) }
{
    match checks.roots.as_slice() {
        [] => !is_single,
        [at] => is_single && is_one(checks.nodes.as_slice(), *at),
        _ => false,
    }
}

/// Returns whether no default reads the time.
fn are_no_stamps(stamps: &Stamps) -> bool
    ensures { IsTrue result ↔ (stamps.now ≡ no_stamps) }
{
    stamps.places.is_empty() && stamps.terms.roots.is_empty() && stamps.formats.is_empty()
}

/// Returns whether the keys of the table have the form.
fn has_keys(table: &Table, form: &TableForm) -> bool
    // It is true exactly where key, primary key and further keys are those of the form, compared by
    // bytes in rising order.
    ensures { IsTrue result ↔ HasKeysOf table.now form.now }
{
    table.key == form.key
        && table.primary.as_slice() == form.primary
        && are_places(table.uniques.as_slice(), form.uniques)
        && are_plain(table.orders.as_slice(), form.uniques)
}

/// Returns whether the rules of the table have the form.
fn has_rules(table: &Table, form: &TableForm) -> bool
    // It is true exactly where checks and references are those of the form, with no computed
    // column, time of default or counter.
    ensures { IsTrue result ↔ HasRules table.now form.now }
{
    are_checks(&table.checks, form.is_single)
        && are_references(table.references.as_slice(), form.references)
        && table.computed.is_empty()
        && are_no_stamps(&table.stamps)
        && !table.is_counted
}

/// Returns whether the table has the form, in the tree where it is.
pub fn is_like(table: &Table, form: &TableForm) -> bool
    // It is true exactly where the table is the one that the form describes, in the table's own
    // tree.
    ensures { IsTrue result ↔ (table.now ≡ table_of_form form.now table.now.tree) }
{
    table.name.as_slice() == form.name.as_bytes()
        && are_columns(table.columns.as_slice(), form.columns)
        && has_keys(table, form)
        && has_rules(table, form)
}
