//! Tests whether a schema is the one table, with its index.

ghost use Rattle.std.specs.Prelude.{◌≡◌, ◌↔◌, IsTrue, [], ◌∷◌, true};
ghost use Rattle.oe_sqlite.specs.Shape.{kept, kept_check, kept_index, kept_schema};
ghost use Rattle.sqlite_schema.specs.Code.{term_to};
ghost use Rattle.sqlite_sql.specs.Term.{col, lit, op2};
ghost use Rattle.sqlite_sql.specs.declared.ops.BinaryOp.TheVariants.{Compare};
ghost use Rattle.sqlite_value.specs.declared.keys.Collation.TheVariants as collation;
ghost use Rattle.sqlite_value.specs.declared.value.Value.TheVariants.{Int, Null};

use sqlite_schema::code::{Op, Terms};
use sqlite_schema::schema::{Column, Index, Kind, Schema, Table};
use sqlite_sql::ops::{BinaryOp, CompareOp};
use sqlite_value::keys::Collation;
use sqlite_value::value::{Bytes, Value};

fn is_text(bytes: &Bytes, text: &str) -> bool
    ensures { IsTrue result ↔ (bytes.now ≡ text.now) }
{
    bytes.as_slice() == text.as_bytes()
}

/// Whether the term at `at` is the column `t`.
fn is_table_column(nodes: &[Op], depth: usize, at: usize) -> bool
    ensures { IsTrue result ↔ (term_to nodes.now depth at ≡ col 1 1) }
{
    depth > 0
        && match nodes.get(at) {
            Some(Op::Column(slot, place)) => *slot == 1 && *place == 1,
            _ => false,
        }
}

/// Whether the term is this number.
fn is_number(nodes: &[Op], depth: usize, at: usize, number: i64) -> bool
    ensures { IsTrue result ↔ (term_to nodes.now depth at ≡ lit (Int number)) }
{
    depth > 0
        && match nodes.get(at) {
            Some(Op::Literal(Value::Int(value))) => *value == number,
            _ => false,
        }
}

/// Whether the term compares the column `t` with this number.
fn is_compared(nodes: &[Op], depth: usize, at: usize, by: CompareOp, number: i64) -> bool
    ensures { IsTrue result ↔ (term_to nodes.now depth at
        ≡ op2 (Compare by collation.Binary) (col 1 1) (lit (Int number))) }
{
    depth > 0
        && match nodes.get(at) {
            Some(Op::Binary(BinaryOp::Compare(how, Collation::Binary), a, b)) => {
                *how == by
                    && is_table_column(nodes, depth - 1, *a)
                    && is_number(nodes, depth - 1, *b, number)
            }
            _ => false,
        }
}

/// Whether the term is the check of the table.
fn is_check(nodes: &[Op], depth: usize, at: usize) -> bool
    ensures { IsTrue result ↔ (term_to nodes.now depth at ≡ kept_check) }
{
    depth > 0
        && match nodes.get(at) {
            Some(Op::Binary(BinaryOp::And, a, b)) => {
                is_compared(nodes, depth - 1, *a, CompareOp::Ge, 0)
                    && is_compared(nodes, depth - 1, *b, CompareOp::Le, 4)
            }
            _ => false,
        }
}

fn has_checks(terms: &Terms) -> bool
    ensures { IsTrue result ↔ (terms.now ≡ kept.checks) }
{
    match terms.roots.as_slice() {
        [at] => is_check(terms.nodes.as_slice(), terms.nodes.len(), *at),
        _ => false,
    }
}

fn has_no_terms(terms: &Terms) -> bool
    ensures { IsTrue result ↔ (terms.now ≡ []) }
{
    terms.roots.len() == 0
}

fn are_one_two(places: &[usize]) -> bool
    ensures { IsTrue result ↔ (places.now ≡ 1 ∷ 2 ∷ []) }
{
    match places {
        [a, b] => *a == 1 && *b == 2,
        _ => false,
    }
}

fn is_column(column: &Column, name: &str, kind: Kind) -> bool
    ensures { IsTrue result ↔ (column.now
        ≡ record { name = name.now; kind = kind; is_strict = true; not_null = true; default = Null; collation = collation.Binary }) }
{
    is_text(&column.name, name)
        && column.kind == kind
        && column.is_strict
        && column.not_null
        && matches!(&column.default, Value::Null)
        && column.collation == Collation::Binary
}

fn are_columns(columns: &[Column]) -> bool
    ensures { IsTrue result ↔ (columns.now ≡ kept.columns) }
{
    match columns {
        [t, k, v] => {
            is_column(t, "t", Kind::Integer)
                && is_column(k, "k", Kind::Text)
                && is_column(v, "v", Kind::Text)
        }
        _ => false,
    }
}

fn has_keys(table: &Table) -> bool
    ensures { IsTrue result ↔ ((table.now.key ≡ kept.key) × (table.now.primary ≡ kept.primary)
        × (table.now.uniques ≡ kept.uniques) × (table.now.orders ≡ kept.orders)) }
{
    let is_unique = match table.uniques.as_slice() {
        [places] => are_one_two(places.as_slice()),
        _ => false,
    };
    let is_plain = match table.orders.as_slice() {
        [order] => order.digits == 0,
        _ => false,
    };
    table.key.is_none() && are_one_two(table.primary.as_slice()) && is_unique && is_plain
}

fn has_no_more(table: &Table) -> bool
    ensures { IsTrue result ↔ ((table.now.references ≡ []) × (table.now.computed ≡ [])
        × (table.now.stamps ≡ kept.stamps)) }
{
    table.references.len() == 0
        && table.computed.len() == 0
        && table.stamps.places.len() == 0
        && has_no_terms(&table.stamps.terms)
        && table.stamps.formats.len() == 0
}

fn is_kept(table: &Table) -> bool
    ensures { IsTrue result ↔ (table.now ≡ kept) }
{
    is_text(&table.name, "kept")
        && table.tree == 0
        && are_columns(table.columns.as_slice())
        && has_keys(table)
        && has_checks(&table.checks)
        && has_no_more(table)
        && !table.is_counted
}

fn is_kept_index(index: &Index) -> bool
    ensures { IsTrue result ↔ (index.now ≡ kept_index) }
{
    is_text(&index.name, "sqlite_autoindex_kept_1")
        && index.tree == 1
        && index.table == 0
        && are_one_two(index.columns.as_slice())
        && index.order.digits == 0
        && index.is_unique
}

/// Whether the schema is the one table, as the resolver writes it, and its index.
pub fn has_shape(schema: &Schema) -> bool
    ensures { IsTrue result ↔ (schema.now ≡ kept_schema) }
{
    let has_table = match schema.tables.as_slice() {
        [table] => is_kept(table),
        _ => false,
    };
    let has_index = match schema.indexes.as_slice() {
        [index] => is_kept_index(index),
        _ => false,
    };
    has_table && has_index && schema.views.len() == 0
}
