// The part of a tree that a cursor gives.
ghost use Rattle.std.specs.Prelude.{◌≡◌, true, false, MatchOption};
ghost use Rattle.std.specs.declared.cmp.Ordering.TheVariants.{Less, Equal, Greater};
ghost use Rattle.value_form.specs.Order.{integer};
ghost use Rattle.tree_scan.specs.Bounded.{of_table, leading_order, last_integer, number_of_row, IsRowidOver, IsKeyOver, IsRowOver};

use std::cmp::Ordering;
use value_form::{Row, Value, order};

// Which items: the rows of a table from one rowid up to another, or the entries of an index from leading values up to others. Both
// bounds are inclusive, and where one is none there is no bound on that side.
#[derive(Drop)]
pub(crate) enum Bounds {
    Rows { low: Option<i64>, high: Option<i64> },
    Entries { low: Option<Row>, high: Option<Row> },
}

// Whether the tree is a table's.
pub(crate) fn is_of_table(bounds: &Bounds) -> bool
    ensures { result ≡ of_table bounds.now }
{
    match bounds {
        Bounds::Rows { .. } => true,
        Bounds::Entries { .. } => false,
    }
}

// Whether a cell's rowid is over the bound. In an index none is.
pub(crate) fn is_key_over(bounds: &Bounds, rowid: i64) -> bool
    ensures over { result ≡ true → IsKeyOver bounds.now rowid }
    ensures inside { result ≡ false → IsKeyOver bounds.now rowid → ⊥ }
{
    match bounds {
        Bounds::Rows { high, .. } => is_rowid_over(*high, rowid),
        Bounds::Entries { .. } => false,
    }
}

// Whether a rowid is over a bound.
fn is_rowid_over(high: Option<i64>, rowid: i64) -> bool
    ensures over { result ≡ true → IsRowidOver high rowid }
    ensures inside { result ≡ false → IsRowidOver high rowid → ⊥ }
{
    match high {
        Some(high) => high < rowid,
        None => false,
    }
}

// What is given of a row in a cell with a rowid: nothing where its leading values are over the bound of an index.
pub(crate) fn given(bounds: &Bounds, rowid: i64, row: Row) -> Option<(i64, Row)>
    ensures none { MatchOption result (IsRowOver bounds.now row) (λ pair. IsRowOver bounds.now row → ⊥) }
    ensures number { MatchOption result (Unit {0}) (λ pair. pair.0 ≡ number_of_row bounds.now rowid row) }
    ensures row { MatchOption result (Unit {0}) (λ pair. pair.1 ≡ row) }
{
    if is_row_over(bounds, &row) {
        return None;
    }
    Some((number_of(bounds, rowid, &row), row))
}

// Whether a row's leading values are over the bound of an index.
fn is_row_over(bounds: &Bounds, row: &Row) -> bool
    ensures over { result ≡ true → IsRowOver bounds.now row.now }
    ensures inside { result ≡ false → IsRowOver bounds.now row.now → ⊥ }
{
    match bounds {
        Bounds::Rows { .. } => false,
        Bounds::Entries { high: None, .. } => false,
        Bounds::Entries {
            high: Some(high),
            ..
        } => is_above(row, high),
    }
}

// The number that comes with a row: its rowid, or of an entry the last value where that is an integer.
fn number_of(bounds: &Bounds, rowid: i64, row: &Row) -> i64
    ensures { result ≡ number_of_row bounds.now rowid row.now }
{
    match bounds {
        Bounds::Rows { .. } => rowid,
        Bounds::Entries { .. } => last_integer(row),
    }
}

// The last value of a row where that is an integer, else 0.
fn last_integer(row: &Row) -> i64
    ensures { result ≡ last_integer row.now }
{
    match row.values().last() {
        Some(value) => integer_of(value),
        None => 0,
    }
}

// The integer, or 0 where a value is none.
fn integer_of(value: &Value) -> i64
    ensures { result ≡ integer value.now }
{
    match value {
        Value::Int(number) => *number,
        Value::Null | Value::Text(_) | Value::Blob(_) => 0,
    }
}

// Whether a row's leading values are less than a bound.
pub(crate) fn is_below(row: &Row, bound: &Row) -> bool
    ensures below { result ≡ true → leading_order row.now bound.now ≡ Less }
    ensures not { result ≡ false → leading_order row.now bound.now ≡ Less → ⊥ }
{
    match order_leading(row, bound) {
        Ordering::Less => true,
        Ordering::Equal => false,
        Ordering::Greater => false,
    }
}

// Whether they are greater.
fn is_above(row: &Row, bound: &Row) -> bool
    ensures above { result ≡ true → leading_order row.now bound.now ≡ Greater }
    ensures not { result ≡ false → leading_order row.now bound.now ≡ Greater → ⊥ }
{
    match order_leading(row, bound) {
        Ordering::Less => false,
        Ordering::Equal => false,
        Ordering::Greater => true,
    }
}

// How a row's leading values, as many as a bound has, compare with it.
fn order_leading(row: &Row, bound: &Row) -> Ordering
    ensures { result ≡ leading_order row.now bound.now }
{
    let values = row.values();
    let others = bound.values();
    for at in 0..values.len().min(others.len()) {
        match order(&values[at], &others[at]) {
            Ordering::Equal => {}
            found => return found,
        }
    }
    if values.len() < others.len() {
        Ordering::Less
    } else {
        Ordering::Equal
    }
}
