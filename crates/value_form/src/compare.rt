// The order of values and of rows.
ghost use Rattle.std.specs.Prelude.{◌≡◌, ◌∷◌, ◌++◌, List, ◌↔◌};
ghost use Rattle.value_form.specs.declared.value.Value.{Value as SqlValue};
ghost use Rattle.value_form.specs.Order.{class, value_order, row_order, IsLinearOrder};

use crate::{Row, Value};
use std::cmp::Ordering;

/// The order of values: NULL, integers, texts, blobs, and among texts and among blobs by their bytes. Two values are equal
/// in it only if they are the same.
pub fn order(a: &Value, b: &Value) -> Ordering
    ensures value { result ≡ value_order a.now b.now }
    ensures same { (result ≡ Ordering.Equal) ↔ (a.now ≡ b.now) }
    ensures linear { IsLinearOrder value_order }
{
    compared(a, b)
}

/// What comparing two values gives: their classes decide unless they are of one class that has several values.
fn compared(a: &Value, b: &Value) -> Ordering
    ensures { result ≡ value_order a.now b.now }
{
    match (a, b) {
        (Value::Int(m), Value::Int(n)) => m.cmp(n),
        (Value::Text(s), Value::Text(t)) => s.bytes().cmp(t.bytes()),
        (Value::Blob(s), Value::Blob(t)) => s.bytes().cmp(t.bytes()),
        _ => class(a).cmp(&class(b)),
    }
}

/// Where the class of a value stands among the classes.
fn class(value: &Value) -> u8
    ensures { result ≡ class value.now }
{
    match value {
        Value::Null => 0,
        Value::Int(_) => 1,
        Value::Text(_) => 2,
        Value::Blob(_) => 3,
    }
}

/// The order of rows: value by value, and a row before each longer one that it begins.
pub fn order_rows(a: &Row, b: &Row) -> Ordering
    ensures value { result ≡ row_order a.now b.now }
    ensures same { (result ≡ Ordering.Equal) ↔ (a.now ≡ b.now) }
    ensures linear { IsLinearOrder row_order }
    ensures prefix { (row : List SqlValue) (next : SqlValue) (more : List SqlValue) → row_order row (row ++ next ∷ more) ≡ Ordering.Less }
{
    compared_rows(a.values(), b.values())
}

/// What comparing two rows gives: the first two values that differ decide, and else the lengths.
fn compared_rows(a: &[Value], b: &[Value]) -> Ordering
    ensures { result ≡ row_order a.now b.now }
{
    for at in 0..a.len().min(b.len()) {
        match compared(&a[at], &b[at]) {
            Ordering::Equal => {}
            found => return found,
        }
    }
    a.len().cmp(&b.len())
}
