// Schema rows.
ghost use Rattle.std.specs.Prelude.{◌≡◌, ◌^◌, ◌<◌, ◌≤◌, ◌⊎◌, ℕ, length, true, false, pos, None, IfOk, IfErr, OnErr, MatchOption};
ghost use Rattle.value_form.specs.declared.fault.RecordFault.TheVariants as refusal;
ghost use Rattle.check_spec.specs.declared.fault.CheckFault.TheVariants as fault;
ghost use Rattle.sound_spec.specs.Schema.{column, IsText, IsTextOrNull, IsRootNumber, IsSchemaRow};
ghost use Rattle.tree_check.specs.Rows.{TellsRoot};

use crate::forms::is_inside_or_none;
use check_spec::CheckFault;
use std::alloc::Global;
use value_form::{RecordFault, Value, read_record};

// The root that the schema row in a payload names, 0 for none. None for what is no schema row.
pub(crate) fn root_in(alloc: Global, payload: &[u8], last: u32) -> Result<Option<u32>, CheckFault>
    requires short { length payload.now < 2 ^ 32 }
    ensures root { IfOk result (TellsRoot last payload.now) }
    ensures cause { IfErr result (λ why. why ≡ fault.Memory) }
{
    match read_record(alloc, payload) {
        Ok(row) => Ok(root_of(row.values(), last)),
        Err(why) => refused(why),
    }
}

// What is told of a payload that isn't read: that it is no schema row, if it wasn't memory that ran out.
fn refused(why: RecordFault) -> Result<Option<u32>, CheckFault>
    ensures none { IfOk result (λ root. (root ≡ None) × (why ≡ refusal.Memory → ⊥)) }
    ensures memory { OnErr result (why ≡ refusal.Memory) }
    ensures cause { IfErr result (λ told. told ≡ fault.Memory) }
{
    match why {
        RecordFault::BadHeader { .. } | RecordFault::Short { .. } | RecordFault::Float { .. } => {
            Ok(None)
        }
        RecordFault::Memory => Err(CheckFault::Memory),
    }
}

// The root that a row names, if it is a schema row: three texts, an integer or NULL, a text or NULL.
fn root_of(row: &[Value], last: u32) -> Option<u32>
    ensures { MatchOption result ((root : ℕ) → IsSchemaRow last row.now root → ⊥) (λ root. IsSchemaRow last row.now root) }
{
    if !is_text(row, 0) {
        return None;
    }
    if !is_text(row, 1) {
        return None;
    }
    if !is_text(row, 2) {
        return None;
    }
    if !is_text_or_null(row, 4) {
        return None;
    }
    root_number(row, last)
}

// Whether a row has a text at a place. A value that it lacks is NULL.
fn is_text(row: &[Value], place: usize) -> bool
    ensures text { result ≡ true → IsText (column row.now place) }
    ensures other { result ≡ false → IsText (column row.now place) → ⊥ }
{
    match row.get(place) {
        Some(value) => text_in(value),
        None => false,
    }
}

// Whether a value is a text.
fn text_in(value: &Value) -> bool
    ensures text { result ≡ true → IsText value.now }
    ensures other { result ≡ false → IsText value.now → ⊥ }
{
    match value {
        Value::Text(_) => true,
        Value::Null | Value::Int(_) | Value::Blob(_) => false,
    }
}

// Whether a row has a text or NULL at a place.
fn is_text_or_null(row: &[Value], place: usize) -> bool
    ensures text { result ≡ true → IsTextOrNull (column row.now place) }
    ensures other { result ≡ false → IsTextOrNull (column row.now place) → ⊥ }
{
    match row.get(place) {
        Some(value) => text_or_null_in(value),
        None => true,
    }
}

// Whether a value is a text or NULL.
fn text_or_null_in(value: &Value) -> bool
    ensures text { result ≡ true → IsTextOrNull value.now }
    ensures other { result ≡ false → IsTextOrNull value.now → ⊥ }
{
    match value {
        Value::Null | Value::Text(_) => true,
        Value::Int(_) | Value::Blob(_) => false,
    }
}

// The number of the root that a row names at its fourth place, 0 for NULL.
fn root_number(row: &[Value], last: u32) -> Option<u32>
    ensures { MatchOption result ((root : ℕ) → IsRootNumber last (column row.now 3) root → ⊥) (λ root. IsRootNumber last (column row.now 3) root) }
{
    match row.get(3) {
        Some(value) => number_in(value, last),
        None => Some(0),
    }
}

// The number of the root that a value names.
fn number_in(value: &Value, last: u32) -> Option<u32>
    ensures { MatchOption result ((root : ℕ) → IsRootNumber last value.now root → ⊥) (λ root. IsRootNumber last value.now root) }
{
    match value {
        Value::Null => Some(0),
        Value::Int(n) => page_numbered(*n, last),
        Value::Text(_) | Value::Blob(_) => None,
    }
}

// The page that a number names, 0 for none.
fn page_numbered(n: i64, last: u32) -> Option<u32>
    ensures { MatchOption result ((root : ℕ) → (n ≡ pos root) × ((root ≡ 0) ⊎ ((2 ≤ root) × (root ≤ last))) → ⊥)
        (λ root. (n ≡ pos root) × ((root ≡ 0) ⊎ ((2 ≤ root) × (root ≤ last)))) }
{
    if n < 0 {
        return None;
    }
    if n > i64::from(last) {
        return None;
    }
    let root = n as u32;
    if is_inside_or_none(last, root) {
        Some(root)
    } else {
        None
    }
}
