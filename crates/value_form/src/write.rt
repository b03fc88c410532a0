// Writing a record. All its memory is reserved before the first byte.
ghost use Rattle.std.specs.Prelude.{◌≡◌, ◌+◌, ◌*◌, ◌^◌, ◌<◌, ◌++◌, List, ℕ, length, All, OnOk, OnErr, IfOk};
ghost use Rattle.page_spec.specs.Varint.{shortest_size};
ghost use Rattle.value_form.specs.Serial.{type_of, body_of};
ghost use Rattle.value_form.specs.Record.{IsRecord};
ghost use Rattle.value_form.specs.Written.{types_text, bodies_text, header_size, record_text};
ghost use Rattle.value_form.specs.Writing.{IsWritable, Extends};

use crate::serial::{BLOB, TEXT, body_size, integer_type};
use crate::{Row, Value};
use be_fields::put_varint;
use std::alloc::AllocError;

/// Appends the record of a row, each integer in the shortest of the types 1 to 6.
///
/// What was appended reads back as the row, whatever follows it. The error is want of memory, which also answers a row whose
/// record would have 2^64 bytes or more; the bytes are then as they were.
pub fn write_record(row: &Row, to: &mut Vec<u8>) -> Result<(), AllocError>
    ensures ok { OnOk result (to.new.items ≡ to.old.items ++ record_text row.now) }
    ensures err { OnErr result (to.new.items ≡ to.old.items) }
    ensures reads_back { OnOk result ((rest : List ℕ) → IsRecord (record_text row.now ++ rest) row.now) }
{
    let kept = to.len();
    let written = append_record(row, to);
    if written.is_err() {
        to.truncate(kept);
    }
    written
}

/// Appends the record of a row. After an error the bytes begin as they were.
fn append_record(row: &Row, to: &mut Vec<u8>) -> Result<(), AllocError>
    ensures ok { OnOk result (to.new.items ≡ to.old.items ++ record_text row.now) }
    ensures begins { Extends to.old.items to.new.items }
    ensures reads_back { OnOk result ((rest : List ℕ) → IsRecord (record_text row.now ++ rest) row.now) }
{
    let values = row.values();
    let sizes = Sizes::of(values)?;
    to.reserve(sizes.total as usize)?;
    put_varint(to, sizes.header)?;
    put_types(values, to)?;
    put_bodies(values, to)
}

/// The sizes of a record, in bytes.
#[derive(Clone, Copy)]
struct Sizes {
    /// Of the header, its own size's bytes included.
    header: u64,
    /// Of the whole record.
    total: u64,
}

impl Sizes {
    /// The sizes of the record of these values. The error answers values whose record would have 2^64 bytes or more.
    fn of(values: &[Value]) -> Result<Sizes, AllocError>
        ensures header { IfOk result (λ sizes. sizes.header ≡ header_size (length (types_text values.now))) }
        ensures total { IfOk result (λ sizes. sizes.total ≡ sizes.header + length (bodies_text values.now)) }
        ensures writable { OnOk result (All IsWritable values.now) }
        ensures fits { IfOk result (λ sizes. sizes.header < 2 ^ 64) }
    {
        let mut types: u64 = 0;
        let mut bodies: u64 = 0;
        for value in values {
            let serial = type_of(value)?;
            types = sum(types, shortest_size(serial))?;
            bodies = sum(bodies, body_size(serial))?;
        }
        let header = header_size(types)?;
        let total = sum(header, bodies)?;
        Ok(Sizes { header, total })
    }
}

/// The size of a header with so many bytes of serial types. The error answers one of 2^64 bytes or more.
#[tactic(auto, unfolding(crate::specs::Written::header_size))]
fn header_size(types: u64) -> Result<u64, AllocError>
    ensures { IfOk result (λ size. size ≡ header_size types) }
{
    let alone = sum(types, shortest_size(types))?;
    sum(types, shortest_size(alone))
}

/// The sum of two sizes. The error answers one of 2^64 or more, for which no memory would do.
fn sum(size: u64, more: u64) -> Result<u64, AllocError>
    ensures { IfOk result (λ sum. sum ≡ size + more) }
{
    size.checked_add(more).ok_or(AllocError)
}

/// How many bytes the shortest varint of a number has.
#[tactic(auto, unfolding(page_spec::specs::Varint::shortest_size))]
fn shortest_size(n: u64) -> u64
    ensures { result ≡ shortest_size n }
{
    match n {
        0..0x80 => 1,
        0x80..0x4000 => 2,
        0x4000..0x20_0000 => 3,
        0x20_0000..0x1000_0000 => 4,
        0x1000_0000..0x8_0000_0000 => 5,
        0x8_0000_0000..0x400_0000_0000 => 6,
        0x400_0000_0000..0x2_0000_0000_0000 => 7,
        0x2_0000_0000_0000..0x100_0000_0000_0000 => 8,
        _ => 9,
    }
}

/// The type with which a value is written. The error answers a text or blob whose type would be 2^64 or more.
fn type_of(value: &Value) -> Result<u64, AllocError>
    ensures serial { IfOk result (λ serial. serial ≡ type_of value.now) }
    ensures writable { OnOk result (IsWritable value.now) }
{
    match value {
        Value::Null => Ok(0),
        Value::Int(n) => Ok(integer_type(*n)),
        Value::Text(text) => sized_type(TEXT, text.bytes().len()),
        Value::Blob(blob) => sized_type(BLOB, blob.bytes().len()),
    }
}

/// The type of so many bytes, where `empty` is the type of none.
fn sized_type(empty: u64, len: usize) -> Result<u64, AllocError>
    ensures { IfOk result (λ serial. serial ≡ empty + 2 * len) }
{
    let doubled = sum(len as u64, len as u64)?;
    sum(empty, doubled)
}

/// Appends the serial types of the values.
fn put_types(values: &[Value], to: &mut Vec<u8>) -> Result<(), AllocError>
    ensures ok { OnOk result (to.new.items ≡ to.old.items ++ types_text values.now) }
    ensures begins { Extends to.old.items to.new.items }
{
    for value in values {
        put_varint(to, type_of(value)?)?;
    }
    Ok(())
}

/// Appends the bytes of the values.
fn put_bodies(values: &[Value], to: &mut Vec<u8>) -> Result<(), AllocError>
    ensures ok { OnOk result (to.new.items ≡ to.old.items ++ bodies_text values.now) }
    ensures begins { Extends to.old.items to.new.items }
{
    for value in values {
        put_body(value, to)?;
    }
    Ok(())
}

/// Appends the bytes of a value.
fn put_body(value: &Value, to: &mut Vec<u8>) -> Result<(), AllocError>
    ensures ok { OnOk result (to.new.items ≡ to.old.items ++ body_of value.now) }
    ensures err { OnErr result (to.new.items ≡ to.old.items) }
{
    match value {
        Value::Null => Ok(()),
        Value::Int(n) => {
            let size = body_size(integer_type(*n)) as usize;
            to.extend_from_slice(&n.cast_unsigned().to_be_bytes()[8 - size..])
        }
        Value::Text(text) => to.extend_from_slice(text.bytes()),
        Value::Blob(blob) => to.extend_from_slice(blob.bytes()),
    }
}
