// Serial types: what the bytes of one value are, by the table in lib.rt.
ghost use Rattle.std.specs.Prelude.{◌≡◌, ◌*◌, ◌^◌, ◌<◌, ◌≤◌, ◌≢◌, length, IfOk};
ghost use Rattle.std.specs.Int.Digits.{number_from_digits};
ghost use Rattle.value_form.specs.Serial.{body_size, signed, twos_complement, value_of, integer_type};

use crate::Value;
use disk_face::{Bytes, Txt};
use std::alloc::{AllocError, Global};

/// The type of a float.
pub const FLOAT: u64 = 7;

/// The type of a blob of no bytes. Each byte adds 2.
pub const BLOB: u64 = 12;

/// The type of a text of no bytes. Each byte adds 2.
pub const TEXT: u64 = 13;

/// How many bytes a value of this type has.
#[tactic(auto, unfolding(crate::specs::Serial::body_size))]
pub fn body_size(serial: u64) -> u64
    ensures { result ≡ body_size serial }
{
    match serial {
        0..=4 => serial,
        5 => 6,
        6 | 7 => 8,
        8..=11 => 0,
        _ => (serial - BLOB) / 2,
    }
}

/// The value of these bytes at this type.
#[tactic(auto, unfolding(crate::specs::Serial::value_of, crate::specs::Serial::body_size))]
pub fn read_value(alloc: Global, serial: u64, body: &[u8]) -> Result<Value, AllocError>
    requires no_float { serial ≢ FLOAT }
    requires no_ten { serial ≢ 10 }
    requires no_eleven { serial ≢ 11 }
    requires size { length body.now ≡ body_size serial }
    ensures { IfOk result (λ value. value ≡ value_of serial body.now) }
{
    match serial {
        0 => Ok(Value::Null),
        1..=6 => Ok(Value::Int(twos_complement(body))),
        8 => Ok(Value::Int(0)),
        9 => Ok(Value::Int(1)),
        _ if serial % 2 == 0 => Ok(Value::Blob(Bytes::of(alloc, body)?)),
        _ => Ok(Value::Text(Txt::of(alloc, body)?)),
    }
}

/// The integer that bytes spell in two's complement.
fn twos_complement(bytes: &[u8]) -> i64
    requires some { 0 < length bytes.now }
    requires most { length bytes.now ≤ 8 }
    ensures { result ≡ twos_complement bytes.now }
{
    with_sign(half_count(bytes.len()), unsigned(bytes))
}

/// Half of how many numbers so many bytes can spell.
fn half_count(size: usize) -> u64
    requires some { 0 < size }
    requires most { size ≤ 8 }
    ensures half { 2 * result ≡ 256 ^ size }
    ensures small { result ≤ 2 ^ 63 }
{
    1 << (8 * size - 1)
}

/// One of twice `half` numbers, of which the upper half stands for the negative ones.
fn with_sign(half: u64, number: u64) -> i64
    requires half { half ≤ 2 ^ 63 }
    requires number { number < 2 * half }
    ensures { result ≡ signed (2 * half) number }
{
    if number < half {
        number as i64
    } else {
        -1 - (half - 1 - (number - half)) as i64
    }
}

/// The number that bytes spell, the highest first.
fn unsigned(bytes: &[u8]) -> u64
    requires { length bytes.now ≤ 8 }
    ensures value { result ≡ number_from_digits 256 bytes.now }
    ensures fits { result < 256 ^ length bytes.now }
{
    let mut number: u64 = 0;
    for byte in bytes {
        number = number * 256 + u64::from(*byte);
    }
    number
}

/// The shortest of the types 1 to 6 that has room for an integer.
#[tactic(auto, unfolding(crate::specs::Serial::integer_type))]
pub fn integer_type(n: i64) -> u64
    ensures value { result ≡ integer_type n }
    ensures some { 0 < result }
    ensures most { result ≤ 6 }
{
    let magnitude = if n < 0 { (-1 - n) as u64 } else { n as u64 };
    match magnitude {
        0..0x80 => 1,
        0x80..0x8000 => 2,
        0x8000..0x80_0000 => 3,
        0x80_0000..0x8000_0000 => 4,
        0x8000_0000..0x8000_0000_0000 => 5,
        _ => 6,
    }
}
