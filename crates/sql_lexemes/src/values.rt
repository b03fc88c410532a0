// What numbers, quoted texts and blobs stand for.

ghost use Rattle.std.specs.Prelude.{◌≡◌, ◌+◌, ◌-◌, ◌*◌, false, IfOk};
ghost use Rattle.sql_text.specs.Token as token;
ghost use Rattle.sql_lexemes.specs.Values as spec;

use crate::lexeme::Lexeme;
use sqlite_items::Items;
use std::alloc::{AllocError, Global};

/// The least integer that is one only behind a minus.
const LEAST: u64 = 1 << 63;

/// Each integer from this one on is as good as this one.
const HUGE: u64 = LEAST + 1;

fn is_digit(byte: u8) -> bool
    ensures { result ≡ token.is_digit byte }
{
    byte >= b'0' && byte <= b'9'
}

/// A number with one more digit, or `HUGE` where it is greater.
fn with_digit(number: u64, digit: u8) -> u64
    ensures { result ≡ spec.capped (number * 10 + (digit - 48)) }
{
    let next = number as u128 * 10 + digit.saturating_sub(b'0') as u128;
    next.min(HUGE as u128) as u64
}

fn integer(number: u64, alone: bool) -> Lexeme
    ensures { result ≡ spec.integer_lexeme number alone }
{
    if number < LEAST {
        Lexeme::Int {
            value: number as i64,
            alone,
        }
    } else if number == LEAST {
        Lexeme::Least
    } else {
        Lexeme::Huge
    }
}

/// The lexeme of a number's bytes.
#[tactic(auto, unfolding(crate::specs::Values::number_from))]
pub fn number(bytes: &[u8], alone: bool) -> Lexeme
    ensures { result ≡ spec.number_lexeme bytes.now alone }
{
    let mut number = 0;
    let mut left = bytes;
    while let Some((byte, rest)) = left.split_first() {
        if !is_digit(*byte) {
            return Lexeme::Float;
        }
        number = with_digit(number, *byte);
        left = rest;
    }
    integer(number, alone)
}

/// The bytes behind the first ones, without the last.
pub fn inside(front: usize, bytes: &[u8]) -> &[u8]
    ensures { result.now ≡ spec.inside front bytes.now }
{
    if front < bytes.len() {
        &bytes[front..bytes.len() - 1]
    } else {
        &[]
    }
}

/// The bytes with each doubled quote as one.
#[tactic(auto, unfolding(crate::specs::Values::single_quotes))]
fn single_quotes(alloc: Global, quote: u8, bytes: &[u8]) -> Result<Items<u8>, AllocError>
    ensures { IfOk result (λ single. single ≡ spec.single_quotes quote false bytes.now) }
{
    let mut out = Vec::with_capacity(alloc, bytes.len())?;
    let mut second = false;
    let mut left = bytes;
    while let Some((byte, rest)) = left.split_first() {
        if second {
            second = false;
        } else {
            out.push(*byte)?;
            second = *byte == quote;
        }
        left = rest;
    }
    Ok(Items::from_vec(out))
}

/// What stands between two quotes, each doubled quote as one. Most texts have none, and are copied as they are.
pub fn quoted(alloc: Global, quote: u8, bytes: &[u8]) -> Result<Items<u8>, AllocError>
    ensures { IfOk result (λ value. value ≡ spec.quoted_bytes quote bytes.now) }
{
    let inside = inside(1, bytes);
    if inside.contains(&quote) {
        single_quotes(alloc, quote, inside)
    } else {
        Items::from_slice(alloc, inside)
    }
}

fn hex_value(byte: u8) -> u8
    ensures { result ≡ spec.hex_value byte }
{
    if is_digit(byte) {
        byte - b'0'
    } else if byte >= b'A' && byte <= b'F' {
        byte - b'A' + 10
    } else if byte >= b'a' && byte <= b'f' {
        byte - b'a' + 10
    } else {
        0
    }
}

fn hex_byte(high: u8, low: u8) -> u8
    ensures { result ≡ spec.hex_byte high low }
{
    hex_value(high) * 16 + hex_value(low)
}

/// One byte for two hexadecimal digits.
#[tactic(auto, unfolding(crate::specs::Values::hex_bytes))]
pub fn hex_bytes(alloc: Global, digits: &[u8]) -> Result<Items<u8>, AllocError>
    ensures { IfOk result (λ bytes. bytes ≡ spec.hex_bytes digits.now) }
{
    let mut out = Vec::with_capacity(alloc, digits.len() / 2)?;
    let mut left = digits;
    while let Some((high, rest)) = left.split_first() {
        let Some((low, more)) = rest.split_first() else {
            return Ok(Items::from_vec(out));
        };
        out.push(hex_byte(*high, *low))?;
        left = more;
    }
    Ok(Items::from_vec(out))
}
