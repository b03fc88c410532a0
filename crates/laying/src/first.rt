// Page 1 of the map that a commit makes, laid in place over page 1 of the newest map.
//
// Bytes 32 to 59 are those of the changed image of page 1 for a plain transaction, those from 100 on where the transaction changed them. Then
// the header says that the database changed:
//
//      24..28  the change counter: one more
//      28..32  the size in pages
//      92..96  the change counter for which that size is valid: the new one
//
// Source: SQLite's "Database File Format", "The Database Header".
ghost use Rattle.std.specs.Prelude.{◌≡◌, ℕ, ◌+◌, ◌≤◌, List, ◌++◌, length, take, drop, if◌then◌else◌, MatchOption, Option, All};
ghost use Rattle.page_spec.specs.PageMap.{PageMap, page_at};
ghost use Rattle.engine_spec.specs.PageSet.{AreDifferent};
ghost use Rattle.engine_spec.specs.Change.{Change, laid, image_of, laid_first, schema_fields, stamped, u32_bytes};
ghost use Rattle.laying.specs.Order.{page_numbers};
ghost use Rattle.laying.specs.First.{IsChangeOf, put_first};

use be_fields::get_u32;
use engine_spec::{Mode, PageImage};

/// Makes of page 1 of the newest map, which `first` has, page 1 of the map that a commit of these images makes. `tail` is whether the
/// transaction changed page 1 from byte 100 on, `size` how many pages the map has. It takes no memory.
pub fn lay_first(mode: Mode, tail: bool, changed: &[PageImage], size: u32, first: &mut [u8])
    requires room { 100 ≤ length first.old }
    requires different { AreDifferent (page_numbers changed.now) }
    requires least { All (λ image. 1 ≤ image.page) changed.now }
    requires whole { All (λ image. length image.bytes ≡ length first.old) changed.now }
    ensures laid { (pages : PageMap) (change : Change) → IsChangeOf mode tail changed.now change → length pages ≡ size
        → page_at pages 1 ≡ first.old → first.new ≡ page_at (laid pages change) 1 }
    ensures count { length first.new ≡ length first.old }
{
    put_image(mode, tail, changed, first);
    stamp(size, first);
}

// Lays the image of page 1 over page 1, where there is one.
fn put_image(mode: Mode, tail: bool, changed: &[PageImage], first: &mut [u8])
    requires room { 100 ≤ length first.old }
    requires whole { All (λ image. length image.bytes ≡ length first.old) changed.now }
    ensures put { first.new ≡ put_first mode tail (image_of changed.now 1) first.old }
    ensures count { length first.new ≡ length first.old }
{
    match first_image(changed) {
        Some(new) => put_bytes(mode, tail, new, first),
        None => (),
    }
}

// The image of page 1.
fn first_image(changed: &[PageImage]) -> Option<&[u8]>
    ensures { MatchOption result (image_of changed.now 1 ≡ Option.None) (λ bytes. image_of changed.now 1 ≡ Option.Some bytes.now) }
{
    for image in changed {
        if image.page == 1 {
            return Some(image.bytes.bytes());
        }
    }
    None
}

// Lays a transaction's page 1 over page 1: of the first 100 bytes only the schema fields may be the transaction's.
fn put_bytes(mode: Mode, tail: bool, new: &[u8], first: &mut [u8])
    requires room { 100 ≤ length first.old }
    requires same { length new.now ≡ length first.old }
    ensures put { first.new ≡ laid_first mode tail first.old new.now }
    ensures count { length first.new ≡ length first.old }
{
    put_fields(mode, new, first);
    put_rest(tail, new, first);
}

// Lays the schema fields of page 1.
fn put_fields(mode: Mode, new: &[u8], first: &mut [u8])
    requires room { 100 ≤ length first.old }
    requires same { length new.now ≡ length first.old }
    ensures put { first.new ≡ take 32 first.old ++ (schema_fields mode first.old new.now ++ drop 60 first.old) }
    ensures count { length first.new ≡ length first.old }
{
    match mode {
        Mode::Plain => first[32..60].copy_from_slice(&new[32..60]),
        Mode::Concurrent => (),
    }
}

// Lays what follows the header of page 1.
fn put_rest(tail: bool, new: &[u8], first: &mut [u8])
    requires room { 100 ≤ length first.old }
    requires same { length new.now ≡ length first.old }
    ensures put { first.new ≡ take 100 first.old ++ (if tail then drop 100 new.now else drop 100 first.old) }
    ensures count { length first.new ≡ length first.old }
{
    if tail {
        first[100..].copy_from_slice(&new[100..]);
    }
}

// Sets the header fields that every commit sets.
fn stamp(size: u32, first: &mut [u8])
    requires { 100 ≤ length first.old }
    ensures stamped { first.new ≡ stamped size first.old }
    ensures count { length first.new ≡ length first.old }
{
    let counter = get_u32(first, 24).wrapping_add(1);
    put_number(first, 24, counter);
    put_number(first, 28, size);
    put_number(first, 92, counter);
}

// Writes a number over the four bytes at `at`.
fn put_number(bytes: &mut [u8], at: usize, number: u32)
    requires { at + 4 ≤ length bytes.old }
    ensures put { bytes.new ≡ take at bytes.old ++ (u32_bytes number ++ drop (at + 4) bytes.old) }
    ensures count { length bytes.new ≡ length bytes.old }
{
    bytes[at..at + 4].copy_from_slice(&number.to_be_bytes());
}
