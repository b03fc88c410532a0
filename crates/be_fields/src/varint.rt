//! Varints.

ghost use Rattle.std.specs.Prelude.{◌≡◌, ◌+◌, ◌<◌, ◌≤◌, ◌++◌, List, ℕ, length, drop, MatchOption, OnOk, OnErr};
ghost use Rattle.page_spec.specs.Varint.{varint_size, BeginsWithVarint, IsShortestVarint, shortest_varint, shortest_size, last_values, groups};

use std::alloc::AllocError;

/// The most bytes that a varint has.
const MOST_BYTES: usize = 9;

/// Reads the varint at the front of the bytes: its number, and how many bytes it has.
///
/// None comes exactly where the bytes end before the varint does.
pub fn get_varint(from: &[u8]) -> Option<(u64, usize)>
    ensures { MatchOption result (length from.now < varint_size from.now)
        (λ found. BeginsWithVarint from.now found.0 found.1) }
{
    let mut high: u64 = 0;
    for (at, byte) in from.iter().enumerate() {
        let byte = u64::from(*byte);
        if at == MOST_BYTES - 1 {
            return Some((high * 256 + byte, MOST_BYTES));
        }
        if byte < 128 {
            return Some((high * 128 + byte, at + 1));
        }
        high = high * 128 + (byte - 128);
    }
    None
}

/// Appends the shortest varint of a number.
///
/// What was appended reads back as that number, whatever follows it. Where memory is refused the items stay.
pub fn put_varint(to: &mut Vec<u8>, n: u64) -> Result<(), AllocError>
    ensures ok { OnOk result (to.new.items ≡ to.old.items ++ shortest_varint n) }
    ensures err { OnErr result (to.new.items ≡ to.old.items) }
    ensures shortest { IsShortestVarint (shortest_varint n) n }
    ensures reads_back { (rest : List ℕ) → BeginsWithVarint (shortest_varint n ++ rest) n (shortest_size n) }
{
    let mut bytes = [0u8; MOST_BYTES];
    let last = shortest_size(n) - 1;
    let values = last_values(last + 1);
    bytes[last] = (n % values) as u8;
    put_groups(&mut bytes, last, n / values);
    to.extend_from_slice(&bytes[..last + 1])
}

/// How many numbers the last byte of a varint of so many bytes can give.
#[tactic(auto, unfolding(page_spec::specs::Varint::last_values))]
fn last_values(size: usize) -> u64
    ensures value { result ≡ last_values size }
    ensures some { 0 < result }
    ensures most { result ≤ 256 }
{
    if size == MOST_BYTES { 256 } else { 128 }
}

/// How many bytes the shortest varint of a number has.
#[tactic(auto, unfolding(page_spec::specs::Varint::shortest_size))]
fn shortest_size(n: u64) -> usize
    ensures value { result ≡ shortest_size n }
    ensures some { 0 < result }
    ensures most { result ≤ 9 }
{
    match n {
        0..0x80 => 1,
        0x80..0x4000 => 2,
        0x4000..0x20_0000 => 3,
        0x20_0000..0x1000_0000 => 4,
        0x1000_0000..0x8_0000_0000 => 5,
        0x8_0000_0000..0x400_0000_0000 => 6,
        0x400_0000_0000..0x2_0000_0000_0000 => 7,
        0x2_0000_0000_0000..0x100_0000_0000_0000 => 8,
        _ => 9,
    }
}

/// Writes the lowest `count` groups of seven bits of a number into the first `count` bytes, the highest group first,
/// each with the top bit set.
fn put_groups(to: &mut [u8], count: usize, n: u64)
    requires { count ≤ length to.old }
    ensures { to.new ≡ groups count n ++ drop count to.old }
{
    let mut left = count;
    let mut rest = n;
    while left > 0 {
        left -= 1;
        to[left] = 128 + (rest % 128) as u8;
        rest /= 128;
    }
}
