//! Big-endian fields of two and four bytes at an offset in bytes.

ghost use Rattle.std.specs.Prelude.{◌≡◌, ◌+◌, ◌≤◌, length};
ghost use Rattle.page_spec.specs.Bytes.{u16_at, u32_at, DiffersOnlyWithin};

/// The number in the two bytes at `at`.
#[tactic(auto, unfolding(page_spec::specs::Bytes::u16_at))]
pub fn get_u16(from: &[u8], at: usize) -> u16
    requires { at + 2 ≤ length from.now }
    ensures { result ≡ u16_at from.now at }
{
    u16::from_be_bytes([from[at], from[at + 1]])
}

/// The number in the four bytes at `at`.
#[tactic(auto, unfolding(page_spec::specs::Bytes::u32_at))]
pub fn get_u32(from: &[u8], at: usize) -> u32
    requires { at + 4 ≤ length from.now }
    ensures { result ≡ u32_at from.now at }
{
    u32::from_be_bytes([from[at], from[at + 1], from[at + 2], from[at + 3]])
}

/// Writes a number into the two bytes at `at`. All other bytes stay.
#[tactic(auto, unfolding(page_spec::specs::Bytes::u16_at))]
pub fn put_u16(to: &mut [u8], at: usize, n: u16)
    requires { at + 2 ≤ length to.old }
    ensures value { u16_at to.new at ≡ n }
    ensures others { DiffersOnlyWithin to.old to.new at (at + 2) }
{
    to[at..at + 2].copy_from_slice(&n.to_be_bytes());
}

/// Writes a number into the four bytes at `at`. All other bytes stay.
#[tactic(auto, unfolding(page_spec::specs::Bytes::u32_at))]
pub fn put_u32(to: &mut [u8], at: usize, n: u32)
    requires { at + 4 ≤ length to.old }
    ensures value { u32_at to.new at ≡ n }
    ensures others { DiffersOnlyWithin to.old to.new at (at + 4) }
{
    to[at..at + 4].copy_from_slice(&n.to_be_bytes());
}
