// What bytes are read as the header of a log.
ghost use Rattle.std.specs.Prelude.{◌≡◌, ◌≤◌, ◌⊎◌, length, IsTrue};
ghost use Rattle.page_spec.specs.Header.{is_page_size};
ghost use Rattle.log_spec.specs.LogHeader.{header_size, is_signed, is_generation};
ghost use Rattle.wal_frames.specs.Front.{front_of, header_in, IsLegalFront, HasRoom};

use crate::header::{Front, LogHeader};
use crate::sum::{Sum, sum_step};
use be_fields::get_u32;

/// How many bytes a header has.
pub(crate) const HEADER_SIZE: usize = 32;

/// How many of them the checksum runs over.
pub(crate) const SUMMED_SIZE: usize = 24;

/// The first number of a log whose words are read with the most significant byte first.
pub(crate) const BIG_MAGIC: u32 = 0x377f_0683;

/// The first number of a log whose words are read with the least significant byte first.
pub(crate) const LITTLE_MAGIC: u32 = 0x377f_0682;

/// The version that this project's logs have.
pub(crate) const OWN_VERSION: u32 = 93_021_000;

/// The last generation of a header that is ours (`last_generation` of `log_spec`).
const LAST_GENERATION: u32 = 4_000_000_000;

/// What the bytes of log 1 or log 2 begin with. There may be more bytes than a header has.
pub fn read_log_header(bytes: &[u8], log: u8) -> Front
    requires { (log ≡ 1) ⊎ (log ≡ 2) }
    ensures front { result ≡ front_of log bytes.now }
    ensures legal { IsLegalFront log result }
    ensures room { HasRoom result (length bytes.now) }
{
    if !is_signed(bytes) {
        return Front::Nothing;
    }
    let version = get_u32(bytes, 4);
    if version != OWN_VERSION {
        return Front::Foreign { version, at: 4 };
    }
    let page_size = get_u32(bytes, 8);
    if !is_page_size(page_size) {
        return Front::Foreign { version, at: 8 };
    }
    let generation = get_u32(bytes, 12);
    if !is_generation(log, generation) {
        return Front::Foreign { version, at: 12 };
    }
    Front::Ours(header_in(bytes))
}

/// Whether the bytes begin with a whole header of a right magic number and a right checksum.
fn is_signed(bytes: &[u8]) -> bool
    ensures value { result ≡ is_signed bytes.now }
    ensures long { IsTrue result → header_size ≤ length bytes.now }
{
    if bytes.len() < HEADER_SIZE {
        return false;
    }
    let magic = get_u32(bytes, 0);
    if magic != BIG_MAGIC && magic != LITTLE_MAGIC {
        return false;
    }
    let sum = sum_step(
        Sum { s0: 0, s1: 0 },
        magic == BIG_MAGIC,
        &bytes[..SUMMED_SIZE],
    );
    get_u32(bytes, 24) == sum.s0 && get_u32(bytes, 28) == sum.s1
}

#[tactic(auto, unfolding(page_spec::specs::Header::is_page_size))]
fn is_page_size(size: u32) -> bool
    ensures { result ≡ is_page_size size }
{
    matches!(
        size,
        512 | 1024 | 2048 | 4096 | 8192 | 16384 | 32768 | 65536
    )
}

#[tactic(auto, unfolding(log_spec::specs::LogHeader::is_generation))]
fn is_generation(log: u8, generation: u32) -> bool
    ensures { result ≡ is_generation log generation }
{
    let parity = if log == 1 { 1 } else { 0 };
    1 <= generation && generation <= LAST_GENERATION && generation % 2 == parity
}

/// What a header tells.
#[tactic(auto, unfolding(log_spec::specs::LogHeader::log_fields, crate::specs::Front::header_in))]
fn header_in(bytes: &[u8]) -> LogHeader
    requires { header_size ≤ length bytes.now }
    ensures { result ≡ header_in bytes.now }
{
    LogHeader {
        big: get_u32(bytes, 0) == BIG_MAGIC,
        page_size: get_u32(bytes, 8),
        generation: get_u32(bytes, 12),
        salt1: get_u32(bytes, 16),
        salt2: get_u32(bytes, 20),
        sum: Sum {
            s0: get_u32(bytes, 24),
            s1: get_u32(bytes, 28),
        },
    }
}
