ghost use Rattle.std.specs.Prelude.{◌≡◌, ◌*◌, ◌^◌, ◌<◌, ◌≤◌, ◌↔◌, ◌+◌, length, List, ℕ, Some, None, IsTrue, IsOk, IsSome, IfSome, MatchOption, MatchResult, OnOk, IfOk};
ghost use Rattle.page_spec.specs.Header.{database_limit, fields_of, page_size_in, pages_in, spelled_page_size, is_page_size, is_database, IsHeader};
ghost use Rattle.db_header.specs.Header.{refusal, header_of, TellsHeader, IsTold};

use crate::fault::HeaderFault;
use crate::header::Header;
use be_fields::{get_u16, get_u32};

/// The bytes that every database begins with.
pub(crate) const DATABASE_TEXT: &[u8; 16] = b"SQLite format 3\0";

/// The most bytes that a database may have.
const MOST_BYTES: u64 = 1 << 30;

/// Reads the header of a database from the first bytes of page 1, of which there may be more than 100.
///
/// `file_size` is the length of the database's file in bytes, also where page 1 comes from a log. It tells how many
/// pages there are where the header doesn't.
pub fn read_header(first: &[u8], file_size: u64) -> Result<Header, HeaderFault>
    ensures cases { MatchResult result
        (λ header. TellsHeader first.now file_size header)
        (λ fault. refusal first.now file_size ≡ Some fault) }
    ensures accepted { IsOk result
        ↔ IsHeader first.now × (pages_in first.now file_size * page_size_in (fields_of first.now) ≤ database_limit) }
    ensures told { IfOk result (λ header. IsTold header) }
{
    if !is_database(first) {
        return Err(HeaderFault::NotADb);
    }
    let stored = get_u16(first, 16);
    let Some(page_size) = spelled_page_size(stored) else {
        return Err(HeaderFault::PageSize(stored));
    };
    if !has_versions(first[18], first[19]) {
        return Err(HeaderFault::Versions(first[18], first[19]));
    }
    let encoding = get_u32(first, 56);
    if encoding > 1 {
        return Err(HeaderFault::Utf16(encoding));
    }
    let largest_root = get_u32(first, 52);
    if largest_root != 0 {
        return Err(HeaderFault::AutoVacuum(largest_root));
    }
    if u32::from(first[20]) + 480 > page_size {
        return Err(HeaderFault::Reserved(first[20]));
    }
    let format = get_u32(first, 44);
    if format > 4 {
        return Err(HeaderFault::Format(format));
    }
    let pages = count_pages(first, page_size, file_size);
    if pages * u64::from(page_size) > MOST_BYTES {
        return Err(HeaderFault::TooLarge { pages });
    }
    Ok(told_header(first, page_size, pages as u32))
}

/// Whether the bytes are 100 or more, begin as every database does, and have the fixed payload fractions.
#[tactic(auto, unfolding(page_spec::specs::Header::is_database))]
fn is_database(first: &[u8]) -> bool
    ensures value { result ≡ is_database first.now }
    ensures long { IsTrue result → 100 ≤ length first.now }
{
    first.len() >= 100
        && first.starts_with(DATABASE_TEXT)
        && first[21] == 64
        && first[22] == 32
        && first[23] == 32
}

/// The page size in bytes that two bytes spell, None where it is no legal one.
#[tactic(auto, unfolding(page_spec::specs::Header::spelled_page_size, page_spec::specs::Header::is_page_size))]
fn spelled_page_size(stored: u16) -> Option<u32>
    ensures legal { IsSome result ↔ IsTrue (is_page_size (spelled_page_size stored)) }
    ensures size { IfSome result (λ size. size ≡ spelled_page_size stored) }
    ensures least { IfSome result (λ size. 512 ≤ size) }
    ensures greatest { IfSome result (λ size. size ≤ 65536) }
{
    match stored {
        1 => Some(65536),
        512 | 1024 | 2048 | 4096 | 8192 | 16384 | 32768 => Some(u32::from(stored)),
        _ => None,
    }
}

/// Whether the versions are both 1, both 2 or both 3.
fn has_versions(write: u8, read: u8) -> bool
    ensures { IsTrue result ↔ ((write ≡ read) × (1 ≤ read) × (read ≤ 3)) }
{
    write == read && 1 <= read && read <= 3
}

/// The size of the database in pages: what the header says where that counts, and else the whole pages of the file.
#[tactic(auto, unfolding(page_spec::specs::Header::pages_in, page_spec::specs::Header::fields_of))]
fn count_pages(first: &[u8], page_size: u32, file_size: u64) -> u64
    requires long { 100 ≤ length first.now }
    requires size { page_size ≡ page_size_in (fields_of first.now) }
    requires some { 0 < page_size }
    ensures value { result ≡ pages_in first.now file_size }
    ensures fits { result * page_size < 2 ^ 64 }
{
    let told = get_u32(first, 28);
    if told > 0 && get_u32(first, 24) == get_u32(first, 92) {
        u64::from(told)
    } else {
        file_size / u64::from(page_size)
    }
}

/// What an accepted header tells, where its page size and its size in pages are known.
#[tactic(auto, unfolding(page_spec::specs::Header::fields_of, crate::specs::Header::header_of))]
fn told_header(first: &[u8], page_size: u32, pages: u32) -> Header
    requires long { 100 ≤ length first.now }
    ensures value { (file_size : ℕ) → page_size ≡ page_size_in (fields_of first.now) → pages ≡ pages_in first.now file_size
        → (fields_of first.now).text_encoding ≤ 1 → result ≡ header_of first.now file_size }
{
    Header {
        page_size,
        versions: (first[18], first[19]),
        reserved: first[20],
        change: get_u32(first, 24),
        pages,
        trunk: get_u32(first, 32),
        free: get_u32(first, 36),
        cookie: get_u32(first, 40),
        format: get_u32(first, 44),
        encoding: 1,
    }
}
