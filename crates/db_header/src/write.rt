ghost use Rattle.std.specs.Prelude.{◌≡◌, ◌<◌, ◌≤◌, ◌++◌, length, ℕ, List, take, slice_index, IsTrue};
ghost use Rattle.page_spec.specs.Bytes.{u16_at, u32_at, DiffersOnlyWithin};
ghost use Rattle.page_spec.specs.Header.{KeepsUnlisted, database_text, is_page_size, spelled_page_size};
ghost use Rattle.db_header.specs.Header.{TellsHeader, IsTold};

use crate::header::Header;
use crate::read::DATABASE_TEXT;
use be_fields::{put_u16, put_u32};

/// Writes a header over the first 100 bytes of page 1.
///
/// It reads back as the same header, whatever the length of the file. The bytes that no field lists stay: 48 to 51, 60
/// to 91, and those from 96 on.
pub fn write_header(header: &Header, to: &mut [u8])
    requires room { 100 ≤ length to.old }
    requires told { IsTold header.now }
    requires some { 0 < header.now.pages }
    ensures reads_back { (file_size : ℕ) → TellsHeader to.new file_size header.now }
    ensures unlisted { KeepsUnlisted to.old to.new }
    ensures encoding { u32_at to.new 56 ≡ header.now.encoding }
{
    write_start(header, to);
    write_numbers(header, to);
    put_u32(to, 52, 0);
    put_u32(to, 56, header.encoding);
    put_u32(to, 92, header.change);
}

/// Writes the fields before byte 24: the text, page size, versions, reserved bytes and payload fractions.
fn write_start(header: &Header, to: &mut [u8])
    requires room { 100 ≤ length to.old }
    requires told { IsTold header.now }
    ensures text { take 16 to.new ≡ database_text }
    ensures page_size { spelled_page_size (u16_at to.new 16) ≡ header.now.page_size }
    ensures write_version { slice_index to.new 18 ≡ header.now.versions.0 }
    ensures read_version { slice_index to.new 19 ≡ header.now.versions.1 }
    ensures reserved { slice_index to.new 20 ≡ header.now.reserved }
    ensures largest { slice_index to.new 21 ≡ 64 }
    ensures least { slice_index to.new 22 ≡ 32 }
    ensures leaf { slice_index to.new 23 ≡ 32 }
    ensures others { DiffersOnlyWithin to.old to.new 0 24 }
{
    to[..16].copy_from_slice(DATABASE_TEXT);
    put_u16(to, 16, stored_page_size(header.page_size));
    to[18] = header.versions.0;
    to[19] = header.versions.1;
    to[20] = header.reserved;
    to[21] = 64;
    to[22] = 32;
    to[23] = 32;
}

/// The two bytes that spell a page size.
#[tactic(auto, unfolding(page_spec::specs::Header::spelled_page_size, page_spec::specs::Header::is_page_size))]
fn stored_page_size(size: u32) -> u16
    requires { IsTrue (is_page_size size) }
    ensures { spelled_page_size result ≡ size }
{
    if size == 65536 { 1 } else { size as u16 }
}

/// Writes the numbers from byte 24 up to 48.
fn write_numbers(header: &Header, to: &mut [u8])
    requires { 100 ≤ length to.old }
    ensures change { u32_at to.new 24 ≡ header.now.change }
    ensures pages { u32_at to.new 28 ≡ header.now.pages }
    ensures trunk { u32_at to.new 32 ≡ header.now.trunk }
    ensures free { u32_at to.new 36 ≡ header.now.free }
    ensures cookie { u32_at to.new 40 ≡ header.now.cookie }
    ensures format { u32_at to.new 44 ≡ header.now.format }
    ensures others { DiffersOnlyWithin to.old to.new 24 48 }
{
    put_u32(to, 24, header.change);
    put_u32(to, 28, header.pages);
    put_u32(to, 32, header.trunk);
    put_u32(to, 36, header.free);
    put_u32(to, 40, header.cookie);
    put_u32(to, 44, header.format);
}
