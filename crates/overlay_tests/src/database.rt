// A database that the real sqlite3 wrote: pages of 512 bytes, of a table whose one long row was deleted. Page 1 names trunk 3 as the first
// of a freelist of two pages, and that trunk lists page 4.
ghost use Rattle.std.specs.Prelude.{◌≡◌, ◌≤◌, [], length, All, IfOk};
ghost use Rattle.memory_engine.specs.Plain.{PlainLive, newest_of};

use disk_face::Bytes;
use memory_engine::Plain;
use page_lines::Raw;
use std::alloc::{AllocError, Global};

const HEADER: &[u8] =
    b"\x53\x51\x4c\x69\x74\x65\x20\x66\x6f\x72\x6d\x61\x74\x20\x33\x00\x02\x00\x01\x01\x00\x40\x20\x20\x00\x00\x00\x03\x00\x00\x00\x04\x00\x00\x00\x03\x00\x00\x00\x02\x00\x00\x00\x01\x00\x00\x00\x04\x00\x00\x00\x00\x00\x00\x00\x00\x00\x00\x00\x01\x00\x00\x00\x00\x00\x00\x00\x00\x00\x00\x00\x00\x00\x00\x00\x00\x00\x00\x00\x00\x00\x00\x00\x00\x00\x00\x00\x00\x00\x00\x00\x00\x00\x00\x00\x03\x00\x2e\x63\x01";

const TRUNK: &[u8] = b"\x00\x00\x00\x00\x00\x00\x00\x01\x00\x00\x00\x04";

// A page that begins with these bytes, and has zeros behind them.
fn page_of(alloc: Global, front: &[u8]) -> Result<Bytes, AllocError>
    requires { length front.now ≤ 512 }
    ensures { IfOk result (λ page. length page ≡ 512) }
{
    let mut page = [0; 512];
    page[..front.len()].copy_from_slice(front);
    Bytes::of(alloc, &page)
}

// Its four pages. Nothing reads the two that are zeros here.
fn pages_of(alloc: Global) -> Result<Vec<Bytes>, AllocError>
    ensures count { IfOk result (λ pages. length pages.items ≡ 4) }
    ensures whole { IfOk result (λ pages. All (λ page. length page ≡ 512) pages.items) }
{
    let mut pages = Vec::new(alloc);
    pages.push(page_of(alloc, HEADER)?)?;
    pages.push(page_of(alloc, &[])?)?;
    pages.push(page_of(alloc, TRUNK)?)?;
    pages.push(page_of(alloc, &[])?)?;
    Ok(pages)
}

/// The engine in memory over it.
pub fn engine_over(alloc: Global) -> Result<Plain<Raw>, AllocError>
    ensures live { IfOk result (λ plain. PlainLive plain []) }
    ensures pages { IfOk result (λ plain. length (newest_of plain) ≡ 4) }
    ensures page_size { IfOk result (λ plain. plain.page_size ≡ 512) }
{
    let pages = pages_of(alloc)?;
    let plain = Plain::new(alloc, pages)?;
    Ok(plain)
}
