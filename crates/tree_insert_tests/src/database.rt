// A database of pages of 512 bytes, in the engine in memory: page 1 alone, the leaf of a table without a row. No page is free.
ghost use Rattle.std.specs.Prelude.{◌≡◌, [], length, All, IfOk};
ghost use Rattle.memory_engine.specs.Plain.{PlainLive, newest_of};

use disk_face::Bytes;
use memory_engine::Plain;
use page_lines::Raw;
use std::alloc::{AllocError, Global};

/// A leaf of a table without a cell: its kind, no freeblock, no cell, where the cells begin, no fragment.
pub const LEAF: [u8; 8] = [13, 0, 0, 0, 0, 2, 0, 0];

/// A leaf of an index without an entry.
pub const INDEX_LEAF: [u8; 8] = [10, 0, 0, 0, 0, 2, 0, 0];

/// The engine in memory over it. The header of page 1 says nothing but that no page is free, and no byte of a page is reserved.
pub fn engine(alloc: Global) -> Result<Plain<Raw>, AllocError>
    ensures live { IfOk result (λ plain. PlainLive plain []) }
    ensures pages { IfOk result (λ plain. length (newest_of plain) ≡ 1) }
    ensures page_size { IfOk result (λ plain. plain.page_size ≡ 512) }
{
    let mut page = [0; 512];
    page[100..108].copy_from_slice(&LEAF);
    let mut pages = Vec::new(alloc);
    pages.push(Bytes::of(alloc, &page)?)?;
    let plain = Plain::new(alloc, pages)?;
    Ok(plain)
}
