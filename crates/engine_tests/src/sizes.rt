// The sizes that a new engine tells.
ghost use Rattle.std.specs.Prelude.{◌≡◌, ◌∷◌, [], List, ℕ, length, IfOk};

use disk_face::Bytes;
use memory_engine::Plain;
use page_face::Engine;
use page_lines::Raw;
use std::alloc::{AllocError, Global};
use std::test::Fail;

// One page of 512 zeros but for byte 20, which counts the reserved bytes.
fn one_page(alloc: Global, reserved: u8) -> Result<Vec<Bytes>, AllocError>
    ensures { IfOk result (λ pages. (page : List ℕ) × (pages.items ≡ page ∷ []) × (length page ≡ 512)) }
{
    let mut page = vec![in alloc; 0; 512]?;
    page[20] = reserved;
    let mut pages = Vec::new(alloc);
    pages.push(Bytes::of(alloc, page.as_slice())?)?;
    Ok(pages)
}

// An engine over that page.
fn engine_over(alloc: Global, reserved: u8) -> Result<Plain<Raw>, AllocError> {
    let pages = one_page(alloc, reserved)?;
    Plain::new(alloc, pages)
}

#[test]
fn reserved_bytes_are_not_in_use(rt: HostRuntime) -> Result<(), Fail> {
    // Where less than 480 bytes would be left, all are in use.
    for (reserved, usable) in [(0, 512), (1, 511), (32, 480), (33, 512), (255, 512)] {
        let engine = engine_over(rt.alloc(), reserved)?;
        assert_eq!(rt; engine.page_size(), 512);
        assert_eq!(rt; engine.usable(), usable, "{reserved} reserved");
    }
    Ok(())
}
