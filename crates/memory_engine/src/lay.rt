// Laying a change over a map.
ghost use Rattle.std.specs.Prelude.{◌≡◌, ℕ, ◌+◌, ◌-◌, ◌<◌, ◌≤◌, ◌==◌, ◌^◌, [], ◌∷◌, length, drop, if◌then◌else◌, map, IfOk, OnOk, All};
ghost use Rattle.page_spec.specs.PageMap.{page_at};
ghost use Rattle.engine_spec.specs.Change.{schema_fields, laid_first, laid_page, put_page, put_pages, stamped, with_header};
ghost use Rattle.engine_spec.specs.PageSet.{with_pages};

use crate::shared_page::SharedPage;
use be_fields::get_u32;
use engine_spec::{Mode, PageImage};
use page_face::ReadSet;
use sqlite_items::Items;
use std::alloc::{AllocError, Global};

/// The map with each of the changed pages laid over it, and page 1's header fields set. It shares the others. The error is want
/// of memory.
pub fn lay(
    alloc: Global,
    mode: Mode,
    tail: bool,
    pages: &[SharedPage],
    changed: &[PageImage],
    page_size: usize,
) -> Result<Items<SharedPage>, AllocError>
    requires some { 1 ≤ length pages.now }
    requires few { length pages.now < 2 ^ 32 }
    requires room { 512 ≤ page_size }
    requires whole { All (λ page. length page ≡ page_size) pages.now }
    requires images { All (λ image. length image.bytes ≡ page_size) changed.now }
    requires in_range { All (λ image. (1 ≤ image.page) × (image.page ≤ length pages.now)) changed.now }
    ensures { IfOk result (λ laid. laid ≡ with_header (put_pages mode tail pages.now changed.now)) }
{
    let mut laid = put_all(alloc, mode, tail, pages, changed, page_size)?;
    let first = stamp(alloc, pages.len() as u32, laid.as_slice()[0].bytes())?;
    laid.set(0, SharedPage::of(alloc, first)?);
    Ok(laid)
}

// The map with each of the changed pages laid over it.
fn put_all(
    alloc: Global,
    mode: Mode,
    tail: bool,
    pages: &[SharedPage],
    changed: &[PageImage],
    page_size: usize,
) -> Result<Items<SharedPage>, AllocError>
    requires room { 512 ≤ page_size }
    requires whole { All (λ page. length page ≡ page_size) pages.now }
    requires images { All (λ image. length image.bytes ≡ page_size) changed.now }
    requires in_range { All (λ image. (1 ≤ image.page) × (image.page ≤ length pages.now)) changed.now }
    ensures laid { IfOk result (λ laid. laid ≡ put_pages mode tail pages.now changed.now) }
    ensures whole { IfOk result (λ laid. All (λ page. length page ≡ page_size) laid) }
    ensures count { IfOk result (λ laid. length laid ≡ length pages.now) }
{
    let mut laid = share_all(alloc, pages)?;
    for image in changed {
        lay_one(alloc, mode, tail, &mut laid, image, page_size)?;
    }
    Ok(laid)
}

// The same pages once more.
fn share_all(alloc: Global, pages: &[SharedPage]) -> Result<Items<SharedPage>, AllocError>
    ensures { IfOk result (λ copy. copy ≡ pages.now) }
{
    let mut copy = Items::new(alloc);
    for page in pages {
        copy.push(page.share()?)?;
    }
    Ok(copy)
}

// Lays one changed page over the map.
fn lay_one(
    alloc: Global,
    mode: Mode,
    tail: bool,
    pages: &mut Items<SharedPage>,
    image: &PageImage,
    page_size: usize,
) -> Result<(), AllocError>
    requires room { 512 ≤ page_size }
    requires whole { All (λ page. length page ≡ page_size) pages.old }
    requires image { length image.now.bytes ≡ page_size }
    requires least { 1 ≤ image.now.page }
    requires most { image.now.page ≤ length pages.old }
    ensures laid { OnOk result (pages.new ≡ put_page mode tail pages.old image.now) }
    ensures whole { OnOk result (All (λ page. length page ≡ page_size) pages.new) }
    ensures count { OnOk result (length pages.new ≡ length pages.old) }
{
    let index = image.page as usize - 1;
    let bytes = laid_bytes(
        alloc,
        mode,
        tail,
        image.page,
        pages.as_slice()[index].bytes(),
        image.bytes.bytes(),
    )?;
    pages.set(index, SharedPage::of(alloc, bytes)?);
    Ok(())
}

// The bytes of a page after a change of it.
fn laid_bytes(
    alloc: Global,
    mode: Mode,
    tail: bool,
    number: u32,
    old: &[u8],
    new: &[u8],
) -> Result<Vec<u8>, AllocError>
    requires room { 512 ≤ length old.now }
    requires same { length old.now ≡ length new.now }
    ensures bytes { IfOk result (λ bytes. bytes.items ≡ laid_page mode tail number old.now new.now) }
    ensures size { IfOk result (λ bytes. length bytes.items ≡ length old.now) }
{
    if number == 1 {
        first_page_bytes(alloc, mode, tail, old, new)
    } else {
        Vec::from_slice(alloc, new)
    }
}

// The bytes of page 1 after a change: of its first 100 only the schema fields may be the transaction's.
fn first_page_bytes(
    alloc: Global,
    mode: Mode,
    tail: bool,
    old: &[u8],
    new: &[u8],
) -> Result<Vec<u8>, AllocError>
    requires room { 512 ≤ length old.now }
    requires same { length old.now ≡ length new.now }
    ensures bytes { IfOk result (λ bytes. bytes.items ≡ laid_first mode tail old.now new.now) }
    ensures size { IfOk result (λ bytes. length bytes.items ≡ length old.now) }
{
    let mut bytes = Vec::from_slice(alloc, &old[..32])?;
    bytes.extend_from_slice(schema_part(mode, old, new))?;
    bytes.extend_from_slice(&old[60..100])?;
    bytes.extend_from_slice(tree_part(tail, old, new))?;
    Ok(bytes)
}

// The bytes of page 1 of so many pages, with its header fields set.
fn stamp(alloc: Global, size: u32, first: &[u8]) -> Result<Vec<u8>, AllocError>
    requires { 100 ≤ length first.now }
    ensures { IfOk result (λ bytes. bytes.items ≡ stamped size first.now) }
{
    let counter = get_u32(first, 24).wrapping_add(1).to_be_bytes();
    let mut bytes = Vec::from_slice(alloc, &first[..24])?;
    bytes.extend_from_slice(&counter)?;
    bytes.extend_from_slice(&size.to_be_bytes())?;
    bytes.extend_from_slice(&first[32..92])?;
    bytes.extend_from_slice(&counter)?;
    bytes.extend_from_slice(&first[96..])?;
    Ok(bytes)
}

// The schema fields of page 1 after a change.
fn schema_part<'a>(mode: Mode, old: &'a [u8], new: &'a [u8]) -> &'a [u8]
    requires old { 60 ≤ length old.now }
    requires new { 60 ≤ length new.now }
    ensures fields { result.now ≡ schema_fields mode old.now new.now }
    ensures size { length result.now ≡ 28 }
{
    match mode {
        Mode::Plain => &new[32..60],
        Mode::Concurrent => &old[32..60],
    }
}

// What follows the first 100 bytes of page 1 after a change.
fn tree_part<'a>(tail: bool, old: &'a [u8], new: &'a [u8]) -> &'a [u8]
    requires old { 100 ≤ length old.now }
    requires same { length old.now ≡ length new.now }
    ensures bytes { result.now ≡ (if tail then drop 100 new.now else drop 100 old.now) }
    ensures size { length result.now + 100 ≡ length old.now }
{
    if tail { &new[100..] } else { &old[100..] }
}

/// The pages that a commit of these changes writes: page 1, and the changed pages. The error is want of memory.
pub fn written_pages(alloc: Global, changed: &[PageImage]) -> Result<ReadSet, AllocError>
    ensures { IfOk result (λ pages. pages ≡ with_pages (1 ∷ []) (map (λ image. image.page) changed.now)) }
{
    let mut pages = ReadSet::new(alloc);
    pages.add(1)?;
    for image in changed {
        pages.add(image.page)?;
    }
    Ok(pages)
}
