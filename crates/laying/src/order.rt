// The order in which a commit writes its pages: places among the images that the transaction hands in.
//
// Of each image the order holds the place, from 0, so that no page is copied. An image of page 1 isn't among them: what is written of page 1 is
// made from the newest map.
ghost use Rattle.std.specs.Prelude.{◌≡◌, ℕ, ◌≤◌, ◌<◌, ◌^◌, [], ◌∷◌, length, map, slice_index, IfOk, All};
ghost use Rattle.engine_spec.specs.PageSet.{AreDifferent, with_pages};
ghost use Rattle.laying.specs.Order.{IsOrder, in_order, page_numbers, places_from};

use engine_spec::PageImage;
use page_face::ReadSet;
use std::alloc::{AllocError, Global};

/// The places, from 0, of the images of pages other than 1, in the order in which their page numbers rise. The error is want of memory.
pub fn order_of(alloc: Global, changed: &[PageImage]) -> Result<Vec<u32>, AllocError>
    requires different { AreDifferent (page_numbers changed.now) }
    requires few { length changed.now < 2 ^ 32 }
    ensures order { IfOk result (λ order. IsOrder changed.now order.items) }
    ensures fewer { IfOk result (λ order. length order.items ≤ length changed.now) }
{
    let mut order = places(alloc, changed)?;
    order.sort_unstable_by_key(|place| page_at_place(changed, *place));
    Ok(order)
}

// The places of the images of pages from 2 on, as they stand.
fn places(alloc: Global, changed: &[PageImage]) -> Result<Vec<u32>, AllocError>
    requires few { length changed.now < 2 ^ 32 }
    ensures { IfOk result (λ places. places.items ≡ places_from 0 changed.now) }
{
    let mut places = Vec::with_capacity(alloc, changed.len())?;
    let mut place = 0;
    while place < changed.len() {
        if changed[place].page > 1 {
            places.push(place as u32)?;
        }
        place += 1;
    }
    Ok(places)
}

// The page of the image at a place; 0 where there is none.
fn page_at_place(changed: &[PageImage], place: u32) -> u32
    ensures { result ≡ slice_index (page_numbers changed.now) place }
{
    match changed.get(place as usize) {
        Some(image) => image.page,
        None => 0,
    }
}

/// The pages that a commit of these images writes: page 1 and theirs. The error is want of memory.
pub fn written_pages(
    alloc: Global,
    changed: &[PageImage],
    order: &[u32],
) -> Result<ReadSet, AllocError>
    requires least { All (λ image. 1 ≤ image.page) changed.now }
    requires order { IsOrder changed.now order.now }
    ensures rising { IfOk result (λ pages. pages ≡ 1 ∷ page_numbers (in_order changed.now order.now)) }
    ensures set { IfOk result (λ pages. pages ≡ with_pages (1 ∷ []) (page_numbers changed.now)) }
{
    let mut pages = ReadSet::new(alloc);
    pages.add(1)?;
    for place in order {
        pages.add(changed[*place as usize].page)?;
    }
    Ok(pages)
}
