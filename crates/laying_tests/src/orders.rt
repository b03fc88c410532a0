// In which order a commit writes its pages. The rows are worked by hand: page 1 is always written and never among the places, and the others
// follow by their numbers.
use crate::images::images_of;
use laying::{order_of, written_pages};
use std::alloc::{AllocError, Global};
use std::test::Fail;

// Whether images of these pages stand in this order, and a commit of them writes these pages.
#[tactic(auto, using(crate::proofs::Fitting::are_different))]
fn stands(
    alloc: Global,
    pages: &[u32],
    order: &[u32],
    written: &[u32],
) -> Result<bool, AllocError> {
    let images = images_of(alloc, pages, 7)?;
    let places = order_of(alloc, images.as_slice())?;
    let set = written_pages(alloc, images.as_slice(), places.as_slice())?;
    Ok(places.as_slice() == order && set.pages() == written)
}

// Each row is the pages of the images, the order, and the pages that are written.
const ORDERS: [(&[u32], &[u32], &[u32]); 6] = [
    (&[], &[], &[1]),
    (&[1], &[], &[1]),
    (&[3], &[0], &[1, 3]),
    (&[2, 3, 4], &[0, 1, 2], &[1, 2, 3, 4]),
    (&[9, 2, 1, 7, 4], &[1, 4, 3, 0], &[1, 2, 4, 7, 9]),
    (
        &[4294967295, 5, 70000, 256, 255],
        &[1, 4, 3, 2, 0],
        &[1, 5, 255, 256, 70000, 4294967295],
    ),
];

#[test]
fn orders(rt: HostRuntime) -> Result<(), Fail> {
    for (pages, order, written) in ORDERS {
        assert!(rt; stands(rt.alloc(), pages, order, written)?);
    }
    Ok(())
}
