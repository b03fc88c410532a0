// Images of pages of 512 bytes.
ghost use Rattle.std.specs.Prelude.{◌≡◌, ◌≢◌, true, IfOk, OnOk, All};
ghost use Rattle.laying_tests.specs.Fit.{AreFit};

use disk_face::Bytes;
use engine_spec::PageImage;
use sqlite_items::Items;
use std::alloc::{AllocError, Global};

/// Images of these pages, each filled with one byte. A page that is 0 or stands already is left out.
#[tactic(auto, using(crate::proofs::Fitting::none_fit))]
pub fn images_of(alloc: Global, pages: &[u32], fill: u8) -> Result<Items<PageImage>, AllocError>
    ensures { IfOk result (λ images. AreFit images) }
{
    let mut images = Items::new(alloc);
    for page in pages {
        add(alloc, &mut images, *page, fill)?;
    }
    Ok(images)
}

// Adds an image.
#[tactic(auto, using(crate::proofs::Fitting::one_more))]
fn add(alloc: Global, images: &mut Items<PageImage>, page: u32, fill: u8) -> Result<(), AllocError>
    requires fit { AreFit images.old }
    ensures { OnOk result (AreFit images.new) }
{
    if page == 0 || images.len() >= 100 {
        return Ok(());
    }
    if !is_new(images.as_slice(), page) {
        return Ok(());
    }
    let bytes = Bytes::of(alloc, &[fill; 512])?;
    images.push(PageImage { page, bytes })
}

// Whether none of the images is of a page.
fn is_new(images: &[PageImage], page: u32) -> bool
    ensures { result ≡ true → All (λ image. image.page ≢ page) images.now }
{
    for image in images {
        if image.page == page {
            return false;
        }
    }
    true
}
