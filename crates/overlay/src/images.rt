// The images of pages that a transaction changed or made, in rising order of their numbers, in two layers: as they were at a mark, and
// what was put since.
//
// A page is found by binary search, first above the mark and then below it. What was put since a mark is dropped as a whole, and where
// it is kept it moves down into room that each page put took before: neither takes memory.
ghost use Rattle.std.specs.Prelude.{◌≡◌, ◌+◌, ◌<◌, ◌≤◌, [], length, MatchOption, OnOk, OnErr, Option, is_some, true};
ghost use Rattle.engine_spec.specs.Change.{image_of};
ghost use Rattle.overlay.specs.Places.{image_numbers, RisesFrom, IsPlace};
ghost use Rattle.overlay.specs.Images.{with_put, image_put_since};
ghost use Rattle.overlay.specs.Runs.{items_in, room_in};

use crate::run::Run;
use disk_face::Bytes;
use page_face::PageImage;
use sqlite_items::Items;
use std::alloc::{AllocError, Global};
use std::marker::Model;

// The place of the page's image, or where it would stand.
fn place_of(images: &[PageImage], page: u32) -> Result<usize, usize>
    requires { RisesFrom 0 (image_numbers images.now) }
    ensures { IsPlace (image_numbers images.now) page result }
{
    images.binary_search_by_key(&page, |image| image.page)
}

// The bytes of the page's image, if it is there.
fn bytes_of(images: &[PageImage], page: u32) -> Option<&[u8]>
    requires { RisesFrom 0 (image_numbers images.now) }
    ensures { MatchOption result (image_of images.now page ≡ Option.None) (λ bytes. image_of images.now page ≡ Option.Some bytes.now) }
{
    match place_of(images, page) {
        Ok(at) => Some(images[at].bytes.bytes()),
        Err(_) => None,
    }
}

// Puts an image into room that there is.
fn put_reserved(images: &mut Run<PageImage>, image: PageImage)
    requires rises { RisesFrom 0 (image_numbers (items_in images.old)) }
    requires room { 1 ≤ room_in images.old }
    ensures items { items_in images.new ≡ with_put (items_in images.old) image.page image.bytes }
    ensures room { room_in images.old ≤ room_in images.new + 1 }
{
    match place_of(images.as_slice(), image.page) {
        Ok(at) => images.set(at, image),
        Err(at) => images.insert_reserved(at, image),
    }
}

/// The images of pages.
#[derive(Drop)]
pub struct Images {
    alloc: Global,
    kept: Run<PageImage>,
    since: Vec<PageImage>,
}

impl Model for Images {
    ghost use Rattle.overlay.specs.Images.{TwoImages, merged};
    ghost use Rattle.overlay.specs.Runs.{items_in, room_in};
    ghost use Rattle.overlay.specs.Layers.{AreLayers};

    ghost Value = { TwoImages };

    ghost view = { λ images. record {
      now = merged (items_in images.kept) images.since.items;
      marked = items_in images.kept;
      since = images.since.items;
    } };

    ghost invariant = { λ images. AreLayers (items_in images.kept) images.since.items (room_in images.kept) };
}

impl Images {
    /// No images. It takes no memory.
    pub fn new(alloc: Global) -> Images
        ensures { result ≡ record { now = []; marked = []; since = [] } }
    {
        Images {
            alloc,
            kept: Run::Open(Vec::new(alloc)),
            since: Vec::new(alloc),
        }
    }

    /// These images, which aren't copied. It takes no memory.
    pub fn of(alloc: Global, images: Items<PageImage>) -> Images
        requires { RisesFrom 0 (image_numbers images) }
        ensures { result ≡ record { now = images; marked = images; since = [] } }
    {
        Images {
            alloc,
            kept: Run::Frozen(images),
            since: Vec::new(alloc),
        }
    }

    /// The bytes of the page's image, if it is there.
    pub fn find(&self, page: u32) -> Option<&[u8]>
        ensures { MatchOption result (image_of self.now.now page ≡ Option.None) (λ bytes. image_of self.now.now page ≡ Option.Some bytes.now) }
    {
        match bytes_of(self.since.as_slice(), page) {
            Some(bytes) => Some(bytes),
            None => bytes_of(self.kept.as_slice(), page),
        }
    }

    /// Puts an image in the place of that of its page. The error is want of memory, and leaves the images as they were.
    pub fn put(&mut self, page: u32, bytes: Bytes) -> Result<(), AllocError>
        requires { 1 ≤ page }
        ensures ok { OnOk result (self.new ≡ image_put_since self.old page bytes) }
        ensures err { OnErr result (self.new ≡ self.old) }
    {
        match place_of(self.since.as_slice(), page) {
            Ok(at) => {
                self.since[at] = PageImage { page, bytes };
                Ok(())
            }
            Err(at) => {
                self.kept.reserve(self.alloc, self.since.len() + 1)?;
                self.since.insert(at, PageImage { page, bytes })?;
                Ok(())
            }
        }
    }

    /// Puts an image in the place of one that was put since the mark. It takes no memory.
    pub fn replace(&mut self, page: u32, bytes: Bytes)
        requires page { 1 ≤ page }
        requires there { is_some (image_of self.old.since page) ≡ true }
        ensures { self.new ≡ image_put_since self.old page bytes }
    {
        match place_of(self.since.as_slice(), page) {
            Ok(at) => self.since[at] = PageImage { page, bytes },
            Err(_) => unreachable!(),
        }
    }

    /// Marks the images as they are. It takes no memory.
    pub fn mark(&mut self)
        ensures { self.new ≡ record { now = self.old.now; marked = self.old.now; since = [] } }
    {
        while let Some(image) = self.since.pop() {
            put_reserved(&mut self.kept, image);
        }
    }

    /// Takes the images back to the mark. It takes no memory.
    pub fn undo(&mut self)
        ensures { self.new ≡ record { now = self.old.marked; marked = self.old.marked; since = [] } }
    {
        self.since.clear();
    }

    /// All images, which aren't copied. It takes no memory.
    pub fn into_items(mut self) -> Items<PageImage>
        ensures { result ≡ self.now }
    {
        self.mark();
        let Images {
            alloc: _,
            kept,
            since: _,
        } = self;
        kept.into_items()
    }
}
