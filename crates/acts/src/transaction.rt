// What a transaction of page lines keeps of its reads and writes.
ghost use Rattle.std.specs.Prelude.{◌≡◌, ◌<◌, ◌==◌, position, length, replicate, slice_index, IfOk, OnOk, OnErr, MatchOption, All, Option};
ghost use Rattle.page_lines.specs.PageLines.{read_text, write_text, with_image};
ghost use Rattle.engine_spec.specs.Change.{image_of};
ghost use Rattle.acts.specs.Pagers.{after_fetch, after_own, after_write};

use crate::seats::Transaction;
use disk_face::{Bytes, Txt};
use engine_spec::PageImage;
use sqlite_items::Items;
use std::alloc::{AllocError, Global};

// The text of a read. The error is want of memory.
fn text_of_read(alloc: Global, page: u32) -> Result<Txt, AllocError>
    ensures { IfOk result (λ text. text ≡ read_text page) }
{
    let text = format!(in alloc; "READ {page}")?;
    Ok(Txt::from_vec(text.into_bytes()))
}

// The text of a write. The error is want of memory.
fn text_of_write(alloc: Global, page: u32, byte: u8) -> Result<Txt, AllocError>
    ensures { IfOk result (λ text. text ≡ write_text page byte) }
{
    let text = format!(in alloc; "WRITE {page} {byte}")?;
    Ok(Txt::from_vec(text.into_bytes()))
}

/// The first byte of the page as these images have it, or none where they don't have the page.
pub fn own_byte(changed: &[PageImage], page: u32, page_size: usize) -> Option<u8>
    requires some { 0 < page_size }
    requires whole { All (λ image. length image.bytes ≡ page_size) changed.now }
    ensures { MatchOption result (image_of changed.now page ≡ Option.None)
        (λ byte. (bytes : _) × (image_of changed.now page ≡ Option.Some bytes) × (byte ≡ slice_index bytes 0)) }
{
    for image in changed {
        if image.page == page {
            return Some(image.bytes.bytes()[0]);
        }
    }
    None
}

// The index of the image of this page.
fn place_of(images: &[PageImage], page: u32) -> Option<usize>
    ensures { result ≡ position (λ image. image.page == page) images.now }
{
    images.iter().position(|image| image.page == page)
}

// Puts an image in the place of that of its page, else at the end. The error is want of memory, and leaves the images as they were.
fn put_image(changed: &mut Items<PageImage>, page: u32, bytes: Bytes) -> Result<(), AllocError>
    ensures ok { OnOk result (changed.new ≡ with_image changed.old page bytes) }
    ensures err { OnErr result (changed.new ≡ changed.old) }
{
    match place_of(changed.as_slice(), page) {
        Some(at) => {
            changed.set(at, PageImage { page, bytes });
            Ok(())
        }
        None => changed.push(PageImage { page, bytes }),
    }
}

impl Transaction {
    /// Notes a read of a page that the transaction wrote itself. The error is want of memory, and leaves it as it was.
    pub fn note_own(&mut self, alloc: Global, page: u32) -> Result<(), AllocError>
        ensures ok { OnOk result (self.new ≡ after_own self.old page) }
        ensures err { OnErr result (self.new ≡ self.old) }
    {
        let text = text_of_read(alloc, page)?;
        self.said.push(text)
    }

    /// Notes a read of a page of the snapshot. The error is want of memory, and leaves the transaction as it was.
    pub fn note_fetch(&mut self, alloc: Global, page: u32) -> Result<(), AllocError>
        ensures ok { OnOk result (self.new ≡ after_fetch self.old page) }
        ensures err { OnErr result (self.new ≡ self.old) }
    {
        let text = text_of_read(alloc, page)?;
        self.said.push(text)?;
        match self.reads.add(page) {
            Ok(()) => Ok(()),
            Err(want) => {
                let _ = self.said.pop();
                Err(want)
            }
        }
    }

    /// Sets every byte of a page. The error is want of memory, and leaves the transaction as it was.
    pub fn note_write(
        &mut self,
        alloc: Global,
        page: u32,
        byte: u8,
        page_size: usize,
    ) -> Result<(), AllocError>
        ensures ok { OnOk result (self.new ≡ after_write page_size self.old page byte) }
        ensures err { OnErr result (self.new ≡ self.old) }
    {
        let text = text_of_write(alloc, page, byte)?;
        let bytes = filled(alloc, page_size, byte)?;
        self.said.push(text)?;
        match put_image(&mut self.changed, page, bytes) {
            Ok(()) => {
                self.wrote = true;
                Ok(())
            }
            Err(want) => {
                let _ = self.said.pop();
                Err(want)
            }
        }
    }
}

// A page whose bytes all have this value. The error is want of memory.
fn filled(alloc: Global, page_size: usize, byte: u8) -> Result<Bytes, AllocError>
    ensures { IfOk result (λ bytes. bytes ≡ replicate page_size byte) }
{
    let bytes = vec![in alloc; byte; page_size]?;
    Ok(Bytes::from_vec(bytes))
}
