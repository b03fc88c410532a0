// Where a write failed is kept, with the pages of its commit.
ghost use Rattle.std.specs.Prelude.{◌≡◌, ◌+◌, ◌*◌, ◌≤◌, ◌<◌, ◌++◌, [], length, All, Some};
ghost use Rattle.laying.specs.Order.{in_order, images_of, page_numbers};
ghost use Rattle.store.specs.Halts.{images_in};
ghost use Rattle.store.specs.Committing.{bytes_of};

use crate::kept_pages::KeptPages;
use crate::store::{Halt, Store};
use disk_face::{Disk, Salts};
use engine_spec::PageImage;
use page_face::Means;

impl<D: Disk, W: Salts, M: Means> Store<D, W, M> {
    // Keeps the place of a write that failed, and the pages of its commit: page 1, which is in the buffer, and the changed ones in this order. It takes
    // no memory: there is room.
    pub(crate) fn halt(&mut self, log: u8, at: u64, changed: &[PageImage], order: &[u32])
        requires none { self.old.spare.pages ≡ [] }
        requires empty { self.old.spare.bytes ≡ [] }
        requires page_room { length order.now + 1 ≤ self.old.spare.page_room }
        requires byte_room { (length order.now + 1) * self.old.page_size ≤ self.old.spare.byte_room }
        requires first { length self.old.buf.items ≡ self.old.page_size }
        requires places { All (λ place. place < length changed.now) order.now }
        requires whole { All (λ image. length image.bytes ≡ self.old.page_size) changed.now }
        ensures same { self.new ≡ record self.old { stop = Some (record { log = log; at = at; size = self.old.size }); spare = self.new.spare } }
        ensures images { images_in self.old.page_size self.new.spare.pages self.new.spare.bytes ≡ images_of self.old.buf.items changed.now order.now }
    {
        self.spare.push(1, self.buf.as_slice());
        keep_pages(&mut self.spare, changed, order, self.page_size);
        self.stop = Some(Halt {
            log,
            at,
            size: self.size,
        });
    }
}

// Keeps the images at these places, each of so many bytes.
fn keep_pages(spare: &mut KeptPages, changed: &[PageImage], order: &[u32], size: usize)
    requires page_room { length order.now ≤ spare.old.page_room }
    requires byte_room { length order.now * size ≤ spare.old.byte_room }
    requires places { All (λ place. place < length changed.now) order.now }
    requires whole { All (λ image. length image.bytes ≡ size) changed.now }
    ensures pages { spare.new.pages ≡ spare.old.pages ++ page_numbers (in_order changed.now order.now) }
    ensures bytes { spare.new.bytes ≡ spare.old.bytes ++ bytes_of (in_order changed.now order.now) }
{
    let mut next = 0;
    'kept: while next < order.len() {
        let image = &changed[order[next] as usize];
        spare.push(image.page, image.bytes.bytes());
        next += 1;
    }
}
