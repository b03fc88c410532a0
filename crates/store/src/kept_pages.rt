// The pages of a commit whose write failed.
//
// A commit that fails is handed back as it was, so the store copies its pages. The room for that was made before the first write, and stays for
// the next commit: a commit that goes well copies no page.
ghost use Rattle.std.specs.Prelude.{◌≡◌, ℕ, ◌+◌, ◌*◌, ◌^◌, ◌<◌, ◌≤◌, ◌++◌, [], ◌∷◌, length, OnOk};

use crate::room::push_reserved;
use std::alloc::{AllocError, Global};
use std::marker::Model;

/// Pages with their numbers, and room for more.
#[derive(Debug, Drop)]
pub struct KeptPages {
    pages: Vec<u32>,
    bytes: Vec<u8>,
}

impl Model for KeptPages {
    ghost use Rattle.std.specs.Prelude.{◌-◌, vec_len};
    ghost use Rattle.std.specs.Vec.{vec_capacity};
    ghost use Rattle.store.specs.Halts.{KeptPages};

    ghost Value = { KeptPages };

    ghost view = { λ kept. record {
      pages = kept.pages.items;
      bytes = kept.bytes.items;
      page_room = vec_capacity kept.pages - vec_len kept.pages;
      byte_room = vec_capacity kept.bytes - vec_len kept.bytes;
    } };
}

impl KeptPages {
    /// No pages. It takes no memory.
    pub fn new(alloc: Global) -> KeptPages
        ensures pages { result.pages ≡ [] }
        ensures bytes { result.bytes ≡ [] }
    {
        KeptPages {
            pages: Vec::new(alloc),
            bytes: Vec::new(alloc),
        }
    }

    /// Makes room for so many pages of this size. The error is want of memory; the pages stay.
    pub fn reserve(&mut self, count: usize, size: usize) -> Result<(), AllocError>
        requires fits { count * size < 2 ^ 64 }
        ensures pages { OnOk result (count ≤ self.new.page_room) }
        ensures bytes { OnOk result (count * size ≤ self.new.byte_room) }
        ensures same_pages { self.new.pages ≡ self.old.pages }
        ensures same_bytes { self.new.bytes ≡ self.old.bytes }
    {
        self.pages.reserve(count)?;
        self.bytes.reserve(count * size)
    }

    /// Adds a page. It takes no memory: there is room.
    pub fn push(&mut self, page: u32, bytes: &[u8])
        requires page_room { 0 < self.old.page_room }
        requires byte_room { length bytes.now ≤ self.old.byte_room }
        ensures pages { self.new.pages ≡ self.old.pages ++ page ∷ [] }
        ensures bytes { self.new.bytes ≡ self.old.bytes ++ bytes.now }
        ensures page_room { self.old.page_room ≤ self.new.page_room + 1 }
        ensures byte_room { self.old.byte_room ≤ self.new.byte_room + length bytes.now }
    {
        push_reserved(&mut self.pages, page);
        match self.bytes.extend_from_slice(bytes) {
            Ok(()) => (),
            Err(_) => unreachable!(),
        }
    }
}
