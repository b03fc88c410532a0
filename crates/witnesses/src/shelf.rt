// Pages in memory that may be changed, made and given up: they show that `EditPages` can be met.
ghost use Rattle.std.specs.Prelude.{◌≡◌, ℕ, ◌-◌, ◌^◌, ◌<◌, ◌≤◌, ◌⊎◌, true, [], ◌∷◌, length, replicate, Contains, All, IfOk};
ghost use Rattle.page_spec.specs.PageMap.{page_at};

use disk_face::Bytes;
use page_face::{EditPages, FetchFault, Pages, PagesTells, PutPages, ReadSet};
use sqlite_items::Items;
use std::alloc::{AllocError, Global};

/// From 1 to 2^21 pages of 512 bytes, and those that were given up.
#[derive(Drop)]
pub struct Shelf {
    alloc: Global,
    pages: Items<Bytes>,
    given: ReadSet,
    ghost some: { 1 ≤ length pages },
    ghost few: { length pages ≤ 2 ^ 21 },
    ghost whole: { All (λ page. length page ≡ 512) pages },
    ghost held: { All (λ page. page ≤ length pages) given },
}

impl Shelf {
    /// One page of zeros, of which none is given up. The error is want of memory.
    pub fn new(alloc: Global) -> Result<Shelf, AllocError>
        ensures pages { IfOk result (λ shelf. shelf.pages ≡ replicate 512 0 ∷ []) }
        ensures given { IfOk result (λ shelf. shelf.given ≡ []) }
    {
        let blank = Bytes::of(alloc, &[0; 512])?;
        let mut pages = Items::new(alloc);
        pages.push(blank)?;
        Ok(Shelf {
            alloc,
            pages,
            given: ReadSet::new(alloc),
        })
    }
}

// The bytes of a page that is there.
fn page_of(pages: &[Bytes], page: u32) -> &[u8]
    requires { (1 ≤ page) × (page ≤ length pages.now) }
    ensures { result.now ≡ page_at pages.now page }
{
    pages[page as usize - 1].bytes()
}

impl PagesTells for Shelf {
    ghost tells = { λ _ _. Unit {0} };

    ghost over = { λ shelf _ number. page_at shelf.pages number };

    ghost free = { λ shelf _ number. (length shelf.pages < number) ⊎ Contains shelf.given number };

    ghost neat = { λ _ _. Unit {0} };

    ghost spare = { λ _ _. ⊥ };

    ghost ready = { λ _. Unit {0} };

    ghost page_size = { λ _. 512 };

    ghost usable = { λ _. 512 };

    ghost last_page = { λ shelf. length shelf.pages };

    ghost has = { λ _ _. true };

    ghost reads = { λ _. [] };

    ghost faults = { λ _. 0 };

    ghost loans = { λ _. [] };

    ghost follows = { λ _ _. Unit {0} };

    ghost follows_itself = { λ _. tt };

    ghost follows_on = { λ _ _ _ _ _. tt };
}

impl Pages for Shelf {
    fn page_size(&self) -> usize {
        512
    }

    fn usable(&self) -> usize {
        512
    }

    fn last(&self) -> u32 {
        self.pages.len() as u32
    }

    fn fetch(&mut self, page: u32, buf: &mut [u8]) -> Result<(), FetchFault> {
        buf.copy_from_slice(page_of(self.pages.as_slice(), page));
        Ok(())
    }
}

impl PutPages for Shelf {
    fn put(&mut self, page: u32, bytes: &[u8]) -> Result<(), FetchFault> {
        match Bytes::of(self.alloc, bytes) {
            Ok(copy) => {
                self.pages.set(page as usize - 1, copy);
                Ok(())
            }
            Err(_) => Err(FetchFault::Memory),
        }
    }
}

impl EditPages for Shelf {
    fn fresh(&mut self) -> Result<u32, FetchFault> {
        let page = self.pages.len() as u32 + 1;
        if page > 2_097_152 {
            return Err(FetchFault::Size {
                pages: u64::from(page),
            });
        }
        match Bytes::of(self.alloc, &[0; 512]) {
            Ok(blank) => match self.pages.push(blank) {
                Ok(()) => Ok(page),
                Err(_) => Err(FetchFault::Memory),
            },
            Err(_) => Err(FetchFault::Memory),
        }
    }

    fn give_up(&mut self, page: u32) -> Result<(), FetchFault> {
        match self.given.add(page) {
            Ok(()) => Ok(()),
            Err(_) => Err(FetchFault::Memory),
        }
    }
}
