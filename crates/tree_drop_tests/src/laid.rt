// The pages of a small file in memory. Nothing is told of their bytes: what is read of them is what the tests look at.
ghost use Rattle.std.specs.Prelude.{true, []};

use crate::stock::PAGES;
use page_face::{EditPages, FetchFault, Pages, PagesTells, PutPages};

/// The number of the last page.
pub const LAST: u32 = 21;

/// Pages of 512 bytes, of which page 1 is zeros and the others are at first those of `stock`. A page that is given up is written over at once.
#[derive(Drop)]
pub struct Laid {
    /// The bytes of the pages from 2 on.
    pub bytes: [[u8; 512]; 20],
    /// How often a page was fetched.
    pub fetched: usize,
    /// The pages that were given up, in their order, and how many were.
    pub gone: [u32; 20],
    pub given: usize,
}

impl Laid {
    /// The file as it is at first.
    pub fn new() -> Laid {
        let mut bytes = [[0; 512]; 20];
        for k in 0..20 {
            bytes[k].copy_from_slice(PAGES[k]);
        }
        Laid {
            bytes,
            fetched: 0,
            gone: [0; 20],
            given: 0,
        }
    }

    /// Changes a byte of a page from 2 on.
    pub fn set(&mut self, page: usize, at: usize, byte: u8) {
        if page >= 2 && page <= 21 && at < 512 {
            self.bytes[page - 2][at] = byte;
        }
    }
}

impl PagesTells for Laid {
    ghost tells = { λ _ _. ⊥ };

    ghost over = { λ _ _ _. [] };

    ghost free = { λ _ _ _. ⊥ };

    ghost neat = { λ _ _. Unit {0} };

    ghost spare = { λ _ _. ⊥ };

    ghost ready = { λ _. Unit {0} };

    ghost page_size = { λ _. 512 };

    ghost usable = { λ _. 512 };

    ghost last_page = { λ _. 21 };

    ghost has = { λ _ _. true };

    ghost reads = { λ _. [] };

    ghost faults = { λ _. 0 };

    ghost loans = { λ _. [] };

    ghost follows = { λ _ _. Unit {0} };

    ghost follows_itself = { λ _. tt };

    ghost follows_on = { λ _ _ _ _ _. tt };
}

impl Pages for Laid {
    fn page_size(&self) -> usize {
        512
    }

    fn usable(&self) -> usize {
        512
    }

    fn last(&self) -> u32 {
        LAST
    }

    fn fetch(&mut self, page: u32, buf: &mut [u8]) -> Result<(), FetchFault> {
        self.fetched = self.fetched.saturating_add(1);
        if page < 2 || page > 21 {
            buf.fill(0);
        } else {
            buf.copy_from_slice(&self.bytes[page as usize - 2]);
        }
        Ok(())
    }
}

impl PutPages for Laid {
    fn put(&mut self, page: u32, bytes: &[u8]) -> Result<(), FetchFault> {
        if page >= 2 && page <= 21 {
            self.bytes[page as usize - 2].copy_from_slice(bytes);
        }
        Ok(())
    }
}

impl EditPages for Laid {
    fn fresh(&mut self) -> Result<u32, FetchFault> {
        Err(FetchFault::Memory)
    }

    fn give_up(&mut self, page: u32) -> Result<(), FetchFault> {
        if page >= 2 && page <= 21 {
            self.bytes[page as usize - 2] = [255; 512];
        }
        if self.given < 20 {
            self.gone[self.given] = page;
        }
        self.given = self.given.saturating_add(1);
        Ok(())
    }
}
