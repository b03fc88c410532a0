// Pages in memory, of which more are made and some given up. Nothing is told of their bytes: what is read of them is what the tests look at.
ghost use Rattle.std.specs.Prelude.{true, []};

use page_face::{EditPages, FetchFault, Pages, PagesTells, PutPages};

/// How many pages of 512 bytes end within 2^30 bytes.
pub const MOST: u32 = 2097152;

/// Pages of 512 bytes, of which pages 3 to 5 hold bytes and the others are zeros. What is put elsewhere is lost.
#[derive(Drop)]
pub struct Edited {
    /// The number of the last page.
    pub last: u32,
    /// The bytes of pages 3 to 5.
    pub bytes: [[u8; 512]; 3],
    /// How often a page was fetched, and how often one was put.
    pub fetched: u32,
    pub put: u32,
    /// The first three pages that were given up, and how many were.
    pub gone: [u32; 3],
    pub given: usize,
}

impl PagesTells for Edited {
    ghost tells = { λ _ _. ⊥ };

    ghost over = { λ _ _ _. [] };

    ghost free = { λ _ _ _. ⊥ };

    ghost neat = { λ _ _. Unit {0} };

    ghost spare = { λ _ _. ⊥ };

    ghost ready = { λ _. Unit {0} };

    ghost page_size = { λ _. 512 };

    ghost usable = { λ _. 512 };

    ghost last_page = { λ edited. edited.last };

    ghost has = { λ _ _. true };

    ghost reads = { λ _. [] };

    ghost faults = { λ _. 0 };

    ghost loans = { λ _. [] };

    ghost follows = { λ _ _. Unit {0} };

    ghost follows_itself = { λ _. tt };

    ghost follows_on = { λ _ _ _ _ _. tt };
}

impl Pages for Edited {
    fn page_size(&self) -> usize {
        512
    }

    fn usable(&self) -> usize {
        512
    }

    fn last(&self) -> u32 {
        self.last
    }

    fn fetch(&mut self, page: u32, buf: &mut [u8]) -> Result<(), FetchFault> {
        self.fetched = self.fetched.saturating_add(1);
        if page < 3 || page > 5 {
            buf.fill(0);
        } else {
            buf.copy_from_slice(&self.bytes[page as usize - 3]);
        }
        Ok(())
    }
}

impl PutPages for Edited {
    fn put(&mut self, page: u32, bytes: &[u8]) -> Result<(), FetchFault> {
        self.put = self.put.saturating_add(1);
        if page >= 3 && page <= 5 {
            self.bytes[page as usize - 3].copy_from_slice(bytes);
        }
        Ok(())
    }
}

impl EditPages for Edited {
    fn fresh(&mut self) -> Result<u32, FetchFault> {
        if self.last == 0 {
            return Err(FetchFault::Memory);
        }
        if self.last >= MOST {
            return Err(FetchFault::Size {
                pages: self.last as u64 + 1,
            });
        }
        self.last += 1;
        Ok(self.last)
    }

    fn give_up(&mut self, page: u32) -> Result<(), FetchFault> {
        if self.given < 3 {
            self.gone[self.given] = page;
        }
        self.given = self.given.saturating_add(1);
        Ok(())
    }
}
