// Pages in memory, of which two may be trunks. Nothing is told of their bytes: what is read of them is what the tests look at.
ghost use Rattle.std.specs.Prelude.{true, []};

use page_face::{FetchFault, Pages, PagesTells, PutPages};

/// Pages of 512 bytes, so many, of which two hold bytes and the others are zeros. What is put elsewhere is lost, and counted.
#[derive(Drop)]
pub struct Laid {
    /// The number of the last page.
    pub last: u32,
    /// The numbers of the two pages.
    pub numbers: [u32; 2],
    /// Their bytes.
    pub bytes: [[u8; 512]; 2],
    /// How often a page was fetched.
    pub fetched: u32,
    /// How often a page was put, and how often elsewhere.
    pub put: u32,
    pub lost: u32,
}

impl PagesTells for Laid {
    ghost tells = { λ _ _. ⊥ };

    ghost over = { λ _ _ _. [] };

    ghost free = { λ _ _ _. ⊥ };

    ghost neat = { λ _ _. Unit {0} };

    ghost spare = { λ _ _. ⊥ };

    ghost ready = { λ _. Unit {0} };

    ghost page_size = { λ _. 512 };

    ghost usable = { λ _. 512 };

    ghost last_page = { λ laid. laid.last };

    ghost has = { λ _ _. true };

    ghost reads = { λ _. [] };

    ghost faults = { λ _. 0 };

    ghost loans = { λ _. [] };

    ghost follows = { λ _ _. Unit {0} };

    ghost follows_itself = { λ _. tt };

    ghost follows_on = { λ _ _ _ _ _. tt };
}

impl Pages for Laid {
    fn page_size(&self) -> usize {
        512
    }

    fn usable(&self) -> usize {
        512
    }

    fn last(&self) -> u32 {
        self.last
    }

    fn fetch(&mut self, page: u32, buf: &mut [u8]) -> Result<(), FetchFault> {
        self.fetched = self.fetched.saturating_add(1);
        if page == self.numbers[0] {
            buf.copy_from_slice(&self.bytes[0]);
        } else if page == self.numbers[1] {
            buf.copy_from_slice(&self.bytes[1]);
        } else {
            buf.fill(0);
        }
        Ok(())
    }
}

impl PutPages for Laid {
    fn put(&mut self, page: u32, bytes: &[u8]) -> Result<(), FetchFault> {
        self.put = self.put.saturating_add(1);
        if page == self.numbers[0] {
            self.bytes[0].copy_from_slice(bytes);
        } else if page == self.numbers[1] {
            self.bytes[1].copy_from_slice(bytes);
        } else {
            self.lost = self.lost.saturating_add(1);
        }
        Ok(())
    }
}
