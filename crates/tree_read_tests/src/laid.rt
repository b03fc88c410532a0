// The pages of a small file as constants. Nothing is told of their bytes: what is read of them is what the tests look at.
ghost use Rattle.std.specs.Prelude.{true, []};

use crate::stock::PAGES;
use page_face::{FetchFault, Pages, PagesTells};

/// Pages of 512 bytes, of which page 1 is zeros and the others are those of `stock`, up to the last one that is told.
#[derive(Drop)]
pub struct Laid {
    /// The number of the last page.
    pub last: u32,
    /// How often a page was fetched.
    pub fetched: u32,
}

impl PagesTells for Laid {
    ghost tells = { λ _ _. ⊥ };

    ghost over = { λ _ _ _. [] };

    ghost free = { λ _ _ _. ⊥ };

    ghost neat = { λ _ _. Unit {0} };

    ghost spare = { λ _ _. ⊥ };

    ghost ready = { λ _. Unit {0} };

    ghost page_size = { λ _. 512 };

    ghost usable = { λ _. 512 };

    ghost last_page = { λ laid. laid.last };

    ghost has = { λ _ _. true };

    ghost reads = { λ _. [] };

    ghost faults = { λ _. 0 };

    ghost loans = { λ _. [] };

    ghost follows = { λ _ _. Unit {0} };

    ghost follows_itself = { λ _. tt };

    ghost follows_on = { λ _ _ _ _ _. tt };
}

impl Pages for Laid {
    fn page_size(&self) -> usize {
        512
    }

    fn usable(&self) -> usize {
        512
    }

    fn last(&self) -> u32 {
        self.last
    }

    fn fetch(&mut self, page: u32, buf: &mut [u8]) -> Result<(), FetchFault> {
        self.fetched = self.fetched.saturating_add(1);
        if page < 2 || page > 15 {
            buf.fill(0);
        } else {
            buf.copy_from_slice(PAGES[page as usize - 2]);
        }
        Ok(())
    }
}
