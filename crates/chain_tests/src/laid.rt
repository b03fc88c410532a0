// The pages of a small file as constants. Nothing is told of their bytes: what is read of them is what the tests look at.
ghost use Rattle.std.specs.Prelude.{true, []};

use crate::stock::LINKS;
use page_face::{FetchFault, Pages, PagesTells};

/// Four pages of 512 bytes, of which the last two are the chain of `stock` and the others zeros.
#[derive(Drop)]
pub struct Laid {
    /// How often a page was fetched.
    pub fetched: u32,
}

impl PagesTells for Laid {
    ghost tells = { λ _ _. ⊥ };

    ghost over = { λ _ _ _. [] };

    ghost free = { λ _ _ _. ⊥ };

    ghost neat = { λ _ _. Unit {0} };

    ghost spare = { λ _ _. ⊥ };

    ghost ready = { λ _. Unit {0} };

    ghost page_size = { λ _. 512 };

    ghost usable = { λ _. 512 };

    ghost last_page = { λ _. 4 };

    ghost has = { λ _ _. true };

    ghost reads = { λ _. [] };

    ghost faults = { λ _. 0 };

    ghost loans = { λ _. [] };

    ghost follows = { λ _ _. Unit {0} };

    ghost follows_itself = { λ _. tt };

    ghost follows_on = { λ _ _ _ _ _. tt };
}

impl Pages for Laid {
    fn page_size(&self) -> usize {
        512
    }

    fn usable(&self) -> usize {
        512
    }

    fn last(&self) -> u32 {
        4
    }

    fn fetch(&mut self, page: u32, buf: &mut [u8]) -> Result<(), FetchFault> {
        self.fetched = self.fetched.saturating_add(1);
        if page < 3 {
            buf.fill(0);
        } else {
            buf.copy_from_slice(LINKS[page as usize - 3]);
        }
        Ok(())
    }
}
