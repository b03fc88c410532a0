// A small database with a few bytes changed. Nothing is told of its bytes: what is read of them is what the tests look at.
ghost use Rattle.std.specs.Prelude.{◌≡◌, true, [], length};

use crate::stock::{Edit, PAGES};
use page_face::{FetchFault, Pages, PagesTells};

/// The pages of `stock` with two changes.
#[derive(Drop)]
pub struct Laid {
    /// The number of the last page.
    pub last: u32,
    /// The changes.
    pub one: Edit,
    pub two: Edit,
    /// How often a page was fetched.
    pub fetched: u32,
}

impl PagesTells for Laid {
    ghost tells = { λ _ _. ⊥ };

    ghost over = { λ _ _ _. [] };

    ghost free = { λ _ _ _. ⊥ };

    ghost neat = { λ _ _. Unit {0} };

    ghost spare = { λ _ _. ⊥ };

    ghost ready = { λ _. Unit {0} };

    ghost page_size = { λ _. 512 };

    ghost usable = { λ _. 512 };

    ghost last_page = { λ laid. laid.last };

    ghost has = { λ _ _. true };

    ghost reads = { λ _. [] };

    ghost faults = { λ _. 0 };

    ghost loans = { λ _. [] };

    ghost follows = { λ _ _. Unit {0} };

    ghost follows_itself = { λ _. tt };

    ghost follows_on = { λ _ _ _ _ _. tt };
}

impl Pages for Laid {
    fn page_size(&self) -> usize {
        512
    }

    fn usable(&self) -> usize {
        512
    }

    fn last(&self) -> u32 {
        self.last
    }

    fn fetch(&mut self, page: u32, buf: &mut [u8]) -> Result<(), FetchFault> {
        self.fetched = self.fetched.saturating_add(1);
        let index = (page as usize).wrapping_sub(1);
        if index < PAGES.len() {
            buf.copy_from_slice(PAGES[index]);
        } else {
            buf.fill(0);
        }
        change(&self.one, page, buf);
        change(&self.two, page, buf);
        Ok(())
    }
}

// Makes a change in the bytes of its page.
fn change(edit: &Edit, page: u32, buf: &mut [u8])
    ensures { length buf.new ≡ length buf.old }
{
    if page == edit.page && edit.at <= 504 && buf.len() == 512 {
        buf[edit.at..edit.at + 8].copy_from_slice(&edit.bytes);
    }
}
