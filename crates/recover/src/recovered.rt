// The recovered map as pages, read from where they stand.
ghost use Rattle.std.specs.Prelude.{◌≡◌};

use crate::place::read_place;
use crate::seen::Seen;
use disk_face::{Disk, Failed};
use page_face::{FetchFault, Pages, PagesTells};

/// The pages of the recovered map, before anything is written. It is made in place from its fields, over the disk that was looked at, of a database
/// that is there.
///
/// A page is fetched from the last frame of it in the newer log, else in the older one, else from the database. Nothing is kept of what was read, only
/// whether a read failed.
#[derive(Drop)]
pub struct Recovered<'a, 'b, D> {
    /// What was seen of the disk.
    pub seen: &'a Seen,
    /// The disk, as it was looked at.
    pub disk: &'b mut D,
    /// Whether a read of it has failed. It begins as `false`. As long as it isn't set the count of faults is as it was.
    pub failed: bool,
}

impl<'a, 'b, D: Disk> PagesTells for Recovered<'a, 'b, D> {
    ghost use Rattle.std.specs.Prelude.{true, [], ◌∷◌, length};
    ghost use Rattle.recover.specs.AsLooked.{IsAsLooked, IsViewOfRecovered, IsOnlyRead, only_read_itself, only_read_on};

    ghost tells = { λ pages world. IsViewOfRecovered (D.told pages.disk.now) world };

    ghost over = { λ _ world. world };

    ghost free = { λ _ _ _. ⊥ };

    ghost neat = { λ _ _. Unit {0} };

    ghost spare = { λ _ _. ⊥ };

    ghost ready = { λ pages. IsAsLooked D.DiskTells pages.disk.now pages.seen.now };

    ghost page_size = { λ pages. pages.seen.now.page_size };

    ghost usable = { λ pages. pages.seen.now.usable };

    ghost last_page = { λ pages. length pages.seen.now.places };

    ghost has = { λ _ _. true };

    ghost reads = { λ _. [] };

    ghost faults = { λ pages. D.faults pages.disk.now };

    ghost loans = { λ pages. pages.disk.ghost_name ∷ D.loans pages.disk.now };

    ghost follows = { λ old new. IsOnlyRead D.DiskTells old.seen.now new.seen.now old.failed new.failed old.disk.now new.disk.now };

    ghost follows_itself = { λ pages. only_read_itself D.DiskTells pages.seen.now pages.failed pages.disk.now };

    ghost follows_on = { λ first second third one two. only_read_on D.DiskTells first.seen.now second.seen.now third.seen.now first.failed second.failed third.failed first.disk.now second.disk.now third.disk.now one two };
}

impl<'a, 'b, D: Disk> Pages for Recovered<'a, 'b, D> {
    fn page_size(&self) -> usize {
        self.seen.page_size() as usize
    }

    fn usable(&self) -> usize {
        self.seen.usable() as usize
    }

    fn last(&self) -> u32 {
        self.seen.pages()
    }

    fn fetch(&mut self, page: u32, buf: &mut [u8]) -> Result<(), FetchFault> {
        let place = self.seen.place_of(page);
        match read_place(self.disk, place, page, buf) {
            Ok(()) => Ok(()),
            Err(Failed) => {
                self.failed = true;
                Err(FetchFault::Disk)
            }
        }
    }
}
