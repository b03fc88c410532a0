// The pages that a transaction gave up, each once and in rising order, and which of them it gave up since a mark.
ghost use Rattle.std.specs.Prelude.{◌≡◌, ◌≤◌, [], OnOk, OnErr};
ghost use Rattle.engine_spec.specs.PageSet.{with_page};
ghost use Rattle.overlay.specs.Places.{RisesFrom, IsPlace};
ghost use Rattle.overlay.specs.FreedPages.{without_page};
ghost use Rattle.overlay.specs.Runs.{items_in};

use crate::run::Run;
use sqlite_items::Items;
use std::alloc::{AllocError, Global};
use std::marker::Model;

// The place of the page, or where it would stand.
fn place_in(pages: &[u32], page: u32) -> Result<usize, usize>
    requires { RisesFrom 0 pages.now }
    ensures { IsPlace pages.now page result }
{
    pages.binary_search(&page)
}

// Takes a page out, if it is there.
fn take_out(pages: &mut Run<u32>, page: u32)
    requires { RisesFrom 0 (items_in pages.old) }
    ensures { items_in pages.new ≡ without_page (items_in pages.old) page }
{
    if let Ok(at) = place_in(pages.as_slice(), page) {
        pages.remove(at);
    }
}

/// A set of pages that were given up.
#[derive(Drop)]
pub struct FreedPages {
    alloc: Global,
    all: Run<u32>,
    since: Vec<u32>,
}

impl Model for FreedPages {
    ghost use Rattle.overlay.specs.FreedPages.{TwoSets, taken_back};
    ghost use Rattle.overlay.specs.Runs.{items_in};
    ghost use Rattle.overlay.specs.Places.{RisesFrom};

    ghost Value = { TwoSets };

    ghost view = { λ freed. record { now = items_in freed.all; marked = taken_back (items_in freed.all) freed.since.items } };

    ghost invariant = { λ freed. RisesFrom 0 (items_in freed.all) };
}

impl FreedPages {
    /// No pages. It takes no memory.
    pub fn new(alloc: Global) -> FreedPages
        ensures { result ≡ record { now = []; marked = [] } }
    {
        FreedPages {
            alloc,
            all: Run::Open(Vec::new(alloc)),
            since: Vec::new(alloc),
        }
    }

    /// These pages, which aren't copied. It takes no memory.
    pub fn of(alloc: Global, pages: Items<u32>) -> FreedPages
        requires { RisesFrom 0 pages }
        ensures { result ≡ record { now = pages; marked = pages } }
    {
        FreedPages {
            alloc,
            all: Run::Frozen(pages),
            since: Vec::new(alloc),
        }
    }

    /// Puts a page into the set. The error is want of memory, and leaves the set as it was.
    pub fn add(&mut self, page: u32) -> Result<(), AllocError>
        requires { 1 ≤ page }
        ensures ok { OnOk result (self.new ≡ record self.old { now = with_page self.old.now page }) }
        ensures err { OnErr result (self.new ≡ self.old) }
    {
        match place_in(self.all.as_slice(), page) {
            Ok(_) => Ok(()),
            Err(at) => {
                self.all.reserve(self.alloc, 1)?;
                self.since.push(page)?;
                self.all.insert_reserved(at, page);
                Ok(())
            }
        }
    }

    /// Marks the set as it is. It takes no memory.
    pub fn mark(&mut self)
        ensures { self.new ≡ record { now = self.old.now; marked = self.old.now } }
    {
        self.since.clear();
    }

    /// Takes the set back to the mark. It takes no memory.
    pub fn undo(&mut self)
        ensures { self.new ≡ record { now = self.old.marked; marked = self.old.marked } }
    {
        while let Some(page) = self.since.pop() {
            take_out(&mut self.all, page);
        }
    }

    /// All pages, which aren't copied. It takes no memory.
    pub fn into_items(self) -> Items<u32>
        ensures { result ≡ self.now }
    {
        let FreedPages {
            alloc: _,
            all,
            since: _,
        } = self;
        all.into_items()
    }
}
