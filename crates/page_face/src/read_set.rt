// The pages that a transaction read.
ghost use Rattle.std.specs.Prelude.{◌≡◌, ◌==◌, [], OnOk, OnErr};
ghost use Rattle.std.specs.List.{list_any};
ghost use Rattle.engine_spec.specs.PageSet.{with_page};

use std::alloc::{AllocError, Global};
use std::marker::Model;

/// A set of page numbers. A contract sees the list of them in rising order.
#[derive(Debug, Drop)]
pub struct ReadSet {
    items: Vec<u32>,
}

impl Model for ReadSet {
    ghost use Rattle.std.specs.Prelude.{List, ℕ};
    ghost use Rattle.std.specs.List.Sorted.{IsStrictlyIncreasing};

    ghost Value = { List ℕ };

    ghost view = { λ set. set.items.items };

    ghost invariant = { λ set. IsStrictlyIncreasing set.items.items };
}

impl ReadSet {
    /// The empty set. It takes no memory.
    pub fn new(alloc: Global) -> ReadSet
        ensures { result ≡ [] }
    {
        ReadSet {
            items: Vec::new(alloc),
        }
    }

    /// Puts a page into the set. The error is want of memory, and leaves the set as it was.
    pub fn add(&mut self, page: u32) -> Result<(), AllocError>
        ensures ok { OnOk result (self.new ≡ with_page self.old page) }
        ensures err { OnErr result (self.new ≡ self.old) }
    {
        match self.items.binary_search(&page) {
            Ok(_) => Ok(()),
            Err(at) => {
                self.items.insert(at, page)?;
                Ok(())
            }
        }
    }

    /// Whether the page is in the set.
    pub fn has(&self, page: u32) -> bool
        ensures { result ≡ list_any (λ p. p == page) self.now }
    {
        self.items.binary_search(&page).is_ok()
    }

    /// The pages in rising order.
    pub fn pages(&self) -> &[u32]
        ensures { result.now ≡ self.now }
    {
        self.items.as_slice()
    }
}
