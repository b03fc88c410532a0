// A commit of the engine in memory.
ghost use Rattle.std.specs.Prelude.{◌≡◌};
ghost use Rattle.engine_spec.specs.History.{counts};

use engine_spec::{Entry, Mode};
use page_face::ReadSet;
use std::marker::Model;

/// A commit as it is kept. A contract sees the commit, with the pages that it wrote in rising order.
#[derive(Drop)]
pub struct Made {
    /// Whose it was, and what was said.
    pub entry: Entry,
    /// The pages that it wrote.
    pub wrote: ReadSet,
    /// Whether it changed page 1 from byte 100 on.
    pub tail: bool,
}

impl Model for Made {
    ghost use Rattle.engine_spec.specs.declared.commits.Commit.{Commit};

    ghost Value = { Commit };

    ghost view = { λ made. record { entry = made.entry; wrote = made.wrote; tail = made.tail } };
}

impl Made {
    /// Whether it counts as having written the page, for a transaction of this mode.
    pub fn does_count(&self, mode: Mode, page: u32) -> bool
        ensures { result ≡ counts mode page self.now }
    {
        let is_written = self.wrote.has(page);
        match mode {
            Mode::Plain => is_written,
            Mode::Concurrent => is_written && (self.tail || page != 1),
        }
    }
}
