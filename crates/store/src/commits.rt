// The history of a store.
ghost use Rattle.std.specs.Prelude.{◌≡◌, ◌+◌, ◌<◌, ◌≤◌, ◌^◌, ◌++◌, [], ◌∷◌, length, map, OnOk};

use crate::room::push_reserved;
use engine_spec::Entry;
use page_face::ReadSet;
use std::alloc::{AllocError, Global};
use std::marker::Model;

/// What a commit wrote.
#[derive(Debug, Drop)]
pub struct Wrote {
    /// The pages of its frames, in rising order.
    pub pages: ReadSet,
    /// Whether it changed page 1 from byte 100 on.
    pub tail: bool,
}

/// The commits of a store, in their order. A contract sees the list of them, each entry with what its commit wrote, and how many more there is room for.
#[derive(Debug, Drop)]
pub struct Commits {
    entries: Vec<Entry>,
    wrote: Vec<Wrote>,
}

impl Model for Commits {
    ghost use Rattle.std.specs.Prelude.{◌≡◌, ◌-◌, length, min, vec_len};
    ghost use Rattle.std.specs.Vec.{vec_capacity};
    ghost use Rattle.store.specs.Commits.{CommitList, commits_of};

    ghost Value = { CommitList };

    ghost view = { λ commits. record {
      commits = commits_of commits.entries.items commits.wrote.items;
      room = min (vec_capacity commits.entries - vec_len commits.entries) (vec_capacity commits.wrote - vec_len commits.wrote);
    } };

    ghost invariant = { λ commits. length commits.entries.items ≡ length commits.wrote.items };
}

impl Commits {
    /// No commits. It takes no memory.
    pub fn new(alloc: Global) -> Commits
        ensures { result.commits ≡ [] }
    {
        Commits {
            entries: Vec::new(alloc),
            wrote: Vec::new(alloc),
        }
    }

    /// How many there are.
    pub fn len(&self) -> usize
        ensures count { result ≡ length self.now.commits }
        ensures few { result + 1 < 2 ^ 64 }
    {
        self.entries.len()
    }

    /// Makes room for one commit more. The error is want of memory; the commits stay.
    pub fn reserve(&mut self) -> Result<(), AllocError>
        ensures room { OnOk result (1 ≤ self.new.room) }
        ensures commits { self.new.commits ≡ self.old.commits }
    {
        self.entries.reserve(1)?;
        self.wrote.reserve(1)
    }

    /// Adds a commit. It takes no memory: there is room.
    pub fn push(&mut self, entry: Entry, wrote: Wrote)
        requires room { 0 < self.old.room }
        ensures { self.new.commits ≡ self.old.commits ++ (record { entry = entry; wrote = wrote.pages; tail = wrote.tail }) ∷ [] }
    {
        push_reserved(&mut self.entries, entry);
        push_reserved(&mut self.wrote, wrote);
    }

    /// The entries, in their order.
    pub fn entries(&self) -> &[Entry]
        ensures { result.now ≡ map (λ commit. commit.entry) self.now.commits }
    {
        self.entries.as_slice()
    }

    /// The entries, moved out.
    pub fn into_entries(self) -> Vec<Entry>
        ensures { result.items ≡ map (λ commit. commit.entry) self.commits }
    {
        self.entries
    }
}
