// The index of one log: its frames and its commits.
ghost use Rattle.std.specs.Prelude.{◌≡◌, ℕ, ◌+◌, ◌<◌, ◌≤◌, ◌^◌, Bool, List, [], length, slice_index, false, OnOk, Option};
ghost use Rattle.wal_index.specs.Frames.{FindsLast, FindsNext};
ghost use Rattle.wal_index.specs.Commits.{CommitList};
ghost use Rattle.wal_index.specs.Index.{IndexedLog, SameLog, HasRoom, IsCleared, AddsFrame, Seals, IsAbove, HasOpenFrames, FirstWriter, by_tail};

use crate::commits::LogCommits;
use crate::frames::LogFrames;
use std::alloc::{AllocError, Global};
use std::marker::Model;

/// The index of one log.
#[derive(Debug, Drop)]
pub struct LogIndex {
    frames: LogFrames,
    commits: LogCommits,
}

impl Model for LogIndex {
    ghost use Rattle.std.specs.Prelude.{ℕ, ◌<◌, ◌≤◌, length, slice_index};
    ghost use Rattle.wal_index.specs.Index.{IndexedLog};

    ghost Value = { IndexedLog };

    ghost view = { λ log. record {
      pages = log.frames.pages;
      numbers = log.commits.numbers;
      ends = log.commits.ends;
      tails = log.commits.tails;
      room = log.frames.room;
      seals = log.commits.room;
    } };

    ghost invariant = { λ log. (place : ℕ) → place < length log.commits.ends → slice_index log.commits.ends place ≤ length log.frames.pages };
}

impl LogIndex {
    /// No frames. It takes no memory.
    pub fn new(alloc: Global) -> LogIndex
        ensures pages { result.pages ≡ [] }
        ensures numbers { result.numbers ≡ [] }
        ensures ends { result.ends ≡ [] }
        ensures tails { result.tails ≡ [] }
    {
        LogIndex {
            frames: LogFrames::new(alloc),
            commits: LogCommits::new(alloc),
        }
    }

    /// Makes room for so many frames and a commit more. The error is want of memory; what the log holds stays.
    pub fn reserve(&mut self, frames: usize) -> Result<(), AllocError>
        ensures room { OnOk result (HasRoom self.old frames self.new) }
        ensures same { SameLog self.old self.new }
    {
        self.frames.reserve(frames)?;
        self.commits.reserve()
    }

    /// Adds a frame of the page. It takes no memory: there is room.
    pub fn add(&mut self, page: u32)
        requires room { 0 < self.old.room }
        requires fits { length self.old.pages + 1 < 2 ^ 32 }
        ensures { AddsFrame self.old page self.new }
    {
        self.frames.add(page);
    }

    /// Makes the frames behind the last commit one with this number. It takes no memory: there is room.
    pub fn seal(&mut self, number: u64, tail: bool)
        requires room { 0 < self.old.seals }
        requires number { IsAbove self.old.numbers number }
        requires frames { HasOpenFrames self.old }
        requires some { 0 < length self.old.pages }
        ensures { Seals self.old number tail self.new }
    {
        let end = self.frames.len() as u32;
        self.commits.push(number, end, tail);
    }

    /// Takes all frames and commits out. It takes no memory and keeps the room.
    pub fn clear(&mut self)
        ensures { IsCleared self.old self.new }
    {
        self.frames.clear();
        self.commits.clear();
    }

    /// The number of the last frame of the page, at most the mark.
    pub fn find(&self, page: u32, mark: u32) -> Option<u32>
        ensures { FindsLast self.now.pages page mark result }
    {
        self.frames.find_last(page, mark)
    }

    /// The least page above this one of which the log has a frame.
    pub fn next_page(&self, after: u32) -> Option<u32>
        ensures { FindsNext self.now.pages after result }
    {
        self.frames.find_next(after)
    }

    /// The number of the first commit above `n` that counts as having written the page: of page 1, unless it counts as a whole, one that changed it
    /// from byte 100 on.
    pub fn written_since(&self, n: u64, page: u32, whole: bool) -> Option<u64>
        ensures { FirstWriter (by_tail page whole) self.now n page result }
    {
        if page == 1 && !whole {
            self.commits.tail_after(n)
        } else {
            self.writer_after(n, page)
        }
    }

    // The number of the first commit above `n` with a frame of the page.
    fn writer_after(&self, n: u64, page: u32) -> Option<u64>
        ensures { FirstWriter false self.now n page result }
    {
        let end = self.commits.end_of(n);
        match self.frames.find_first(page, end) {
            Some(frame) => self.commits.commit_of(frame),
            None => None,
        }
    }
}
