// The index of both logs.
ghost use Rattle.std.specs.Prelude.{◌≡◌, ℕ, ◌+◌, ◌<◌, ◌≤◌, ◌^◌, ◌⊎◌, Bool, List, [], length, OnOk, Option};
ghost use Rattle.wal_index.specs.Frames.{FindsLast, FindsNext};
ghost use Rattle.wal_index.specs.Index.{Indexed, IndexedLog, SameLog, HasRoom, IsCleared, AddsFrame, Seals, IsAbove, HasOpenFrames, FirstWriterOfBoth, SameOther, by_tail, log_in};
ghost use Rattle.wal_index.specs.Parts.{lesser_of};

use crate::log::LogIndex;
use std::alloc::{AllocError, Global};
use std::marker::Model;

/// The index of both logs of a store. A contract sees, for each log, the page of each frame, from frame 1 on, and its commits; the frames behind the
/// last commit are those of a commit that is under way. A log takes at most 16 bytes a frame.
#[derive(Debug, Drop)]
pub struct WalIndex {
    one: LogIndex,
    two: LogIndex,
    last: u8,
}

impl Model for WalIndex {
    ghost use Rattle.wal_index.specs.Index.{Indexed};

    ghost Value = { Indexed };

    ghost view = { λ index. record { log1 = index.one; log2 = index.two; last = index.last } };
}

impl WalIndex {
    /// No frames in either log. It takes no memory.
    pub fn new(alloc: Global) -> WalIndex
        ensures pages1 { result.log1.pages ≡ [] }
        ensures pages2 { result.log2.pages ≡ [] }
        ensures numbers1 { result.log1.numbers ≡ [] }
        ensures numbers2 { result.log2.numbers ≡ [] }
        ensures ends1 { result.log1.ends ≡ [] }
        ensures ends2 { result.log2.ends ≡ [] }
        ensures tails1 { result.log1.tails ≡ [] }
        ensures tails2 { result.log2.tails ≡ [] }
    {
        WalIndex {
            one: LogIndex::new(alloc),
            two: LogIndex::new(alloc),
            last: 1,
        }
    }

    /// Makes room for so many frames more and a commit, in either log. The error is want of memory; what the logs hold stays.
    pub fn reserve(&mut self, frames: usize) -> Result<(), AllocError>
        ensures room1 { OnOk result (HasRoom self.old.log1 frames self.new.log1) }
        ensures room2 { OnOk result (HasRoom self.old.log2 frames self.new.log2) }
        ensures same1 { SameLog self.old.log1 self.new.log1 }
        ensures same2 { SameLog self.old.log2 self.new.log2 }
        ensures last { self.new.last ≡ self.old.last }
    {
        self.one.reserve(frames)?;
        self.two.reserve(frames)
    }

    /// Adds a frame of the page to a log. It takes no memory: `reserve` made room.
    pub fn add(&mut self, log: u8, page: u32)
        requires log { (log ≡ 1) ⊎ (log ≡ 2) }
        requires page { 0 < page }
        requires room { 0 < (log_in self.old log).room }
        requires fits { length (log_in self.old log).pages < 4294967295 }
        ensures added { AddsFrame (log_in self.old log) page (log_in self.new log) }
        ensures other { SameOther self.old log self.new }
        ensures last { self.new.last ≡ log }
    {
        self.last = log;
        if log == 1 {
            self.one.add(page);
        } else {
            self.two.add(page);
        }
    }

    /// Makes the frames that were added since the last commit one commit, with this number; `tail` says whether it changed page 1 from byte 100 on.
    /// It takes no memory: `reserve` made room.
    pub fn seal(&mut self, n: u64, tail: bool)
        requires room { 0 < (log_in self.old self.old.last).seals }
        requires rises1 { IsAbove self.old.log1.numbers n }
        requires rises2 { IsAbove self.old.log2.numbers n }
        requires some { 0 < length (log_in self.old self.old.last).pages }
        requires frames { HasOpenFrames (log_in self.old self.old.last) }
        ensures sealed { Seals (log_in self.old self.old.last) n tail (log_in self.new self.old.last) }
        ensures other { SameOther self.old self.old.last self.new }
        ensures last { self.new.last ≡ self.old.last }
    {
        if self.last == 1 {
            self.one.seal(n, tail);
        } else {
            self.two.seal(n, tail);
        }
    }

    /// The number of the page's last frame in a log, at most the mark; none where it has no such frame.
    pub fn find(&self, log: u8, page: u32, mark: u32) -> Option<u32>
        requires log { (log ≡ 1) ⊎ (log ≡ 2) }
        ensures { FindsLast (log_in self.now log).pages page mark result }
    {
        if log == 1 {
            self.one.find(page, mark)
        } else {
            self.two.find(page, mark)
        }
    }

    /// The number of the first commit above `n`, of those that the logs hold, that wrote the page. Where page 1 doesn't count as a whole (`whole` is false),
    /// a commit counts as having written it only if it changed it from byte 100 on.
    pub fn written_since(&self, n: u64, page: u32, whole: bool) -> Option<u64>
        ensures { FirstWriterOfBoth (by_tail page whole) self.now n page result }
    {
        earlier(
            self.one.written_since(n, page, whole),
            self.two.written_since(n, page, whole),
        )
    }

    /// The least page above this one of which a log has a frame.
    pub fn next_page(&self, log: u8, after: u32) -> Option<u32>
        requires log { (log ≡ 1) ⊎ (log ≡ 2) }
        ensures { FindsNext (log_in self.now log).pages after result }
    {
        if log == 1 {
            self.one.next_page(after)
        } else {
            self.two.next_page(after)
        }
    }

    /// Takes all frames and commits of a log out. It takes no memory and keeps the room.
    pub fn clear(&mut self, log: u8)
        requires log { (log ≡ 1) ⊎ (log ≡ 2) }
        ensures cleared { IsCleared (log_in self.old log) (log_in self.new log) }
        ensures other { SameOther self.old log self.new }
        ensures last { self.new.last ≡ self.old.last }
    {
        if log == 1 {
            self.one.clear();
        } else {
            self.two.clear();
        }
    }
}

// The lesser of two numbers, where there are two.
fn earlier(one: Option<u64>, other: Option<u64>) -> Option<u64>
    ensures { result ≡ lesser_of one other }
{
    match (one, other) {
        (Some(number), Some(next)) => Some(number.min(next)),
        (None, _) => other,
        (_, None) => one,
    }
}
