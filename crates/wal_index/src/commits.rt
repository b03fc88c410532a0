// The commits of one log.
//
// A commit is its number, the end of its frames in the log, and whether it changed page 1 from byte 100 on. Numbers and ends rise, so each question is a
// binary search. A commit takes 12 bytes, and 8 more where it changed page 1.
ghost use Rattle.std.specs.Prelude.{◌≡◌, ℕ, ◌+◌, ◌-◌, ◌<◌, ◌≤◌, List, [], ◌∷◌, ◌++◌, length, slice_index, if◌then◌else◌, OnOk, Option, MatchOption, IfNone, IfSome};
ghost use Rattle.wal_index.specs.Commits.{AreCommits, HasFrame, IsCountUpTo, FirstAbove, start_of};
ghost use Rattle.wal_index.specs.Index.{IsAbove};

use crate::room::make_room;
use std::alloc::{AllocError, Global};
use std::marker::Model;

/// The commits of one log.
#[derive(Debug, Drop)]
pub struct LogCommits {
    numbers: Vec<u64>,
    ends: Vec<u32>,
    tails: Vec<u64>,
}

impl Model for LogCommits {
    ghost use Rattle.std.specs.Prelude.{◌-◌, ◌<◌, ◌^◌, length, min, vec_len};
    ghost use Rattle.std.specs.Vec.{vec_capacity};
    ghost use Rattle.wal_index.specs.Commits.{CommitList, AreCommits};

    ghost Value = { CommitList };

    ghost view = { λ commits. record {
      numbers = commits.numbers.items;
      ends = commits.ends.items;
      tails = commits.tails.items;
      room = min (vec_capacity commits.numbers - vec_len commits.numbers)
          (min (vec_capacity commits.ends - vec_len commits.ends) (vec_capacity commits.tails - vec_len commits.tails));
    } };

    ghost invariant = { λ commits. AreCommits commits.numbers.items commits.ends.items commits.tails.items };
}

impl LogCommits {
    /// No commits. It takes no memory.
    pub fn new(alloc: Global) -> LogCommits
        ensures numbers { result.numbers ≡ [] }
        ensures ends { result.ends ≡ [] }
        ensures tails { result.tails ≡ [] }
    {
        LogCommits {
            numbers: Vec::new(alloc),
            ends: Vec::new(alloc),
            tails: Vec::new(alloc),
        }
    }

    /// Makes room for one commit more. The error is want of memory; the commits stay.
    pub fn reserve(&mut self) -> Result<(), AllocError>
        ensures room { OnOk result (1 ≤ self.new.room) }
        ensures more { self.old.room ≤ self.new.room }
        ensures numbers { self.new.numbers ≡ self.old.numbers }
        ensures ends { self.new.ends ≡ self.old.ends }
        ensures tails { self.new.tails ≡ self.old.tails }
    {
        make_room(&mut self.numbers, 1)?;
        make_room(&mut self.ends, 1)?;
        make_room(&mut self.tails, 1)
    }

    /// Takes all commits out. It takes no memory and keeps the room.
    pub fn clear(&mut self)
        ensures numbers { self.new.numbers ≡ [] }
        ensures ends { self.new.ends ≡ [] }
        ensures tails { self.new.tails ≡ [] }
        ensures room { self.old.room ≤ self.new.room }
    {
        self.numbers.clear();
        self.ends.clear();
        self.tails.clear();
    }

    /// Adds a commit whose last frame is the log's last one. It takes no memory: there is room.
    pub fn push(&mut self, number: u64, end: u32, tail: bool)
        requires room { 0 < self.old.room }
        requires number { IsAbove self.old.numbers number }
        requires end { IsAbove self.old.ends end }
        requires some { 0 < end }
        ensures numbers { self.new.numbers ≡ self.old.numbers ++ number ∷ [] }
        ensures ends { self.new.ends ≡ self.old.ends ++ end ∷ [] }
        ensures tails { self.new.tails ≡ (if tail then self.old.tails ++ number ∷ [] else self.old.tails) }
    {
        self.numbers.push_reserved(number);
        self.ends.push_reserved(end);
        if tail {
            self.tails.push_reserved(number);
        }
    }

    /// How many of the log's frames are of commits with a number of at most `n`.
    pub fn end_of(&self, n: u64) -> u32
        ensures end { (count : ℕ) × IsCountUpTo self.now.numbers n count × (result ≡ start_of self.now.ends count) }
        ensures commits { AreCommits self.now.numbers self.now.ends self.now.tails }
    {
        let count = count_up_to(&self.numbers, n);
        if count == 0 { 0 } else { self.ends[count - 1] }
    }

    /// The number of the first commit that changed page 1 from byte 100 on, above `n`.
    pub fn tail_after(&self, n: u64) -> Option<u64>
        ensures { FirstAbove self.now.tails n result }
    {
        let count = count_up_to(&self.tails, n);
        self.tails.get(count).copied()
    }

    /// The number of the commit that has the frame, from 1 on.
    pub fn commit_of(&self, frame: u32) -> Option<u64>
        requires { 0 < frame }
        ensures { MatchOption result ((place : ℕ) → place < length self.now.ends → slice_index self.now.ends place < frame) (HasFrame self.now.numbers self.now.ends frame) }
    {
        let count = ends_below(&self.ends, frame);
        self.numbers.get(count).copied()
    }
}

// How many of the rising numbers are at most this one.
fn count_up_to(numbers: &[u64], most: u64) -> usize
    requires { (one other : ℕ) → one < other → other < length numbers.now → slice_index numbers.now one < slice_index numbers.now other }
    ensures { IsCountUpTo numbers.now most result }
{
    let mut low = 0;
    let mut high = numbers.len();
    while low < high {
        let middle = low + (high - low) / 2;
        if numbers[middle] <= most {
            low = middle + 1;
        } else {
            high = middle;
        }
    }
    low
}

// How many of the rising ends are below a frame.
fn ends_below(ends: &[u32], frame: u32) -> usize
    requires rise { (one other : ℕ) → one < other → other < length ends.now → slice_index ends.now one < slice_index ends.now other }
    requires some { 0 < frame }
    ensures { IsCountUpTo ends.now (frame - 1) result }
{
    let mut low = 0;
    let mut high = ends.len();
    while low < high {
        let middle = low + (high - low) / 2;
        if ends[middle] < frame {
            low = middle + 1;
        } else {
            high = middle;
        }
    }
    low
}
