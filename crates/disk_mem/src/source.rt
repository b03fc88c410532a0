// A source of bytes that are there from the start.
ghost use Rattle.std.specs.Prelude.{◌≡◌, ◌≤◌, ◌<◌, ◌++◌, ◌↔◌, [], Some, length, take, drop, min, is_ok, IsErr, IfOk, OnErr};
ghost use Rattle.disk_face.specs.Faults.{Counts, one_more};
ghost use Rattle.disk_face.specs.Source.{Takes};
ghost use Rattle.disk_mem.specs.Fuse.{burnt};

use crate::fuse;
use disk_face::{Failed, Source};
use std::marker::Model;

/// A source of bytes in memory, given in pieces of a bounded length. One of its calls may be named to fail.
#[derive(Debug, Drop)]
pub struct MemSource {
    text: Vec<u8>,
    taken: usize,
    most: usize,
    fails_in: Option<u64>,
    faults: u64,
}

impl Model for MemSource {
    ghost use Rattle.std.specs.Prelude.{◌≤◌, ◌<◌, length, drop};
    ghost use Rattle.disk_mem.specs.Pieces.{SourceState};

    ghost Value = { SourceState };

    ghost view = { λ source. record {
      left = drop source.taken source.text.items;
      most = source.most;
      fails_in = source.fails_in;
      faults = source.faults;
    } };

    ghost invariant = { λ source. (source.taken ≤ length source.text.items) × (0 < source.most) };
}

impl MemSource {
    /// A source of this text. One call gives at most `most` bytes, and the call numbered `fails_at`, from 1, fails.
    pub fn new(text: Vec<u8>, most: usize, fails_at: Option<u64>) -> MemSource
        requires { 0 < most }
        ensures { result ≡ record { left = text.items; most = most; fails_in = fails_at; faults = 0 } }
    {
        MemSource {
            text,
            taken: 0,
            most,
            fails_in: fails_at,
            faults: 0,
        }
    }
}

impl Source for MemSource {
    ghost left = { λ source. Some source.left };

    ghost faults = { λ source. source.faults };

    ghost loans = { λ source. [] };

    fn take(&mut self, buf: &mut [u8]) -> Result<usize, Failed>
        ensures planned { IsErr result ↔ (self.old.fails_in ≡ Some 1) }
        ensures count { IfOk result (λ count. count ≡ min (length buf.old) (min self.old.most (length self.old.left))) }
        ensures taken { IfOk result (λ count. Takes (Some self.old.left) (length buf.old) (take count buf.new) (Some self.new.left)) }
        ensures refused { OnErr result (self.new.left ≡ self.old.left) }
        ensures most { self.new.most ≡ self.old.most }
        ensures plan { self.new.fails_in ≡ burnt self.old.fails_in }
        ensures counted { OnErr result (self.new.faults ≡ one_more self.old.faults) }
        ensures faults { Counts (is_ok result) self.old.faults self.new.faults }
    {
        if fuse::burn(&mut self.fails_in) {
            fuse::count_fault(&mut self.faults);
            return Err(Failed);
        }
        let count = fill(&self.text[self.taken..], self.most, buf);
        self.taken += count;
        Ok(count)
    }
}

/// Moves the front of these bytes to the front of the buffer, as much as fits and at most `most`. Says how many.
fn fill(from: &[u8], most: usize, buf: &mut [u8]) -> usize
    requires { 0 < most }
    ensures count { result ≡ min (length buf.old) (min most (length from.now)) }
    ensures front { from.now ≡ take result buf.new ++ drop result from.now }
    ensures nothing { 0 < length buf.old → result ≡ 0 → from.now ≡ [] }
{
    let count = buf.len().min(most).min(from.len());
    buf[..count].copy_from_slice(&from[..count]);
    count
}
