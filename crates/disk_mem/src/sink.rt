// A sink that keeps what is written.
ghost use Rattle.std.specs.Prelude.{◌≡◌, ◌≤◌, ◌<◌, ◌++◌, [], Some, length, take, min, IsErr, IfOk, OnOk, OnErr};
ghost use Rattle.disk_face.specs.Faults.{Counts, one_more};
ghost use Rattle.disk_face.specs.Sink.{goes_well};
ghost use Rattle.disk_mem.specs.Fuse.{burnt};

use crate::fuse;
use disk_face::{Failed, Sink};
use std::alloc::Global;
use std::marker::Model;

/// A sink in memory, which takes pieces of a bounded length. One of its calls may be named to fail.
#[derive(Debug, Drop)]
pub struct MemSink {
    bytes: Vec<u8>,
    most: usize,
    fails_in: Option<u64>,
    faults: u64,
}

impl Model for MemSink {
    ghost use Rattle.std.specs.Prelude.{◌<◌};
    ghost use Rattle.disk_mem.specs.Pieces.{SinkState};

    ghost Value = { SinkState };

    ghost view = { λ sink. record {
      written = sink.bytes.items;
      most = sink.most;
      fails_in = sink.fails_in;
      faults = sink.faults;
    } };

    ghost invariant = { λ sink. 0 < sink.most };
}

impl MemSink {
    /// A sink with nothing written. One call takes at most `most` bytes, and the call numbered `fails_at`, from 1, fails.
    /// A call that finds no memory fails too.
    pub fn new(alloc: Global, most: usize, fails_at: Option<u64>) -> MemSink
        requires { 0 < most }
        ensures { result ≡ record { written = []; most = most; fails_in = fails_at; faults = 0 } }
    {
        MemSink {
            bytes: Vec::new(alloc),
            most,
            fails_in: fails_at,
            faults: 0,
        }
    }

    /// The bytes written.
    pub fn written(&self) -> &[u8]
        ensures { result.now ≡ self.now.written }
    {
        self.bytes.as_slice()
    }
}

impl Sink for MemSink {
    ghost written = { λ sink. Some sink.written };

    ghost faults = { λ sink. sink.faults };

    ghost loans = { λ sink. [] };

    fn put(&mut self, piece: &[u8]) -> Result<usize, Failed>
        ensures planned { self.old.fails_in ≡ Some 1 → IsErr result }
        ensures count { IfOk result (λ count. count ≡ min (length piece.now) self.old.most) }
        ensures some { IfOk result (λ count. 0 < length piece.now → 0 < count) }
        ensures written { IfOk result (λ count. self.new.written ≡ self.old.written ++ take count piece.now) }
        ensures refused { OnErr result (self.new.written ≡ self.old.written) }
        ensures most { self.new.most ≡ self.old.most }
        ensures plan { self.new.fails_in ≡ burnt self.old.fails_in }
        ensures counted { OnErr result (self.new.faults ≡ one_more self.old.faults) }
        ensures uncounted { OnOk result (self.new.faults ≡ self.old.faults) }
        ensures faults { Counts (goes_well (length piece.now) result) self.old.faults self.new.faults }
    {
        if fuse::burn(&mut self.fails_in) {
            fuse::count_fault(&mut self.faults);
            return Err(Failed);
        }
        let front = piece.len().min(self.most);
        if self.bytes.extend_from_slice(&piece[..front]).is_err() {
            fuse::count_fault(&mut self.faults);
            return Err(Failed);
        }
        Ok(front)
    }
}
