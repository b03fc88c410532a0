// Standard output.
ghost use Rattle.std.specs.Prelude.{◌≡◌, ◌≤◌, [], length, take, IfOk};
ghost use Rattle.disk_face.specs.Faults.{Counts};
ghost use Rattle.disk_face.specs.Sink.{Puts, goes_well};
ghost use Rattle.disk_real.specs.Untold.{untold_bytes};

use crate::fault::counted;
use crate::moves::put_to;
use disk_face::{Failed, Sink};
use std::io;
use std::marker::Model;

/// Standard output as a sink. Each call is one write. An error of it is a failure, and so is a write of nothing. A contract
/// sees how often it has failed.
#[derive(Drop)]
pub struct StdSink<'a, R: Print> {
    rt: &'a R,
    faults: u64,
}

impl<'a, R: Print> Model for StdSink<'a, R> {
    ghost use Rattle.std.specs.Prelude.{ℕ};

    ghost Value = { ℕ };

    ghost view = { λ sink. sink.faults };
}

impl<'a, R: Print> StdSink<'a, R> {
    /// The runtime's standard output.
    pub fn new(rt: &'a R) -> StdSink<'a, R>
        ensures { result ≡ 0 }
    {
        StdSink { rt, faults: 0 }
    }
}

impl<'a, R: Print> Sink for StdSink<'a, R> {
    ghost written = { λ sink. untold_bytes };

    ghost faults = { λ sink. sink };

    ghost loans = { λ sink. [] };

    fn put(&mut self, piece: &[u8]) -> Result<usize, Failed> {
        let answer = put_to(&mut io::writer(self.rt), piece);
        counted(&mut self.faults, answer)
    }
}
