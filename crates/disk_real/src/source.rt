// Standard input.
ghost use Rattle.std.specs.Prelude.{◌≡◌, []};
ghost use Rattle.disk_real.specs.Untold.{untold_bytes};

use crate::fault::counted;
use crate::moves::take_from;
use disk_face::{Failed, Source};
use std::marker::{Model, PhantomData};

/// Standard input as a source. Each call is one read, and an error of it is a failure. A contract sees how often it has
/// failed.
#[derive(Drop)]
pub struct StdSource<'a, R: Input> {
    reader: R::Reader,
    faults: u64,
    of: PhantomData<&'a R>,
}

impl<'a, R: Input> Model for StdSource<'a, R> {
    ghost use Rattle.std.specs.Prelude.{ℕ};

    ghost Value = { ℕ };

    ghost view = { λ source. source.faults };
}

impl<'a, R: Input> StdSource<'a, R> {
    /// The runtime's standard input, from where it stands.
    pub fn new(rt: &'a R) -> StdSource<'a, R>
        ensures { result ≡ 0 }
    {
        StdSource {
            reader: rt.reader(),
            faults: 0,
            of: PhantomData,
        }
    }
}

impl<'a, R: Input> Source for StdSource<'a, R> {
    ghost left = { λ source. untold_bytes };

    ghost faults = { λ source. source };

    ghost loans = { λ source. [] };

    fn take(&mut self, buf: &mut [u8]) -> Result<usize, Failed> {
        let answer = take_from(&mut self.reader, buf);
        counted(&mut self.faults, answer)
    }
}
