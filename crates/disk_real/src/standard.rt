// The descriptors of the three standard streams.
use crate::again::uninterrupted;
use std::alloc::Global;
use std::os::fd::AsRawFd;
use std::rt::Files;
use std::{fs, io};

// Standard input, output and error have the descriptors below this one.
const FIRST_FREE: i32 = 3;

const STREAMS: usize = 3;

/// What fills descriptors of standard streams that were closed. The system gives the least descriptor that is free to what
/// is opened next: what the program writes to a closed stream would land in a database that has its descriptor.
#[derive(Drop)]
pub(crate) struct Standard<F> {
    filled: Vec<F>,
}

impl<F> Standard<F> {
    /// Fills none.
    pub(crate) fn new(alloc: Global) -> Standard<F> {
        Standard {
            filled: Vec::new(alloc),
        }
    }
}

impl<F: AsRawFd + Drop> Standard<F> {
    /// Fills those that are closed, until this value goes, each with a folder that is open for reading: reads of it and writes
    /// to it fail, as they did before.
    pub(crate) fn fill<R: Files<File = F>>(&mut self, rt: &R) -> io::Result<()> {
        for _ in 0..STREAMS {
            let folder = uninterrupted(|| fs::open(rt, "/"))?;
            if folder.as_raw_fd() >= FIRST_FREE {
                return Ok(());
            }
            self.filled.push(folder)?;
        }
        Ok(())
    }
}
