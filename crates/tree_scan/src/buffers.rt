// Buffers of one page that are kept to be used again.
ghost use Rattle.std.specs.Prelude.{◌≡◌, length, IfOk, IfErr};
ghost use Rattle.engine_spec.specs.declared.commits.FetchFault.TheVariants as fault;

use page_face::FetchFault;
use std::alloc::{AllocError, Global};
use tree_read::page_buffer;

// Where buffers come from, and those that aren't in use.
#[derive(Drop)]
pub(crate) struct Buffers {
    pub(crate) alloc: Global,
    kept: Vec<Vec<u8>>,
}

impl Buffers {
    // None are kept yet.
    pub(crate) fn new(alloc: Global) -> Buffers {
        Buffers {
            alloc,
            kept: Vec::new(alloc),
        }
    }

    // A buffer of so many bytes: one that was kept, else a new one.
    pub(crate) fn take(&mut self, size: usize) -> Result<Vec<u8>, FetchFault>
        ensures room { IfOk result (λ buf. length buf.items ≡ size) }
        ensures cause { IfErr result (λ why. why ≡ fault.Memory) }
    {
        if let Some(buf) = self.kept.pop() {
            if buf.len() == size {
                return Ok(buf);
            }
        }
        page_buffer(self.alloc, size)
    }

    // Keeps a buffer. Where memory for the list of them is wanted it is let go.
    pub(crate) fn keep(&mut self, buf: Vec<u8>) {
        match self.kept.push(buf) {
            Ok(()) => (),
            Err(_) => (),
        }
    }
}
