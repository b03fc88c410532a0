// The pages that statements read and write.
ghost use Rattle.std.specs.Prelude.{◌≡◌, ◌≤◌, length, Contains};
ghost use Rattle.page_spec.specs.PageMap.{page_sizes};
ghost use Rattle.page_face.specs.PageCalls.{HasRead, HasPut, HasMade, HasGivenUp};

use crate::{FetchFault, PagesTells};

/// Pages of one size, numbered from 1.
///
/// The caller may not know yet whose pages it reads: any of the worlds that agree with what it has read so far. So a clause on
/// what pages hold is said of each world that is still told after the call. What was put stands over the world, and has the
/// transaction's own page numbers.
pub trait Pages: PagesTells {
    /// The page size in bytes, a legal one. It stays.
    fn page_size(&self) -> usize
        requires { Self.ready self.now }
        ensures value { result ≡ Self.page_size self.now }
        ensures legal { Contains page_sizes result };

    /// How many bytes of a page are in use, at least 480: the page size less the reserved bytes. It stays.
    fn usable(&self) -> usize
        requires { Self.ready self.now }
        ensures value { result ≡ Self.usable self.now }
        ensures bounds { (480 ≤ result) × (result ≤ Self.page_size self.now) };

    /// The number of the last page.
    fn last(&self) -> u32
        requires { Self.ready self.now }
        ensures { result ≡ Self.last_page self.now };

    /// Fills the buffer, of one page, with a page. The error is a failed disk or want of memory, and nothing was read then.
    fn fetch(&mut self, page: u32, buf: &mut [u8]) -> Result<(), FetchFault>
        requires ready { Self.ready self.old }
        requires page { (1 ≤ page) × (page ≤ Self.last_page self.old) }
        requires room { length buf.old ≡ Self.page_size self.old }
        ensures { HasRead Self.PagesTells self.old page result buf.new self.new };
}

/// Pages that may be changed.
pub trait PutPages: Pages {
    /// Puts bytes in the place of a page. The error is a failed disk or want of memory, and all pages are as before then.
    fn put(&mut self, page: u32, bytes: &[u8]) -> Result<(), FetchFault>
        requires ready { Self.ready self.old }
        requires page { (1 ≤ page) × (page ≤ Self.last_page self.old) }
        requires whole { length bytes.now ≡ Self.page_size self.old }
        ensures { HasPut Self.PagesTells self.old page bytes.now result self.new };
}

/// Pages of which more may be made and some given up.
pub trait EditPages: PutPages {
    /// Gives a page out that isn't in use: a free one where there is one to spare, else a new one that follows the last page.
    /// What it holds isn't said. `Size` comes exactly where a new page would end past 2^30 bytes, and tells how many pages there
    /// would be; `Corrupt` only where the freelist isn't in order. After an error all pages are as before.
    fn fresh(&mut self) -> Result<u32, FetchFault>
        requires { Self.ready self.old }
        ensures { HasMade Self.PagesTells self.old result self.new };

    /// Gives a page up that isn't in use any more. The error is a failed disk or want of memory, and all pages are as before then.
    fn give_up(&mut self, page: u32) -> Result<(), FetchFault>
        requires ready { Self.ready self.old }
        requires page { (2 ≤ page) × (page ≤ Self.last_page self.old) }
        ensures { HasGivenUp Self.PagesTells self.old page result self.new };
}
