// Chains of which the pages are given up.
ghost use Rattle.std.specs.Prelude.{◌≡◌, length, OnOk, IfErr};
ghost use Rattle.page_face.specs.Pages.{IsFromOutside};
ghost use Rattle.overflow.specs.Freeing.{HasFreedChain, FreesChain, ThereIsChainInUse};

use crate::read::page_buffer;
use be_fields::get_u32;
use page_face::{EditPages, FetchFault};
use std::alloc::{AllocError, Global};

/// Gives up each page of the chain of `length` bytes that begins at page `first`. Without bytes nothing is done.
///
/// A page is fetched before it is given up, and names the next one. As many pages are given up as the bytes need, also where the pages lead
/// in a circle; then some are given up twice. `Corrupt` comes as of [`read_chain`](crate::read_chain): where bytes are to come and the next
/// number is out of range, and names the page that was given up last, or `first` where none was. After an error the pages before it are given
/// up, and the others as before. One buffer of a page is taken.
pub fn free_chain<P: EditPages>(
    alloc: Global,
    pages: &mut P,
    first: u32,
    length: u64,
) -> Result<(), FetchFault>
    requires ready { P.ready pages.old }
    ensures freed { OnOk result (FreesChain P.PagesTells pages.old first length pages.new) }
    ensures sound { IfErr result (λ why. ThereIsChainInUse P.PagesTells pages.old first length pages.new
        → IsFromOutside (P.faults pages.old) (P.faults pages.new) why) }
    ensures followed { HasFreedChain P.PagesTells pages.old first length result pages.new }
{
    if length == 0 {
        return Ok(());
    }
    let mut buf = match page_buffer(alloc, pages.page_size()) {
        Ok(buf) => buf,
        Err(why) => return Err(why),
    };
    free_chain_with(pages, first, length, buf.as_mut_slice())
}

/// The same with a buffer of one page that is handed in, whose bytes have no meaning afterwards.
pub fn free_chain_with<P: EditPages>(
    pages: &mut P,
    first: u32,
    size: u64,
    buf: &mut [u8],
) -> Result<(), FetchFault>
    requires ready { P.ready pages.old }
    requires room { length buf.old ≡ P.page_size pages.old }
    ensures freed { OnOk result (FreesChain P.PagesTells pages.old first size pages.new) }
    ensures sound { IfErr result (λ why. ThereIsChainInUse P.PagesTells pages.old first size pages.new
        → IsFromOutside (P.faults pages.old) (P.faults pages.new) why) }
    ensures followed { HasFreedChain P.PagesTells pages.old first size result pages.new }
    ensures room { length buf.new ≡ length buf.old }
{
    free_pages(pages, first, size, buf)
}

// Gives up the pages of a chain, said of any pages.
fn free_pages<P: EditPages>(
    pages: &mut P,
    first: u32,
    size: u64,
    buf: &mut [u8],
) -> Result<(), FetchFault>
    requires ready { P.ready pages.old }
    requires room { length buf.old ≡ P.page_size pages.old }
    ensures followed { HasFreedChain P.PagesTells pages.old first size result pages.new }
    ensures room { length buf.new ≡ length buf.old }
{
    let most = pages.usable() - 4;
    let last = pages.last();
    let mut met = first;
    let mut next = first;
    let mut left = size;
    'links: while left > 0 {
        if next < 2 || next > last {
            return Err(FetchFault::Corrupt { page: met });
        }
        match pages.fetch(next, buf) {
            Ok(()) => (),
            Err(why) => return Err(why),
        }
        match pages.give_up(next) {
            Ok(()) => (),
            Err(why) => return Err(why),
        }
        met = next;
        next = get_u32(buf, 0);
        left = left.saturating_sub(most as u64);
    }
    Ok(())
}
