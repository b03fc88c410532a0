// A page taken out of the freelist.
ghost use Rattle.std.specs.Prelude.{◌≡◌, length, IfOk, IfErr, IfSome};
ghost use Rattle.page_face.specs.Pages.{IsFromOutside};
ghost use Rattle.freelist.specs.Walking.{ThereIsFreelist};
ghost use Rattle.freelist.specs.Changing.{HasTaken, LeavesFreelist};

use crate::first::read_first;
use crate::free::Free;
use crate::trunk::{LEAVES, is_outside, misleads};
use crate::walks::page_buffer;
use be_fields::{get_u32, put_u32};
use page_face::{FetchFault, PutPages};
use std::alloc::{AllocError, Global};

/// Takes a page out of the freelist: the last leaf of the first trunk, which is put with one leaf less, or the first trunk itself where
/// it lists none, and then nothing is put. None comes exactly where the count is 0.
///
/// `Corrupt` names the first trunk: its number is out of range, or it was read and lists too many leaves, or a last one out of range,
/// or none, and names a next trunk that doesn't fit how many pages are left. After an error the pages and `free` are as before. One
/// buffer of a page is taken.
pub fn take<P: PutPages>(
    alloc: Global,
    pages: &mut P,
    free: &mut Free,
) -> Result<Option<u32>, FetchFault>
    requires ready { P.ready pages.old }
    ensures taken { HasTaken P.PagesTells pages.old free.old result pages.new free.new }
    ensures list { IfOk result (λ found. IfSome found (λ page. LeavesFreelist P.PagesTells pages.old free.old page pages.new free.new)) }
    ensures sound { IfErr result (λ why. ThereIsFreelist P.PagesTells pages.old free.old.trunk free.old.count pages.new
        → IsFromOutside (P.faults pages.old) (P.faults pages.new) why) }
{
    if free.count == 0 {
        return Ok(None);
    }
    let mut buf = match page_buffer(alloc, pages.page_size()) {
        Ok(buf) => buf,
        Err(why) => return Err(why),
    };
    take_with(pages, free, buf.as_mut_slice())
}

/// The same with a buffer of one page that is handed in, whose bytes have no meaning afterwards.
pub fn take_with<P: PutPages>(
    pages: &mut P,
    free: &mut Free,
    buf: &mut [u8],
) -> Result<Option<u32>, FetchFault>
    requires ready { P.ready pages.old }
    requires room { length buf.old ≡ P.page_size pages.old }
    ensures taken { HasTaken P.PagesTells pages.old free.old result pages.new free.new }
    ensures list { IfOk result (λ found. IfSome found (λ page. LeavesFreelist P.PagesTells pages.old free.old page pages.new free.new)) }
    ensures sound { IfErr result (λ why. ThereIsFreelist P.PagesTells pages.old free.old.trunk free.old.count pages.new
        → IsFromOutside (P.faults pages.old) (P.faults pages.new) why) }
    ensures room { length buf.new ≡ length buf.old }
{
    take_one(pages, free, buf)
}

// Takes a page out, said of any pages.
fn take_one<P: PutPages>(
    pages: &mut P,
    free: &mut Free,
    buf: &mut [u8],
) -> Result<Option<u32>, FetchFault>
    requires ready { P.ready pages.old }
    requires room { length buf.old ≡ P.page_size pages.old }
    ensures taken { HasTaken P.PagesTells pages.old free.old result pages.new free.new }
    ensures room { length buf.new ≡ length buf.old }
{
    if free.count == 0 {
        return Ok(None);
    }
    let last = pages.last();
    let leaves = match read_first(pages, free, buf) {
        Ok(leaves) => leaves,
        Err(why) => return Err(why),
    };
    if leaves == 0 {
        let next = get_u32(buf, 0);
        if misleads(next, free.count - 1, last) {
            return Err(FetchFault::Corrupt { page: free.trunk });
        }
        let page = free.trunk;
        free.trunk = next;
        free.count -= 1;
        return Ok(Some(page));
    }
    let page = get_u32(buf, LEAVES + 4 * (leaves as usize - 1));
    if is_outside(page, last) {
        return Err(FetchFault::Corrupt { page: free.trunk });
    }
    put_u32(buf, 4, leaves - 1);
    match pages.put(free.trunk, buf) {
        Ok(()) => (),
        Err(why) => return Err(why),
    }
    free.count -= 1;
    Ok(Some(page))
}
