// The freelist walked.
ghost use Rattle.std.specs.Prelude.{◌≡◌, ℕ, ◌++◌, List, length, IfOk, IfErr, OnOk, OnErr};
ghost use Rattle.engine_spec.specs.declared.commits.FetchFault.TheVariants as fault;
ghost use Rattle.page_face.specs.Pages.{ReadsAtMost, IsFromOutside};
ghost use Rattle.freelist.specs.Walking.{HasWalked, GivesFreelist, ThereIsFreelist};

use crate::free::Free;
use crate::trunk::{append_trunk, goes_on, is_outside};
use be_fields::get_u32;
use page_face::{FetchFault, Pages};
use std::alloc::{AllocError, Global};

/// Appends the numbers of the free pages in the order of the list: a trunk, its leaves, the next trunk, and so on.
///
/// `Corrupt` comes only where there is no freelist with that count. It names the trunk that was read last, where that one lists too many
/// leaves, or one out of range, or where the number of the next trunk that it has doesn't fit how many pages are to come: out of
/// range, 0 too early, or not 0 at the end. Where the number that was handed in doesn't fit it names that one. After an error `to`
/// is as before. Each trunk is read once, and no leaf. One buffer of a page is taken.
pub fn walk<P: Pages>(
    alloc: Global,
    pages: &mut P,
    free: &Free,
    to: &mut Vec<u32>,
) -> Result<(), FetchFault>
    requires ready { P.ready pages.old }
    ensures list { OnOk result (GivesFreelist P.PagesTells pages.old free.now.trunk free.now.count to.old.items to.new.items pages.new) }
    ensures sound { IfErr result (λ why. ThereIsFreelist P.PagesTells pages.old free.now.trunk free.now.count pages.new
        → IsFromOutside (P.faults pages.old) (P.faults pages.new) why) }
    ensures walked { HasWalked P.PagesTells pages.old free.now.trunk free.now.count to.old.items result to.new.items pages.new }
    ensures back { OnErr result (to.new.items ≡ to.old.items) }
    ensures reading { ReadsAtMost P.PagesTells pages.old pages.new }
{
    let mut buf = match page_buffer(alloc, pages.page_size()) {
        Ok(buf) => buf,
        Err(why) => return Err(why),
    };
    let kept = to.len();
    match follow(pages, free.trunk, free.count, buf.as_mut_slice(), to) {
        Ok(()) => Ok(()),
        Err(why) => {
            to.truncate(kept);
            Err(why)
        }
    }
}

// Walks a list of so many pages and appends them. After an error some stand behind what was there.
fn follow<P: Pages>(
    pages: &mut P,
    first: u32,
    count: u32,
    buf: &mut [u8],
    to: &mut Vec<u32>,
) -> Result<(), FetchFault>
    requires ready { P.ready pages.old }
    requires room { length buf.old ≡ P.page_size pages.old }
    ensures walked { HasWalked P.PagesTells pages.old first count to.old.items result to.new.items pages.new }
    ensures grown { (more : List ℕ) × (to.new.items ≡ to.old.items ++ more) }
    ensures reading { ReadsAtMost P.PagesTells pages.old pages.new }
{
    let usable = pages.usable();
    let last = pages.last();
    let mut met = first;
    let mut next = first;
    let mut left = count;
    'trunks: while left > 0 {
        if is_outside(next, last) {
            return Err(FetchFault::Corrupt { page: met });
        }
        match pages.fetch(next, buf) {
            Ok(()) => (),
            Err(why) => return Err(why),
        }
        if !goes_on(buf, usable, last, left) {
            return Err(FetchFault::Corrupt { page: next });
        }
        let leaves = get_u32(buf, 4);
        match append_trunk(to, next, buf, leaves as usize) {
            Ok(()) => (),
            Err(why) => return Err(why),
        }
        met = next;
        next = get_u32(buf, 0);
        left -= leaves + 1;
    }
    if next > 0 {
        return Err(FetchFault::Corrupt { page: met });
    }
    Ok(())
}

/// A buffer of so many bytes.
pub(crate) fn page_buffer(alloc: Global, size: usize) -> Result<Vec<u8>, FetchFault>
    ensures room { IfOk result (λ buf. length buf.items ≡ size) }
    ensures cause { IfErr result (λ why. why ≡ fault.Memory) }
{
    match vec![in alloc; 0; size] {
        Ok(buf) => Ok(buf),
        Err(_) => Err(FetchFault::Memory),
    }
}
