// Chains read.
ghost use Rattle.std.specs.Prelude.{◌≡◌, ◌+◌, ◌-◌, ◌≤◌, ◌++◌, length, take, drop, min, IfOk, IfErr, OnOk, OnErr};
ghost use Rattle.engine_spec.specs.declared.commits.FetchFault.TheVariants as fault;
ghost use Rattle.page_face.specs.Pages.{ReadsAtMost, IsFromOutside};
ghost use Rattle.overflow.specs.Following.{HasFollowed, GivesChain, ThereIsChain};

use be_fields::get_u32;
use page_face::{FetchFault, Pages};
use std::alloc::{AllocError, Global};

/// Appends the `length` bytes of the chain that begins at page `first`. Without bytes nothing is read.
///
/// `Corrupt` comes only where bytes are to come and the next number is out of range; 0, where the chain ends too early, is so too.
/// It names the page that was read last, or `first` where none was. After an error `to` is as before. Beyond the bytes one buffer
/// of a page is taken.
pub fn read_chain<P: Pages>(
    alloc: Global,
    pages: &mut P,
    first: u32,
    length: u64,
    to: &mut Vec<u8>,
) -> Result<(), FetchFault>
    requires ready { P.ready pages.old }
    ensures bytes { OnOk result (GivesChain P.PagesTells pages.old first length to.old.items to.new.items pages.new) }
    ensures sound { IfErr result (λ why. ThereIsChain P.PagesTells pages.old first length pages.new → IsFromOutside (P.faults pages.old) (P.faults pages.new) why) }
    ensures followed { HasFollowed P.PagesTells pages.old first length to.old.items result to.new.items pages.new }
    ensures back { OnErr result (to.new.items ≡ to.old.items) }
    ensures reading { ReadsAtMost P.PagesTells pages.old pages.new }
{
    if length == 0 {
        return Ok(());
    }
    let mut buf = match page_buffer(alloc, pages.page_size()) {
        Ok(buf) => buf,
        Err(why) => return Err(why),
    };
    read_chain_with(pages, first, length, buf.as_mut_slice(), to)
}

/// The same with a buffer of one page that is handed in, whose bytes have no meaning afterwards.
pub fn read_chain_with<P: Pages>(
    pages: &mut P,
    first: u32,
    size: u64,
    buf: &mut [u8],
    to: &mut Vec<u8>,
) -> Result<(), FetchFault>
    requires ready { P.ready pages.old }
    requires room { length buf.old ≡ P.page_size pages.old }
    ensures bytes { OnOk result (GivesChain P.PagesTells pages.old first size to.old.items to.new.items pages.new) }
    ensures sound { IfErr result (λ why. ThereIsChain P.PagesTells pages.old first size pages.new → IsFromOutside (P.faults pages.old) (P.faults pages.new) why) }
    ensures followed { HasFollowed P.PagesTells pages.old first size to.old.items result to.new.items pages.new }
    ensures count { OnOk result (length to.new.items ≡ length to.old.items + size) }
    ensures back { OnErr result (to.new.items ≡ to.old.items) }
    ensures reading { ReadsAtMost P.PagesTells pages.old pages.new }
    ensures room { length buf.new ≡ length buf.old }
{
    let kept = to.len();
    match follow(pages, first, size, buf, to) {
        Ok(()) => Ok(()),
        Err(why) => {
            to.truncate(kept);
            Err(why)
        }
    }
}

// Follows a chain and appends the bytes of its pages. After an error those of some stand behind what was there.
fn follow<P: Pages>(
    pages: &mut P,
    first: u32,
    size: u64,
    buf: &mut [u8],
    to: &mut Vec<u8>,
) -> Result<(), FetchFault>
    requires ready { P.ready pages.old }
    requires room { length buf.old ≡ P.page_size pages.old }
    ensures followed { HasFollowed P.PagesTells pages.old first size to.old.items result to.new.items pages.new }
    ensures count { OnOk result (length to.new.items ≡ length to.old.items + size) }
    ensures kept { take (length to.old.items) to.new.items ≡ to.old.items }
    ensures reading { ReadsAtMost P.PagesTells pages.old pages.new }
{
    let most = pages.usable() - 4;
    let last = pages.last();
    let mut met = first;
    let mut next = first;
    let mut left = size;
    'links: while left > 0 {
        if next < 2 || next > last {
            return Err(FetchFault::Corrupt { page: met });
        }
        match pages.fetch(next, buf) {
            Ok(()) => (),
            Err(why) => return Err(why),
        }
        let count = least(left, most);
        met = next;
        next = get_u32(buf, 0);
        left -= count as u64;
        match append_content(to, buf, count) {
            Ok(()) => (),
            Err(why) => return Err(why),
        }
    }
    Ok(())
}

// The lesser of two numbers.
fn least(left: u64, most: usize) -> usize
    ensures { result ≡ min left most }
{
    if left < most as u64 {
        left as usize
    } else {
        most
    }
}

// Appends the first so many bytes of a page's content.
fn append_content(to: &mut Vec<u8>, page: &[u8], count: usize) -> Result<(), FetchFault>
    requires { 4 + count ≤ length page.now }
    ensures ok { OnOk result (to.new.items ≡ to.old.items ++ take count (drop 4 page.now)) }
    ensures count { OnOk result (length to.new.items ≡ length to.old.items + count) }
    ensures err { OnErr result (to.new.items ≡ to.old.items) }
    ensures cause { IfErr result (λ why. why ≡ fault.Memory) }
{
    match to.extend_from_slice(&page[4..4 + count]) {
        Ok(()) => Ok(()),
        Err(_) => Err(FetchFault::Memory),
    }
}

// A buffer of so many bytes.
pub(crate) fn page_buffer(alloc: Global, size: usize) -> Result<Vec<u8>, FetchFault>
    ensures room { IfOk result (λ buf. length buf.items ≡ size) }
    ensures cause { IfErr result (λ why. why ≡ fault.Memory) }
{
    match vec![in alloc; 0; size] {
        Ok(buf) => Ok(buf),
        Err(_) => Err(FetchFault::Memory),
    }
}
