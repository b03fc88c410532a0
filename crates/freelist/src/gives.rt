// A page put into the freelist.
ghost use Rattle.std.specs.Prelude.{◌≡◌, ◌+◌, ◌^◌, ◌<◌, ◌≤◌, length, replicate, OnOk, OnErr, IfErr};
ghost use Rattle.page_face.specs.Pages.{IsFromOutside};
ghost use Rattle.page_face.specs.PageCalls.{HasPut};
ghost use Rattle.tree_spec.specs.Trunks.{leaves_put, IsNewTrunk};
ghost use Rattle.freelist.specs.Walking.{ThereIsFreelist};
ghost use Rattle.freelist.specs.Changing.{HasGiven, ExtendsFreelist};

use crate::first::read_first;
use crate::free::Free;
use crate::trunk::LEAVES;
use crate::walks::page_buffer;
use be_fields::put_u32;
use page_face::{FetchFault, PutPages};
use std::alloc::{AllocError, Global};

/// Puts a page into the freelist that isn't in it: as the last leaf of the first trunk, where that lists fewer than U/4-8 leaves, U being how
/// many bytes of a page are in use, else as a new first trunk without leaves. One page is put: the first trunk as it is then.
///
/// `Corrupt` names the first trunk: its number is out of range, or isn't 0 where the list has no page, or it was read and lists too
/// many leaves. After an error the pages and `free` are as before. One buffer of a page is taken.
pub fn give<P: PutPages>(
    alloc: Global,
    pages: &mut P,
    free: &mut Free,
    page: u32,
) -> Result<(), FetchFault>
    requires ready { P.ready pages.old }
    requires page { (2 ≤ page) × (page ≤ P.last_page pages.old) }
    requires count { free.old.count + 1 < 2 ^ 32 }
    ensures given { HasGiven P.PagesTells pages.old free.old page result pages.new free.new }
    ensures list { OnOk result (ExtendsFreelist P.PagesTells pages.old free.old page pages.new free.new) }
    ensures sound { IfErr result (λ why. ThereIsFreelist P.PagesTells pages.old free.old.trunk free.old.count pages.new
        → IsFromOutside (P.faults pages.old) (P.faults pages.new) why) }
{
    let mut buf = match page_buffer(alloc, pages.page_size()) {
        Ok(buf) => buf,
        Err(why) => return Err(why),
    };
    give_with(pages, free, page, buf.as_mut_slice())
}

/// The same with a buffer of one page that is handed in, whose bytes have no meaning afterwards.
pub fn give_with<P: PutPages>(
    pages: &mut P,
    free: &mut Free,
    page: u32,
    buf: &mut [u8],
) -> Result<(), FetchFault>
    requires ready { P.ready pages.old }
    requires page { (2 ≤ page) × (page ≤ P.last_page pages.old) }
    requires count { free.old.count + 1 < 2 ^ 32 }
    requires room { length buf.old ≡ P.page_size pages.old }
    ensures given { HasGiven P.PagesTells pages.old free.old page result pages.new free.new }
    ensures list { OnOk result (ExtendsFreelist P.PagesTells pages.old free.old page pages.new free.new) }
    ensures sound { IfErr result (λ why. ThereIsFreelist P.PagesTells pages.old free.old.trunk free.old.count pages.new
        → IsFromOutside (P.faults pages.old) (P.faults pages.new) why) }
    ensures room { length buf.new ≡ length buf.old }
{
    give_one(pages, free, page, buf)
}

// Puts a page in, said of any pages.
fn give_one<P: PutPages>(
    pages: &mut P,
    free: &mut Free,
    page: u32,
    buf: &mut [u8],
) -> Result<(), FetchFault>
    requires ready { P.ready pages.old }
    requires page { (2 ≤ page) × (page ≤ P.last_page pages.old) }
    requires count { free.old.count + 1 < 2 ^ 32 }
    requires room { length buf.old ≡ P.page_size pages.old }
    ensures given { HasGiven P.PagesTells pages.old free.old page result pages.new free.new }
    ensures room { length buf.new ≡ length buf.old }
{
    let most = most_put(pages.usable());
    if free.count == 0 {
        if free.trunk > 0 {
            return Err(FetchFault::Corrupt { page: free.trunk });
        }
        return match start_trunk(pages, free, page, buf) {
            Ok(()) => Ok(()),
            Err(why) => Err(why),
        };
    }
    let leaves = match read_first(pages, free, buf) {
        Ok(leaves) => leaves,
        Err(why) => return Err(why),
    };
    if leaves as usize >= most {
        return match start_trunk(pages, free, page, buf) {
            Ok(()) => Ok(()),
            Err(why) => Err(why),
        };
    }
    put_u32(buf, 4, leaves + 1);
    put_u32(buf, LEAVES + 4 * leaves as usize, page);
    match pages.put(free.trunk, buf) {
        Ok(()) => (),
        Err(why) => return Err(why),
    }
    free.count += 1;
    Ok(())
}

// How many leaves are put into a trunk. Six places stay empty, since SQLite before 3.6.0 takes a file for broken where they aren't.
fn most_put(usable: usize) -> usize
    ensures { result ≡ leaves_put usable }
{
    (usable / 4).saturating_sub(8)
}

// Puts a page as a new first trunk before the one that there was.
fn start_trunk<P: PutPages>(
    pages: &mut P,
    free: &mut Free,
    page: u32,
    buf: &mut [u8],
) -> Result<(), FetchFault>
    requires ready { P.ready pages.old }
    requires page { (2 ≤ page) × (page ≤ P.last_page pages.old) }
    requires count { free.old.count + 1 < 2 ^ 32 }
    requires room { length buf.old ≡ P.page_size pages.old }
    requires least { 4 ≤ length buf.old }
    ensures new_trunk { IsNewTrunk (P.page_size pages.old) free.old.trunk buf.new }
    ensures put { HasPut P.PagesTells pages.old page buf.new result pages.new }
    ensures trunk { OnOk result ((free.new.trunk ≡ page) × (free.new.count ≡ free.old.count + 1)) }
    ensures back { OnErr result (free.new ≡ free.old) }
    ensures room { length buf.new ≡ length buf.old }
{
    wipe(buf);
    put_u32(buf, 0, free.trunk);
    match pages.put(page, buf) {
        Ok(()) => (),
        Err(why) => return Err(why),
    }
    free.trunk = page;
    free.count += 1;
    Ok(())
}

// Makes all bytes zero.
fn wipe(bytes: &mut [u8])
    ensures { bytes.new ≡ replicate (length bytes.old) 0 }
{
    bytes.fill(0);
}
