// Chains, and the payloads that go on in them.
ghost use Rattle.std.specs.Prelude.{◌≡◌, ◌+◌, ◌-◌, ◌<◌, ◌≤◌, ◌++◌, [], ◌∷◌, true, min, length, take, drop, OnOk, IfErr};
ghost use Rattle.page_face.specs.Pages.{ReadsAtMost};
ghost use Rattle.check_spec.specs.declared.fault.CheckFault.TheVariants as fault;
ghost use Rattle.check_spec.specs.Walk.{Place, link_places};
ghost use Rattle.tree_check.specs.Walking.{SuitsPages, HasVisited, BarsVisit};
ghost use Rattle.tree_check.specs.Chained.{HasLink, BeginsChain, Gathers};

use crate::forms::link_fault;
use crate::walk::{Walk, read};
use be_fields::get_u32;
use check_spec::CheckFault;
use page_face::Pages;

// Walks the chain of so many bytes from a page on. Where its bytes are kept they are appended to the payload.
pub(crate) fn visit_chain<P: Pages>(
    pages: &mut P,
    walk: &mut Walk,
    first: u32,
    size: u64,
    keep: bool,
    buf: &mut [u8],
) -> Result<(), CheckFault>
    requires suits { SuitsPages P.PagesTells pages.old walk.old }
    requires first { BeginsChain walk.old.last first size }
    requires room { length buf.old ≡ P.page_size pages.old }
    ensures visited { OnOk result (HasVisited P.PagesTells pages.old walk.old (link_places first size) pages.new walk.new) }
    ensures gathered { OnOk result (Gathers P.PagesTells pages.old first size keep walk.old.payload.items pages.new walk.new.payload.items) }
    ensures grown { OnOk result (keep ≡ true → length walk.new.payload.items ≡ length walk.old.payload.items + size) }
    ensures cause { IfErr result (BarsVisit P.PagesTells pages.old pages.new walk.old (link_places first size)) }
    ensures reading { ReadsAtMost P.PagesTells pages.old pages.new }
    ensures room { length buf.new ≡ length buf.old }
{
    let mut next = first;
    let mut left = size;
    'links: while left > 0 {
        match visit_link(pages, walk, next, left, buf) {
            Ok(()) => (),
            Err(why) => return Err(why),
        }
        let count = left.min((walk.usable - 4) as u64);
        match gather(&mut walk.payload, keep, &buf[4..4 + count as usize]) {
            Ok(()) => (),
            Err(why) => return Err(why),
        }
        next = get_u32(buf, 0);
        left -= count;
    }
    Ok(())
}

// Meets a page of a chain of which so many bytes are to come, and reads it.
fn visit_link<P: Pages>(
    pages: &mut P,
    walk: &mut Walk,
    page: u32,
    left: u64,
    buf: &mut [u8],
) -> Result<(), CheckFault>
    requires suits { SuitsPages P.PagesTells pages.old walk.old }
    requires page { (2 ≤ page) × (page ≤ walk.old.last) }
    requires some { 0 < left }
    requires room { length buf.old ≡ P.page_size pages.old }
    ensures link { OnOk result (HasLink P.PagesTells pages.old walk.old page left buf.new pages.new walk.new) }
    ensures cause { IfErr result (BarsVisit P.PagesTells pages.old pages.new walk.old (Place.AtLink page left ∷ [])) }
    ensures reading { ReadsAtMost P.PagesTells pages.old pages.new }
    ensures room { length buf.new ≡ length buf.old }
{
    match walk.meet(page) {
        Ok(()) => (),
        Err(why) => return Err(why),
    }
    match read(pages, page, buf) {
        Ok(()) => (),
        Err(why) => return Err(why),
    }
    match link_fault(walk.usable, walk.last, left, buf) {
        Some(at) => Err(CheckFault::Page { page, at }),
        None => Ok(()),
    }
}

// Appends bytes where they are kept.
fn gather(to: &mut Vec<u8>, keep: bool, bytes: &[u8]) -> Result<(), CheckFault>
    ensures ok { OnOk result (keep ≡ true → to.new.items ≡ to.old.items ++ bytes.now) }
    ensures cause { IfErr result (λ why. why ≡ fault.Memory) }
{
    if keep { append(to, bytes) } else { Ok(()) }
}

// Appends bytes.
pub(crate) fn append(to: &mut Vec<u8>, bytes: &[u8]) -> Result<(), CheckFault>
    ensures ok { OnOk result (to.new.items ≡ to.old.items ++ bytes.now) }
    ensures cause { IfErr result (λ why. why ≡ fault.Memory) }
{
    match to.extend_from_slice(bytes) {
        Ok(()) => Ok(()),
        Err(_) => Err(CheckFault::Memory),
    }
}
