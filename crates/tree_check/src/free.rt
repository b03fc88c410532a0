// The freelist, trunk by trunk.
ghost use Rattle.std.specs.Prelude.{◌≡◌, ◌+◌, ◌/◌, ◌^◌, ◌<◌, ◌≤◌, [], ◌∷◌, map, length, OnOk, IfOk, IfErr, None};
ghost use Rattle.page_spec.specs.Bytes.{u32_at};
ghost use Rattle.page_face.specs.Pages.{ReadsAtMost};
ghost use Rattle.tree_spec.specs.Freelist.{trunk_in};
ghost use Rattle.check_spec.specs.Forms.{trunk_fault};
ghost use Rattle.check_spec.specs.Walk.{Place, trunk_places};
ghost use Rattle.tree_check.specs.Met.{met_up_to};
ghost use Rattle.tree_check.specs.Walking.{SuitsPages, HasVisited, BarsVisit};
ghost use Rattle.tree_check.specs.Freed.{HasTrunk, HasLeaves, BarsLeaves};

use crate::forms::{LEAVES, trunk_fault};
use crate::walk::{Walk, read};
use be_fields::get_u32;
use check_spec::CheckFault;
use page_face::Pages;

// Walks the freelist from its first trunk on, 0 for none, and answers how many pages it has.
pub(crate) fn visit_free<P: Pages>(
    pages: &mut P,
    walk: &mut Walk,
    first: u32,
    buf: &mut [u8],
) -> Result<u32, CheckFault>
    requires suits { SuitsPages P.PagesTells pages.old walk.old }
    requires first { 0 < first → (2 ≤ first) × (first ≤ walk.old.last) }
    requires room { length buf.old ≡ P.page_size pages.old }
    ensures visited { OnOk result (HasVisited P.PagesTells pages.old walk.old (trunk_places first) pages.new walk.new) }
    ensures counted { IfOk result (λ count. met_up_to walk.new.marks.bits.items walk.old.last ≡ met_up_to walk.old.marks.bits.items walk.old.last + count) }
    ensures cause { IfErr result (BarsVisit P.PagesTells pages.old pages.new walk.old (trunk_places first)) }
    ensures reading { ReadsAtMost P.PagesTells pages.old pages.new }
    ensures room { length buf.new ≡ length buf.old }
{
    let mut next = first;
    let mut count = 0;
    'trunks: while next > 0 {
        match visit_trunk(pages, walk, next, buf) {
            Ok(more) => count += more,
            Err(why) => return Err(why),
        }
        next = get_u32(buf, 0);
    }
    Ok(count)
}

// Meets a trunk and its leaves, and answers how many pages these are.
fn visit_trunk<P: Pages>(
    pages: &mut P,
    walk: &mut Walk,
    page: u32,
    buf: &mut [u8],
) -> Result<u32, CheckFault>
    requires suits { SuitsPages P.PagesTells pages.old walk.old }
    requires page { (2 ≤ page) × (page ≤ walk.old.last) }
    requires room { length buf.old ≡ P.page_size pages.old }
    ensures trunk { IfOk result (λ count. HasTrunk P.PagesTells pages.old walk.old page count buf.new pages.new walk.new) }
    ensures small { IfOk result (λ count. walk.new.last < 2 ^ 32) }
    ensures cause { IfErr result (BarsVisit P.PagesTells pages.old pages.new walk.old (Place.AtTrunk page ∷ [])) }
    ensures reading { ReadsAtMost P.PagesTells pages.old pages.new }
    ensures room { length buf.new ≡ length buf.old }
{
    match walk.meet(page) {
        Ok(()) => (),
        Err(why) => return Err(why),
    }
    match read(pages, page, buf) {
        Ok(()) => (),
        Err(why) => return Err(why),
    }
    if let Some(at) = trunk_fault(walk.usable, walk.last, buf) {
        return Err(CheckFault::Page { page, at });
    }
    match visit_leaves(walk, buf) {
        Ok(leaves) => Ok(leaves + 1),
        Err(why) => Err(why),
    }
}

// Meets the leaves of a trunk, and answers how many there are.
fn visit_leaves(walk: &mut Walk, trunk: &[u8]) -> Result<u32, CheckFault>
    requires room { length walk.old.marks.bits.items ≡ walk.old.last / 8 + 1 }
    requires usable { (480 ≤ walk.old.usable) × (walk.old.usable ≤ 65536) × (walk.old.usable ≤ length trunk.now) }
    requires whole { trunk_fault walk.old.usable walk.old.last trunk.now ≡ None }
    ensures leaves { IfOk result (λ count. HasLeaves walk.old trunk.now count walk.new) }
    ensures small { IfOk result (λ count. count ≤ 16384) }
    ensures cause { IfErr result (BarsLeaves walk.old trunk.now) }
{
    let count = get_u32(trunk, 4);
    'leaves: for i in 0..count as usize {
        match walk.meet(get_u32(trunk, LEAVES + 4 * i)) {
            Ok(()) => (),
            Err(why) => return Err(why),
        }
    }
    Ok(count)
}
