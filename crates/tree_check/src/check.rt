// The whole walk.
ghost use Rattle.std.specs.Prelude.{◌≡◌, ℕ, ◌*◌, ◌/◌, ◌<◌, ◌≤◌, [], ◌∷◌, ◌⊎◌, true, false, length, take, OnOk, IfOk, IfErr};
ghost use Rattle.page_spec.specs.View.{View};
ghost use Rattle.page_spec.specs.Header.{fields_of};
ghost use Rattle.db_header.specs.declared.fault.HeaderFault.TheVariants as broken;
ghost use Rattle.page_face.specs.Pages.{ReadsAtMost};
ghost use Rattle.tree_spec.specs.Layout.{Each};
ghost use Rattle.sound_spec.specs.Sound.{CountsPages};
ghost use Rattle.check_spec.specs.Walk.{Place, schema_spot, root_spot, root_places};
ghost use Rattle.tree_check.specs.Met.{met_up_to};
ghost use Rattle.tree_check.specs.Walking.{SuitsPages, HasVisited, BarsVisit};
ghost use Rattle.tree_check.specs.Begun.{IsFresh, HasHeader, HasFront, HasFirst};
ghost use Rattle.tree_check.specs.Checking.{database_over, IsCounted, BarsCheck};

use crate::forms::is_inside_or_none;
use crate::free::visit_free;
use crate::marks::Marks;
use crate::spot::{root_spot, schema_spot};
use crate::tree::{enter, visit};
use crate::walk::{Walk, read};
use be_fields::get_u32;
use check_spec::{CheckFault, Count};
use db_header::{HeaderFault, read_header};
use page_face::Pages;
use std::alloc::{AllocError, Global};
use std::mem;

/// How many buffers of a page a walk takes: for a root, 40 levels below it, and a page that may be too deep or of a chain.
const LEVELS: usize = 42;

/// Checks a whole database: that its header is one and counts its pages, that each page from 2 on is in one place of one tree, chain or of the
/// freelist, and that page 1's tree and those of all roots that its rows name are sound.
///
/// The fault is the first on the walk: page 1's header, then the freelist, page 1's tree, and the trees of the roots in the order of their rows, each
/// depth first. `Lost` names the least page that is in no place. `Disk` comes only where the disk failed. What is taken of memory is 42 pages,
/// a bit for each page, and the payload of one schema row.
pub fn check_all<P: Pages>(alloc: Global, pages: &mut P) -> Result<Count, CheckFault>
    requires { P.ready pages.old }
    ensures sound { IfOk result (λ count. (world : View) → P.tells pages.new world → IsCounted (database_over P.PagesTells pages.old world) count) }
    ensures cause { IfErr result (BarsCheck P.PagesTells pages.old pages.new) }
    ensures reading { ReadsAtMost P.PagesTells pages.old pages.new }
{
    let page_size = pages.page_size();
    let usable = pages.usable();
    let Ok(mut walk) = begin(alloc, page_size, usable, pages.last()) else {
        return Err(CheckFault::Memory);
    };
    let Ok(mut bufs) = vec![in alloc; 0; LEVELS * page_size] else {
        return Err(CheckFault::Memory);
    };
    check_from(alloc, pages, &mut walk, bufs.as_mut_slice())
}

// A walk that met no page.
fn begin(alloc: Global, page_size: usize, usable: usize, last: u32) -> Result<Walk, AllocError>
    ensures { IfOk result (IsFresh page_size usable last) }
{
    Ok(Walk {
        page_size,
        usable,
        last,
        marks: Marks::new(alloc, last)?,
        leaves: None,
        roots: Vec::new(alloc),
        payload: Vec::new(alloc),
    })
}

// Checks all from a walk that met no page.
fn check_from<P: Pages>(
    alloc: Global,
    pages: &mut P,
    walk: &mut Walk,
    bufs: &mut [u8],
) -> Result<Count, CheckFault>
    requires suits { SuitsPages P.PagesTells pages.old walk.old }
    requires fresh { IsFresh walk.old.page_size walk.old.usable walk.old.last walk.old }
    requires room { length bufs.old ≡ 42 * P.page_size pages.old }
    ensures sound { IfOk result (λ count. (world : View) → P.tells pages.new world → IsCounted (database_over P.PagesTells pages.old world) count) }
    ensures cause { IfErr result (BarsCheck P.PagesTells pages.old pages.new) }
    ensures reading { ReadsAtMost P.PagesTells pages.old pages.new }
{
    let free = match check_first(alloc, pages, walk, bufs) {
        Ok(free) => free,
        Err(why) => return Err(why),
    };
    let roots = mem::replace(&mut walk.roots, Vec::new(alloc));
    match check_roots(alloc, pages, walk, roots.as_slice(), bufs) {
        Ok(()) => (),
        Err(why) => return Err(why),
    }
    if let Some(page) = walk.marks.first_lost(walk.last) {
        return Err(CheckFault::Lost { page });
    }
    // Each tree has a page of its own, so there are no more of them than pages.
    let trees = (roots.len() + 1).min(walk.last as usize);
    Ok(Count {
        pages: walk.last,
        trees: trees as u32,
        free,
    })
}

// Checks page 1's header, the freelist and page 1's tree, and answers how many pages are free.
fn check_first<P: Pages>(
    alloc: Global,
    pages: &mut P,
    walk: &mut Walk,
    bufs: &mut [u8],
) -> Result<u32, CheckFault>
    requires suits { SuitsPages P.PagesTells pages.old walk.old }
    requires fresh { met_up_to walk.old.marks.bits.items walk.old.last ≡ 0 }
    requires room { length bufs.old ≡ 42 * P.page_size pages.old }
    ensures first { IfOk result (λ free. HasFirst P.PagesTells pages.old walk.old free pages.new walk.new) }
    ensures cause { IfErr result (BarsVisit P.PagesTells pages.old pages.new walk.old (Place.AtHeader ∷ [])) }
    ensures reading { ReadsAtMost P.PagesTells pages.old pages.new }
    ensures room { length bufs.new ≡ length bufs.old }
{
    let free = match check_front(pages, walk, bufs) {
        Ok(free) => free,
        Err(why) => return Err(why),
    };
    match visit_first(alloc, pages, walk, bufs) {
        Ok(()) => Ok(free),
        Err(why) => Err(why),
    }
}

// Checks page 1's header and the freelist, and answers how many pages are free. Page 1 is in the first buffer then.
fn check_front<P: Pages>(pages: &mut P, walk: &mut Walk, bufs: &mut [u8]) -> Result<u32, CheckFault>
    requires suits { SuitsPages P.PagesTells pages.old walk.old }
    requires fresh { met_up_to walk.old.marks.bits.items walk.old.last ≡ 0 }
    requires room { length bufs.old ≡ 42 * P.page_size pages.old }
    ensures front { IfOk result (λ free. HasFront P.PagesTells pages.old walk.old free (take walk.old.page_size bufs.new) pages.new walk.new) }
    ensures cause { IfErr result (BarsVisit P.PagesTells pages.old pages.new walk.old (Place.AtHeader ∷ [])) }
    ensures reading { ReadsAtMost P.PagesTells pages.old pages.new }
    ensures room { length bufs.new ≡ length bufs.old }
{
    let (buf, below) = bufs.split_at_mut(walk.page_size);
    let (room, _) = below.split_at_mut(walk.page_size);
    check_list(pages, walk, buf, room)
}

// Checks both, with a buffer for page 1 and one for the freelist.
fn check_list<P: Pages>(
    pages: &mut P,
    walk: &mut Walk,
    buf: &mut [u8],
    room: &mut [u8],
) -> Result<u32, CheckFault>
    requires suits { SuitsPages P.PagesTells pages.old walk.old }
    requires fresh { met_up_to walk.old.marks.bits.items walk.old.last ≡ 0 }
    requires buf { length buf.old ≡ P.page_size pages.old }
    requires room { length room.old ≡ P.page_size pages.old }
    ensures front { IfOk result (λ free. HasFront P.PagesTells pages.old walk.old free buf.new pages.new walk.new) }
    ensures cause { IfErr result (BarsVisit P.PagesTells pages.old pages.new walk.old (Place.AtHeader ∷ [])) }
    ensures reading { ReadsAtMost P.PagesTells pages.old pages.new }
    ensures buf { length buf.new ≡ length buf.old }
    ensures room { length room.new ≡ length room.old }
{
    match check_header(pages, walk, buf) {
        Ok(()) => (),
        Err(why) => return Err(why),
    }
    match visit_free(pages, walk, get_u32(buf, 32), room) {
        Ok(free) => {
            if free == get_u32(buf, 36) {
                Ok(free)
            } else {
                Err(CheckFault::Page { page: 1, at: 36 })
            }
        }
        Err(why) => Err(why),
    }
}

// Reads page 1, and checks its header.
fn check_header<P: Pages>(pages: &mut P, walk: &Walk, buf: &mut [u8]) -> Result<(), CheckFault>
    requires suits { SuitsPages P.PagesTells pages.old walk.now }
    requires room { length buf.old ≡ P.page_size pages.old }
    ensures header { OnOk result (HasHeader P.PagesTells pages.old walk.now buf.new pages.new) }
    ensures cause { IfErr result (BarsVisit P.PagesTells pages.old pages.new walk.now (Place.AtHeader ∷ [])) }
    ensures reading { ReadsAtMost P.PagesTells pages.old pages.new }
    ensures room { length buf.new ≡ length buf.old }
{
    if walk.last == 0 {
        return Err(CheckFault::Page { page: 1, at: 28 });
    }
    match read(pages, 1, buf) {
        Ok(()) => (),
        Err(why) => return Err(why),
    }
    if !counts_pages(buf, walk.last, walk.page_size) {
        return Err(CheckFault::Page { page: 1, at: 28 });
    }
    if !is_inside_or_none(walk.last, get_u32(buf, 32)) {
        return Err(CheckFault::Page { page: 1, at: 32 });
    }
    Ok(())
}

// Whether page 1 begins with a header, whatever the database's size, that counts so many pages in a file of as many.
fn counts_pages(first: &[u8], last: u32, page_size: usize) -> bool
    requires size { page_size ≤ 65536 }
    requires some { 1 ≤ last }
    ensures counts { result ≡ true → CountsPages page_size last first.now }
    ensures others { result ≡ false → CountsPages page_size last first.now → ⊥ }
{
    match read_header(first, u64::from(last) * page_size as u64) {
        Ok(header) => header.pages == last,
        Err(why) => is_too_large(why, last),
    }
}

// Whether a header is refused for having so many pages, and for nothing else.
fn is_too_large(why: HeaderFault, last: u32) -> bool
    ensures large { result ≡ true → why ≡ broken.TooLarge last }
    ensures others { result ≡ false → why ≡ broken.TooLarge last → ⊥ }
{
    match why {
        HeaderFault::TooLarge { pages } => pages == u64::from(last),
        HeaderFault::NotADb
        | HeaderFault::PageSize(_)
        | HeaderFault::Versions(_, _)
        | HeaderFault::Utf16(_)
        | HeaderFault::AutoVacuum(_)
        | HeaderFault::Reserved(_)
        | HeaderFault::Format(_) => false,
    }
}

// Meets page 1, whose bytes are in the first buffer, and visits its tree.
fn visit_first<P: Pages>(
    alloc: Global,
    pages: &mut P,
    walk: &mut Walk,
    bufs: &mut [u8],
) -> Result<(), CheckFault>
    requires suits { SuitsPages P.PagesTells pages.old walk.old }
    requires some { 1 ≤ walk.old.last }
    requires bytes { (world : View) → P.tells pages.old world → take walk.old.page_size bufs.old ≡ P.over pages.old world 1 }
    requires room { length bufs.old ≡ 42 * P.page_size pages.old }
    ensures visited { OnOk result (HasVisited P.PagesTells pages.old walk.old (Place.AtNode schema_spot 1 ∷ []) pages.new walk.new) }
    ensures cause { IfErr result (BarsVisit P.PagesTells pages.old pages.new walk.old (Place.AtNode schema_spot 1 ∷ [])) }
    ensures reading { ReadsAtMost P.PagesTells pages.old pages.new }
    ensures room { length bufs.new ≡ length bufs.old }
{
    match walk.meet(1) {
        Ok(()) => (),
        Err(why) => return Err(why),
    }
    match visit(alloc, pages, walk, 1, schema_spot(), bufs) {
        Ok(()) => Ok(()),
        Err(why) => Err(why),
    }
}

// Visits the trees of roots, one after another.
fn check_roots<P: Pages>(
    alloc: Global,
    pages: &mut P,
    walk: &mut Walk,
    roots: &[u32],
    bufs: &mut [u8],
) -> Result<(), CheckFault>
    requires suits { SuitsPages P.PagesTells pages.old walk.old }
    requires range { Each (λ (root : ℕ). (2 ≤ root) × (root ≤ walk.old.last)) roots.now }
    requires room { length bufs.old ≡ 42 * P.page_size pages.old }
    ensures visited { OnOk result (HasVisited P.PagesTells pages.old walk.old (root_places roots.now) pages.new walk.new) }
    ensures cause { IfErr result (BarsVisit P.PagesTells pages.old pages.new walk.old (root_places roots.now)) }
    ensures reading { ReadsAtMost P.PagesTells pages.old pages.new }
    ensures room { length bufs.new ≡ length bufs.old }
{
    'roots: for k in 0..roots.len() {
        match visit_root(alloc, pages, walk, roots[k], bufs) {
            Ok(()) => (),
            Err(why) => return Err(why),
        }
    }
    Ok(())
}

// Meets a root, and visits its tree.
fn visit_root<P: Pages>(
    alloc: Global,
    pages: &mut P,
    walk: &mut Walk,
    root: u32,
    bufs: &mut [u8],
) -> Result<(), CheckFault>
    requires suits { SuitsPages P.PagesTells pages.old walk.old }
    requires range { (2 ≤ root) × (root ≤ walk.old.last) }
    requires room { length bufs.old ≡ 42 * P.page_size pages.old }
    ensures visited { OnOk result (HasVisited P.PagesTells pages.old walk.old (Place.AtNode root_spot root ∷ []) pages.new walk.new) }
    ensures cause { IfErr result (BarsVisit P.PagesTells pages.old pages.new walk.old (Place.AtNode root_spot root ∷ [])) }
    ensures reading { ReadsAtMost P.PagesTells pages.old pages.new }
    ensures room { length bufs.new ≡ length bufs.old }
{
    match enter(pages, walk, root, bufs) {
        Ok(()) => (),
        Err(why) => return Err(why),
    }
    match visit(alloc, pages, walk, root, root_spot(), bufs) {
        Ok(()) => Ok(()),
        Err(why) => Err(why),
    }
}
