// Pages read and stored, by the nodes that they show.
ghost use Rattle.std.specs.Prelude.{◌≡◌, ◌⊎◌, ℕ, ◌≤◌, ◌==◌, [], ◌∷◌, length, take, drop, Contains, IfOk, IfErr, OnOk, OnErr, Some, false};
ghost use Rattle.page_spec.specs.View.{View};
ghost use Rattle.page_face.specs.Pages.{Editing, ReadsAtMost, LeavesFields, IsFromOutside, pages_read};
ghost use Rattle.node_spec.specs.Nodes.{Node, node_of};
ghost use Rattle.page_form.specs.Reading.{Tells};
ghost use Rattle.tree_spec.specs.Layout.{times};
ghost use Rattle.overflow.specs.Following.{shown_over};
ghost use Rattle.overflow.specs.Writing.{BarsWriting};
ghost use Rattle.tree_edit.specs.Editing.{EditsPages, making, storing};
ghost use Rattle.tree_edit.specs.Settling.{HoldsNode, HoldsNone, AreNoNode};

use page_face::{EditPages, FetchFault, Pages};
use page_form::{Page, PageFault, read_page};
use std::alloc::Global;
use tree_read::{page_buffer, usable_of};

/// Reads the page of a tree into a buffer that then has its bytes, wherever in the tree it stands and how few cells it has.
///
/// `Corrupt` names the page, and comes exactly where it is no page's text.
pub fn fetch_node<P: Pages>(
    alloc: Global,
    pages: &mut P,
    page: u32,
    buf: &mut [u8],
) -> Result<Page, FetchFault>
    requires ready { P.ready pages.old }
    requires page { (1 ≤ page) × (page ≤ P.last_page pages.old) }
    requires room { length buf.old ≡ P.page_size pages.old }
    ensures node { IfOk result (λ told. HoldsNode P.PagesTells pages.old page buf.new told pages.new) }
    ensures cause { IfErr result (HoldsNone P.PagesTells pages.old page pages.new) }
    ensures read { OnErr result ((P.reads pages.new ≡ P.reads pages.old) ⊎ (P.reads pages.new ≡ pages_read P.PagesTells pages.old page)) }
    ensures reading { ReadsAtMost P.PagesTells pages.old pages.new }
    ensures room { length buf.new ≡ length buf.old }
{
    let usable = usable_of(pages);
    match pages.fetch(page, buf) {
        Ok(()) => (),
        Err(why) => return Err(why),
    }
    match node_among(alloc, buf, usable, page) {
        Ok(node) => Ok(node),
        Err(why) => Err(why),
    }
}

// The node in the bytes of a page.
fn node_among(alloc: Global, bytes: &[u8], usable: usize, page: u32) -> Result<Page, FetchFault>
    requires usable { (480 ≤ usable) × (usable ≤ 65536) × (usable ≤ length bytes.now) }
    ensures node { IfOk result (λ told. (node : Node) × Tells usable (page == 1) bytes.now told node) }
    ensures cause { IfErr result (AreNoNode usable page bytes.now) }
{
    match read_page(alloc, bytes, usable, page == 1) {
        Ok(node) => Ok(node),
        Err(PageFault::Bad { .. }) => Err(FetchFault::Corrupt { page }),
        Err(PageFault::Memory) => Err(FetchFault::Memory),
    }
}

// Gives bytes the first 100 of others.
fn keep_head(bytes: &mut [u8], from: &[u8])
    requires { (100 ≤ length bytes.old) × (100 ≤ length from.now) }
    ensures head { take 100 bytes.new ≡ take 100 from.now }
    ensures rest { drop 100 bytes.new ≡ drop 100 bytes.old }
{
    bytes[..100].copy_from_slice(&from[..100]);
}

// Gives bytes for page 1 the header that it has now: a page that was made or given up may have changed its freelist fields.
fn keep_header_in<P: EditPages>(
    pages: &mut P,
    bytes: &mut [u8],
    spare: &mut [u8],
) -> Result<(), FetchFault>
    requires ready { P.ready pages.old }
    requires last { 1 ≤ P.last_page pages.old }
    requires room { (length bytes.old ≡ P.page_size pages.old) × (length spare.old ≡ P.page_size pages.old) }
    ensures rest { drop 100 bytes.new ≡ drop 100 bytes.old }
    ensures leaves { OnOk result ((world : View) → P.tells pages.new world → LeavesFields 1 (P.over pages.new world 1) bytes.new) }
    ensures room { (length bytes.new ≡ length bytes.old) × (length spare.new ≡ length spare.old) }
    ensures read { (n : ℕ) → Contains (P.reads pages.new) n → Contains (P.reads pages.old) n ⊎ (1 ≤ times (1 ∷ []) n) }
    ensures cause { IfErr result (λ why. IsFromOutside (P.faults pages.old) (P.faults pages.new) why) }
    ensures reading { ReadsAtMost P.PagesTells pages.old pages.new }
{
    let _ = usable_of(pages);
    match pages.fetch(1, spare) {
        Ok(()) => (),
        Err(why) => return Err(why),
    }
    keep_head(bytes, spare);
    Ok(())
}

// The same of whatever page: others have no header of the database.
fn keep_header<P: EditPages>(
    alloc: Global,
    pages: &mut P,
    page: u32,
    bytes: &mut [u8],
) -> Result<(), FetchFault>
    requires ready { P.ready pages.old }
    requires page { (1 ≤ page) × (page ≤ P.last_page pages.old) }
    requires room { length bytes.old ≡ P.page_size pages.old }
    ensures shown { (usable : ℕ) (node : Node) → node_of usable (page == 1) bytes.old ≡ Some node → node_of usable (page == 1) bytes.new ≡ Some node }
    ensures leaves { OnOk result ((world : View) → P.tells pages.new world → LeavesFields page (P.over pages.new world 1) bytes.new) }
    ensures room { length bytes.new ≡ length bytes.old }
    ensures read { (n : ℕ) → Contains (P.reads pages.new) n → Contains (P.reads pages.old) n ⊎ (1 ≤ times (page ∷ []) n) }
    ensures cause { IfErr result (λ why. IsFromOutside (P.faults pages.old) (P.faults pages.new) why) }
    ensures reading { ReadsAtMost P.PagesTells pages.old pages.new }
{
    if page != 1 {
        return Ok(());
    }
    let mut spare = match page_buffer(alloc, pages.page_size()) {
        Ok(spare) => spare,
        Err(why) => return Err(why),
    };
    match keep_header_in(pages, bytes, spare.as_mut_slice()) {
        Ok(()) => Ok(()),
        Err(why) => Err(why),
    }
}

/// Puts bytes that show a node in the place of a page.
///
/// On page 1 the first 100 bytes are those that it has then, whatever stands in `bytes`. The error is a failed disk or want of memory. Only on page 1
/// a buffer of a page is taken.
pub fn store<P: EditPages>(
    alloc: Global,
    pages: &mut P,
    page: u32,
    bytes: &mut [u8],
) -> Result<(), FetchFault>
    requires ready { P.ready pages.old }
    requires page { (1 ≤ page) × (page ≤ P.last_page pages.old) }
    requires whole { length bytes.old ≡ P.page_size pages.old }
    ensures stored { OnOk result ((world : View) → P.tells pages.new world → P.neat pages.old world → (P.free pages.old world page → ⊥)
        → EditsPages P.PagesTells (storing page []) pages.old pages.new world) }
    ensures shows { OnOk result ((world : View) → P.tells pages.new world → (node : Node) → node_of (P.usable pages.old) (page == 1) bytes.old ≡ Some node
        → (shown_over P.PagesTells pages.new world).node page ≡ Some node) }
    ensures cause { IfErr result (λ why. IsFromOutside (P.faults pages.old) (P.faults pages.new) why) }
    ensures last { P.last_page pages.new ≡ P.last_page pages.old }
    ensures edits { Editing P.PagesTells pages.old pages.new }
{
    match keep_header(alloc, pages, page, bytes) {
        Ok(()) => (),
        Err(why) => return Err(why),
    }
    match pages.put(page, bytes) {
        Ok(()) => Ok(()),
        Err(why) => Err(why),
    }
}

/// Makes a page of bytes that show a node, and answers its number.
///
/// `Size` and `Corrupt` come as of [`fresh`](EditPages::fresh).
pub fn make_page<P: EditPages>(pages: &mut P, bytes: &[u8]) -> Result<u32, FetchFault>
    requires ready { P.ready pages.old }
    requires whole { length bytes.now ≡ P.page_size pages.old }
    ensures range { IfOk result (λ page. (2 ≤ page) × (page ≤ P.last_page pages.new)) }
    ensures made { IfOk result (λ page. (world : View) → P.tells pages.new world → P.neat pages.old world
        → EditsPages P.PagesTells (making (page ∷ [])) pages.old pages.new world) }
    ensures shows { IfOk result (λ page. (world : View) → P.tells pages.new world → (node : Node) → node_of (P.usable pages.old) false bytes.now ≡ Some node
        → (shown_over P.PagesTells pages.new world).node page ≡ Some node) }
    ensures stopped { IfErr result (λ why. BarsWriting P.PagesTells pages.old why pages.new) }
    ensures edits { Editing P.PagesTells pages.old pages.new }
{
    let page = match pages.fresh() {
        Ok(page) => page,
        Err(why) => return Err(why),
    };
    match pages.put(page, bytes) {
        Ok(()) => Ok(page),
        Err(why) => Err(why),
    }
}
