// A page of a tree, fetched and looked at.
ghost use Rattle.std.specs.Prelude.{◌≡◌, ◌⊎◌, ℕ, ◌<◌, ◌≤◌, ◌==◌, true, false, length, IfOk, IfErr, OnErr};
ghost use Rattle.page_face.specs.Pages.{ReadsAtMost, pages_read};
ghost use Rattle.node_spec.specs.Kinds.{is_leaf, is_table};
ghost use Rattle.node_spec.specs.Nodes.{Node};
ghost use Rattle.page_form.specs.Reading.{Tells};
ghost use Rattle.tree_read.specs.Ways.{MayStand};
ghost use Rattle.tree_read.specs.Looking.{BarsNode, HasNode, IsNoNode};

use page_face::{FetchFault, Pages};
use page_form::{Kind, Page, PageFault, is_leaf, is_table, read_page};
use std::alloc::Global;

/// A tree has at most so many levels below its root.
const MOST_LEVELS: u32 = 40;

/// Reads the page that stands so many levels below the root of a table's tree or an index's, into a buffer that then has its bytes.
///
/// `Corrupt` names the page: it is no page's text, of another kind than the tree's, too deep, or lacks a cell. Page 1 alone, and a root
/// that is a leaf, may have none.
pub fn read_node<P: Pages>(
    alloc: Global,
    pages: &mut P,
    table: bool,
    page: u32,
    level: u32,
    buf: &mut [u8],
) -> Result<Page, FetchFault>
    requires ready { P.ready pages.old }
    requires page { (1 ≤ page) × (page ≤ P.last_page pages.old) }
    requires room { length buf.old ≡ P.page_size pages.old }
    ensures node { IfOk result (λ told. HasNode P.PagesTells pages.old table page level buf.new told pages.new) }
    ensures cause { IfErr result (BarsNode P.PagesTells pages.old table page level pages.new) }
    ensures read { OnErr result ((P.reads pages.new ≡ P.reads pages.old) ⊎ (P.reads pages.new ≡ pages_read P.PagesTells pages.old page)) }
    ensures reading { ReadsAtMost P.PagesTells pages.old pages.new }
    ensures room { length buf.new ≡ length buf.old }
{
    let usable = usable_of(pages);
    match pages.fetch(page, buf) {
        Ok(()) => (),
        Err(why) => return Err(why),
    }
    match node_in(alloc, buf, usable, table, page, level) {
        Ok(node) => Ok(node),
        Err(why) => Err(why),
    }
}

/// How many bytes of a page are in use.
pub fn usable_of<P: Pages>(pages: &P) -> usize
    requires { P.ready pages.now }
    ensures value { result ≡ P.usable pages.now }
    ensures least { 480 ≤ result }
    ensures most { result ≤ 65536 }
    ensures within { result ≤ P.page_size pages.now }
{
    pages.usable().min(pages.page_size())
}

// The node in the bytes of a page, if it may stand so many levels below the root.
fn node_in(
    alloc: Global,
    bytes: &[u8],
    usable: usize,
    table: bool,
    page: u32,
    level: u32,
) -> Result<Page, FetchFault>
    requires usable { (480 ≤ usable) × (usable ≤ 65536) × (usable ≤ length bytes.now) }
    ensures node { IfOk result (λ told. (node : Node) × (Tells usable (page == 1) bytes.now told node × MayStand table page level node)) }
    ensures cause { IfErr result (IsNoNode usable table page level bytes.now) }
{
    let node = match read_page(alloc, bytes, usable, page == 1) {
        Ok(node) => node,
        Err(PageFault::Bad { .. }) => return Err(FetchFault::Corrupt { page }),
        Err(PageFault::Memory) => return Err(FetchFault::Memory),
    };
    if may_stand(node.kind, node.cells.len(), table, page, level) {
        Ok(node)
    } else {
        Err(FetchFault::Corrupt { page })
    }
}

// Whether a page of a kind and with so many cells may stand so many levels below the root.
fn may_stand(kind: Kind, cells: usize, table: bool, page: u32, level: u32) -> bool
    ensures may { result ≡ true → (node : Node) → kind ≡ node.kind → cells ≡ length node.cells → MayStand table page level node }
    ensures only { result ≡ false → (node : Node) → kind ≡ node.kind → cells ≡ length node.cells → MayStand table page level node → ⊥ }
{
    if is_table(kind) != table || level > MOST_LEVELS {
        return false;
    }
    page == 1 || cells > 0 || level == 0 && is_leaf(kind)
}

/// Whether no child and no page of a chain has this number.
pub fn is_outside(page: u32, last: u32) -> bool
    ensures outside { result ≡ true → (page < 2) ⊎ (last < page) }
    ensures inside { result ≡ false → (2 ≤ page) × (page ≤ last) }
{
    page < 2 || page > last
}
