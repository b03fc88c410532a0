// Trees, page by page.
ghost use Rattle.std.specs.Prelude.{◌≡◌, ℕ, Bool, ◌==◌, ◌-◌, ◌*◌, ◌^◌, ◌<◌, ◌≤◌, true, false, length, take, OnOk, IfOk, IfErr};
ghost use Rattle.node_spec.specs.Cells.{NodeCell};
ghost use Rattle.node_spec.specs.Nodes.{Node};
ghost use Rattle.node_spec.specs.Kinds.{is_leaf, is_table};
ghost use Rattle.page_form.specs.Reading.{Tells};
ghost use Rattle.page_face.specs.Pages.{ReadsAtMost};
ghost use Rattle.check_spec.specs.declared.fault.CheckFault.TheVariants as fault;
ghost use Rattle.check_spec.specs.Forms.{IsAbove, IsAtMost, AreInOrder, BreaksOrder};
ghost use Rattle.check_spec.specs.Walk.{node_places, inner_places, leaf_places, payload_places, link_places};
ghost use Rattle.tree_check.specs.Noded.{HasNode, BarsNode};
ghost use Rattle.tree_check.specs.Walking.{SuitsPages, HasVisited, BarsVisit};
ghost use Rattle.tree_check.specs.Visiting.{HasEntered, BarsEnter, HasVisitedNode, BarsEntered, ShowsNode, ShowsCell, rowid_then, cell_places, node_place, HasContent, TellsKept, HasNamed, BarsName};

use crate::chain::{append, visit_chain};
use crate::forms::node_fault;
use crate::row::root_in;
use crate::spot::{child_spot, leaves_after, leaves_before};
use crate::walk::{Walk, read};
use check_spec::{CheckFault, Spot};
use node_spec::Kind;
use page_face::Pages;
use page_form::{Cell, Page, PageFault, is_leaf, is_table, read_cell, read_page};
use std::alloc::Global;

// Meets a page and reads it into the first buffer.
pub(crate) fn enter<P: Pages>(
    pages: &mut P,
    walk: &mut Walk,
    page: u32,
    bufs: &mut [u8],
) -> Result<(), CheckFault>
    requires suits { SuitsPages P.PagesTells pages.old walk.old }
    requires page { (1 ≤ page) × (page ≤ walk.old.last) }
    requires room { walk.old.page_size ≤ length bufs.old }
    ensures entered { OnOk result (HasEntered P.PagesTells pages.old walk.old page (take walk.old.page_size bufs.new) pages.new walk.new) }
    ensures cause { IfErr result (BarsEnter P.PagesTells pages.old pages.new walk.old page) }
    ensures reading { ReadsAtMost P.PagesTells pages.old pages.new }
    ensures room { length bufs.new ≡ length bufs.old }
{
    match walk.meet(page) {
        Ok(()) => (),
        Err(why) => return Err(why),
    }
    let (buf, _) = bufs.split_at_mut(walk.page_size);
    read(pages, page, buf)
}

// Visits a page of a tree, which was met and whose bytes are in the first buffer, and all that is under it. There is a buffer for each level that there
// may be from here down, and one more for chains.
#[cycle(trees)]
pub(crate) fn visit<P: Pages>(
    alloc: Global,
    pages: &mut P,
    walk: &mut Walk,
    page: u32,
    spot: Spot,
    bufs: &mut [u8],
) -> Result<(), CheckFault>
    requires suits { SuitsPages P.PagesTells pages.old walk.old }
    requires page { (1 ≤ page) × (page ≤ walk.old.last) }
    requires level { spot.level ≤ 41 }
    requires room { (42 - spot.level) * walk.old.page_size ≤ length bufs.old }
    ensures visited { OnOk result (HasVisitedNode P.PagesTells pages.old walk.old spot page (take walk.old.page_size bufs.old) pages.new walk.new) }
    ensures cause { IfErr result (BarsEntered P.PagesTells pages.old pages.new walk.old spot page (take walk.old.page_size bufs.old)) }
    ensures reading { ReadsAtMost P.PagesTells pages.old pages.new }
    ensures room { length bufs.new ≡ length bufs.old }
{
    let (buf, below) = bufs.split_at_mut(walk.page_size);
    let node = match node_in(alloc, walk, page, &spot, buf) {
        Ok(node) => node,
        Err(why) => return Err(why),
    };
    if is_leaf(node.kind) {
        visit_leaf(alloc, pages, walk, page, &spot, &node, buf, below)
    } else {
        visit_inner(alloc, pages, walk, page, &spot, &node, buf, below)
    }
}

// Visits what a leaf leads to: its payloads, and then its rowids.
fn visit_leaf<P: Pages>(
    alloc: Global,
    pages: &mut P,
    walk: &mut Walk,
    page: u32,
    spot: &Spot,
    node: &Page,
    bytes: &[u8],
    room: &mut [u8],
) -> Result<(), CheckFault>
    requires suits { SuitsPages P.PagesTells pages.old walk.old }
    requires leaf { is_leaf node.now.kind ≡ true }
    requires node { (told : Node) × ShowsNode walk.old.usable walk.old.last (page == 1) bytes.now node.now told }
    requires room { walk.old.page_size ≤ length room.old }
    ensures visited { OnOk result ((told : Node) → ShowsNode walk.old.usable walk.old.last (page == 1) bytes.now node.now told
        → HasVisited P.PagesTells pages.old walk.old (node_places true spot.now page told) pages.new walk.new) }
    ensures cause { IfErr result (λ why. (told : Node) → ShowsNode walk.old.usable walk.old.last (page == 1) bytes.now node.now told
        → BarsVisit P.PagesTells pages.old pages.new walk.old (node_places true spot.now page told) why) }
    ensures reading { ReadsAtMost P.PagesTells pages.old pages.new }
    ensures room { length room.new ≡ length room.old }
{
    match visit_payloads(alloc, pages, walk, spot.schema, node, bytes, room) {
        Ok(()) => (),
        Err(why) => return Err(why),
    }
    visit_rowids(walk.usable, page, spot, node, bytes)
}

// Visits what an interior page leads to: its rowids, and then its children.
#[cycle(trees)]
fn visit_inner<P: Pages>(
    alloc: Global,
    pages: &mut P,
    walk: &mut Walk,
    page: u32,
    spot: &Spot,
    node: &Page,
    bytes: &[u8],
    below: &mut [u8],
) -> Result<(), CheckFault>
    requires suits { SuitsPages P.PagesTells pages.old walk.old }
    requires inner { is_leaf node.now.kind ≡ false }
    requires node { (told : Node) × ShowsNode walk.old.usable walk.old.last (page == 1) bytes.now node.now told }
    requires level { spot.now.level ≤ 40 }
    requires room { (41 - spot.now.level) * walk.old.page_size ≤ length below.old }
    ensures visited { OnOk result ((told : Node) → ShowsNode walk.old.usable walk.old.last (page == 1) bytes.now node.now told
        → HasVisited P.PagesTells pages.old walk.old (node_places false spot.now page told) pages.new walk.new) }
    ensures cause { IfErr result (λ why. (told : Node) → ShowsNode walk.old.usable walk.old.last (page == 1) bytes.now node.now told
        → BarsVisit P.PagesTells pages.old pages.new walk.old (node_places false spot.now page told) why) }
    ensures reading { ReadsAtMost P.PagesTells pages.old pages.new }
    ensures room { length below.new ≡ length below.old }
{
    match visit_rowids(walk.usable, page, spot, node, bytes) {
        Ok(()) => (),
        Err(why) => return Err(why),
    }
    visit_children(alloc, pages, walk, spot, node, bytes, below)
}

// Visits the children of an interior page, in an index with the payload of each cell behind its child.
#[cycle(trees)]
fn visit_children<P: Pages>(
    alloc: Global,
    pages: &mut P,
    walk: &mut Walk,
    spot: &Spot,
    node: &Page,
    bytes: &[u8],
    below: &mut [u8],
) -> Result<(), CheckFault>
    requires suits { SuitsPages P.PagesTells pages.old walk.old }
    requires inner { is_leaf node.now.kind ≡ false }
    requires node { (first : Bool) × ((told : Node) × ShowsNode walk.old.usable walk.old.last first bytes.now node.now told) }
    requires level { spot.now.level ≤ 40 }
    requires room { (41 - spot.now.level) * walk.old.page_size ≤ length below.old }
    ensures visited { OnOk result ((first : Bool) (told : Node) → ShowsNode walk.old.usable walk.old.last first bytes.now node.now told
        → HasVisited P.PagesTells pages.old walk.old (inner_places spot.now (is_table told.kind) spot.now.before told.cells told.right) pages.new walk.new) }
    ensures cause { IfErr result (λ why. (first : Bool) (told : Node) → ShowsNode walk.old.usable walk.old.last first bytes.now node.now told
        → BarsVisit P.PagesTells pages.old pages.new walk.old (inner_places spot.now (is_table told.kind) spot.now.before told.cells told.right) why) }
    ensures reading { ReadsAtMost P.PagesTells pages.old pages.new }
    ensures room { length below.new ≡ length below.old }
{
    let usable = walk.usable;
    let table = is_table(node.kind);
    let mut before = spot.before;
    for k in 0..node.cells.len() {
        let cell = read_cell(node, bytes, usable, k);
        match visit_cell(
            alloc, pages, walk, spot, node.kind, before, &cell, bytes, below,
        ) {
            Ok(()) => (),
            Err(why) => return Err(why),
        }
        before = rowid_then(table, before, cell.rowid);
    }
    let child = child_spot(spot, table, before, spot.bound);
    visit_child(alloc, pages, walk, node.right, child, below)
}

// Visits the child of a cell, and in an index the cell's payload behind it.
#[cycle(trees)]
fn visit_cell<P: Pages>(
    alloc: Global,
    pages: &mut P,
    walk: &mut Walk,
    spot: &Spot,
    kind: Kind,
    before: Option<i64>,
    cell: &Cell,
    bytes: &[u8],
    below: &mut [u8],
) -> Result<(), CheckFault>
    requires suits { SuitsPages P.PagesTells pages.old walk.old }
    requires inner { is_leaf kind ≡ false }
    requires cell { (told : NodeCell) × ShowsCell walk.old.last kind bytes.now cell.now told }
    requires level { spot.now.level ≤ 40 }
    requires room { (41 - spot.now.level) * walk.old.page_size ≤ length below.old }
    ensures visited { OnOk result ((told : NodeCell) → ShowsCell walk.old.last kind bytes.now cell.now told
        → HasVisited P.PagesTells pages.old walk.old (cell_places spot.now (is_table kind) before told) pages.new walk.new) }
    ensures cause { IfErr result (λ why. (told : NodeCell) → ShowsCell walk.old.last kind bytes.now cell.now told
        → BarsVisit P.PagesTells pages.old pages.new walk.old (cell_places spot.now (is_table kind) before told) why) }
    ensures reading { ReadsAtMost P.PagesTells pages.old pages.new }
    ensures room { length below.new ≡ length below.old }
{
    let table = is_table(kind);
    let bound = rowid_then(table, before, cell.rowid);
    let child = child_spot(spot, table, before, bound);
    match visit_child(alloc, pages, walk, cell.left, child, below) {
        Ok(()) => (),
        Err(why) => return Err(why),
    }
    if table {
        return Ok(());
    }
    visit_payload(alloc, pages, walk, false, kind, cell, bytes, below)
}

// Visits a child with all that is under it.
#[cycle(trees)]
fn visit_child<P: Pages>(
    alloc: Global,
    pages: &mut P,
    walk: &mut Walk,
    page: u32,
    spot: Spot,
    bufs: &mut [u8],
) -> Result<(), CheckFault>
    requires suits { SuitsPages P.PagesTells pages.old walk.old }
    requires page { (1 ≤ page) × (page ≤ walk.old.last) }
    requires level { spot.level ≤ 41 }
    requires room { (42 - spot.level) * walk.old.page_size ≤ length bufs.old }
    ensures visited { OnOk result (HasVisited P.PagesTells pages.old walk.old (node_place spot page) pages.new walk.new) }
    ensures cause { IfErr result (BarsVisit P.PagesTells pages.old pages.new walk.old (node_place spot page)) }
    ensures reading { ReadsAtMost P.PagesTells pages.old pages.new }
    ensures room { length bufs.new ≡ length bufs.old }
{
    match enter(pages, walk, page, bufs) {
        Ok(()) => (),
        Err(why) => return Err(why),
    }
    visit(alloc, pages, walk, page, spot, bufs)
}

// The node in the bytes of a page, if it is in order where it stands. The first leaf of a tree says how deep the others are.
fn node_in(
    alloc: Global,
    walk: &mut Walk,
    page: u32,
    spot: &Spot,
    buf: &[u8],
) -> Result<Page, CheckFault>
    requires usable { (480 ≤ walk.old.usable) × (walk.old.usable ≤ 65536) × (walk.old.usable ≤ length buf.now) }
    ensures node { IfOk result (λ node. HasNode walk.old spot.now page buf.now node walk.new) }
    ensures cause { IfErr result (BarsNode walk.old spot.now page buf.now) }
{
    let node = match read_page(alloc, buf, walk.usable, page == 1) {
        Ok(node) => node,
        Err(PageFault::Bad { at }) => return Err(CheckFault::Page { page, at }),
        Err(PageFault::Memory) => return Err(CheckFault::Memory),
    };
    let leaves = leaves_before(spot.level, walk.leaves);
    if let Some(at) = node_fault(walk.usable, walk.last, spot, leaves, page, buf, &node) {
        return Err(CheckFault::Page { page, at });
    }
    walk.leaves = leaves_after(is_leaf(node.kind), spot.level, leaves);
    Ok(node)
}

// Visits the payload of each cell of a leaf.
fn visit_payloads<P: Pages>(
    alloc: Global,
    pages: &mut P,
    walk: &mut Walk,
    schema: bool,
    node: &Page,
    bytes: &[u8],
    room: &mut [u8],
) -> Result<(), CheckFault>
    requires suits { SuitsPages P.PagesTells pages.old walk.old }
    requires node { (first : Bool) × ((told : Node) × ShowsNode walk.old.usable walk.old.last first bytes.now node.now told) }
    requires room { walk.old.page_size ≤ length room.old }
    ensures visited { OnOk result ((first : Bool) (told : Node) → ShowsNode walk.old.usable walk.old.last first bytes.now node.now told
        → HasVisited P.PagesTells pages.old walk.old (leaf_places schema told.cells) pages.new walk.new) }
    ensures cause { IfErr result (λ why. (first : Bool) (told : Node) → ShowsNode walk.old.usable walk.old.last first bytes.now node.now told
        → BarsVisit P.PagesTells pages.old pages.new walk.old (leaf_places schema told.cells) why) }
    ensures reading { ReadsAtMost P.PagesTells pages.old pages.new }
    ensures room { length room.new ≡ length room.old }
{
    let usable = walk.usable;
    for k in 0..node.cells.len() {
        let cell = read_cell(node, bytes, usable, k);
        match visit_payload(alloc, pages, walk, schema, node.kind, &cell, bytes, room) {
            Ok(()) => (),
            Err(why) => return Err(why),
        }
    }
    Ok(())
}

// Visits the chain of a cell, and of page 1's tree the schema row that is whole then.
fn visit_payload<P: Pages>(
    alloc: Global,
    pages: &mut P,
    walk: &mut Walk,
    schema: bool,
    kind: Kind,
    cell: &Cell,
    bytes: &[u8],
    room: &mut [u8],
) -> Result<(), CheckFault>
    requires suits { SuitsPages P.PagesTells pages.old walk.old }
    requires cell { (told : NodeCell) × ShowsCell walk.old.last kind bytes.now cell.now told }
    requires room { walk.old.page_size ≤ length room.old }
    ensures visited { OnOk result ((told : NodeCell) → ShowsCell walk.old.last kind bytes.now cell.now told
        → HasVisited P.PagesTells pages.old walk.old (payload_places schema told) pages.new walk.new) }
    ensures cause { IfErr result (λ why. (told : NodeCell) → ShowsCell walk.old.last kind bytes.now cell.now told
        → BarsVisit P.PagesTells pages.old pages.new walk.old (payload_places schema told) why) }
    ensures reading { ReadsAtMost P.PagesTells pages.old pages.new }
    ensures room { length room.new ≡ length room.old }
{
    if schema {
        visit_row(alloc, pages, walk, kind, cell, bytes, room)
    } else {
        visit_content(pages, walk, false, kind, cell, bytes, room)
    }
}

// Visits the chain of a cell of page 1's tree, and then the row.
fn visit_row<P: Pages>(
    alloc: Global,
    pages: &mut P,
    walk: &mut Walk,
    kind: Kind,
    cell: &Cell,
    bytes: &[u8],
    room: &mut [u8],
) -> Result<(), CheckFault>
    requires suits { SuitsPages P.PagesTells pages.old walk.old }
    requires cell { (told : NodeCell) × ShowsCell walk.old.last kind bytes.now cell.now told }
    requires room { walk.old.page_size ≤ length room.old }
    ensures visited { OnOk result ((told : NodeCell) → ShowsCell walk.old.last kind bytes.now cell.now told
        → HasVisited P.PagesTells pages.old walk.old (payload_places true told) pages.new walk.new) }
    ensures cause { IfErr result (λ why. (told : NodeCell) → ShowsCell walk.old.last kind bytes.now cell.now told
        → BarsVisit P.PagesTells pages.old pages.new walk.old (payload_places true told) why) }
    ensures reading { ReadsAtMost P.PagesTells pages.old pages.new }
    ensures room { length room.new ≡ length room.old }
{
    let keep = is_short(cell.payload);
    match visit_content(pages, walk, keep, kind, cell, bytes, room) {
        Ok(()) => (),
        Err(why) => return Err(why),
    }
    match row_root(alloc, walk, keep) {
        Ok(root) => name_root(walk, root, cell.rowid),
        Err(why) => Err(why),
    }
}

// Whether a payload of so many bytes may be a row that is read.
fn is_short(payload: u64) -> bool
    ensures short { result ≡ true → payload < 2 ^ 32 }
    ensures long { result ≡ false → 2 ^ 32 ≤ payload }
{
    payload <= u64::from(u32::MAX)
}

// Walks the chain of a cell. The payload is gathered where it is to be kept.
fn visit_content<P: Pages>(
    pages: &mut P,
    walk: &mut Walk,
    keep: bool,
    kind: Kind,
    cell: &Cell,
    bytes: &[u8],
    room: &mut [u8],
) -> Result<(), CheckFault>
    requires suits { SuitsPages P.PagesTells pages.old walk.old }
    requires cell { (told : NodeCell) × ShowsCell walk.old.last kind bytes.now cell.now told }
    requires room { walk.old.page_size ≤ length room.old }
    ensures content { OnOk result ((told : NodeCell) → ShowsCell walk.old.last kind bytes.now cell.now told
        → HasContent P.PagesTells pages.old walk.old keep told pages.new walk.new) }
    ensures cause { IfErr result (λ why. (told : NodeCell) → ShowsCell walk.old.last kind bytes.now cell.now told
        → BarsVisit P.PagesTells pages.old pages.new walk.old (link_places told.overflow (told.payload - length told.local)) why) }
    ensures reading { ReadsAtMost P.PagesTells pages.old pages.new }
    ensures room { length room.new ≡ length room.old }
{
    match begin_payload(walk, keep, cell.local_bytes(kind, bytes)) {
        Ok(()) => (),
        Err(why) => return Err(why),
    }
    let left = cell.payload.saturating_sub(cell.local as u64);
    let (buf, _) = room.split_at_mut(walk.page_size);
    visit_chain(pages, walk, cell.overflow, left, keep, buf)
}

// Begins a payload, with the bytes that its cell stores where it is to be kept.
fn begin_payload(walk: &mut Walk, keep: bool, local: &[u8]) -> Result<(), CheckFault>
    ensures same { walk.new ≡ record walk.old { payload = walk.new.payload } }
    ensures kept { OnOk result (keep ≡ true → walk.new.payload.items ≡ local.now) }
    ensures cause { IfErr result (λ why. why ≡ fault.Memory) }
{
    walk.payload.clear();
    if keep {
        append(&mut walk.payload, local)
    } else {
        Ok(())
    }
}

// The root that a schema row names whose payload was kept. One that wasn't is too large for a row.
fn row_root(alloc: Global, walk: &Walk, keep: bool) -> Result<Option<u32>, CheckFault>
    requires short { keep ≡ true → length walk.now.payload.items < 2 ^ 32 }
    ensures root { IfOk result (TellsKept keep walk.now.last walk.now.payload.items) }
    ensures cause { IfErr result (λ why. why ≡ fault.Memory) }
{
    if keep {
        root_in(alloc, walk.payload.as_slice(), walk.last)
    } else {
        Ok(None)
    }
}

// Keeps the root that a schema row names, if it is a schema row.
fn name_root(walk: &mut Walk, root: Option<u32>, rowid: i64) -> Result<(), CheckFault>
    ensures named { OnOk result (HasNamed walk.old root walk.new) }
    ensures cause { IfErr result (BarsName root rowid) }
{
    let Some(root) = root else {
        return Err(CheckFault::Schema { rowid });
    };
    if root == 0 {
        return Ok(());
    }
    match walk.roots.push(root) {
        Ok(()) => Ok(()),
        Err(_) => Err(CheckFault::Memory),
    }
}

// The rowid above which those are that come behind a cell: in a table's tree the cell's.
fn rowid_then(table: bool, before: Option<i64>, rowid: i64) -> Option<i64>
    ensures { result ≡ rowid_then table before rowid }
{
    if table { Some(rowid) } else { before }
}

// Checks the rowids of a page of a table's tree. An index has none.
fn visit_rowids(
    usable: usize,
    page: u32,
    spot: &Spot,
    node: &Page,
    bytes: &[u8],
) -> Result<(), CheckFault>
    requires read { (told : Node) × Tells usable (page == 1) bytes.now node.now told }
    ensures order { OnOk result ((told : Node) → Tells usable (page == 1) bytes.now node.now told → is_table told.kind ≡ true
        → AreInOrder spot.now.before spot.now.bound told.cells) }
    ensures cause { IfErr result (λ why. (k : ℕ) × (why ≡ fault.Order page k)
        × ((told : Node) → Tells usable (page == 1) bytes.now node.now told
        → (is_table told.kind ≡ true) × BreaksOrder spot.now.before spot.now.bound told.cells k)) }
{
    if is_table(node.kind) {
        check_rowids(usable, page, spot, node, bytes)
    } else {
        Ok(())
    }
}

// Checks that the rowids of a table's page rise, above the one before them and at most up to their bound.
fn check_rowids(
    usable: usize,
    page: u32,
    spot: &Spot,
    node: &Page,
    bytes: &[u8],
) -> Result<(), CheckFault>
    requires read { (told : Node) × Tells usable (page == 1) bytes.now node.now told }
    ensures order { OnOk result ((told : Node) → Tells usable (page == 1) bytes.now node.now told → AreInOrder spot.now.before spot.now.bound told.cells) }
    ensures cause { IfErr result (λ why. (k : ℕ) × (why ≡ fault.Order page k)
        × ((told : Node) → Tells usable (page == 1) bytes.now node.now told → BreaksOrder spot.now.before spot.now.bound told.cells k)) }
{
    let mut before = spot.before;
    for k in 0..node.cells.len() {
        let rowid = read_cell(node, bytes, usable, k).rowid;
        if !is_between(before, spot.bound, rowid) {
            return Err(CheckFault::Order { page, cell: k });
        }
        before = Some(rowid);
    }
    Ok(())
}

// Whether a rowid is above another, if there is one, and at most at a bound, if there is one.
fn is_between(before: Option<i64>, bound: Option<i64>, rowid: i64) -> bool
    ensures inside { result ≡ true → IsAbove before rowid × IsAtMost bound rowid }
    ensures outside { result ≡ false → IsAbove before rowid × IsAtMost bound rowid → ⊥ }
{
    if !is_above(before, rowid) {
        return false;
    }
    is_at_most(bound, rowid)
}

// Whether a rowid is above another, if there is one.
fn is_above(before: Option<i64>, rowid: i64) -> bool
    ensures above { result ≡ true → IsAbove before rowid }
    ensures not_above { result ≡ false → IsAbove before rowid → ⊥ }
{
    match before {
        Some(before) => before < rowid,
        None => true,
    }
}

// Whether a rowid is at most at a bound, if there is one.
fn is_at_most(bound: Option<i64>, rowid: i64) -> bool
    ensures most { result ≡ true → IsAtMost bound rowid }
    ensures not_most { result ≡ false → IsAtMost bound rowid → ⊥ }
{
    match bound {
        Some(bound) => rowid <= bound,
        None => true,
    }
}
