// The way through a tree, page by page, and what is given up on the way back up.
ghost use Rattle.std.specs.Prelude.{◌≡◌, ◌≢◌, ℕ, ◌≤◌, Bool, true, false, length, vec_len, OnOk, IfErr};
ghost use Rattle.node_spec.specs.Kinds.{is_leaf};
ghost use Rattle.page_face.specs.Pages.{Editing};
ghost use Rattle.node_spec.specs.Cells.{NodeCell};
ghost use Rattle.node_spec.specs.Nodes.{Node};
ghost use Rattle.page_form.specs.Reading.{IsReadPage};
ghost use Rattle.tree_drop.specs.Dropping.{DropsTree, BarsDrop};
ghost use Rattle.tree_drop.specs.Parts.{DropsOn, BarsOn, SaysCell, IsTreePart, IsChildPart, IsBelow, AreUnderCells, IsUnderCell};

use crate::cells::{free_payload, free_payloads};
use page_face::{EditPages, FetchFault};
use page_form::{Cell, Page, is_leaf, is_table, read_cell};
use std::alloc::Global;
use tree_edit::fetch_node;
use tree_read::{is_outside, page_buffer, read_node, usable_of};

/// Where a page stands in a tree.
#[derive(Clone, Copy)]
struct Place {
    /// Its number.
    page: u32,
    /// How many levels below the root.
    level: u32,
    /// Whether the tree is a table's.
    table: bool,
}

/// Gives up each page of the tree of a root, of a table or of an index as the root's page says, and of its payloads' chains. The root goes last.
///
/// `Corrupt` comes only where no tree stands at the root: the root is out of range, or a page is no page's text, of the other kind, too deep
/// or without a cell, or names a page out of range. After an error the tree may be given up in part. A buffer of a page is taken for each level,
/// and one more.
pub fn drop_tree<P: EditPages>(alloc: Global, pages: &mut P, root: u32) -> Result<(), FetchFault>
    requires ready { P.ready pages.old }
    requires root { root ≢ 1 }
    ensures dropped { OnOk result ((table : Bool) → DropsTree P.PagesTells pages.old table root pages.new) }
    ensures refused { IfErr result (λ why. (table : Bool) → BarsDrop P.PagesTells pages.old table root pages.new why) }
    ensures last { P.last_page pages.new ≡ P.last_page pages.old }
    ensures edits { Editing P.PagesTells pages.old pages.new }
{
    if is_outside(root, pages.last()) {
        return Err(FetchFault::Corrupt { page: root });
    }
    let mut buf = match page_buffer(alloc, pages.page_size()) {
        Ok(buf) => buf,
        Err(why) => return Err(why),
    };
    drop_with(alloc, pages, root, buf.as_mut_slice())
}

// The same, with a buffer for the root, which is in range.
fn drop_with<P: EditPages>(
    alloc: Global,
    pages: &mut P,
    root: u32,
    buf: &mut [u8],
) -> Result<(), FetchFault>
    requires ready { P.ready pages.old }
    requires page { (2 ≤ root) × (root ≤ P.last_page pages.old) }
    requires room { length buf.old ≡ P.page_size pages.old }
    ensures dropped { OnOk result ((table : Bool) (most : ℕ) → DropsOn P.PagesTells pages.old (IsTreePart table most 0 root) pages.new) }
    ensures refused { IfErr result (λ why. (table : Bool) → BarsOn P.PagesTells pages.old (IsTreePart table 40 0 root) pages.new why) }
    ensures last { P.last_page pages.new ≡ P.last_page pages.old }
    ensures edits { Editing P.PagesTells pages.old pages.new }
{
    let node = match fetch_node(alloc, pages, root, buf) {
        Ok(node) => node,
        Err(why) => return Err(why),
    };
    if is_bare(&node) {
        return Err(FetchFault::Corrupt { page: root });
    }
    let mut room = match page_buffer(alloc, pages.page_size()) {
        Ok(room) => room,
        Err(why) => return Err(why),
    };
    let place = Place {
        page: root,
        level: 0,
        table: is_table(node.kind),
    };
    match drop_below(alloc, pages, place, &node, buf, room.as_mut_slice()) {
        Ok(()) => (),
        Err(why) => return Err(why),
    }
    match pages.give_up(root) {
        Ok(()) => Ok(()),
        Err(why) => Err(why),
    }
}

// Whether an interior page has no cell.
fn is_bare(node: &Page) -> bool
    ensures { result ≡ true → (is_leaf node.now.kind ≡ false) × (vec_len node.now.cells ≡ 0) }
{
    !is_leaf(node.kind) && node.cells.is_empty()
}

// Gives up a page with all that it leads to. The buffers are one for the page, and one for chains.
#[cycle(levels)]
fn drop_at<P: EditPages>(
    alloc: Global,
    pages: &mut P,
    place: Place,
    buf: &mut [u8],
    room: &mut [u8],
) -> Result<(), FetchFault>
    requires ready { P.ready pages.old }
    requires page { (2 ≤ place.page) × (place.page ≤ P.last_page pages.old) }
    requires level { place.level ≤ 41 }
    requires buf { length buf.old ≡ P.page_size pages.old }
    requires room { length room.old ≡ P.page_size pages.old }
    ensures dropped { OnOk result ((most : ℕ) → DropsOn P.PagesTells pages.old (IsTreePart place.table most place.level place.page) pages.new) }
    ensures refused { IfErr result (BarsOn P.PagesTells pages.old (IsTreePart place.table 40 place.level place.page) pages.new) }
    ensures last { P.last_page pages.new ≡ P.last_page pages.old }
    ensures edits { Editing P.PagesTells pages.old pages.new }
    ensures buf { length buf.new ≡ length buf.old }
    ensures room { length room.new ≡ length room.old }
{
    let node = match read_node(alloc, pages, place.table, place.page, place.level, buf) {
        Ok(node) => node,
        Err(why) => return Err(why),
    };
    match drop_below(alloc, pages, place, &node, buf, room) {
        Ok(()) => (),
        Err(why) => return Err(why),
    }
    match pages.give_up(place.page) {
        Ok(()) => Ok(()),
        Err(why) => Err(why),
    }
}

// Gives up what a page leads to, whose bytes these are.
#[cycle(levels)]
fn drop_below<P: EditPages>(
    alloc: Global,
    pages: &mut P,
    place: Place,
    node: &Page,
    bytes: &[u8],
    room: &mut [u8],
) -> Result<(), FetchFault>
    requires ready { P.ready pages.old }
    requires level { place.level ≤ 40 }
    requires read { (shown : Node) × IsReadPage (P.usable pages.old) bytes.now node.now shown }
    requires room { length room.old ≡ P.page_size pages.old }
    ensures dropped { OnOk result ((shown : Node) → IsReadPage (P.usable pages.old) bytes.now node.now shown
        → (most : ℕ) → DropsOn P.PagesTells pages.old (IsBelow place.table most place.level shown) pages.new) }
    ensures refused { IfErr result (λ why. (shown : Node) → IsReadPage (P.usable pages.old) bytes.now node.now shown
        → BarsOn P.PagesTells pages.old (IsBelow place.table 40 place.level shown) pages.new why) }
    ensures last { P.last_page pages.new ≡ P.last_page pages.old }
    ensures edits { Editing P.PagesTells pages.old pages.new }
    ensures room { length room.new ≡ length room.old }
{
    if is_leaf(node.kind) {
        free_payloads(pages, place.page, node, bytes, room)
    } else {
        drop_inner(alloc, pages, place, node, bytes, room)
    }
}

// Gives up what is under an interior page, with a buffer for its children.
#[cycle(levels)]
fn drop_inner<P: EditPages>(
    alloc: Global,
    pages: &mut P,
    place: Place,
    node: &Page,
    bytes: &[u8],
    room: &mut [u8],
) -> Result<(), FetchFault>
    requires ready { P.ready pages.old }
    requires level { place.level ≤ 40 }
    requires read { (shown : Node) × IsReadPage (P.usable pages.old) bytes.now node.now shown }
    requires room { length room.old ≡ P.page_size pages.old }
    ensures dropped { OnOk result ((shown : Node) → IsReadPage (P.usable pages.old) bytes.now node.now shown
        → (most : ℕ) → DropsOn P.PagesTells pages.old (AreUnderCells place.table most place.level shown.cells shown.right) pages.new) }
    ensures refused { IfErr result (λ why. (shown : Node) → IsReadPage (P.usable pages.old) bytes.now node.now shown
        → BarsOn P.PagesTells pages.old (AreUnderCells place.table 40 place.level shown.cells shown.right) pages.new why) }
    ensures last { P.last_page pages.new ≡ P.last_page pages.old }
    ensures edits { Editing P.PagesTells pages.old pages.new }
    ensures room { length room.new ≡ length room.old }
{
    let mut buf = match page_buffer(alloc, pages.page_size()) {
        Ok(buf) => buf,
        Err(why) => return Err(why),
    };
    drop_children(alloc, pages, place, node, bytes, buf.as_mut_slice(), room)
}

// Gives up what each cell of an interior page leads to, and then what is under its right child.
#[cycle(levels)]
fn drop_children<P: EditPages>(
    alloc: Global,
    pages: &mut P,
    place: Place,
    node: &Page,
    bytes: &[u8],
    buf: &mut [u8],
    room: &mut [u8],
) -> Result<(), FetchFault>
    requires ready { P.ready pages.old }
    requires level { place.level ≤ 40 }
    requires read { (shown : Node) × IsReadPage (P.usable pages.old) bytes.now node.now shown }
    requires buf { length buf.old ≡ P.page_size pages.old }
    requires room { length room.old ≡ P.page_size pages.old }
    ensures dropped { OnOk result ((shown : Node) → IsReadPage (P.usable pages.old) bytes.now node.now shown
        → (most : ℕ) → DropsOn P.PagesTells pages.old (AreUnderCells place.table most place.level shown.cells shown.right) pages.new) }
    ensures refused { IfErr result (λ why. (shown : Node) → IsReadPage (P.usable pages.old) bytes.now node.now shown
        → BarsOn P.PagesTells pages.old (AreUnderCells place.table 40 place.level shown.cells shown.right) pages.new why) }
    ensures last { P.last_page pages.new ≡ P.last_page pages.old }
    ensures edits { Editing P.PagesTells pages.old pages.new }
    ensures buf { length buf.new ≡ length buf.old }
    ensures room { length room.new ≡ length room.old }
{
    let usable = usable_of(pages);
    for k in 0..node.cells.len() {
        let cell = read_cell(node, bytes, usable, k);
        match drop_under(alloc, pages, place, &cell, buf, room) {
            Ok(()) => (),
            Err(why) => return Err(why),
        }
    }
    drop_child(alloc, pages, place, node.right, buf, room)
}

// Gives up the child of a cell, and in an index the chain of the cell's own entry.
#[cycle(levels)]
fn drop_under<P: EditPages>(
    alloc: Global,
    pages: &mut P,
    place: Place,
    cell: &Cell,
    buf: &mut [u8],
    room: &mut [u8],
) -> Result<(), FetchFault>
    requires ready { P.ready pages.old }
    requires level { place.level ≤ 40 }
    requires buf { length buf.old ≡ P.page_size pages.old }
    requires room { length room.old ≡ P.page_size pages.old }
    ensures dropped { OnOk result ((told : NodeCell) → SaysCell cell.now told
        → (most : ℕ) → DropsOn P.PagesTells pages.old (IsUnderCell place.table most place.level told) pages.new) }
    ensures refused { IfErr result (λ why. (told : NodeCell) → SaysCell cell.now told
        → BarsOn P.PagesTells pages.old (IsUnderCell place.table 40 place.level told) pages.new why) }
    ensures last { P.last_page pages.new ≡ P.last_page pages.old }
    ensures edits { Editing P.PagesTells pages.old pages.new }
    ensures buf { length buf.new ≡ length buf.old }
    ensures room { length room.new ≡ length room.old }
{
    match drop_child(alloc, pages, place, cell.left, buf, room) {
        Ok(()) => (),
        Err(why) => return Err(why),
    }
    if place.table {
        return Ok(());
    }
    free_payload(pages, place.page, cell, room)
}

// Gives up a child of a page, one level further down, with all that it leads to.
#[cycle(levels)]
fn drop_child<P: EditPages>(
    alloc: Global,
    pages: &mut P,
    above: Place,
    child: u32,
    buf: &mut [u8],
    room: &mut [u8],
) -> Result<(), FetchFault>
    requires ready { P.ready pages.old }
    requires level { above.level ≤ 40 }
    requires buf { length buf.old ≡ P.page_size pages.old }
    requires room { length room.old ≡ P.page_size pages.old }
    ensures dropped { OnOk result ((most : ℕ) → DropsOn P.PagesTells pages.old (IsChildPart above.table most above.level child) pages.new) }
    ensures refused { IfErr result (BarsOn P.PagesTells pages.old (IsChildPart above.table 40 above.level child) pages.new) }
    ensures last { P.last_page pages.new ≡ P.last_page pages.old }
    ensures edits { Editing P.PagesTells pages.old pages.new }
    ensures buf { length buf.new ≡ length buf.old }
    ensures room { length room.new ≡ length room.old }
{
    if is_outside(child, pages.last()) {
        return Err(FetchFault::Corrupt { page: above.page });
    }
    let place = Place {
        page: child,
        level: above.level + 1,
        table: above.table,
    };
    drop_at(alloc, pages, place, buf, room)
}
