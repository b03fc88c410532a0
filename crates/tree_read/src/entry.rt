// An entry of an index, looked up.
ghost use Rattle.std.specs.Prelude.{◌≡◌, ℕ, ◌<◌, ◌≤◌, length, IfOk, IfErr};
ghost use Rattle.page_face.specs.Pages.{ReadsAtMost};
ghost use Rattle.node_spec.specs.Cells.{NodeCell};
ghost use Rattle.node_spec.specs.Nodes.{Node, cell_at};
ghost use Rattle.page_form.specs.Reading.{IsReadPage};
ghost use Rattle.tree_read.specs.Entries.{IsSpotWithin, HasSought, HasCompared, HasSearched, FindsEntry, FailsEntry};

use crate::node::{is_outside, read_node, usable_of};
use crate::place::child_before;
use crate::row::{local_of, row_of};
use crate::way::page_buffer;
use page_face::{FetchFault, Pages};
use page_form::{Page, is_leaf, read_cell};
use std::alloc::Global;
use std::cmp::Ordering;
use value_form::{Row, order_rows};

/// Whether the index's tree at page `root` has an entry, whose entries stand in the order of [`order_rows`].
///
/// `Corrupt` names `root` where that is out of range; the page that was fetched last where that is no page's text, stands where it may
/// not (by its kind, more than 40 levels below the root, or without a cell), or names a page out of range; and the page of a cell whose
/// payload is no record without a float, or has 2^32 bytes or more. `Disk` and `Memory` come from outside. One page is fetched for
/// each level, and those of the chains of the entries that are compared, about as many as halving takes. Two buffers of a page are made.
pub fn find_entry<P: Pages>(
    alloc: Global,
    pages: &mut P,
    root: u32,
    entry: &Row,
) -> Result<bool, FetchFault>
    requires ready { P.ready pages.old }
    ensures found { IfOk result (λ found. FindsEntry P.PagesTells pages.old root entry.now found pages.new) }
    ensures sound { IfErr result (λ why. FailsEntry P.PagesTells pages.old root why pages.new) }
    ensures searched { HasSearched P.PagesTells pages.old root entry.now result pages.new }
    ensures reading { ReadsAtMost P.PagesTells pages.old pages.new }
{
    search(alloc, pages, root, entry)
}

// The same, said of the pages alone.
fn search<P: Pages>(
    alloc: Global,
    pages: &mut P,
    root: u32,
    entry: &Row,
) -> Result<bool, FetchFault>
    requires ready { P.ready pages.old }
    ensures searched { HasSearched P.PagesTells pages.old root entry.now result pages.new }
    ensures reading { ReadsAtMost P.PagesTells pages.old pages.new }
{
    if root < 1 || root > pages.last() {
        return Err(FetchFault::Corrupt { page: root });
    }
    let mut buf = match page_buffer(alloc, pages.page_size()) {
        Ok(buf) => buf,
        Err(why) => return Err(why),
    };
    let mut room = match page_buffer(alloc, pages.page_size()) {
        Ok(room) => room,
        Err(why) => return Err(why),
    };
    search_with(
        alloc,
        pages,
        root,
        entry,
        buf.as_mut_slice(),
        room.as_mut_slice(),
    )
}

// The same with a buffer of one page for the pages of the way and one for those of chains, and a root in range.
fn search_with<P: Pages>(
    alloc: Global,
    pages: &mut P,
    root: u32,
    entry: &Row,
    buf: &mut [u8],
    room: &mut [u8],
) -> Result<bool, FetchFault>
    requires ready { P.ready pages.old }
    requires root { (1 ≤ root) × (root ≤ P.last_page pages.old) }
    requires buf { length buf.old ≡ P.page_size pages.old }
    requires room { length room.old ≡ P.page_size pages.old }
    ensures searched { HasSearched P.PagesTells pages.old root entry.now result pages.new }
    ensures reading { ReadsAtMost P.PagesTells pages.old pages.new }
{
    let usable = usable_of(pages);
    let last = pages.last();
    let mut page = root;
    let mut level = 0;
    'levels: loop {
        let node = match read_node(alloc, pages, false, page, level, buf) {
            Ok(node) => node,
            Err(why) => return Err(why),
        };
        let place = match seek(alloc, pages, page, &node, buf, entry, room) {
            Ok(Spot::At) => return Ok(true),
            Ok(Spot::Before(place)) => place,
            Err(why) => return Err(why),
        };
        if is_leaf(node.kind) {
            return Ok(false);
        }
        let child = child_before(&node, buf, usable, place);
        if is_outside(child, last) {
            return Err(FetchFault::Corrupt { page });
        }
        page = child;
        level += 1;
    }
}

/// Where a key stands among the cells of a page.
#[derive(Clone, Copy)]
pub enum Spot {
    /// A cell has it.
    At,
    /// None has it, and it stands before the cell of this place, or behind all.
    Before(usize),
}

// How the row of a cell compares with an entry.
fn compare_cell<P: Pages>(
    alloc: Global,
    pages: &mut P,
    page: u32,
    node: &Page,
    k: usize,
    bytes: &[u8],
    entry: &Row,
    room: &mut [u8],
) -> Result<Ordering, FetchFault>
    requires ready { P.ready pages.old }
    requires room { length room.old ≡ P.page_size pages.old }
    requires small { P.usable pages.old ≤ 65536 }
    requires cell { (shown : Node) × (IsReadPage (P.usable pages.old) bytes.now node.now shown × (k < length shown.cells)) }
    ensures compared { (shown : Node) → IsReadPage (P.usable pages.old) bytes.now node.now shown
        → HasCompared P.PagesTells pages.old (cell_at shown k) page entry.now result pages.new }
    ensures reading { ReadsAtMost P.PagesTells pages.old pages.new }
    ensures room { length room.new ≡ length room.old }
{
    let cell = read_cell(node, bytes, pages.usable(), k);
    let local = match local_of(alloc, &cell, node.kind, bytes) {
        Ok(local) => local,
        Err(why) => return Err(why),
    };
    match row_of(alloc, pages, page, &cell, local, room) {
        Ok(row) => Ok(order_rows(&row, entry)),
        Err(why) => Err(why),
    }
}

/// Looks for an entry among the cells of a page that was read, whose rows rise, by halving. Where they don't rise it is still a place between two that fit.
///
/// The pages of the chains of the cells that are compared are fetched into `room`, which has the bytes of one page. `Corrupt` names a page whose
/// cell's payload is no record without a float, or has 2^32 bytes or more. `Disk` and `Memory` come from outside.
pub fn seek<P: Pages>(
    alloc: Global,
    pages: &mut P,
    page: u32,
    node: &Page,
    bytes: &[u8],
    entry: &Row,
    room: &mut [u8],
) -> Result<Spot, FetchFault>
    requires ready { P.ready pages.old }
    requires room { length room.old ≡ P.page_size pages.old }
    requires small { P.usable pages.old ≤ 65536 }
    requires page { (shown : Node) × IsReadPage (P.usable pages.old) bytes.now node.now shown }
    ensures sought { (shown : Node) → IsReadPage (P.usable pages.old) bytes.now node.now shown
        → HasSought P.PagesTells pages.old shown page entry.now result pages.new }
    ensures within { (shown : Node) → IsReadPage (P.usable pages.old) bytes.now node.now shown → IsSpotWithin (length shown.cells) result }
    ensures reading { ReadsAtMost P.PagesTells pages.old pages.new }
    ensures room { length room.new ≡ length room.old }
{
    let mut low = 0;
    let mut high = node.cells.len();
    'halves: while low < high {
        let middle = low + (high - low) / 2;
        match compare_cell(alloc, pages, page, node, middle, bytes, entry, room) {
            Ok(Ordering::Equal) => return Ok(Spot::At),
            Ok(Ordering::Less) => low = middle + 1,
            Ok(Ordering::Greater) => high = middle,
            Err(why) => return Err(why),
        }
    }
    Ok(Spot::Before(low))
}
