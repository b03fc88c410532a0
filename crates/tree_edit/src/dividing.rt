// Neighbours divided anew between their pages.
ghost use Rattle.std.specs.Prelude.{◌≡◌, ◌≢◌, ◌⊎◌, ℕ, ◌≤◌, ◌++◌, true, false, List, length, IfOk, IfErr, OnOk, Some, None};
ghost use Rattle.page_spec.specs.View.{View};
ghost use Rattle.page_face.specs.Pages.{Editing, IsFromOutside};
ghost use Rattle.node_spec.specs.Cells.{IsOneCell, cell_in};
ghost use Rattle.node_spec.specs.Nodes.{Node, node_of};
ghost use Rattle.engine_spec.specs.declared.commits.FetchFault.TheVariants as fault;
ghost use Rattle.edit_spec.specs.Nodes.{node_taking};
ghost use Rattle.node_edit.specs.Keys.{kind_above, IsCellAbove};
ghost use Rattle.node_edit.specs.Runs.{spelled_by};
ghost use Rattle.node_edit.specs.Dividing.{LackRoom, ShowTwo};
ghost use Rattle.tree_edit.specs.Roots.{inner_kind};
ghost use Rattle.tree_edit.specs.Dividing.{BarsDividing, DividesPages, HaveToDivide, ShowAnew, ShowUnder, StoresBoth};

use crate::joining::{Left, cells_between, fetch_beside};
use crate::lay::store;
use disk_face::Bytes;
use node_edit::{cell_above, count_of, divide_joined, take_over};
use page_face::{EditPages, FetchFault};
use std::alloc::Global;
use tree_read::{page_buffer, usable_of};

/// Divides anew two neighbours that should be joined, since one of them has no cell, but have no room in one page.
///
/// The cell is the one above that leads to the left page, and the answer is the text of the one that leads there then. Both pages keep their numbers: none
/// is made or given up. `Corrupt` names a page that shows no node of such a tree, or the right one where the two needn't be divided: they aren't of one
/// kind, or both have a cell, or one page has room for both. Four buffers of a page are taken.
pub fn divide_pages<P: EditPages>(
    alloc: Global,
    pages: &mut P,
    table: bool,
    left: u32,
    right: u32,
    cell: &Bytes,
) -> Result<Bytes, FetchFault>
    requires ready { P.ready pages.old }
    requires left { (2 ≤ left) × (left ≤ P.last_page pages.old) }
    requires right { (2 ≤ right) × (right ≤ P.last_page pages.old) }
    requires apart { left ≢ right }
    requires cell { IsOneCell (inner_kind table) (P.usable pages.old) cell.now }
    ensures divided { IfOk result (λ text. (world : View) → P.tells pages.new world → P.neat pages.old world → (P.free pages.old world left → ⊥) → (P.free pages.old world right → ⊥)
        → DividesPages P.PagesTells pages.old table left right (cell_in (inner_kind table) (P.usable pages.old) cell.now) text pages.new world) }
    ensures above { IfOk result (IsCellAbove (inner_kind table) (P.usable pages.old) left) }
    ensures cause { IfErr result (BarsDividing P.PagesTells pages.old table left right (cell_in (inner_kind table) (P.usable pages.old) cell.now) pages.new) }
    ensures last { P.last_page pages.new ≡ P.last_page pages.old }
    ensures edits { Editing P.PagesTells pages.old pages.new }
{
    let mut one = match page_buffer(alloc, pages.page_size()) {
        Ok(one) => one,
        Err(why) => return Err(why),
    };
    let mut two = match page_buffer(alloc, pages.page_size()) {
        Ok(two) => two,
        Err(why) => return Err(why),
    };
    divide_in(
        alloc,
        pages,
        table,
        left,
        right,
        cell,
        one.as_mut_slice(),
        two.as_mut_slice(),
    )
}

// The same, with buffers.
fn divide_in<P: EditPages>(
    alloc: Global,
    pages: &mut P,
    table: bool,
    left: u32,
    right: u32,
    cell: &Bytes,
    one: &mut [u8],
    two: &mut [u8],
) -> Result<Bytes, FetchFault>
    requires ready { P.ready pages.old }
    requires left { (2 ≤ left) × (left ≤ P.last_page pages.old) }
    requires right { (2 ≤ right) × (right ≤ P.last_page pages.old) }
    requires apart { left ≢ right }
    requires cell { IsOneCell (inner_kind table) (P.usable pages.old) cell.now }
    requires room { (length one.old ≡ P.page_size pages.old) × (length two.old ≡ P.page_size pages.old) }
    ensures divided { IfOk result (λ text. (world : View) → P.tells pages.new world → P.neat pages.old world → (P.free pages.old world left → ⊥) → (P.free pages.old world right → ⊥)
        → DividesPages P.PagesTells pages.old table left right (cell_in (inner_kind table) (P.usable pages.old) cell.now) text pages.new world) }
    ensures above { IfOk result (IsCellAbove (inner_kind table) (P.usable pages.old) left) }
    ensures cause { IfErr result (BarsDividing P.PagesTells pages.old table left right (cell_in (inner_kind table) (P.usable pages.old) cell.now) pages.new) }
    ensures last { P.last_page pages.new ≡ P.last_page pages.old }
    ensures edits { Editing P.PagesTells pages.old pages.new }
{
    let told = match fetch_beside(alloc, pages, table, left, right, one, two) {
        Ok(told) => told,
        Err(why) => return Err(why),
    };
    let text = match divide_under(alloc, usable_of(pages), told, left, cell, one, two) {
        Ok(Some(text)) => text,
        Ok(None) => return Err(FetchFault::Corrupt { page: right }),
        Err(why) => return Err(why),
    };
    match store_both(alloc, pages, left, right, one, two) {
        Ok(()) => Ok(text),
        Err(why) => Err(why),
    }
}

// Stores two pages, neither of which is page 1.
fn store_both<P: EditPages>(
    alloc: Global,
    pages: &mut P,
    left: u32,
    right: u32,
    one: &mut [u8],
    two: &mut [u8],
) -> Result<(), FetchFault>
    requires ready { P.ready pages.old }
    requires left { (2 ≤ left) × (left ≤ P.last_page pages.old) }
    requires right { (2 ≤ right) × (right ≤ P.last_page pages.old) }
    requires apart { left ≢ right }
    requires room { (length one.old ≡ P.page_size pages.old) × (length two.old ≡ P.page_size pages.old) }
    ensures stored { OnOk result ((world : View) → P.tells pages.new world → P.neat pages.old world → (P.free pages.old world left → ⊥) → (P.free pages.old world right → ⊥)
        → StoresBoth P.PagesTells pages.old left right one.old two.old pages.new world) }
    ensures cause { IfErr result (λ why. IsFromOutside (P.faults pages.old) (P.faults pages.new) why) }
    ensures last { P.last_page pages.new ≡ P.last_page pages.old }
    ensures edits { Editing P.PagesTells pages.old pages.new }
{
    match store(alloc, pages, left, one) {
        Ok(()) => (),
        Err(why) => return Err(why),
    }
    match store(alloc, pages, right, two) {
        Ok(()) => Ok(()),
        Err(why) => Err(why),
    }
}

// The bytes of two neighbours are divided anew between them, if they have to be. The answer is the text of the cell above that leads to the left page.
fn divide_under(
    alloc: Global,
    u: usize,
    told: Left,
    page: u32,
    cell: &Bytes,
    left: &mut [u8],
    right: &mut [u8],
) -> Result<Option<Bytes>, FetchFault>
    requires nodes { (one two : Node) × (node_of u false left.old ≡ Some one) × (node_of u false right.old ≡ Some two) × (two.kind ≡ one.kind)
        × (told.kind ≡ one.kind) × (told.right ≡ one.right) }
    requires cell { IsOneCell (kind_above told.kind) u cell.now }
    requires long { (u ≤ length left.old) × (u ≤ length right.old) }
    ensures divided { IfOk result (λ found. (text : List ℕ) → found ≡ Some text → (one two : Node) → node_of u false left.old ≡ Some one → node_of u false right.old ≡ Some two
        → ShowUnder u (kind_above told.kind) one (cell_in (kind_above told.kind) u cell.now) two page text left.new right.new) }
    ensures none { IfOk result (λ found. found ≡ None → (one two : Node) → node_of u false left.old ≡ Some one → node_of u false right.old ≡ Some two
        → HaveToDivide u one two (cell_in (kind_above told.kind) u cell.now) → ⊥) }
    ensures cause { IfErr result (λ why. why ≡ fault.Memory) }
    ensures lengths { (length left.new ≡ length left.old) × (length right.new ≡ length right.old) }
{
    let key = match divide_bytes(alloc, u, told, cell, left, right) {
        Ok(Some(key)) => key,
        Ok(None) => return Ok(None),
        Err(why) => return Err(why),
    };
    match cell_above(alloc, page, &key) {
        Ok(text) => Ok(Some(text)),
        Err(_) => Err(FetchFault::Memory),
    }
}

// The same, and the answer is the key between the parts.
fn divide_bytes(
    alloc: Global,
    u: usize,
    told: Left,
    cell: &Bytes,
    left: &mut [u8],
    right: &mut [u8],
) -> Result<Option<Bytes>, FetchFault>
    requires nodes { (one two : Node) × (node_of u false left.old ≡ Some one) × (node_of u false right.old ≡ Some two) × (two.kind ≡ one.kind)
        × (told.kind ≡ one.kind) × (told.right ≡ one.right) }
    requires cell { IsOneCell (kind_above told.kind) u cell.now }
    requires long { (u ≤ length left.old) × (u ≤ length right.old) }
    ensures divided { IfOk result (λ found. (key : List ℕ) → found ≡ Some key → (one two : Node) → node_of u false left.old ≡ Some one → node_of u false right.old ≡ Some two
        → ShowAnew u one (cell_in (kind_above told.kind) u cell.now) two key left.new right.new) }
    ensures none { IfOk result (λ found. found ≡ None → (one two : Node) → node_of u false left.old ≡ Some one → node_of u false right.old ≡ Some two
        → HaveToDivide u one two (cell_in (kind_above told.kind) u cell.now) → ⊥) }
    ensures cause { IfErr result (λ why. why ≡ fault.Memory) }
    ensures lengths { (length left.new ≡ length left.old) × (length right.new ≡ length right.old) }
{
    let between = match cells_between(alloc, told, cell) {
        Ok(between) => between,
        Err(why) => return Err(why),
    };
    if !is_thin(left, right, u) {
        return Ok(None);
    }
    // Where they fit, the right one's bytes hold both then, and nobody reads them.
    if take_over(left, between.as_slice(), right, u) {
        return Ok(None);
    }
    match divide_apart(alloc, left, between.as_slice(), right, u) {
        Ok(key) => Ok(Some(key)),
        Err(why) => Err(why),
    }
}

// Whether one of two pages has no cell.
fn is_thin(left: &[u8], right: &[u8], u: usize) -> bool
    requires nodes { (one two : Node) × (node_of u false left.now ≡ Some one) × (node_of u false right.now ≡ Some two) }
    ensures thin { result ≡ true → (one two : Node) → node_of u false left.now ≡ Some one → node_of u false right.now ≡ Some two
        → (length one.cells ≡ 0) ⊎ (length two.cells ≡ 0) }
    ensures full { result ≡ false → (one two : Node) → node_of u false left.now ≡ Some one → node_of u false right.now ≡ Some two
        → (length one.cells ≡ 0) ⊎ (length two.cells ≡ 0) → ⊥ }
{
    if count_of(left, u, false) == 0 {
        return true;
    }
    count_of(right, u, false) == 0
}

// Divides neighbours that have no room in one page, over copies of their bytes.
fn divide_apart(
    alloc: Global,
    left: &mut [u8],
    between: &[Bytes],
    right: &mut [u8],
    u: usize,
) -> Result<Bytes, FetchFault>
    requires pages { (one two : Node) × (node_of u false left.old ≡ Some one) × (node_of u false right.old ≡ Some two) × LackRoom u one two between.now }
    requires long { (u ≤ length left.old) × (u ≤ length right.old) }
    ensures parts { IfOk result (λ key. (one two : Node) → node_of u false left.old ≡ Some one → node_of u false right.old ≡ Some two
        → ShowTwo u false (node_taking two 0 (one.cells ++ spelled_by one.kind u between.now)) key left.new right.new) }
    ensures cause { IfErr result (λ why. why ≡ fault.Memory) }
    ensures lengths { (length left.new ≡ length left.old) × (length right.new ≡ length right.old) }
{
    let mut low = match page_buffer(alloc, left.len()) {
        Ok(low) => low,
        Err(why) => return Err(why),
    };
    let mut high = match page_buffer(alloc, right.len()) {
        Ok(high) => high,
        Err(why) => return Err(why),
    };
    match divide_joined(
        alloc,
        left,
        between,
        right,
        low.as_mut_slice(),
        high.as_mut_slice(),
        u,
    ) {
        Ok(key) => Ok(key),
        Err(_) => Err(FetchFault::Memory),
    }
}
