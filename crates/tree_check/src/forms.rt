// The first field of a page that breaks what is asked of it where it stands, by its offset.
ghost use Rattle.std.specs.Prelude.{◌≡◌, ℕ, List, ◌==◌, nat_lt, vec_len, Some, ◌+◌, ◌*◌, ◌<◌, ◌≤◌, length, true, false};
ghost use Rattle.page_spec.specs.Bytes.{u32_at};
ghost use Rattle.node_spec.specs.Faults.{unless, first_fault};
ghost use Rattle.node_spec.specs.Nodes.{Node};
ghost use Rattle.node_spec.specs.Cells.{NodeCell};
ghost use Rattle.page_form.specs.Reading.{Tells, TellsCell};
ghost use Rattle.check_spec.specs.Forms.{is_inside, is_inside_or_none, trunk_fault, link_fault, cell_numbers_fault, numbers_fault, is_asked, fits_leaves, may_stand, fault_in_node};
ghost use Rattle.tree_check.specs.Cellwise.{fault_of_cell};

use be_fields::get_u32;
use check_spec::Spot;
use page_form::{Cell, Kind, Page, header_at, is_leaf, is_table, read_cell};

/// A tree has at most so many levels below its root.
const MOST_LEVELS: u32 = 40;

/// Where the numbers of a trunk's leaves begin.
pub(crate) const LEAVES: usize = 8;

// Whether a number is that of a page from 2 to the last one.
#[tactic(auto, unfolding(check_spec::specs::Forms::is_inside))]
pub(crate) fn is_inside(last: u32, number: u32) -> bool
    ensures { result ≡ is_inside last number }
{
    2 <= number && number <= last
}

// Whether it is, or is 0 for none.
#[tactic(auto, unfolding(check_spec::specs::Forms::is_inside_or_none))]
pub(crate) fn is_inside_or_none(last: u32, number: u32) -> bool
    ensures { result ≡ is_inside_or_none last number }
{
    number == 0 || is_inside(last, number)
}

// A trunk: the next trunk's number, the count of leaves, and each leaf's number.
#[tactic(auto, unfolding(check_spec::specs::Forms::trunk_fault))]
pub(crate) fn trunk_fault(usable: usize, last: u32, page: &[u8]) -> Option<usize>
    requires usable { (480 ≤ usable) × (usable ≤ 65536) × (usable ≤ length page.now) }
    ensures { result ≡ trunk_fault usable last page.now }
{
    if !is_inside_or_none(last, get_u32(page, 0)) {
        return Some(0);
    }
    let count = get_u32(page, 4) as usize;
    if count > usable / 4 - 2 {
        return Some(4);
    }
    leaves_fault(last, page, count)
}

// The first number out of range among those of so many leaves.
fn leaves_fault(last: u32, page: &[u8], count: usize) -> Option<usize>
    requires { 8 + 4 * count ≤ length page.now }
    ensures { result ≡ first_fault count (λ i. unless (is_inside last (u32_at page.now (8 + 4 * i))) (8 + 4 * i)) }
{
    for i in 0..count {
        if !is_inside(last, get_u32(page, LEAVES + 4 * i)) {
            return Some(LEAVES + 4 * i);
        }
    }
    None
}

// A page of a chain of which so many bytes are to come: the next page's number.
#[tactic(auto, unfolding(check_spec::specs::Forms::link_fault))]
pub(crate) fn link_fault(usable: usize, last: u32, left: u64, page: &[u8]) -> Option<usize>
    requires usable { (480 ≤ usable) × (usable ≤ 65536) × (usable ≤ length page.now) }
    ensures { result ≡ link_fault usable last left page.now }
{
    let next = get_u32(page, 0);
    let goes_on = left > (usable - 4) as u64;
    let fits = if goes_on {
        is_inside(last, next)
    } else {
        next == 0
    };
    if fits { None } else { Some(0) }
}

// Whether a cell's payload goes on in a chain.
pub(crate) fn has_chain(cell: &Cell) -> bool
    ensures { result ≡ nat_lt cell.now.local cell.now.payload }
{
    (cell.local as u64) < cell.payload
}

// A cell that starts at an offset: its child's number, and that of its chain's first page, which stands at its end.
#[tactic(auto, unfolding(check_spec::specs::Forms::cell_numbers_fault, check_spec::specs::Forms::has_chain))]
fn cell_numbers_fault(last: u32, kind: Kind, start: usize, cell: &Cell) -> Option<usize>
    requires small { (start ≤ 65536) × (cell.now.len ≤ 65536) }
    ensures { (usable : ℕ) (bytes : List ℕ) (told : NodeCell) → TellsCell usable kind bytes cell.now told → result ≡ cell_numbers_fault last kind start told }
{
    if !is_leaf(kind) && !is_inside(last, cell.left) {
        return Some(start);
    }
    if has_chain(cell) && !is_inside(last, cell.overflow) {
        return Some((start + cell.len).saturating_sub(4));
    }
    None
}

// The numbers that a page of a tree names: the right child, and then those of each cell.
#[tactic(auto, unfolding(check_spec::specs::Forms::numbers_fault))]
fn numbers_fault(usable: usize, last: u32, first: bool, bytes: &[u8], node: &Page) -> Option<usize>
    requires usable { usable ≤ 65536 }
    requires read { (told : Node) × Tells usable first bytes.now node.now told }
    ensures { (told : Node) → Tells usable first bytes.now node.now told → result ≡ numbers_fault last first bytes.now told }
{
    if !is_leaf(node.kind) && !is_inside(last, node.right) {
        return Some(header_at(first) + 8);
    }
    cells_fault(usable, last, first, bytes, node)
}

// The first number out of range among those of the cells.
fn cells_fault(usable: usize, last: u32, first: bool, bytes: &[u8], node: &Page) -> Option<usize>
    requires usable { usable ≤ 65536 }
    requires read { (told : Node) × Tells usable first bytes.now node.now told }
    ensures { (told : Node) → Tells usable first bytes.now node.now told → result ≡ first_fault (length told.cells) (fault_of_cell last first bytes.now told) }
{
    for k in 0..node.cells.len() {
        let cell = read_cell(node, bytes, usable, k);
        let start = usize::from(node.cells[k]);
        if let Some(at) = cell_numbers_fault(last, node.kind, start, &cell) {
            return Some(at);
        }
    }
    None
}

// Whether a kind is the one that is asked for, if one is.
fn is_asked(table: Option<bool>, kind: Kind) -> bool
    ensures { result ≡ is_asked table kind }
{
    match table {
        Some(table) => is_table(kind) == table,
        None => true,
    }
}

// Whether a page fits the first leaf of its tree, if one was met: a leaf as deep, or an interior page that isn't so deep.
fn fits_leaves(leaves: Option<u32>, level: u32, leaf: bool) -> bool
    ensures { result ≡ fits_leaves leaves level leaf }
{
    match leaves {
        None => true,
        Some(depth) => { if leaf { level == depth } else { level < depth } }
    }
}

// Whether a page may stand where it does: of the tree's kind, not too deep, as deep as the leaves allow, and with a cell, but for page 1 and a root
// that is a leaf.
#[tactic(auto, unfolding(check_spec::specs::Forms::may_stand))]
fn may_stand(spot: &Spot, leaves: Option<u32>, page: u32, node: &Page) -> bool
    ensures { (told : Node) → node.now.kind ≡ told.kind → vec_len node.now.cells ≡ length told.cells
        → result ≡ may_stand spot.now.table leaves spot.now.level page told }
{
    if !is_asked(spot.table, node.kind) || spot.level > MOST_LEVELS {
        return false;
    }
    if !fits_leaves(leaves, spot.level, is_leaf(node.kind)) {
        return false;
    }
    page == 1 || spot.level == 0 && is_leaf(node.kind) || node.cells.len() > 0
}

// What breaks a page of a tree whose text was read: a number that it names, or, told at its header, that it may not stand there.
pub(crate) fn node_fault(
    usable: usize,
    last: u32,
    spot: &Spot,
    leaves: Option<u32>,
    page: u32,
    bytes: &[u8],
    node: &Page,
) -> Option<usize>
    requires usable { usable ≤ 65536 }
    requires read { (told : Node) × Tells usable (page == 1) bytes.now node.now told }
    ensures { (told : Node) → Tells usable (page == 1) bytes.now node.now told
        → result ≡ fault_in_node last spot.now.table leaves spot.now.level page bytes.now (Some told) }
{
    let first = page == 1;
    if let Some(at) = numbers_fault(usable, last, first, bytes, node) {
        return Some(at);
    }
    if may_stand(spot, leaves, page, node) {
        None
    } else {
        Some(header_at(first))
    }
}
