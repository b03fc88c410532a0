// Where a rowid stands among the cells of a table's page.
ghost use Rattle.std.specs.Prelude.{◌≡◌, MatchOption};
ghost use Rattle.node_spec.specs.Cells.{NodeCell};
ghost use Rattle.node_spec.specs.Nodes.{Node};
ghost use Rattle.page_form.specs.Reading.{IsReadPage, TellsCell};
ghost use Rattle.tree_read.specs.Ways.{StandsAt, child_at, IsNext, IsAimed, HasRowid, LacksRowid};
ghost use Rattle.tree_read.specs.Looking.{IsLastRowid};

use page_form::{Cell, Page, read_cell};

/// The place of a rowid among the cells of a page, whose rowids rise. Where they don't it is still a place between two that fit.
pub fn place_of(page: &Page, bytes: &[u8], u: usize, rowid: i64) -> usize
    requires { (node : Node) × IsReadPage u bytes.now page.now node }
    ensures { (node : Node) → IsReadPage u bytes.now page.now node → StandsAt node.cells rowid result }
{
    let mut low = 0;
    let mut high = page.cells.len();
    'halves: while low < high {
        let middle = low + (high - low) / 2;
        if read_cell(page, bytes, u, middle).rowid < rowid {
            low = middle + 1;
        } else {
            high = middle;
        }
    }
    low
}

// Where a way down a table's tree goes.
#[derive(Clone, Copy)]
pub(crate) enum Aim {
    // To a rowid.
    Rowid(i64),
    // To the last cell.
    Last,
}

// The child that is next on the way.
pub(crate) fn next_child(page: &Page, bytes: &[u8], u: usize, aim: Aim) -> u32
    requires { (node : Node) × IsReadPage u bytes.now page.now node }
    ensures { (node : Node) → IsReadPage u bytes.now page.now node → IsAimed node aim result }
{
    match aim {
        Aim::Rowid(rowid) => child_of(page, bytes, u, rowid),
        Aim::Last => page.right,
    }
}

// The child at a rowid's place: that of the cell there, past all cells the right one.
fn child_of(page: &Page, bytes: &[u8], u: usize, rowid: i64) -> u32
    requires { (node : Node) × IsReadPage u bytes.now page.now node }
    ensures { (node : Node) → IsReadPage u bytes.now page.now node → IsNext node rowid result }
{
    child_before(page, bytes, u, place_of(page, bytes, u, rowid))
}

/// The child before the cell of a place, past all cells the right one.
pub fn child_before(page: &Page, bytes: &[u8], u: usize, place: usize) -> u32
    requires { (node : Node) × IsReadPage u bytes.now page.now node }
    ensures { (node : Node) → IsReadPage u bytes.now page.now node → result ≡ child_at node.cells node.right place }
{
    if place < page.cells.len() {
        read_cell(page, bytes, u, place).left
    } else {
        page.right
    }
}

// The cell with a rowid.
pub(crate) fn cell_of(page: &Page, bytes: &[u8], u: usize, rowid: i64) -> Option<Cell>
    requires { (node : Node) × IsReadPage u bytes.now page.now node }
    ensures { (node : Node) → IsReadPage u bytes.now page.now node → MatchOption result (LacksRowid node rowid)
        (λ told. (cell : NodeCell) × (TellsCell u node.kind bytes.now told cell × HasRowid node rowid cell)) }
{
    let place = place_of(page, bytes, u, rowid);
    if place >= page.cells.len() {
        return None;
    }
    let cell = read_cell(page, bytes, u, place);
    if rowid < cell.rowid { None } else { Some(cell) }
}

// The rowid of the last cell.
pub(crate) fn last_rowid(page: &Page, bytes: &[u8], u: usize) -> Option<i64>
    requires { (node : Node) × IsReadPage u bytes.now page.now node }
    ensures { (node : Node) → IsReadPage u bytes.now page.now node → IsLastRowid node.cells result }
{
    let count = page.cells.len();
    if count == 0 {
        None
    } else {
        Some(read_cell(page, bytes, u, count - 1).rowid)
    }
}
