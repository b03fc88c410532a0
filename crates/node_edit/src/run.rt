// Cells in a row that stand in two pages and in a list between them: what a page would have if it took them all.
//
// Edits of this crate are copies of parts of such a row from page to page. The first cells are those of one page from one place up to another, then come
// cells of a list, and then cells of another page, or of the same one. The pages are only read.
ghost use Rattle.std.specs.Prelude.{◌≡◌, false, ◌++◌, ℕ, ◌+◌, ◌*◌, ◌<◌, ◌≤◌, List, [], length, slice_index_or, All, Some};
ghost use Rattle.page_spec.specs.Bytes.{u16_at};
ghost use Rattle.node_spec.specs.Cells.{NodeCell, IsOneCell};
ghost use Rattle.node_spec.specs.Nodes.{Node, node_of};
ghost use Rattle.edit_spec.specs.Nodes.{cells_with};
ghost use Rattle.node_edit.specs.Runs.{Spells, Lies, IsRun, cell_of, part_of, weight_of, spelled_by};

use crate::head::head_of;
use be_fields::get_u16;
use disk_face::Bytes;
use page_form::{Kind, cell_len};

/// A cell takes at least so many bytes.
const LEAST_CELL: usize = 4;

/// Cells of a page, from one place up to another.
#[derive(Clone, Copy)]
pub(crate) struct Lent<'a> {
    /// The page's bytes.
    pub bytes: &'a [u8],
    /// The offset in bytes of its first cell pointer.
    pub pointers: usize,
    /// The place of the first of these cells.
    pub from: usize,
    /// The place behind the last of them.
    pub to: usize,
}

/// Cells in a row, all of one kind and of pages with so many usable bytes.
#[derive(Clone, Copy)]
pub(crate) struct Run<'a> {
    /// How many bytes of a page are usable.
    pub u: usize,
    /// The kind of the cells.
    pub kind: Kind,
    /// The first cells.
    pub front: Lent<'a>,
    /// Those behind them, each as its bytes.
    pub news: &'a [Bytes],
    /// The last ones.
    pub back: Lent<'a>,
}

// The text of the cell to which a pointer of a page leads.
fn text_at<'a>(bytes: &'a [u8], u: usize, kind: Kind, slot: usize) -> &'a [u8]
    requires lies { (cell : NodeCell) × Lies kind u bytes.now (u16_at bytes.now slot) cell }
    requires slot { slot + 2 ≤ length bytes.now }
    ensures { (cell : NodeCell) → Lies kind u bytes.now (u16_at bytes.now slot) cell → Spells kind u result.now cell }
{
    let start = get_u16(bytes, slot);
    let Some(len) = cell_len(bytes, u, kind, start) else {
        unreachable!()
    };
    let start = usize::from(start);
    &bytes[start..start + len]
}

/// The text at a place of a list.
pub(crate) fn text_in<'a>(texts: &'a [Bytes], k: usize) -> &'a [u8]
    requires { k < length texts.now }
    ensures { result.now ≡ slice_index_or texts.now k [] }
{
    texts[k].bytes()
}

/// The text of a cell of the row.
pub(crate) fn text_of<'a>(run: Run<'a>, k: usize) -> &'a [u8]
    requires run { (cells : List NodeCell) × IsRun run cells × (k < length cells) }
    ensures { (cells : List NodeCell) → IsRun run.entry cells → Spells run.entry.kind run.entry.u result.now (cell_of cells k) }
{
    let front = run.front.to - run.front.from;
    if k < front {
        let slot = run.front.pointers + 2 * (run.front.from + k);
        return text_at(run.front.bytes, run.u, run.kind, slot);
    }
    let behind = k - front;
    if behind < run.news.len() {
        return text_in(run.news, behind);
    }
    let slot = run.back.pointers + 2 * (run.back.from + (behind - run.news.len()));
    text_at(run.back.bytes, run.u, run.kind, slot)
}

// How many bytes of a page a cell of the row takes, with its pointer.
fn weight(run: Run<'_>, k: usize) -> usize
    requires run { (cells : List NodeCell) × IsRun run cells × (k < length cells) }
    ensures { (cells : List NodeCell) → IsRun run.entry cells → result ≡ (cell_of cells k).size + 2 }
{
    text_of(run, k).len().max(LEAST_CELL) + 2
}

/// How far cells of the row from one place on take at most so many bytes: the place behind the last of them, at most `end`.
pub(crate) fn reach(run: Run<'_>, from: usize, end: usize, limit: usize) -> usize
    requires run { (cells : List NodeCell) × IsRun run cells × (from ≤ end) × (end ≤ length cells) }
    ensures range { (from ≤ result) × (result ≤ end) }
    ensures fit { (cells : List NodeCell) → IsRun run.entry cells → end ≤ length cells → weight_of (part_of cells from result) ≤ limit }
    ensures next { (cells : List NodeCell) → IsRun run.entry cells → end ≤ length cells → result < end → limit < weight_of (part_of cells from (result + 1)) }
{
    let mut left = limit;
    for i in from..end {
        let weight = weight(run, i);
        if left < weight {
            return i;
        }
        left -= weight;
    }
    end
}

/// How many bytes of a page the first so many cells take, with their pointers.
pub(crate) fn weigh(run: Run<'_>, end: usize) -> usize
    requires run { (cells : List NodeCell) × IsRun run cells × (end ≤ length cells) × (weight_of cells ≤ 262144) }
    ensures { (cells : List NodeCell) → IsRun run.entry cells → end ≤ length cells → result ≡ weight_of (part_of cells 0 end) }
{
    let mut all = 0;
    for i in 0..end {
        all += weight(run, i);
    }
    all
}

/// No cells of a page.
const NO_CELLS: Lent<'static> = Lent {
    bytes: &[],
    pointers: 0,
    from: 0,
    to: 0,
};

/// The cells of a list.
pub(crate) fn listed<'a>(u: usize, kind: Kind, news: &'a [Bytes]) -> Run<'a>
    requires usable { (480 ≤ u) × (u ≤ 65536) }
    requires news { All (IsOneCell kind u) news.now }
    ensures usable { result.u ≡ u }
    ensures kind { result.kind ≡ kind }
    ensures run { IsRun result (spelled_by kind u news.now) }
{
    Run {
        u,
        kind,
        front: NO_CELLS,
        news,
        back: NO_CELLS,
    }
}

/// The cells of a page that shows a node, with those of a list before the one at a place.
pub(crate) fn taking<'a>(
    bytes: &'a [u8],
    u: usize,
    first: bool,
    at: usize,
    news: &'a [Bytes],
) -> Run<'a>
    requires shown { (node : Node) × (node_of u first bytes.now ≡ Some node) × (at ≤ length node.cells) × All (IsOneCell node.kind u) news.now }
    ensures usable { result.u ≡ u }
    ensures kind { (node : Node) → node_of u first bytes.now ≡ Some node → result.kind ≡ node.kind }
    ensures run { (node : Node) → node_of u first bytes.now ≡ Some node → IsRun result (cells_with node.cells at (spelled_by node.kind u news.now)) }
{
    let head = head_of(bytes, u, first);
    let pointers = head.pointers;
    Run {
        u,
        kind: head.kind,
        front: Lent {
            bytes,
            pointers,
            from: 0,
            to: at,
        },
        news,
        back: Lent {
            bytes,
            pointers,
            from: at,
            to: head.count,
        },
    }
}

/// The cells of a page, those of a list, and those of another page of the same kind.
pub(crate) fn joined<'a>(left: &'a [u8], news: &'a [Bytes], right: &'a [u8], u: usize) -> Run<'a>
    requires left { (node : Node) × (node_of u false left.now ≡ Some node) × All (IsOneCell node.kind u) news.now
        × ((other : Node) × (node_of u false right.now ≡ Some other) × (other.kind ≡ node.kind)) }
    ensures usable { result.u ≡ u }
    ensures kind { (node : Node) → node_of u false left.now ≡ Some node → result.kind ≡ node.kind }
    ensures run { (node other : Node) → node_of u false left.now ≡ Some node → node_of u false right.now ≡ Some other
        → IsRun result (cells_with other.cells 0 (node.cells ++ spelled_by node.kind u news.now)) }
{
    let head = head_of(left, u, false);
    let other = head_of(right, u, false);
    Run {
        u,
        kind: head.kind,
        front: Lent {
            bytes: left,
            pointers: head.pointers,
            from: 0,
            to: head.count,
        },
        news,
        back: Lent {
            bytes: right,
            pointers: other.pointers,
            from: 0,
            to: other.count,
        },
    }
}
