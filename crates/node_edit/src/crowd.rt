// The cells of a page that has no room for them all, and parts of them made into pages.
ghost use Rattle.std.specs.Prelude.{◌≡◌, ◌+◌, ◌*◌, ◌≤◌, ◌++◌, Some, Bool, false, List, length, All};
ghost use Rattle.node_spec.specs.Cells.{NodeCell, IsOneCell};
ghost use Rattle.node_spec.specs.Nodes.{Node, node_of};
ghost use Rattle.page_edit.specs.Forms.{KeepsOutside};
ghost use Rattle.edit_spec.specs.Nodes.{node_taking, cells_with};
ghost use Rattle.node_edit.specs.Runs.{IsRun, part_of, spelled_by};
ghost use Rattle.node_edit.specs.Editing.{inner_node};
ghost use Rattle.node_edit.specs.Dividing.{IsCrowd, PartFits, whole_of};

use crate::head::{head_of, right_of};
use crate::put::put_all;
use crate::run::{Run, joined, taking};
use disk_face::Bytes;
use page_edit::start_page;

/// The cells that a page should have, and what else it shows.
#[derive(Clone, Copy)]
pub(crate) struct Crowd<'a> {
    /// The cells.
    pub run: Run<'a>,
    /// How many there are.
    pub count: usize,
    /// Whether the page is page 1.
    pub first: bool,
    /// Its right child, 0 on a leaf.
    pub right: u32,
}

/// The cells of a page with those of a list before the one at a place.
pub(crate) fn crowd_of<'a>(
    bytes: &'a [u8],
    u: usize,
    first: bool,
    at: usize,
    news: &'a [Bytes],
) -> Crowd<'a>
    requires shown { (node : Node) × (node_of u first bytes.now ≡ Some node) × (at ≤ length node.cells) × All (IsOneCell node.kind u) news.now }
    requires few { length news.now ≤ 65536 }
    ensures usable { result.run.u ≡ u }
    ensures page { result.first ≡ first }
    ensures kind { (node : Node) → node_of u first bytes.now ≡ Some node → result.run.kind ≡ node.kind }
    ensures crowd { (node : Node) → node_of u first bytes.now ≡ Some node → IsCrowd result (cells_with node.cells at (spelled_by node.kind u news.now)) }
    ensures whole { (node : Node) → node_of u first bytes.now ≡ Some node
        → whole_of result (cells_with node.cells at (spelled_by node.kind u news.now)) ≡ node_taking node at (spelled_by node.kind u news.now) }
{
    let head = head_of(bytes, u, first);
    Crowd {
        run: taking(bytes, u, first, at, news),
        count: head.count + news.len(),
        first,
        right: right_of(bytes, first, head.kind),
    }
}

/// The cells of two neighbours of one kind with those between them, for the right one's node.
pub(crate) fn crowd_joined<'a>(
    left: &'a [u8],
    between: &'a [Bytes],
    right: &'a [u8],
    u: usize,
) -> Crowd<'a>
    requires pages { (node : Node) × (node_of u false left.now ≡ Some node) × All (IsOneCell node.kind u) between.now
        × ((other : Node) × (node_of u false right.now ≡ Some other) × (other.kind ≡ node.kind)) }
    requires few { length between.now ≤ 65536 }
    ensures usable { result.run.u ≡ u }
    ensures page { result.first ≡ false }
    ensures kind { (node : Node) → node_of u false left.now ≡ Some node → result.run.kind ≡ node.kind }
    ensures crowd { (node other : Node) → node_of u false left.now ≡ Some node → node_of u false right.now ≡ Some other
        → IsCrowd result (cells_with other.cells 0 (node.cells ++ spelled_by node.kind u between.now)) }
    ensures whole { (node other : Node) → node_of u false left.now ≡ Some node → node_of u false right.now ≡ Some other → other.kind ≡ node.kind
        → whole_of result (cells_with other.cells 0 (node.cells ++ spelled_by node.kind u between.now))
        ≡ node_taking other 0 (node.cells ++ spelled_by node.kind u between.now) }
{
    let other = head_of(right, u, false);
    let count = head_of(left, u, false).count + between.len() + other.count;
    Crowd {
        run: joined(left, between, right, u),
        count,
        first: false,
        right: right_of(right, false, other.kind),
    }
}

/// Makes a page of a part of the cells, whatever stood there. A leaf has no right child.
pub(crate) fn fill(
    crowd: Crowd<'_>,
    from: usize,
    end: usize,
    bytes: &mut [u8],
    first: bool,
    right: u32,
)
    requires part { PartFits crowd from end first }
    requires long { crowd.run.u ≤ length bytes.old }
    ensures shows { (cells : List NodeCell) → IsRun crowd.entry.run cells → end ≤ length cells
        → node_of crowd.entry.run.u first bytes.new ≡ Some (inner_node crowd.entry.run.kind (part_of cells from end) right) }
    ensures rest { KeepsOutside crowd.entry.run.u first bytes.old bytes.new }
{
    start_page(bytes, crowd.run.u, first, crowd.run.kind, right);
    put_all(crowd.run, from, end, bytes, first, 0);
}

/// Copies the usable bytes of a page.
pub(crate) fn copy_usable(from: &[u8], to: &mut [u8], u: usize)
    requires long { (u ≤ length from.now) × (u ≤ length to.old) }
    ensures same { (first : Bool) → node_of u first to.new ≡ node_of u first from.now }
    ensures length { length to.new ≡ length to.old }
{
    to[..u].copy_from_slice(&from[..u]);
}
