// Cells put into pages.
ghost use Rattle.std.specs.Prelude.{◌≡◌, ℕ, ◌+◌, ◌*◌, ◌-◌, ◌<◌, ◌≤◌, Some, true, false, List, length, All};
ghost use Rattle.node_spec.specs.Kinds.{pointers_at};
ghost use Rattle.node_spec.specs.Cells.{NodeCell, IsOneCell};
ghost use Rattle.node_spec.specs.Nodes.{Node, node_of, free_of};
ghost use Rattle.page_edit.specs.Forms.{KeepsOutside};
ghost use Rattle.edit_spec.specs.Nodes.{node_taking};
ghost use Rattle.node_edit.specs.Runs.{IsRun, HasRoom, part_of, weight_of, spelled_by};
ghost use Rattle.node_edit.specs.Editing.{inner_node};

use crate::head::head_of;
use crate::run::{Run, listed, reach, taking, text_in, text_of};
use disk_face::Bytes;
use page_edit::{put_cell, start_page};
use page_form::Kind;

/// Puts cells of a row in before the cell at a place of a page that has room for them.
pub(crate) fn put_all(
    run: Run<'_>,
    from: usize,
    end: usize,
    bytes: &mut [u8],
    first: bool,
    at: usize,
)
    requires room { HasRoom run from end first bytes.old at }
    ensures put { (cells : List NodeCell) (node : Node) → IsRun run.entry cells → end ≤ length cells → node_of run.entry.u first bytes.old ≡ Some node
        → node_of run.entry.u first bytes.new ≡ Some (node_taking node at (part_of cells from end)) }
    ensures rest { KeepsOutside run.entry.u first bytes.old bytes.new }
{
    for i in from..end {
        let Ok(()) = put_cell(bytes, run.u, first, at + (i - from), text_of(run, i)) else {
            unreachable!()
        };
    }
}

// Whether a page has room for more cells.
fn has_room<'a>(bytes: &'a [u8], u: usize, first: bool, at: usize, news: &'a [Bytes]) -> bool
    requires shown { (node : Node) × (node_of u first bytes.now ≡ Some node) × (at ≤ length node.cells) × All (IsOneCell node.kind u) news.now }
    requires few { length news.now ≤ 65536 }
    ensures fits { result ≡ true → (node : Node) → node_of u first bytes.now ≡ Some node → weight_of (spelled_by node.kind u news.now) ≤ free_of u first node }
    ensures lacks { result ≡ false → (node : Node) → node_of u first bytes.now ≡ Some node → free_of u first node < weight_of (spelled_by node.kind u news.now) }
{
    let head = head_of(bytes, u, first);
    let run = taking(bytes, u, first, at, news);
    let all = head.count + news.len();
    reach(run, 0, all, u - head.pointers) == all
}

// Puts one cell in, or leaves the page as it is: its text is read once.
fn put_one(bytes: &mut [u8], u: usize, first: bool, at: usize, news: &[Bytes]) -> bool
    requires shown { (node : Node) × (node_of u first bytes.old ≡ Some node) × (at ≤ length node.cells) × All (IsOneCell node.kind u) news.now }
    requires one { length news.now ≡ 1 }
    ensures put { result ≡ true → (node : Node) → node_of u first bytes.old ≡ Some node
        → node_of u first bytes.new ≡ Some (node_taking node at (spelled_by node.kind u news.now)) }
    ensures room { result ≡ true → (node : Node) → node_of u first bytes.old ≡ Some node → weight_of (spelled_by node.kind u news.now) ≤ free_of u first node }
    ensures lacks { result ≡ false → (node : Node) → node_of u first bytes.old ≡ Some node → free_of u first node < weight_of (spelled_by node.kind u news.now) }
    ensures same { result ≡ false → bytes.new ≡ bytes.old }
    ensures rest { KeepsOutside u first bytes.old bytes.new }
{
    let text = text_in(news, 0);
    match put_cell(bytes, u, first, at, text) {
        Ok(()) => true,
        Err(_) => false,
    }
}

/// Puts cells in before the cell at a place, where they fit with their pointers; else the page stays as it is, and the answer is false.
///
/// Each text is just one cell of the page's kind; what a short one lacks to 4 bytes is filled up.
pub fn put_cells(bytes: &mut [u8], u: usize, first: bool, at: usize, news: &[Bytes]) -> bool
    requires shown { (node : Node) × (node_of u first bytes.old ≡ Some node) × (at ≤ length node.cells) × All (IsOneCell node.kind u) news.now }
    requires few { length news.now ≤ 65536 }
    ensures put { result ≡ true → (node : Node) → node_of u first bytes.old ≡ Some node
        → node_of u first bytes.new ≡ Some (node_taking node at (spelled_by node.kind u news.now)) }
    ensures room { result ≡ true → (node : Node) → node_of u first bytes.old ≡ Some node → weight_of (spelled_by node.kind u news.now) ≤ free_of u first node }
    ensures lacks { result ≡ false → (node : Node) → node_of u first bytes.old ≡ Some node → free_of u first node < weight_of (spelled_by node.kind u news.now) }
    ensures same { result ≡ false → bytes.new ≡ bytes.old }
    ensures rest { KeepsOutside u first bytes.old bytes.new }
{
    if news.len() == 1 {
        return put_one(bytes, u, first, at, news);
    }
    if !has_room(bytes, u, first, at, news) {
        return false;
    }
    let run = listed(u, head_of(bytes, u, first).kind, news);
    put_all(run, 0, news.len(), bytes, first, at);
    true
}

/// Makes an interior page of these cells, at most three, whatever stood there: a root that grows.
pub fn start_inner(bytes: &mut [u8], u: usize, first: bool, kind: Kind, cells: &[Bytes], right: u32)
    requires usable { (480 ≤ u) × (u ≤ 65536) × (u ≤ length bytes.old) }
    requires cells { All (IsOneCell kind u) cells.now }
    requires room { pointers_at first kind + weight_of (spelled_by kind u cells.now) ≤ u }
    ensures shows { node_of u first bytes.new ≡ Some (inner_node kind (spelled_by kind u cells.now) right) }
    ensures rest { KeepsOutside u first bytes.old bytes.new }
{
    start_page(bytes, u, first, kind, right);
    let run = listed(u, kind, cells);
    put_all(run, 0, cells.len(), bytes, first, 0);
}
