// A node copied from page to page.
ghost use Rattle.std.specs.Prelude.{◌≡◌, ◌+◌, ◌<◌, ◌≤◌, Some, true, false, length};
ghost use Rattle.node_spec.specs.Kinds.{pointers_at};
ghost use Rattle.node_spec.specs.Nodes.{Node, node_of};
ghost use Rattle.page_edit.specs.Forms.{KeepsOutside};
ghost use Rattle.node_edit.specs.Runs.{weight_of};

use crate::head::{head_of, right_of};
use crate::put::put_all;
use crate::run::{reach, taking};
use page_edit::start_page;
use page_form::pointers_at;

/// Makes a page show the same node as another, where its cells fit; else it stays as it is, and the answer is false.
///
/// That can only be where the page is page 1, which has 100 bytes less room, and the other isn't.
pub fn copy_node(from: &[u8], from_first: bool, to: &mut [u8], to_first: bool, u: usize) -> bool
    requires shown { (node : Node) × (node_of u from_first from.now ≡ Some node) }
    requires room { u ≤ length to.old }
    ensures copied { result ≡ true → (node : Node) → node_of u from_first from.now ≡ Some node → node_of u to_first to.new ≡ Some node }
    ensures lacks { result ≡ false → (node : Node) → node_of u from_first from.now ≡ Some node → u < pointers_at to_first node.kind + weight_of node.cells }
    ensures only { result ≡ false → (to_first ≡ true) × (from_first ≡ false) }
    ensures same { result ≡ false → to.new ≡ to.old }
    ensures rest { KeepsOutside u to_first to.old to.new }
{
    let head = head_of(from, u, from_first);
    let run = taking(from, u, from_first, 0, &[]);
    if reach(run, 0, head.count, u - pointers_at(to_first, head.kind)) < head.count {
        return false;
    }
    start_page(
        to,
        u,
        to_first,
        head.kind,
        right_of(from, from_first, head.kind),
    );
    put_all(run, 0, head.count, to, to_first, 0);
    true
}
