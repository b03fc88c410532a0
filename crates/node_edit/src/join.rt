// A page that takes over the cells of its left neighbour.
ghost use Rattle.std.specs.Prelude.{◌≡◌, ◌+◌, ◌<◌, ◌≤◌, ◌++◌, Some, true, false, length, All};
ghost use Rattle.node_spec.specs.Cells.{IsOneCell};
ghost use Rattle.node_spec.specs.Nodes.{Node, node_of, free_of};
ghost use Rattle.page_edit.specs.Forms.{KeepsOutside};
ghost use Rattle.edit_spec.specs.Nodes.{node_taking};
ghost use Rattle.node_edit.specs.Runs.{spelled_by, weight_of};

use crate::head::head_of;
use crate::put::put_all;
use crate::run::{joined, reach, taking};
use disk_face::Bytes;

// Whether a page has room for the cells of its left neighbour and those between.
fn has_room_for<'a>(left: &'a [u8], between: &'a [Bytes], bytes: &'a [u8], u: usize) -> bool
    requires left { (node : Node) × (node_of u false left.now ≡ Some node) × All (IsOneCell node.kind u) between.now
        × ((other : Node) × (node_of u false bytes.now ≡ Some other) × (other.kind ≡ node.kind)) }
    requires few { length between.now ≤ 65536 }
    ensures fits { result ≡ true → (node other : Node) → node_of u false left.now ≡ Some node → node_of u false bytes.now ≡ Some other
        → weight_of (node.cells ++ spelled_by node.kind u between.now) ≤ free_of u false other }
    ensures lacks { result ≡ false → (node other : Node) → node_of u false left.now ≡ Some node → node_of u false bytes.now ≡ Some other
        → free_of u false other < weight_of (node.cells ++ spelled_by node.kind u between.now) }
{
    let other = head_of(bytes, u, false);
    let run = joined(left, between, bytes, u);
    let all = head_of(left, u, false).count + between.len() + other.count;
    reach(run, 0, all, u - other.pointers) == all
}

/// The page takes the cells of its left neighbour and those between before its own, where they fit; else it stays as it is, and the answer is false.
///
/// Neither is page 1, and both are of one kind. Between leaves of a table stands no cell, between others the one that led to the left page above.
pub fn take_over(left: &[u8], between: &[Bytes], bytes: &mut [u8], u: usize) -> bool
    requires left { (node : Node) × (node_of u false left.now ≡ Some node) × All (IsOneCell node.kind u) between.now
        × ((other : Node) × (node_of u false bytes.old ≡ Some other) × (other.kind ≡ node.kind)) }
    requires few { length between.now ≤ 65536 }
    ensures put { result ≡ true → (node other : Node) → node_of u false left.now ≡ Some node → node_of u false bytes.old ≡ Some other
        → node_of u false bytes.new ≡ Some (node_taking other 0 (node.cells ++ spelled_by node.kind u between.now)) }
    ensures room { result ≡ true → (node other : Node) → node_of u false left.now ≡ Some node → node_of u false bytes.old ≡ Some other
        → weight_of (node.cells ++ spelled_by node.kind u between.now) ≤ free_of u false other }
    ensures lacks { result ≡ false → (node other : Node) → node_of u false left.now ≡ Some node → node_of u false bytes.old ≡ Some other
        → free_of u false other < weight_of (node.cells ++ spelled_by node.kind u between.now) }
    ensures same { result ≡ false → bytes.new ≡ bytes.old }
    ensures rest { KeepsOutside u false bytes.old bytes.new }
{
    if !has_room_for(left, between, bytes, u) {
        return false;
    }
    let count = head_of(left, u, false).count;
    let run = taking(left, u, false, count, between);
    put_all(run, 0, count + between.len(), bytes, false, 0);
    true
}
