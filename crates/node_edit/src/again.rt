// Two neighbours divided anew between their pages.
ghost use Rattle.std.specs.Prelude.{◌≡◌, ◌≤◌, ◌++◌, Some, false, length, IfOk, OnErr};
ghost use Rattle.node_spec.specs.Nodes.{Node, node_of};
ghost use Rattle.page_edit.specs.Forms.{KeepsOutside};
ghost use Rattle.edit_spec.specs.Nodes.{node_taking};
ghost use Rattle.node_edit.specs.Runs.{spelled_by};
ghost use Rattle.node_edit.specs.Dividing.{LackRoom, ShowTwo};

use crate::between::divide_between;
use crate::crowd::{copy_usable, crowd_joined};
use crate::division::limit_of;
use disk_face::Bytes;
use std::alloc::{AllocError, Global};

/// Divides anew two neighbours that should be joined, since one has no cell, but have no room in one page with the cells between them. The left page takes
/// the left part and the right one the rest; no page is made or lost. The answer is the key between the parts: behind the number of the left page it is the
/// cell for that page above. The error is want of memory, before a page is changed.
///
/// Neither is page 1, and both are of one kind. Two leaves of a table always have room, since no cell stands between them. `low` and `high` get the pages'
/// old bytes.
pub fn divide_joined(
    alloc: Global,
    left: &mut [u8],
    between: &[Bytes],
    right: &mut [u8],
    low: &mut [u8],
    high: &mut [u8],
    u: usize,
) -> Result<Bytes, AllocError>
    requires pages { (node other : Node) × (node_of u false left.old ≡ Some node) × (node_of u false right.old ≡ Some other) × LackRoom u node other between.now }
    requires long { (u ≤ length low.old) × (u ≤ length high.old) }
    ensures parts { IfOk result (λ key. (node other : Node) → node_of u false left.old ≡ Some node → node_of u false right.old ≡ Some other
        → ShowTwo u false (node_taking other 0 (node.cells ++ spelled_by node.kind u between.now)) key left.new right.new) }
    ensures same { OnErr result ((left.new ≡ left.old) × (right.new ≡ right.old)) }
    ensures lengths { (length low.new ≡ length low.old) × (length high.new ≡ length high.old) }
    ensures rest { KeepsOutside u false left.old left.new × KeepsOutside u false right.old right.new }
{
    copy_usable(left, low, u);
    copy_usable(right, high, u);
    let crowd = crowd_joined(low, between, high, u);
    let limit = limit_of(crowd, false);
    divide_between(alloc, crowd, limit, left, right)
}
