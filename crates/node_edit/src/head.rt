// What the front of a page tells.
ghost use Rattle.std.specs.Prelude.{◌≡◌, ◌+◌, ◌≤◌, Some, length};
ghost use Rattle.node_spec.specs.Nodes.{Node, node_of, right_in};
ghost use Rattle.node_spec.specs.Kinds.{header_at};
ghost use Rattle.node_edit.specs.Runs.{IsHead};

use be_fields::{get_u16, get_u32};
use page_form::{Kind, header_at, is_leaf, kind_of, pointers_at};

/// The kind of a page, the offset in bytes of its first cell pointer, and how many cells it has.
#[derive(Clone, Copy)]
pub(crate) struct Head {
    pub kind: Kind,
    pub pointers: usize,
    pub count: usize,
}

/// What the front of a page tells that shows a node.
pub(crate) fn head_of(bytes: &[u8], u: usize, first: bool) -> Head
    requires shown { (node : Node) × (node_of u first bytes.now ≡ Some node) }
    ensures head { (node : Node) → node_of u first bytes.now ≡ Some node → IsHead u first node result }
{
    let at = header_at(first);
    let Some(kind) = kind_of(bytes[at]) else {
        unreachable!()
    };
    Head {
        kind,
        pointers: pointers_at(first, kind),
        count: usize::from(get_u16(bytes, at + 3)),
    }
}

/// How many cells a page has that shows a node.
pub fn count_of(bytes: &[u8], u: usize, first: bool) -> usize
    requires shown { (node : Node) × (node_of u first bytes.now ≡ Some node) }
    ensures count { (node : Node) → node_of u first bytes.now ≡ Some node → result ≡ length node.cells }
{
    head_of(bytes, u, first).count
}

/// The right child of a page that shows a node, 0 on a leaf.
#[tactic(auto, unfolding(node_spec::specs::Nodes::right_in))]
pub(crate) fn right_of(bytes: &[u8], first: bool, kind: Kind) -> u32
    requires { header_at first + 12 ≤ length bytes.now }
    ensures { result ≡ right_in first kind bytes.now }
{
    if is_leaf(kind) {
        0
    } else {
        get_u32(bytes, header_at(first) + 8)
    }
}
