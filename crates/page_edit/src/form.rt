// Where the parts of a page stand.
ghost use Rattle.std.specs.Prelude.{◌≡◌, ℕ, ◌≤◌, Some};
ghost use Rattle.page_edit.specs.Forms.{IsFormOf};
ghost use Rattle.node_spec.specs.Nodes.{Node, node_of};

use page_form::{Kind, header_at, kind_of, pointers_at};

/// What the places of a page's parts follow from.
#[derive(Clone, Copy)]
pub(crate) struct Form {
    /// How many bytes are usable.
    pub u: usize,
    /// Where the header stands.
    pub at: usize,
    /// Where the cell pointers begin.
    pub pointers: usize,
    /// The kind.
    pub kind: Kind,
}

/// The form of a page that shows a node.
pub(crate) fn form_of(bytes: &[u8], u: usize, first: bool) -> Form
    requires shown { (node : Node) × (node_of u first bytes.now ≡ Some node) }
    ensures form { (node : Node) → node_of u first bytes.now ≡ Some node → IsFormOf u first node result }
{
    let at = header_at(first);
    let Some(kind) = kind_of(bytes[at]) else {
        unreachable!()
    };
    Form {
        u,
        at,
        pointers: pointers_at(first, kind),
        kind,
    }
}
