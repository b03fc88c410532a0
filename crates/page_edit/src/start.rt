// A page begun.
ghost use Rattle.std.specs.Prelude.{◌≡◌, ◌+◌, ◌≤◌, length, Some, false, true};
ghost use Rattle.page_spec.specs.Bytes.{u32_at, DiffersOnlyWithin};
ghost use Rattle.node_spec.specs.Kinds.{header_at, is_leaf};
ghost use Rattle.node_spec.specs.Nodes.{node_of};
ghost use Rattle.page_edit.specs.Forms.{KeepsOutside, IsPacked, empty_node};

use crate::moving::set_packed;
use be_fields::{put_u16, put_u32};
use page_form::{Kind, flag_of, header_at, is_leaf};

/// Makes a page of a kind without a cell, whatever stood there. A leaf has no right child, and `right` is ignored.
pub fn start_page(bytes: &mut [u8], u: usize, first: bool, kind: Kind, right: u32)
    requires usable { (480 ≤ u) × (u ≤ 65536) × (u ≤ length bytes.old) }
    ensures shows { node_of u first bytes.new ≡ Some (empty_node kind right) }
    ensures packed { IsPacked (header_at first) bytes.new }
    ensures rest { KeepsOutside u first bytes.old bytes.new }
{
    let at = header_at(first);
    bytes[at] = flag_of(kind);
    put_u16(bytes, at + 3, 0);
    set_packed(bytes, at, u);
    put_right(bytes, at, kind, right);
}

// Writes the right child of an interior page.
fn put_right(bytes: &mut [u8], at: usize, kind: Kind, right: u32)
    requires { at + 12 ≤ length bytes.old }
    ensures right { is_leaf kind ≡ false → u32_at bytes.new (at + 8) ≡ right }
    ensures leaf { is_leaf kind ≡ true → bytes.new ≡ bytes.old }
    ensures others { DiffersOnlyWithin bytes.old bytes.new (at + 8) (at + 12) }
{
    if !is_leaf(kind) {
        put_u32(bytes, at + 8, right);
    }
}
