// Cells that come down from the page above, between two pages that are joined.
ghost use Rattle.std.specs.Prelude.{◌≡◌, ℕ, ◌≤◌, ◌&&◌, false, IfOk};
ghost use Rattle.node_spec.specs.Kinds.{is_leaf, is_table};
ghost use Rattle.node_spec.specs.Cells.{IsOneCell, cell_in};
ghost use Rattle.node_edit.specs.Keys.{kind_above, ComesDown};

use crate::keys::numbered;
use disk_face::Bytes;
use page_form::{Kind, is_leaf};
use std::alloc::{AllocError, Global};

/// How many bytes a left child takes.
const LEFT_CHILD: usize = 4;

/// The cell between two neighbours of a kind as it comes down from the page above: on an interior page it leads to the left one's right child, on a leaf
/// nowhere. The error is want of memory.
pub fn cell_down(alloc: Global, kind: Kind, cell: &Bytes, right: u32) -> Result<Bytes, AllocError>
    requires cell { (usable : ℕ) × IsOneCell (kind_above kind) usable cell.now }
    requires kind { is_leaf kind && is_table kind ≡ false }
    ensures down { IfOk result (λ text. (usable : ℕ) → IsOneCell (kind_above kind) usable cell.now → ComesDown kind usable (cell_in (kind_above kind) usable cell.now) right text) }
{
    let key = &cell.bytes()[LEFT_CHILD..];
    if is_leaf(kind) {
        let text = Bytes::of(alloc, key)?;
        return Ok(text);
    }
    let text = numbered(alloc, right, key)?;
    Ok(Bytes::from_vec(text))
}
