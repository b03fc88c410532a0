// Whether bytes are just one cell, as the edits ask.
ghost use Rattle.std.specs.Prelude.{◌≡◌, ℕ, ◌+◌, ◌<◌, ◌≤◌, length, slice_index, true};
ghost use Rattle.node_spec.specs.declared.kinds.Kind.TheVariants.{TableLeaf};
ghost use Rattle.node_spec.specs.Cells.{IsCell, IsOneCell};

use page_form::{Kind, cell_len};

// A varint of one byte is less than this.
const ONE_BYTE: u8 = 128;

/// The most bytes of a page.
const LARGEST: usize = 65536;

/// Whether bytes are just one cell of a page with so many usable bytes; a cell of fewer than 4 bytes of a leaf of a table.
pub fn is_cell(kind: Kind, u: usize, cell: &[u8]) -> bool
    requires { (480 ≤ u) × (u ≤ 65536) }
    ensures { result ≡ true → IsOneCell kind u cell.now }
{
    if cell.len() < 4 {
        is_table_leaf(kind) && is_short(cell)
    } else {
        cell.len() <= u && is_long(kind, u, cell)
    }
}

fn is_table_leaf(kind: Kind) -> bool
    ensures { result ≡ true → kind ≡ TableLeaf }
{
    match kind {
        Kind::TableLeaf => true,
        Kind::TableInner | Kind::IndexLeaf | Kind::IndexInner => false,
    }
}

// Whether bytes are a cell of a leaf of a table: two varints of one byte, and a payload.
fn is_short(cell: &[u8]) -> bool
    ensures { result ≡ true → (2 ≤ length cell.now) × (slice_index cell.now 0 < 128) × (slice_index cell.now 1 < 128)
        × (length cell.now ≡ 2 + slice_index cell.now 0) }
{
    cell.len() >= 2
        && cell[0] < ONE_BYTE
        && cell[1] < ONE_BYTE
        && cell.len() == 2 + usize::from(cell[0])
}

// Whether the cell at the front of a page that begins with these bytes is all of them.
fn is_long(kind: Kind, u: usize, cell: &[u8]) -> bool
    requires { (480 ≤ u) × (u ≤ 65536) × (length cell.now ≤ u) }
    ensures { result ≡ true → IsCell kind u cell.now }
{
    let mut page = [0u8; LARGEST];
    lay_front(&mut page, cell);
    match cell_len(&page, u, kind, 0) {
        Some(len) => len == cell.len(),
        None => false,
    }
}

fn lay_front(page: &mut [u8], cell: &[u8])
    requires { length cell.now ≤ length page.old }
    ensures same { (k : ℕ) → k < length cell.now → slice_index page.new k ≡ slice_index cell.now k }
    ensures size { length page.new ≡ length page.old }
{
    page[..cell.len()].copy_from_slice(cell);
}
