// Pages read.
ghost use Rattle.std.specs.Prelude.{◌≡◌, ℕ, ◌+◌, ◌*◌, ◌<◌, ◌≤◌, length, slice_index, IfOk, IfErr, vec_len};
ghost use Rattle.page_spec.specs.Bytes.{u16_at};
ghost use Rattle.node_spec.specs.Kinds.{header_at, pointers_at};
ghost use Rattle.node_spec.specs.Nodes.{Node, right_in};
ghost use Rattle.page_form.specs.Marks.{IsChecked};
ghost use Rattle.page_form.specs.Reading.{Tells, IsFault};

use crate::content::check_content;
use crate::front::bad_front;
use crate::kinds::{header_at, is_leaf, kind_of, pointers_at};
use crate::page::{Page, PageFault};
use be_fields::{get_u16, get_u32};
use node_spec::Kind;
use std::alloc::{AllocError, Global};

/// Reads the page in the first `u` bytes, which is page 1 where `first` says so.
///
/// It accepts exactly the texts of pages. Else it tells the first field that breaks the text, in the order of the checks: the
/// flag; the count of cells, against the room for their pointers; the start of the content, behind the pointers and at most at
/// `u`; each pointer, at or behind the start of the content; each cell, whole before `u`; each freeblock, behind the one before
/// it, of at least 4 bytes, inside the content; that no byte is in two cells or freeblocks; the count of fragment bytes, which
/// is at most 60 and what the cells and freeblocks leave of the content.
pub fn read_page(alloc: Global, bytes: &[u8], u: usize, first: bool) -> Result<Page, PageFault>
    requires usable { (480 ≤ u) × (u ≤ 65536) × (u ≤ length bytes.now) }
    ensures told { IfOk result (λ page. (node : Node) × Tells u first bytes.now page node) }
    ensures refused { IfErr result (IsFault u first bytes.now) }
{
    let at = header_at(first);
    let Some(kind) = kind_of(bytes[at]) else {
        return Err(PageFault::Bad { at });
    };
    let pointers = pointers_at(first, kind);
    let taken = match check_parts(bytes, u, at, pointers, kind) {
        Ok(taken) => taken,
        Err(at) => return Err(PageFault::Bad { at }),
    };
    let count = usize::from(get_u16(bytes, at + 3));
    let Ok(cells) = read_pointers(alloc, bytes, pointers, count) else {
        return Err(PageFault::Memory);
    };
    Ok(Page {
        kind,
        cells,
        right: right_child(bytes, first, kind),
        free: u - (pointers + 2 * count + taken),
    })
}

// Checks all parts of a page whose header stands at `at` and its pointers at `pointers`.
fn check_parts(
    bytes: &[u8],
    u: usize,
    at: usize,
    pointers: usize,
    kind: Kind,
) -> Result<usize, usize>
    requires usable { (480 ≤ u) × (u ≤ 65536) × (u ≤ length bytes.now) }
    requires head { (at + 8 ≤ pointers) × (pointers ≤ 112) }
    ensures { IsChecked u at pointers kind bytes.now result }
{
    match bad_front(bytes, u, at, pointers) {
        Some(field) => Err(field),
        None => check_content(bytes, u, at, pointers, kind),
    }
}

// The cell pointers.
fn read_pointers(
    alloc: Global,
    bytes: &[u8],
    pointers: usize,
    count: usize,
) -> Result<Vec<u16>, AllocError>
    requires { pointers + 2 * count ≤ length bytes.now }
    ensures { IfOk result (λ cells. (vec_len cells ≡ count)
        × ((i : ℕ) → i < count → slice_index cells.items i ≡ u16_at bytes.now (pointers + 2 * i))) }
{
    let mut cells = Vec::with_capacity(alloc, count)?;
    for i in 0..count {
        cells.push(get_u16(bytes, pointers + 2 * i))?;
    }
    Ok(cells)
}

// The right child, 0 on a leaf.
#[tactic(auto, unfolding(node_spec::specs::Nodes::right_in))]
fn right_child(bytes: &[u8], first: bool, kind: Kind) -> u32
    requires { header_at first + 12 ≤ length bytes.now }
    ensures { result ≡ right_in first kind bytes.now }
{
    if is_leaf(kind) {
        0
    } else {
        get_u32(bytes, header_at(first) + 8)
    }
}
