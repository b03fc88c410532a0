// Cells put in and taken out.
ghost use Rattle.std.specs.Prelude.{◌≡◌, ℕ, ◌+◌, ◌*◌, ◌<◌, ◌≤◌, max, List, length, insert, slice_index, OnOk, OnErr, IfErr, Some};
ghost use Rattle.page_spec.specs.Bytes.{u16_at};
ghost use Rattle.node_spec.specs.Kinds.{header_at};
ghost use Rattle.node_spec.specs.Cells.{IsCell, IsOneCell, cell_in, padded};
ghost use Rattle.node_spec.specs.Layout.{content_start};
ghost use Rattle.node_spec.specs.Nodes.{Node, node_of, free_of, with_cell, without_cell};
ghost use Rattle.page_edit.specs.Forms.{HasTexts, KeepsRest, KeepsOutside, IsPacked, free_in};

use crate::form::{Form, form_of};
use crate::gap::put_in_gap;
use crate::moving::{pack_cells, take_out};
use be_fields::get_u16;
use page_form::{cell_len, content_start};
use thiserror::Error;

/// A cell takes at least so many bytes.
const LEAST_CELL: usize = 4;

/// The free bytes of a page don't suffice for a cell and its pointer.
#[derive(Clone, Copy, Debug, PartialEq, Eq, Error)]
#[error("{need} bytes needed, {free} free")]
pub struct NoRoom {
    /// How many bytes the cell and its pointer need.
    pub need: usize,
    /// How many bytes are free, fragments and freeblocks included.
    pub free: usize,
}

/// Puts a cell in at place `k`, before the cell that stands there.
///
/// The text of the cell is just one cell of the page's kind; what a short one lacks to 4 bytes is filled up. Where the free
/// bytes suffice but not the gap, the page is packed. A page that refuses a cell is unchanged.
pub fn put_cell(
    bytes: &mut [u8],
    u: usize,
    first: bool,
    k: usize,
    cell: &[u8],
) -> Result<(), NoRoom>
    requires shown { (node : Node) × (node_of u first bytes.old ≡ Some node) × (k ≤ length node.cells) × IsOneCell node.kind u cell.now }
    ensures put { OnOk result ((node : Node) → node_of u first bytes.old ≡ Some node
        → node_of u first bytes.new ≡ Some (with_cell node k (cell_in node.kind u cell.now))) }
    ensures room { OnOk result ((node : Node) → node_of u first bytes.old ≡ Some node → max 4 (length cell.now) + 2 ≤ free_of u first node) }
    ensures refused { IfErr result (λ why. (why.need ≡ max 4 (length cell.now) + 2) × (why.free < why.need)
        × ((node : Node) → node_of u first bytes.old ≡ Some node → why.free ≡ free_of u first node)) }
    ensures same { OnErr result (bytes.new ≡ bytes.old) }
    ensures rest { KeepsOutside u first bytes.old bytes.new }
{
    let form = form_of(bytes, u, first);
    if cell.len() < LEAST_CELL {
        put_whole(form, bytes, k, &filled_up(cell))
    } else {
        put_whole(form, bytes, k, cell)
    }
}

/// Takes cell `k` out, and packs the page.
pub fn take_cell(bytes: &mut [u8], u: usize, first: bool, k: usize)
    requires shown { (node : Node) × (node_of u first bytes.old ≡ Some node) × (k < length node.cells) }
    ensures taken { (node : Node) → node_of u first bytes.old ≡ Some node → node_of u first bytes.new ≡ Some (without_cell node k) }
    ensures packed { IsPacked (header_at first) bytes.new }
    ensures rest { KeepsOutside u first bytes.old bytes.new }
{
    let form = form_of(bytes, u, first);
    take_out(form, bytes, k);
}

/// Brings all free bytes of a page together, so that it has no freeblock and no fragment.
pub fn pack(bytes: &mut [u8], u: usize, first: bool)
    requires shown { (node : Node) × (node_of u first bytes.old ≡ Some node) }
    ensures same { (node : Node) → node_of u first bytes.old ≡ Some node → node_of u first bytes.new ≡ Some node }
    ensures packed { IsPacked (header_at first) bytes.new }
    ensures rest { KeepsOutside u first bytes.old bytes.new }
{
    let form = form_of(bytes, u, first);
    pack_cells(form, bytes);
}

// A short cell filled up to 4 bytes.
fn filled_up(cell: &[u8]) -> [u8; 4]
    requires { length cell.now < 4 }
    ensures { result ≡ padded cell.now }
{
    match cell {
        [] => [0, 0, 0, 0],
        [a] => [*a, 0, 0, 0],
        [a, b] => [*a, *b, 0, 0],
        [a, b, c, ..] => [*a, *b, *c, 0],
    }
}

// All free bytes.
fn free_bytes(form: Form, bytes: &[u8]) -> usize
    requires shown { (texts : List (List ℕ)) × HasTexts form bytes.now texts }
    ensures { (texts : List (List ℕ)) → HasTexts form bytes.now texts → result ≡ free_in form texts }
{
    let count = usize::from(get_u16(bytes, form.at + 3));
    let mut free = form.u - (form.pointers + 2 * count);
    for i in 0..count {
        let start = get_u16(bytes, form.pointers + 2 * i);
        let Some(len) = cell_len(bytes, form.u, form.kind, start) else {
            unreachable!()
        };
        free -= len;
    }
    free
}

// Packs the page where its gap is smaller than what is needed, if the free bytes suffice; Err tells how many are free.
//
// A page whose gap has room is asked for nothing else: the walk over its cells is left to the others.
fn make_gap(form: Form, bytes: &mut [u8], need: usize) -> Result<(), usize>
    requires shown { (texts : List (List ℕ)) × HasTexts form bytes.old texts }
    ensures shows { (texts : List (List ℕ)) → HasTexts form bytes.old texts → HasTexts form bytes.new texts }
    ensures gap { OnOk result (form.pointers + 2 * u16_at bytes.new (form.at + 3) + need ≤ content_start bytes.new form.at) }
    ensures room { OnOk result ((texts : List (List ℕ)) → HasTexts form bytes.old texts → need ≤ free_in form texts) }
    ensures refused { IfErr result (λ free. (free < need) × ((texts : List (List ℕ)) → HasTexts form bytes.old texts → free ≡ free_in form texts)) }
    ensures same { OnErr result (bytes.new ≡ bytes.old) }
    ensures count { u16_at bytes.new (form.at + 3) ≡ u16_at bytes.old (form.at + 3) }
    ensures rest { KeepsRest form bytes.old bytes.new }
{
    let top = form.pointers + 2 * usize::from(get_u16(bytes, form.at + 3));
    if need <= content_start(bytes, form.at) - top {
        return Ok(());
    }
    let free = free_bytes(form, bytes);
    if free < need {
        return Err(free);
    }
    pack_cells(form, bytes);
    Ok(())
}

// Puts a cell of at least 4 bytes in.
fn put_whole(form: Form, bytes: &mut [u8], k: usize, cell: &[u8]) -> Result<(), NoRoom>
    requires shown { (texts : List (List ℕ)) × HasTexts form bytes.old texts }
    requires place { k ≤ u16_at bytes.old (form.at + 3) }
    requires some { 4 ≤ length cell.now }
    requires whole { IsCell form.kind form.u cell.now }
    ensures put { OnOk result ((texts : List (List ℕ)) → HasTexts form bytes.old texts → HasTexts form bytes.new (insert texts k cell.now)) }
    ensures room { OnOk result ((texts : List (List ℕ)) → HasTexts form bytes.old texts → length cell.now + 2 ≤ free_in form texts) }
    ensures refused { IfErr result (λ why. (why.need ≡ length cell.now + 2) × (why.free < why.need)
        × ((texts : List (List ℕ)) → HasTexts form bytes.old texts → why.free ≡ free_in form texts)) }
    ensures same { OnErr result (bytes.new ≡ bytes.old) }
    ensures rest { KeepsRest form bytes.old bytes.new }
{
    let need = cell.len() + 2;
    if let Err(free) = make_gap(form, bytes, need) {
        return Err(NoRoom { need, free });
    }
    put_in_gap(form, bytes, k, cell);
    Ok(())
}
