// A cell put into the gap between the pointers and the content.
ghost use Rattle.std.specs.Prelude.{◌≡◌, ℕ, ◌+◌, ◌*◌, ◌<◌, ◌≤◌, List, length, insert, slice_index};
ghost use Rattle.page_spec.specs.Bytes.{u16_at, DiffersOnlyWithin};
ghost use Rattle.node_spec.specs.Cells.{IsCell};
ghost use Rattle.node_spec.specs.Layout.{content_start};
ghost use Rattle.page_edit.specs.Forms.{HasTexts, AddsPointer, KeepsRest};

use crate::form::Form;
use be_fields::{get_u16, put_u16};
use page_form::content_start;

// Makes room for a pointer, and writes it.
fn add_pointer(bytes: &mut [u8], pointers: usize, count: usize, k: usize, start: u16)
    requires place { k ≤ count }
    requires room { pointers + 2 * count + 2 ≤ length bytes.old }
    ensures { AddsPointer bytes.old bytes.new pointers count k start }
{
    let place = pointers + 2 * k;
    bytes.copy_within(place..pointers + 2 * count, place + 2);
    put_u16(bytes, place, start);
}

// Sets the count of cells and the start of the content.
fn set_head(bytes: &mut [u8], at: usize, count: u16, start: u16)
    requires room { at + 8 ≤ length bytes.old }
    ensures count { u16_at bytes.new (at + 3) ≡ count }
    ensures start { u16_at bytes.new (at + 5) ≡ start }
    ensures others { DiffersOnlyWithin bytes.old bytes.new (at + 3) (at + 7) }
{
    put_u16(bytes, at + 3, count);
    put_u16(bytes, at + 5, start);
}

// Writes bytes at a place.
fn lay_cell(bytes: &mut [u8], start: usize, cell: &[u8])
    requires room { start + length cell.now ≤ length bytes.old }
    ensures same { (k : ℕ) → k < length cell.now → slice_index bytes.new (start + k) ≡ slice_index cell.now k }
    ensures others { DiffersOnlyWithin bytes.old bytes.new start (start + length cell.now) }
{
    bytes[start..start + cell.len()].copy_from_slice(cell);
}

/// Puts a cell in at place `k`, where the gap has room for it and its pointer.
pub(crate) fn put_in_gap(form: Form, bytes: &mut [u8], k: usize, cell: &[u8])
    requires shown { (texts : List (List ℕ)) × HasTexts form bytes.old texts }
    requires place { k ≤ u16_at bytes.old (form.at + 3) }
    requires some { 4 ≤ length cell.now }
    requires whole { IsCell form.kind form.u cell.now }
    requires room { form.pointers + 2 * u16_at bytes.old (form.at + 3) + 2 + length cell.now ≤ content_start bytes.old form.at }
    ensures shows { (texts : List (List ℕ)) → HasTexts form bytes.old texts → HasTexts form bytes.new (insert texts k cell.now) }
    ensures rest { KeepsRest form bytes.old bytes.new }
{
    let count = get_u16(bytes, form.at + 3);
    let start = content_start(bytes, form.at) - cell.len();
    lay_cell(bytes, start, cell);
    add_pointer(bytes, form.pointers, usize::from(count), k, start as u16);
    set_head(bytes, form.at, count + 1, start as u16);
}
