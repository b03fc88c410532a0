// Cells moved to the end of the page.
ghost use Rattle.std.specs.Prelude.{◌≡◌, ℕ, ◌+◌, ◌-◌, ◌*◌, ◌<◌, ◌≤◌, ◌⊎◌, List, length, sum_by, remove, slice_index};
ghost use Rattle.page_spec.specs.Bytes.{u16_at, DiffersOnlyWithin};
ghost use Rattle.node_spec.specs.Layout.{Piece, content_start, HasCells};
ghost use Rattle.page_edit.specs.Forms.{HasTexts, Holds, DropsPointer, KeepsRest, IsPacked};
ghost use Rattle.page_edit.specs.Packing.{Moved};

use crate::form::Form;
use be_fields::{get_u16, put_u16};
use page_form::cell_len;

/// Pages of at most so many usable bytes are packed over a small copy.
const SMALL: usize = 4096;

/// The most usable bytes of a page.
const LARGE: usize = 65536;

// Copies bytes to just below `end`, and points there.
fn move_cell(from: &[u8], bytes: &mut [u8], slot: usize, start: usize, len: usize, end: usize)
    requires from { start + len ≤ length from.now }
    requires to { (slot + 2 + len ≤ end) × (end ≤ length bytes.old) × (end ≤ 65536) × (1 ≤ len) }
    ensures pointer { u16_at bytes.new slot ≡ end - len }
    ensures same { (k : ℕ) → k < len → slice_index bytes.new (end - len + k) ≡ slice_index from.now (start + k) }
    ensures others { (k : ℕ) → (k < slot) ⊎ ((slot + 2 ≤ k) × (k < end - len)) ⊎ (end ≤ k) → slice_index bytes.new k ≡ slice_index bytes.old k }
    ensures size { length bytes.new ≡ length bytes.old }
{
    let place = end - len;
    bytes[place..end].copy_from_slice(&from[start..start + len]);
    put_u16(bytes, slot, place as u16);
}

// Moves all cells that other bytes hold, and says where the last one starts.
fn move_cells(form: Form, from: &[u8], bytes: &mut [u8]) -> usize
    requires holds { (texts : List (List ℕ)) × Holds form from.now texts }
    requires room { form.u ≤ length bytes.old }
    ensures moved { (content : ℕ) (cells : List Piece) → HasCells form.u form.at form.pointers content form.kind from.now cells
        → Moved form.u form.pointers bytes.old bytes.new cells result (length cells) }
    ensures size { length bytes.new ≡ length bytes.old }
{
    let count = usize::from(get_u16(from, form.at + 3));
    let mut end = form.u;
    for i in 0..count {
        let start = get_u16(from, form.pointers + 2 * i);
        let Some(len) = cell_len(from, form.u, form.kind, start) else {
            unreachable!()
        };
        move_cell(
            from,
            bytes,
            form.pointers + 2 * i,
            usize::from(start),
            len,
            end,
        );
        end -= len;
    }
    end
}

/// Sets the start of the content, with no freeblock and no fragment.
pub(crate) fn set_packed(bytes: &mut [u8], at: usize, end: usize)
    requires room { at + 8 ≤ length bytes.old }
    requires end { (0 < end) × (end ≤ 65536) }
    ensures start { content_start bytes.new at ≡ end }
    ensures blocks { u16_at bytes.new (at + 1) ≡ 0 }
    ensures fragments { slice_index bytes.new (at + 7) ≡ 0 }
    ensures count { u16_at bytes.new (at + 3) ≡ u16_at bytes.old (at + 3) }
    ensures flag { slice_index bytes.new at ≡ slice_index bytes.old at }
    ensures others { DiffersOnlyWithin bytes.old bytes.new (at + 1) (at + 8) }
{
    put_u16(bytes, at + 1, 0);
    put_u16(bytes, at + 5, (end % 65536) as u16);
    bytes[at + 7] = 0;
}

// Copies the first bytes to the front of others.
fn copy_front(to: &mut [u8], from: &[u8], count: usize)
    requires { (count ≤ length from.now) × (count ≤ length to.old) }
    ensures front { (k : ℕ) → k < count → slice_index to.new k ≡ slice_index from.now k }
    ensures size { length to.new ≡ length to.old }
{
    to[..count].copy_from_slice(&from[..count]);
}

// Packs a page, over a copy in `spare`.
fn pack_over(form: Form, bytes: &mut [u8], spare: &mut [u8])
    requires holds { (texts : List (List ℕ)) × Holds form bytes.old texts }
    requires spare { form.u ≤ length spare.old }
    ensures shows { (texts : List (List ℕ)) → Holds form bytes.old texts → HasTexts form bytes.new texts }
    ensures content { (texts : List (List ℕ)) → Holds form bytes.old texts → content_start bytes.new form.at + sum_by length texts ≡ form.u }
    ensures count { u16_at bytes.new (form.at + 3) ≡ u16_at bytes.old (form.at + 3) }
    ensures packed { IsPacked form.at bytes.new }
    ensures rest { KeepsRest form bytes.old bytes.new }
{
    copy_front(spare, bytes, form.u);
    let end = move_cells(form, spare, bytes);
    set_packed(bytes, form.at, end);
}

// A function pays at its entry for the whole copy that it may need, so there is one for small pages.
fn pack_small(form: Form, bytes: &mut [u8])
    requires holds { (texts : List (List ℕ)) × Holds form bytes.old texts }
    requires small { form.u ≤ 4096 }
    ensures shows { (texts : List (List ℕ)) → Holds form bytes.old texts → HasTexts form bytes.new texts }
    ensures content { (texts : List (List ℕ)) → Holds form bytes.old texts → content_start bytes.new form.at + sum_by length texts ≡ form.u }
    ensures count { u16_at bytes.new (form.at + 3) ≡ u16_at bytes.old (form.at + 3) }
    ensures packed { IsPacked form.at bytes.new }
    ensures rest { KeepsRest form bytes.old bytes.new }
{
    let mut spare = [0u8; SMALL];
    pack_over(form, bytes, &mut spare);
}

fn pack_large(form: Form, bytes: &mut [u8])
    requires holds { (texts : List (List ℕ)) × Holds form bytes.old texts }
    ensures shows { (texts : List (List ℕ)) → Holds form bytes.old texts → HasTexts form bytes.new texts }
    ensures content { (texts : List (List ℕ)) → Holds form bytes.old texts → content_start bytes.new form.at + sum_by length texts ≡ form.u }
    ensures count { u16_at bytes.new (form.at + 3) ≡ u16_at bytes.old (form.at + 3) }
    ensures packed { IsPacked form.at bytes.new }
    ensures rest { KeepsRest form bytes.old bytes.new }
{
    let mut spare = [0u8; LARGE];
    pack_over(form, bytes, &mut spare);
}

/// Moves all cells to the end of the page, so that all free bytes are one gap.
pub(crate) fn pack_cells(form: Form, bytes: &mut [u8])
    requires holds { (texts : List (List ℕ)) × Holds form bytes.old texts }
    ensures shows { (texts : List (List ℕ)) → Holds form bytes.old texts → HasTexts form bytes.new texts }
    ensures content { (texts : List (List ℕ)) → Holds form bytes.old texts → content_start bytes.new form.at + sum_by length texts ≡ form.u }
    ensures count { u16_at bytes.new (form.at + 3) ≡ u16_at bytes.old (form.at + 3) }
    ensures packed { IsPacked form.at bytes.new }
    ensures rest { KeepsRest form bytes.old bytes.new }
{
    if form.u <= SMALL {
        pack_small(form, bytes);
    } else {
        pack_large(form, bytes);
    }
}

// Takes a pointer out, and counts one cell less.
fn drop_pointer(bytes: &mut [u8], at: usize, pointers: usize, count: usize, k: usize)
    requires head { at + 8 ≤ pointers }
    requires place { k < count }
    requires most { count ≤ 65535 }
    requires room { pointers + 2 * count ≤ length bytes.old }
    ensures count { u16_at bytes.new (at + 3) + 1 ≡ count }
    ensures drops { DropsPointer bytes.old bytes.new at pointers count k }
{
    let place = pointers + 2 * k;
    bytes.copy_within(place + 2..pointers + 2 * count, place);
    put_u16(bytes, at + 3, (count - 1) as u16);
}

/// Takes cell `k` out, and packs the page.
pub(crate) fn take_out(form: Form, bytes: &mut [u8], k: usize)
    requires shown { (texts : List (List ℕ)) × HasTexts form bytes.old texts }
    requires place { k < u16_at bytes.old (form.at + 3) }
    ensures shows { (texts : List (List ℕ)) → HasTexts form bytes.old texts → HasTexts form bytes.new (remove texts k) }
    ensures packed { IsPacked form.at bytes.new }
    ensures rest { KeepsRest form bytes.old bytes.new }
{
    let count = usize::from(get_u16(bytes, form.at + 3));
    drop_pointer(bytes, form.at, form.pointers, count, k);
    pack_cells(form, bytes);
}
