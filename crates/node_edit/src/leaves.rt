// Leaves of tables divided, in two or in three.
ghost use Rattle.std.specs.Prelude.{◌≡◌, ℕ, ◌+◌, ◌≤◌, ◌<◌, List, length, take, drop, IfOk, OnErr, false, true};
ghost use Rattle.page_spec.specs.Varint.{varint_size};
ghost use Rattle.node_spec.specs.declared.kinds.Kind.TheVariants.{TableLeaf};
ghost use Rattle.node_spec.specs.Cells.{NodeCell, IsOneCell};
ghost use Rattle.page_edit.specs.Forms.{KeepsOutside};
ghost use Rattle.node_edit.specs.Runs.{IsRun, cell_of, part_of, weight_of};
ghost use Rattle.node_edit.specs.declared.leaves.Cuts.TheVariants.{One, Both};
ghost use Rattle.node_edit.specs.Dividing.{CutsRows, AreCuts, IsCrowd, ShowParts, IsRowKey, whole_of};

use crate::crowd::{Crowd, fill};
use crate::division::Divided;
use crate::run::{Run, reach, text_of};
use be_fields::get_varint;
use disk_face::Bytes;
use std::alloc::{AllocError, Global};

/// How many bytes the header of a leaf takes that isn't page 1.
const HEADER: usize = 8;

/// The places of the first cells behind the first part.
#[derive(Clone, Copy)]
pub(crate) enum Cuts {
    /// The cells are cut in two.
    One(usize),
    /// The cells are cut in three.
    Both(usize, usize),
}

// Whether the cells from a place on fit in one page.
fn rest_fits(crowd: Crowd<'_>, from: usize) -> bool
    requires crowd { (cells : List NodeCell) × IsCrowd crowd cells × (from ≤ length cells) }
    ensures fits { result ≡ true → (cells : List NodeCell) → IsCrowd crowd.entry cells → weight_of (part_of cells from (length cells)) + 8 ≤ crowd.entry.run.u }
    ensures lacks { result ≡ false → (cells : List NodeCell) → IsCrowd crowd.entry cells → crowd.entry.run.u < weight_of (part_of cells from (length cells)) + 8 }
{
    reach(crowd.run, from, crowd.count, crowd.run.u - HEADER) == crowd.count
}

// Where the cells are cut: at the limit if two parts do, else where as many as can be stand in the first part, or a large cell stands alone.
fn cut_rows(crowd: Crowd<'_>, at: usize, limit: usize) -> Cuts
    requires cuts { (cells : List NodeCell) × CutsRows crowd cells at limit }
    ensures { (cells : List NodeCell) → CutsRows crowd.entry cells at limit → AreCuts crowd.entry.run.u cells result }
{
    let last = crowd.count - 1;
    let cut = reach(crowd.run, 0, last, limit).max(1);
    if rest_fits(crowd, cut) {
        return Cuts::One(cut);
    }
    let room = crowd.run.u - HEADER;
    let low = reach(crowd.run, 0, last, room);
    if rest_fits(crowd, low) {
        return Cuts::One(low);
    }
    Cuts::Both(low, reach(crowd.run, low, last, room))
}

// The key of the rowid of a cell.
fn row_key(alloc: Global, run: Run<'_>, k: usize) -> Result<Bytes, AllocError>
    requires run { (cells : List NodeCell) × IsRun run cells × (k < length cells) }
    requires kind { run.kind ≡ TableLeaf }
    ensures key { IfOk result (λ key. (cells : List NodeCell) → IsRun run.entry cells → IsRowKey run.entry.u (cell_of cells k) key) }
{
    let key = Bytes::of(alloc, rowid_of(text_of(run, k)))?;
    Ok(key)
}

// How many bytes the varint at the front has.
fn varint_len(bytes: &[u8]) -> usize
    requires { varint_size bytes.now ≤ length bytes.now }
    ensures { result ≡ varint_size bytes.now }
{
    let Some((_, size)) = get_varint(bytes) else {
        unreachable!()
    };
    size
}

// The varint of the rowid in a cell.
fn rowid_of(text: &[u8]) -> &[u8]
    requires { (usable : ℕ) × IsOneCell TableLeaf usable text.now }
    ensures { result.now ≡ take (varint_size (drop (varint_size text.now) text.now)) (drop (varint_size text.now) text.now) }
{
    let behind = &text[varint_len(text)..];
    &behind[..varint_len(behind)]
}

// Divides a leaf in two before a cell.
fn in_two(
    alloc: Global,
    crowd: Crowd<'_>,
    cut: usize,
    left: &mut [u8],
    bytes: &mut [u8],
) -> Result<Divided, AllocError>
    requires leaf { (crowd.run.kind ≡ TableLeaf) × (crowd.first ≡ false) }
    requires cuts { (cells : List NodeCell) × IsCrowd crowd cells × AreCuts crowd.run.u cells (One cut) }
    requires long { (crowd.run.u ≤ length left.old) × (crowd.run.u ≤ length bytes.old) }
    ensures parts { IfOk result (λ divided. (cells : List NodeCell) (middle : List ℕ) → IsCrowd crowd.entry cells → AreCuts crowd.entry.run.u cells (One cut)
        → ShowParts crowd.entry.run.u false (whole_of crowd.entry cells) left.new middle bytes.new divided) }
    ensures same { OnErr result (bytes.new ≡ bytes.old) }
    ensures length { length left.new ≡ length left.old }
    ensures rest { KeepsOutside crowd.entry.run.u false bytes.old bytes.new }
{
    let key = row_key(alloc, crowd.run, cut - 1)?;
    fill(crowd, 0, cut, left, false, 0);
    fill(crowd, cut, crowd.count, bytes, false, 0);
    Ok(Divided::Two { key })
}

// Divides a leaf in three, before two cells.
fn in_three(
    alloc: Global,
    crowd: Crowd<'_>,
    low: usize,
    high: usize,
    left: &mut [u8],
    middle: &mut [u8],
    bytes: &mut [u8],
) -> Result<Divided, AllocError>
    requires leaf { (crowd.run.kind ≡ TableLeaf) × (crowd.first ≡ false) }
    requires cuts { (cells : List NodeCell) × IsCrowd crowd cells × AreCuts crowd.run.u cells (Both low high) }
    requires long { (crowd.run.u ≤ length left.old) × (crowd.run.u ≤ length middle.old) × (crowd.run.u ≤ length bytes.old) }
    ensures parts { IfOk result (λ divided. (cells : List NodeCell) → IsCrowd crowd.entry cells → AreCuts crowd.entry.run.u cells (Both low high)
        → ShowParts crowd.entry.run.u false (whole_of crowd.entry cells) left.new middle.new bytes.new divided) }
    ensures same { OnErr result (bytes.new ≡ bytes.old) }
    ensures lengths { (length left.new ≡ length left.old) × (length middle.new ≡ length middle.old) }
    ensures rest { KeepsOutside crowd.entry.run.u false bytes.old bytes.new }
{
    let below = row_key(alloc, crowd.run, low - 1)?;
    let above = row_key(alloc, crowd.run, high - 1)?;
    fill(crowd, 0, low, left, false, 0);
    fill(crowd, low, high, middle, false, 0);
    fill(crowd, high, crowd.count, bytes, false, 0);
    Ok(Divided::Three {
        low: below,
        high: above,
    })
}

/// Divides a leaf of a table that isn't page 1: in two where that suffices, at the limit or else where the first part is as full as can be. The error is
/// want of memory.
pub(crate) fn divide_rows(
    alloc: Global,
    crowd: Crowd<'_>,
    at: usize,
    limit: usize,
    left: &mut [u8],
    middle: &mut [u8],
    bytes: &mut [u8],
) -> Result<Divided, AllocError>
    requires cuts { (cells : List NodeCell) × CutsRows crowd cells at limit }
    requires long { (crowd.run.u ≤ length left.old) × (crowd.run.u ≤ length middle.old) × (crowd.run.u ≤ length bytes.old) }
    ensures parts { IfOk result (λ divided. (cells : List NodeCell) → CutsRows crowd.entry cells at limit
        → ShowParts crowd.entry.run.u false (whole_of crowd.entry cells) left.new middle.new bytes.new divided) }
    ensures same { OnErr result (bytes.new ≡ bytes.old) }
    ensures lengths { (length left.new ≡ length left.old) × (length middle.new ≡ length middle.old) }
    ensures rest { KeepsOutside crowd.entry.run.u false bytes.old bytes.new }
{
    match cut_rows(crowd, at, limit) {
        Cuts::One(cut) => {
            let divided = in_two(alloc, crowd, cut, left, bytes)?;
            Ok(divided)
        }
        Cuts::Both(low, high) => {
            let divided = in_three(alloc, crowd, low, high, left, middle, bytes)?;
            Ok(divided)
        }
    }
}
