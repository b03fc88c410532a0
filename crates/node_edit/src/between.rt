// Pages other than leaves of tables divided: the cell between the two parts goes up.
ghost use Rattle.std.specs.Prelude.{◌≡◌, ℕ, ◌+◌, ◌≤◌, ◌<◌, ◌&&◌, List, length, IfOk, OnErr, Some, false, if◌then◌else◌};
ghost use Rattle.page_spec.specs.Bytes.{u32_at};
ghost use Rattle.node_spec.specs.Kinds.{is_leaf, is_table};
ghost use Rattle.node_spec.specs.Cells.{NodeCell, IsOneCell};
ghost use Rattle.node_spec.specs.Nodes.{Node, node_of, cell_at};
ghost use Rattle.page_edit.specs.Forms.{KeepsOutside};
ghost use Rattle.node_edit.specs.Runs.{IsRun, cell_of};
ghost use Rattle.node_edit.specs.Dividing.{CutsBetween, ShowTwo, IsUpKey, body_in, whole_of};

use crate::crowd::{Crowd, fill};
use crate::run::{Run, reach, taking, text_of};
use be_fields::{get_u32, get_varint};
use disk_face::Bytes;
use page_form::{Kind, is_leaf};
use std::alloc::{AllocError, Global};

/// How many bytes a left child takes.
const LEFT_CHILD: usize = 4;

// What stands in a cell behind its left child. A short cell of an index's leaf may be filled up: what fills it isn't told.
fn body_of<'a>(text: &'a [u8], kind: Kind) -> &'a [u8]
    requires one { (usable : ℕ) × (480 ≤ usable) × IsOneCell kind usable text.now }
    requires kind { is_leaf kind && is_table kind ≡ false }
    ensures { (usable : ℕ) → 480 ≤ usable → IsOneCell kind usable text.now → result.now ≡ body_in kind usable text.now }
{
    if !is_leaf(kind) {
        return &text[LEFT_CHILD..];
    }
    if text.len() > 4 {
        return text;
    }
    let Some((payload, size)) = get_varint(text) else {
        unreachable!()
    };
    &text[..size + payload as usize]
}

/// The key of a cell of a page other than a leaf of a table: what stands behind the left child of a cell of the page above that says the same. The error is
/// want of memory.
pub fn key_at(
    alloc: Global,
    bytes: &[u8],
    u: usize,
    first: bool,
    k: usize,
) -> Result<Bytes, AllocError>
    requires shown { (node : Node) × (node_of u first bytes.now ≡ Some node) × (k < length node.cells) × (is_leaf node.kind && is_table node.kind ≡ false) }
    ensures key { IfOk result (λ key. (node : Node) → node_of u first bytes.now ≡ Some node → IsUpKey node.kind u (cell_at node k) key) }
{
    up_key(alloc, taking(bytes, u, first, 0, &[]), k)
}

// The page number of the left child of a cell, 0 on a leaf.
fn child_in(text: &[u8], kind: Kind) -> u32
    requires { (usable : ℕ) × IsOneCell kind usable text.now }
    ensures { result ≡ (if is_leaf kind then 0 else u32_at text.now 0) }
{
    if is_leaf(kind) { 0 } else { get_u32(text, 0) }
}

// The key of a cell that goes up.
fn up_key(alloc: Global, run: Run<'_>, k: usize) -> Result<Bytes, AllocError>
    requires run { (cells : List NodeCell) × IsRun run cells × (k < length cells) }
    requires kind { is_leaf run.kind && is_table run.kind ≡ false }
    ensures key { IfOk result (λ key. (cells : List NodeCell) → IsRun run.entry cells → IsUpKey run.entry.kind run.entry.u (cell_of cells k) key) }
{
    let key = Bytes::of(alloc, body_of(text_of(run, k), run.kind))?;
    Ok(key)
}

// The left child of a cell of the row.
fn child_of(run: Run<'_>, k: usize) -> u32
    requires run { (cells : List NodeCell) × IsRun run cells × (k < length cells) }
    ensures { (cells : List NodeCell) → IsRun run.entry cells → result ≡ (cell_of cells k).left }
{
    child_in(text_of(run, k), run.kind)
}

/// Divides cells in two: those that take at most the limit, and what is behind the next one. The error is want of memory.
pub(crate) fn divide_between(
    alloc: Global,
    crowd: Crowd<'_>,
    limit: usize,
    left: &mut [u8],
    bytes: &mut [u8],
) -> Result<Bytes, AllocError>
    requires cuts { (cells : List NodeCell) × CutsBetween crowd cells limit }
    requires long { (crowd.run.u ≤ length left.old) × (crowd.run.u ≤ length bytes.old) }
    ensures parts { IfOk result (λ key. (cells : List NodeCell) → CutsBetween crowd.entry cells limit
        → ShowTwo crowd.entry.run.u crowd.entry.first (whole_of crowd.entry cells) key left.new bytes.new) }
    ensures same { OnErr result ((left.new ≡ left.old) × (bytes.new ≡ bytes.old)) }
    ensures length { length left.new ≡ length left.old }
    ensures rest { KeepsOutside crowd.entry.run.u false left.old left.new × KeepsOutside crowd.entry.run.u crowd.entry.first bytes.old bytes.new }
{
    let cut = reach(crowd.run, 0, crowd.count - 2, limit);
    let key = up_key(alloc, crowd.run, cut)?;
    fill(crowd, 0, cut, left, false, child_of(crowd.run, cut));
    fill(crowd, cut + 1, crowd.count, bytes, crowd.first, crowd.right);
    Ok(key)
}
