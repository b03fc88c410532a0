// Pages divided that have no room for some cells.
ghost use Rattle.std.specs.Prelude.{◌≡◌, ◌+◌, ◌*◌, ◌<◌, ◌≤◌, ◌&&◌, Some, true, false, List, length, IfOk, OnErr};
ghost use Rattle.node_spec.specs.Kinds.{pointers_at, is_leaf, is_table};
ghost use Rattle.node_spec.specs.Cells.{NodeCell};
ghost use Rattle.node_spec.specs.Nodes.{Node, node_of};
ghost use Rattle.page_edit.specs.Forms.{KeepsOutside};
ghost use Rattle.edit_spec.specs.Nodes.{node_taking};
ghost use Rattle.node_edit.specs.Runs.{spelled_by, weight_of};
ghost use Rattle.node_edit.specs.Dividing.{IsCrowded, IsCrowd, ShowParts, AreTwo};

use crate::between::divide_between;
use crate::crowd::{Crowd, copy_usable, crowd_of};
use crate::head::head_of;
use crate::leaves::divide_rows;
use crate::run::weigh;
use disk_face::Bytes;
use page_form::{is_leaf, is_table, pointers_at};
use std::alloc::{AllocError, Global};

/// The keys between the parts of a page that was divided. Behind the number of the page to its left each is the cell for that page above.
#[derive(Debug, Drop)]
pub enum Divided {
    /// The page to the left and the page itself show the parts.
    Two {
        /// The key between them.
        key: Bytes,
    },
    /// Two pages to the left and the page itself show the parts.
    Three {
        /// The key behind the first one.
        low: Bytes,
        /// The key behind the second one.
        high: Bytes,
    },
}

/// Up to which weight the first part is filled: all of its page where cells are put at the end, as they are in rising order, else half of all.
pub(crate) fn limit_of(crowd: Crowd<'_>, at_end: bool) -> usize
    requires crowd { (cells : List NodeCell) × IsCrowd crowd cells × (weight_of cells ≤ 131072) }
    ensures end { at_end ≡ true → result + pointers_at false crowd.entry.run.kind ≡ crowd.entry.run.u }
    ensures half { at_end ≡ false → (cells : List NodeCell) → IsCrowd crowd.entry cells → (2 * result ≤ weight_of cells) × (weight_of cells ≤ 2 * result + 1) }
{
    if at_end {
        return crowd.run.u - pointers_at(false, crowd.run.kind);
    }
    weigh(crowd.run, crowd.count) / 2
}

/// Divides a page that has no room for cells before the one at a place: the page keeps the last part, and the others go to the pages to the left, whatever
/// stood there. The error is want of memory, before the page is changed.
///
/// A leaf of a table is asked to take one cell, and isn't page 1: there a large cell can leave no way to divide it, so it is first copied to another page.
/// It is divided in three where a large cell comes between others. Another page takes one or two cells, and is divided in two. `spare` gets the page's
/// old bytes.
pub fn divide(
    alloc: Global,
    bytes: &mut [u8],
    left: &mut [u8],
    middle: &mut [u8],
    spare: &mut [u8],
    u: usize,
    first: bool,
    at: usize,
    news: &[Bytes],
) -> Result<Divided, AllocError>
    requires crowded { (node : Node) × (node_of u first bytes.old ≡ Some node) × IsCrowded u first node at news.now }
    requires long { (u ≤ length left.old) × (u ≤ length middle.old) × (u ≤ length spare.old) }
    ensures parts { IfOk result (λ divided. (node : Node) → node_of u first bytes.old ≡ Some node
        → ShowParts u first (node_taking node at (spelled_by node.kind u news.now)) left.new middle.new bytes.new divided) }
    ensures two { IfOk result (λ divided. (node : Node) → node_of u first bytes.old ≡ Some node → is_leaf node.kind && is_table node.kind ≡ false → AreTwo divided) }
    ensures same { OnErr result (bytes.new ≡ bytes.old) }
    ensures lengths { (length left.new ≡ length left.old) × (length middle.new ≡ length middle.old) × (length spare.new ≡ length spare.old) }
    ensures rest { KeepsOutside u first bytes.old bytes.new }
{
    let count = head_of(bytes, u, first).count;
    copy_usable(bytes, spare, u);
    let crowd = crowd_of(spare, u, first, at, news);
    let limit = limit_of(crowd, at == count);
    if is_leaf(crowd.run.kind) && is_table(crowd.run.kind) {
        return divide_rows(alloc, crowd, at, limit, left, middle, bytes);
    }
    let key = divide_between(alloc, crowd, limit, left, bytes)?;
    Ok(Divided::Two { key })
}
