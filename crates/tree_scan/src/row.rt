// The item of the cell that comes next on a path.
ghost use Rattle.std.specs.Prelude.{◌≡◌, ◌≤◌, true, List, [], ◌∷◌, ◌++◌, length, IfOk, IfErr, MatchOption};
ghost use Rattle.node_spec.specs.Cells.{NodeCell};
ghost use Rattle.page_face.specs.Pages.{ReadsAtMost};
ghost use Rattle.page_form.specs.Reading.{TellsCell};
ghost use Rattle.tree_read.specs.Payloads.{HasReadRow};
ghost use Rattle.tree_scan.specs.Bounded.{of_table};
ghost use Rattle.tree_scan.specs.Coming.{IsSpent};
ghost use Rattle.tree_scan.specs.Reads.{HasTaken};
ghost use Rattle.tree_scan.specs.Scanning.{AreLevels, TakesNext, IsBarred, BreaksNextRow};
ghost use Rattle.tree_scan.specs.declared.level.Level.{Level};

use crate::bounds::{Bounds, given, is_key_over};
use crate::buffers::Buffers;
use crate::level::Level;
use page_face::{FetchFault, Pages};
use page_form::{Cell, read_cell};
use tree_read::{local_of, row_of, usable_of};
use value_form::Row;

// The row of the cell that comes next, with its number; None where there is no level, or where it is over the bound.
pub(crate) fn row_at<P: Pages>(
    pages: &mut P,
    levels: &Vec<Level>,
    bounds: &Bounds,
    spare: &mut Buffers,
) -> Result<Option<(i64, Row)>, FetchFault>
    requires ready { P.ready pages.old }
    requires levels { AreLevels (of_table bounds.now) P.PagesTells pages.old levels.now.items }
    requires cell { (above : List Level) (top : Level) → levels.now.items ≡ above ++ top ∷ [] → top.at_cell ≡ true }
    requires left { (above : List Level) (top : Level) → levels.now.items ≡ above ++ top ∷ [] → IsSpent top → ⊥ }
    ensures takes { IfOk result (λ found. TakesNext P.PagesTells pages.old bounds.now levels.now.items found pages.new) }
    ensures taken { HasTaken (of_table bounds.now) P.PagesTells pages.old levels.now.items result pages.new }
    ensures there { IfOk result (λ found. MatchOption found (Unit {0}) (λ _. 1 ≤ length levels.now.items)) }
    ensures barred { IfErr result (IsBarred P.PagesTells pages.old pages.new
        (λ shown. BreaksNextRow (P.usable pages.old) (P.last_page pages.old) shown bounds.now levels.now.items)) }
    ensures reading { ReadsAtMost P.PagesTells pages.old pages.new }
{
    let count = levels.len();
    if count == 0 {
        return Ok(None);
    }
    let top = &levels[count - 1];
    let usable = usable_of(pages);
    let cell = read_cell(&top.node, top.bytes.as_slice(), usable, top.place);
    if is_key_over(bounds, cell.rowid) {
        return Ok(None);
    }
    match read_row(pages, top, &cell, spare) {
        Ok(row) => Ok(given(bounds, cell.rowid, row)),
        Err(why) => Err(why),
    }
}

// The row of a cell of a level's page.
pub(crate) fn read_row<P: Pages>(
    pages: &mut P,
    level: &Level,
    cell: &Cell,
    spare: &mut Buffers,
) -> Result<Row, FetchFault>
    requires ready { P.ready pages.old }
    requires small { P.usable pages.old ≤ 65536 }
    requires cell { (node : NodeCell) × TellsCell (P.usable pages.old) level.now.node.kind level.now.bytes.items cell.now node }
    ensures row { (node : NodeCell) → TellsCell (P.usable pages.old) level.now.node.kind level.now.bytes.items cell.now node
        → HasReadRow P.PagesTells pages.old node level.now.page result pages.new }
    ensures reading { ReadsAtMost P.PagesTells pages.old pages.new }
{
    let local = match local_of(spare.alloc, cell, level.node.kind, level.bytes.as_slice()) {
        Ok(local) => local,
        Err(why) => return Err(why),
    };
    let mut room = match spare.take(pages.page_size()) {
        Ok(room) => room,
        Err(why) => return Err(why),
    };
    let row = row_of(
        spare.alloc,
        pages,
        level.page,
        cell,
        local,
        room.as_mut_slice(),
    );
    spare.keep(room);
    row
}
