// Where a cursor begins on a page.
ghost use Rattle.std.specs.Prelude.{◌≡◌, ℕ, ◌<◌, true, length, List, Option};
ghost use Rattle.value_form.specs.declared.value.Value.{Value as SqlValue};
ghost use Rattle.page_face.specs.Pages.{ReadsAtMost};
ghost use Rattle.node_spec.specs.Cells.{NodeCell};
ghost use Rattle.node_spec.specs.Nodes.{Node, cell_at};
ghost use Rattle.page_form.specs.Reading.{IsReadPage};
ghost use Rattle.tree_scan.specs.Placing.{HasPlaced, HasTested};

use crate::bounds::{Bounds, is_below};
use crate::buffers::Buffers;
use crate::level::Level;
use crate::row::read_row;
use page_face::{FetchFault, Pages};
use page_form::read_cell;
use tree_read::{place_of, usable_of};
use value_form::Row;

// The place on a page from which on what is under it comes: that of the low bound if it is sought, else the first. In an index it compares the
// entries of the page's cells, by halving, and reads their chains.
pub(crate) fn first_place<P: Pages>(
    pages: &mut P,
    level: &Level,
    spare: &mut Buffers,
    bounds: &Bounds,
    seek: bool,
) -> Result<usize, FetchFault>
    requires ready { P.ready pages.old }
    requires page { (shown : Node) × IsReadPage (P.usable pages.old) level.now.bytes.items level.now.node shown }
    ensures placed { (shown : Node) → IsReadPage (P.usable pages.old) level.now.bytes.items level.now.node shown
        → HasPlaced P.PagesTells pages.old seek bounds.now shown level.now.page result pages.new }
    ensures reading { ReadsAtMost P.PagesTells pages.old pages.new }
{
    if !seek {
        return Ok(0);
    }
    match bounds {
        Bounds::Rows { low, .. } => match low {
            Some(rowid) => Ok(place_of(
                &level.node,
                level.bytes.as_slice(),
                usable_of(pages),
                *rowid,
            )),
            None => Ok(0),
        },
        Bounds::Entries { low, .. } => match low {
            Some(values) => values_place(pages, level, spare, values),
            None => Ok(0),
        },
    }
}

// The place of the first cell of an index's page whose row isn't under a bound, by halving. Where the rows don't rise it is still a place between two
// that fit.
fn values_place<P: Pages>(
    pages: &mut P,
    level: &Level,
    spare: &mut Buffers,
    values: &Row,
) -> Result<usize, FetchFault>
    requires ready { P.ready pages.old }
    requires page { (shown : Node) × IsReadPage (P.usable pages.old) level.now.bytes.items level.now.node shown }
    ensures placed { (high : Option (List SqlValue)) (shown : Node) → IsReadPage (P.usable pages.old) level.now.bytes.items level.now.node shown
        → HasPlaced P.PagesTells pages.old true (Bounds.Entries (Some values.now) high) shown level.now.page result pages.new }
    ensures reading { ReadsAtMost P.PagesTells pages.old pages.new }
{
    let mut low = 0;
    let mut high = level.node.cells.len();
    'halves: while low < high {
        let middle = low + (high - low) / 2;
        match is_under(pages, level, middle, spare, values) {
            Ok(true) => low = middle + 1,
            Ok(false) => high = middle,
            Err(why) => return Err(why),
        }
    }
    Ok(low)
}

// Whether the row of a cell is under a bound.
fn is_under<P: Pages>(
    pages: &mut P,
    level: &Level,
    k: usize,
    spare: &mut Buffers,
    values: &Row,
) -> Result<bool, FetchFault>
    requires ready { P.ready pages.old }
    requires cell { (shown : Node) × (IsReadPage (P.usable pages.old) level.now.bytes.items level.now.node shown × (k < length shown.cells)) }
    ensures tested { (shown : Node) → IsReadPage (P.usable pages.old) level.now.bytes.items level.now.node shown
        → HasTested P.PagesTells pages.old (cell_at shown k) level.now.page values.now result pages.new }
    ensures reading { ReadsAtMost P.PagesTells pages.old pages.new }
{
    let cell = read_cell(&level.node, level.bytes.as_slice(), usable_of(pages), k);
    match read_row(pages, level, &cell, spare) {
        Ok(row) => Ok(is_below(&row, values)),
        Err(why) => Err(why),
    }
}
