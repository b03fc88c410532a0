// A row found by its rowid.
ghost use Rattle.std.specs.Prelude.{◌≡◌, ◌≤◌, length, IfOk, IfErr};
ghost use Rattle.page_face.specs.Pages.{ReadsAtMost};
ghost use Rattle.tree_read.specs.Looking.{FindsRow, FailsRow, HasLooked};

use crate::node::usable_of;
use crate::place::{Aim, cell_of};
use crate::row::read_row;
use crate::way::{descend, page_buffer};
use page_face::{FetchFault, Pages};
use std::alloc::Global;
use value_form::Row;

/// The row of a rowid in the table's tree at page `root`, None where it has none.
///
/// `Corrupt` names `root` where that is out of range; the page that was fetched last where that is no page's text, stands where it may
/// not (by its kind, more than 40 levels below the root, or without a cell), or names a page out of range; and the row's page where
/// its payload is no record without a float, or has 2^32 bytes or more: then no page of its chain is read. `Disk` and `Memory`
/// come from outside. One page is fetched for each level, and those of the row's chain. One buffer of a page is made.
pub fn find_row<P: Pages>(
    alloc: Global,
    pages: &mut P,
    root: u32,
    rowid: i64,
) -> Result<Option<Row>, FetchFault>
    requires ready { P.ready pages.old }
    ensures found { IfOk result (λ found. FindsRow P.PagesTells pages.old root rowid found pages.new) }
    ensures sound { IfErr result (λ why. FailsRow P.PagesTells pages.old root rowid why pages.new) }
    ensures looked { HasLooked P.PagesTells pages.old root rowid result pages.new }
    ensures reading { ReadsAtMost P.PagesTells pages.old pages.new }
{
    look_up(alloc, pages, root, rowid)
}

// The same, said of the pages alone.
fn look_up<P: Pages>(
    alloc: Global,
    pages: &mut P,
    root: u32,
    rowid: i64,
) -> Result<Option<Row>, FetchFault>
    requires ready { P.ready pages.old }
    ensures looked { HasLooked P.PagesTells pages.old root rowid result pages.new }
    ensures reading { ReadsAtMost P.PagesTells pages.old pages.new }
{
    if root < 1 || root > pages.last() {
        return Err(FetchFault::Corrupt { page: root });
    }
    let mut buf = match page_buffer(alloc, pages.page_size()) {
        Ok(buf) => buf,
        Err(why) => return Err(why),
    };
    look_with(alloc, pages, root, rowid, buf.as_mut_slice())
}

// The same with a buffer of one page, and a root in range.
fn look_with<P: Pages>(
    alloc: Global,
    pages: &mut P,
    root: u32,
    rowid: i64,
    buf: &mut [u8],
) -> Result<Option<Row>, FetchFault>
    requires ready { P.ready pages.old }
    requires root { (1 ≤ root) × (root ≤ P.last_page pages.old) }
    requires room { length buf.old ≡ P.page_size pages.old }
    ensures looked { HasLooked P.PagesTells pages.old root rowid result pages.new }
    ensures reading { ReadsAtMost P.PagesTells pages.old pages.new }
{
    let leaf = match descend(alloc, pages, root, Aim::Rowid(rowid), buf) {
        Ok(leaf) => leaf,
        Err(why) => return Err(why),
    };
    let usable = usable_of(pages);
    let Some(cell) = cell_of(&leaf.node, buf, usable, rowid) else {
        return Ok(None);
    };
    match read_row(alloc, pages, leaf.page, leaf.node.kind, &cell, buf) {
        Ok(row) => Ok(Some(row)),
        Err(why) => Err(why),
    }
}
