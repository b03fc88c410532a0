// The last rowid of a table.
ghost use Rattle.std.specs.Prelude.{◌≡◌, ◌≤◌, length, IfOk, IfErr};
ghost use Rattle.page_face.specs.Pages.{ReadsAtMost};
ghost use Rattle.tree_read.specs.Looking.{FindsLast, FailsLast, HasLookedLast};

use crate::node::usable_of;
use crate::place::{Aim, last_rowid};
use crate::way::{descend, page_buffer};
use page_face::{FetchFault, Pages};
use std::alloc::Global;

/// The greatest rowid of the table's tree at page `root`, None where it has no row.
///
/// `Corrupt` names `root` where that is out of range, else the page that was fetched last where that is no page's text, stands where it
/// may not (by its kind, more than 40 levels below the root, or without a cell), or names a page out of range. `Disk` and `Memory` come
/// from outside. One page is fetched for each level: the way along the right children. One buffer of a page is made.
pub fn last_row<P: Pages>(
    alloc: Global,
    pages: &mut P,
    root: u32,
) -> Result<Option<i64>, FetchFault>
    requires ready { P.ready pages.old }
    ensures found { IfOk result (λ found. FindsLast P.PagesTells pages.old root found pages.new) }
    ensures sound { IfErr result (λ why. FailsLast P.PagesTells pages.old root why pages.new) }
    ensures looked { HasLookedLast P.PagesTells pages.old root result pages.new }
    ensures reading { ReadsAtMost P.PagesTells pages.old pages.new }
{
    look_last(alloc, pages, root)
}

// The same, said of the pages alone.
fn look_last<P: Pages>(alloc: Global, pages: &mut P, root: u32) -> Result<Option<i64>, FetchFault>
    requires ready { P.ready pages.old }
    ensures looked { HasLookedLast P.PagesTells pages.old root result pages.new }
    ensures reading { ReadsAtMost P.PagesTells pages.old pages.new }
{
    if root < 1 || root > pages.last() {
        return Err(FetchFault::Corrupt { page: root });
    }
    let mut buf = match page_buffer(alloc, pages.page_size()) {
        Ok(buf) => buf,
        Err(why) => return Err(why),
    };
    last_with(alloc, pages, root, buf.as_mut_slice())
}

// The same with a buffer of one page, and a root in range.
fn last_with<P: Pages>(
    alloc: Global,
    pages: &mut P,
    root: u32,
    buf: &mut [u8],
) -> Result<Option<i64>, FetchFault>
    requires ready { P.ready pages.old }
    requires root { (1 ≤ root) × (root ≤ P.last_page pages.old) }
    requires room { length buf.old ≡ P.page_size pages.old }
    ensures looked { HasLookedLast P.PagesTells pages.old root result pages.new }
    ensures reading { ReadsAtMost P.PagesTells pages.old pages.new }
{
    match descend(alloc, pages, root, Aim::Last, buf) {
        Ok(leaf) => Ok(last_rowid(&leaf.node, buf, usable_of(pages))),
        Err(why) => Err(why),
    }
}
