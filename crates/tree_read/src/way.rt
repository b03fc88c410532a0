// Ways down a table's tree.
ghost use Rattle.std.specs.Prelude.{◌≡◌, ◌≤◌, length, IfOk, IfErr};
ghost use Rattle.engine_spec.specs.declared.commits.FetchFault.TheVariants as fault;
ghost use Rattle.page_face.specs.Pages.{ReadsAtMost};
ghost use Rattle.tree_read.specs.Looking.{HasDescended, IsBarred};

use crate::node::{is_outside, read_node};
use crate::place::{Aim, next_child};
use page_face::{FetchFault, Pages};
use page_form::{Page, is_leaf};
use std::alloc::{AllocError, Global};

// A leaf that a way down came to.
#[derive(Drop)]
pub(crate) struct Leaf {
    pub(crate) page: u32,
    pub(crate) node: Page,
}

// Goes down from the root towards an aim to a leaf, whose bytes the buffer then has.
pub(crate) fn descend<P: Pages>(
    alloc: Global,
    pages: &mut P,
    root: u32,
    aim: Aim,
    buf: &mut [u8],
) -> Result<Leaf, FetchFault>
    requires ready { P.ready pages.old }
    requires root { (1 ≤ root) × (root ≤ P.last_page pages.old) }
    requires room { length buf.old ≡ P.page_size pages.old }
    ensures leaf { IfOk result (λ leaf. HasDescended P.PagesTells pages.old root aim buf.new leaf pages.new) }
    ensures barred { IfErr result (λ why. IsBarred P.PagesTells pages.old root aim why pages.new) }
    ensures reading { ReadsAtMost P.PagesTells pages.old pages.new }
    ensures room { length buf.new ≡ length buf.old }
{
    let usable = pages.usable();
    let last = pages.last();
    let mut page = root;
    let mut level = 0;
    'levels: loop {
        let node = match read_node(alloc, pages, true, page, level, buf) {
            Ok(node) => node,
            Err(why) => return Err(why),
        };
        if is_leaf(node.kind) {
            return Ok(Leaf { page, node });
        }
        let child = next_child(&node, buf, usable, aim);
        if is_outside(child, last) {
            return Err(FetchFault::Corrupt { page });
        }
        page = child;
        level += 1;
    }
}

/// A buffer of so many bytes.
pub fn page_buffer(alloc: Global, size: usize) -> Result<Vec<u8>, FetchFault>
    ensures room { IfOk result (λ buf. length buf.items ≡ size) }
    ensures cause { IfErr result (λ why. why ≡ fault.Memory) }
{
    match vec![in alloc; 0; size] {
        Ok(buf) => Ok(buf),
        Err(_) => Err(FetchFault::Memory),
    }
}
