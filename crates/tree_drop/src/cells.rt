// Payloads whose chains are given up.
ghost use Rattle.std.specs.Prelude.{◌≡◌, Bool, length, OnOk, IfErr};
ghost use Rattle.page_face.specs.Pages.{Editing};
ghost use Rattle.node_spec.specs.Cells.{NodeCell};
ghost use Rattle.node_spec.specs.Nodes.{Node};
ghost use Rattle.page_form.specs.Reading.{IsReadPage};
ghost use Rattle.tree_drop.specs.Parts.{DropsOn, BarsOn, SaysCell, HasChain, HaveChains};

use overflow::free_chain_with;
use page_face::{EditPages, FetchFault};
use page_form::{Cell, Page, read_cell};
use tree_read::{is_outside, usable_of};

/// Gives up the chains of the cells of a page, which is a leaf.
pub(crate) fn free_payloads<P: EditPages>(
    pages: &mut P,
    page: u32,
    node: &Page,
    bytes: &[u8],
    room: &mut [u8],
) -> Result<(), FetchFault>
    requires ready { P.ready pages.old }
    requires read { (shown : Node) × IsReadPage (P.usable pages.old) bytes.now node.now shown }
    requires room { length room.old ≡ P.page_size pages.old }
    ensures dropped { OnOk result ((shown : Node) → IsReadPage (P.usable pages.old) bytes.now node.now shown
        → (table : Bool) → DropsOn P.PagesTells pages.old (HaveChains table shown.cells) pages.new) }
    ensures refused { IfErr result (λ why. (shown : Node) → IsReadPage (P.usable pages.old) bytes.now node.now shown
        → (table : Bool) → BarsOn P.PagesTells pages.old (HaveChains table shown.cells) pages.new why) }
    ensures last { P.last_page pages.new ≡ P.last_page pages.old }
    ensures edits { Editing P.PagesTells pages.old pages.new }
    ensures room { length room.new ≡ length room.old }
{
    let usable = usable_of(pages);
    for k in 0..node.cells.len() {
        let cell = read_cell(node, bytes, usable, k);
        match free_payload(pages, page, &cell, room) {
            Ok(()) => (),
            Err(why) => return Err(why),
        }
    }
    Ok(())
}

/// Gives up the chain of a cell of a page, if its payload has one. One that begins out of range is the page's fault.
pub(crate) fn free_payload<P: EditPages>(
    pages: &mut P,
    page: u32,
    cell: &Cell,
    room: &mut [u8],
) -> Result<(), FetchFault>
    requires ready { P.ready pages.old }
    requires room { length room.old ≡ P.page_size pages.old }
    ensures dropped { OnOk result ((told : NodeCell) → SaysCell cell.now told → DropsOn P.PagesTells pages.old (HasChain told) pages.new) }
    ensures refused { IfErr result (λ why. (told : NodeCell) → SaysCell cell.now told → BarsOn P.PagesTells pages.old (HasChain told) pages.new why) }
    ensures last { P.last_page pages.new ≡ P.last_page pages.old }
    ensures edits { Editing P.PagesTells pages.old pages.new }
    ensures room { length room.new ≡ length room.old }
{
    let left = cell.payload.saturating_sub(cell.local as u64);
    if left == 0 {
        return Ok(());
    }
    if is_outside(cell.overflow, pages.last()) {
        return Err(FetchFault::Corrupt { page });
    }
    free_chain_with(pages, cell.overflow, left, room)
}
