// Where keys stand among the cells of a page.
ghost use Rattle.std.specs.Prelude.{◌≡◌, false, length};
ghost use Rattle.page_face.specs.Pages.{ReadsAtMost};
ghost use Rattle.node_spec.specs.Nodes.{Node};
ghost use Rattle.page_form.specs.Reading.{IsReadPage};
ghost use Rattle.tree_read.specs.Entries.{IsSpotWithin};
ghost use Rattle.tree_keys.specs.Keys.{sought_by, is_row};
ghost use Rattle.tree_keys.specs.Spots.{IsRowSpot, HasSpot};

use crate::key::Key;
use page_face::{FetchFault, Pages};
use page_form::{Page, is_leaf, read_cell};
use std::alloc::Global;
use tree_read::{Spot, page_buffer, place_of, seek, usable_of};

/// Where a key stands among the cells of a page that was read.
///
/// For a rowid nothing is fetched. For an entry the pages of the chains of the cells that are compared are, as of [`seek`], and one buffer of a page is made.
pub fn place_in<P: Pages>(
    alloc: Global,
    pages: &mut P,
    page: u32,
    node: &Page,
    bytes: &[u8],
    key: Key,
) -> Result<Spot, FetchFault>
    requires ready { P.ready pages.old }
    requires page { (shown : Node) × IsReadPage (P.usable pages.old) bytes.now node.now shown }
    ensures spot { (shown : Node) → IsReadPage (P.usable pages.old) bytes.now node.now shown → HasSpot P.PagesTells pages.old (sought_by key.entry) shown page result pages.new }
    ensures within { (shown : Node) → IsReadPage (P.usable pages.old) bytes.now node.now shown → IsSpotWithin (length shown.cells) result }
    ensures reading { ReadsAtMost P.PagesTells pages.old pages.new }
{
    if key.is_rowid() {
        return spot_of(alloc, pages, page, node, bytes, key, &mut []);
    }
    let mut room = match page_buffer(alloc, pages.page_size()) {
        Ok(room) => room,
        Err(why) => return Err(why),
    };
    spot_of(alloc, pages, page, node, bytes, key, room.as_mut_slice())
}

// Looks for the place of a key among the cells of a page. For a rowid the room may be empty.
fn spot_of<P: Pages>(
    alloc: Global,
    pages: &mut P,
    page: u32,
    node: &Page,
    bytes: &[u8],
    key: Key,
    room: &mut [u8],
) -> Result<Spot, FetchFault>
    requires ready { P.ready pages.old }
    requires room { is_row (sought_by key) ≡ false → length room.old ≡ P.page_size pages.old }
    requires page { (shown : Node) × IsReadPage (P.usable pages.old) bytes.now node.now shown }
    ensures spot { (shown : Node) → IsReadPage (P.usable pages.old) bytes.now node.now shown → HasSpot P.PagesTells pages.old (sought_by key.entry) shown page result pages.new }
    ensures within { (shown : Node) → IsReadPage (P.usable pages.old) bytes.now node.now shown → IsSpotWithin (length shown.cells) result }
    ensures reading { ReadsAtMost P.PagesTells pages.old pages.new }
{
    let usable = usable_of(pages);
    match key {
        Key::Rowid(rowid) => Ok(spot_of_row(node, bytes, usable, rowid)),
        Key::Entry(entry) => seek(alloc, pages, page, node, bytes, entry, room),
    }
}

// The place of a rowid. An interior cell with it says where its row stands, if there is one.
fn spot_of_row(node: &Page, bytes: &[u8], u: usize, rowid: i64) -> Spot
    requires { (shown : Node) × IsReadPage u bytes.now node.now shown }
    ensures { (shown : Node) → IsReadPage u bytes.now node.now shown → IsRowSpot shown rowid result }
{
    let place = place_of(node, bytes, u, rowid);
    if !is_leaf(node.kind) || place >= node.cells.len() {
        return Spot::Before(place);
    }
    if read_cell(node, bytes, u, place).rowid == rowid {
        Spot::At
    } else {
        Spot::Before(place)
    }
}
