// The cell of a row or an entry, with its chain.
ghost use Rattle.std.specs.Prelude.{IfOk, IfErr};
ghost use Rattle.page_face.specs.Pages.{Editing};
ghost use Rattle.overflow.specs.Writing.{BarsWriting};
ghost use Rattle.tree_keys.specs.Keys.{sought_by};
ghost use Rattle.tree_insert.specs.Inserting.{MakesCell};

use disk_face::Bytes;
use node_edit::leaf_cell;
use overflow::write_chain;
use page_face::{EditPages, FetchFault};
use page_form::local_size;
use std::alloc::Global;
use tree_keys::Key;
use tree_read::usable_of;

/// Makes the cell of a payload, and the chain of what the cell doesn't store.
pub(crate) fn make_cell<P: EditPages>(
    alloc: Global,
    pages: &mut P,
    key: Key,
    payload: &[u8],
) -> Result<Bytes, FetchFault>
    requires ready { P.ready pages.old }
    ensures made { IfOk result (λ text. MakesCell P.PagesTells pages.old (sought_by key.entry) payload.now text pages.new) }
    ensures stopped { IfErr result (λ why. BarsWriting P.PagesTells pages.old why pages.new) }
    ensures edits { Editing P.PagesTells pages.old pages.new }
{
    let usable = usable_of(pages);
    let local = local_size(key.is_rowid(), usable, payload.len() as u64);
    let first = match write_chain(alloc, pages, &payload[local..]) {
        Ok(first) => first,
        Err(why) => return Err(why),
    };
    match leaf_cell(alloc, usable, key.rowid(), payload, first) {
        Ok(cell) => Ok(cell),
        Err(_) => Err(FetchFault::Memory),
    }
}
