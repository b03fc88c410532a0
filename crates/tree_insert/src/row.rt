// Rows put into tables.
ghost use Rattle.std.specs.Prelude.{◌≡◌, OnOk, IfErr};
ghost use Rattle.page_face.specs.Pages.{Editing};
ghost use Rattle.value_form.specs.Written.{record_text};
ghost use Rattle.tree_keys.specs.Keys.{OfRow};
ghost use Rattle.tree_insert.specs.Inserting.{PutsInEach, RefusesInsert};

use crate::fault::InsertFault;
use crate::root::insert_in_tree;
use page_face::{EditPages, FetchFault};
use std::alloc::Global;
use tree_keys::Key;
use value_form::{Row, write_record};

/// Puts a row into the table's tree at page `root`, which stays its root.
///
/// `Exists` comes exactly where the rowid is there, and changes nothing. After another refusal the tree may be changed in part. `Size` comes as of
/// [`fresh`](EditPages::fresh), and `Corrupt` where the tree or the freelist isn't sound. One buffer of a page is taken for each level, and up to three more.
pub fn insert_row<P: EditPages>(
    alloc: Global,
    pages: &mut P,
    root: u32,
    rowid: i64,
    row: &Row,
) -> Result<(), InsertFault>
    requires ready { P.ready pages.old }
    ensures inserted { OnOk result (PutsInEach P.PagesTells pages.old (OfRow rowid) (record_text row.now) root pages.new) }
    ensures refused { IfErr result (RefusesInsert P.PagesTells pages.old (OfRow rowid) 0 root pages.new) }
    ensures edits { Editing P.PagesTells pages.old pages.new }
{
    let mut payload = Vec::new(alloc);
    match write_record(row, &mut payload) {
        Ok(()) => (),
        Err(_) => return Err(InsertFault::Fetch(FetchFault::Memory)),
    }
    insert_in_tree(alloc, pages, root, Key::Rowid(rowid), payload.as_slice())
}
