// Entries put into indexes.
ghost use Rattle.std.specs.Prelude.{◌≡◌, OnOk, IfErr};
ghost use Rattle.page_face.specs.Pages.{Editing};
ghost use Rattle.value_form.specs.Written.{record_text};
ghost use Rattle.tree_keys.specs.Keys.{OfEntry};
ghost use Rattle.tree_insert.specs.Inserting.{PutsInEach, RefusesInsert};

use crate::fault::InsertFault;
use crate::root::insert_in_tree;
use page_face::{EditPages, FetchFault};
use std::alloc::Global;
use tree_keys::Key;
use value_form::{Row, write_record};

/// Puts an entry into the index's tree at page `root`, which stays its root and whose entries stand in the order of rows.
///
/// `Exists` comes exactly where the entry is there, and changes nothing. After another refusal the tree may be changed in part. `Size` comes as of
/// [`fresh`](EditPages::fresh), and `Corrupt` where the tree or the freelist isn't sound, or an entry is no row. One buffer of a page is taken for each level,
/// and up to three more.
pub fn insert_entry<P: EditPages>(
    alloc: Global,
    pages: &mut P,
    root: u32,
    entry: &Row,
) -> Result<(), InsertFault>
    requires ready { P.ready pages.old }
    ensures inserted { OnOk result (PutsInEach P.PagesTells pages.old (OfEntry entry.now) (record_text entry.now) root pages.new) }
    ensures refused { IfErr result (RefusesInsert P.PagesTells pages.old (OfEntry entry.now) 0 root pages.new) }
    ensures edits { Editing P.PagesTells pages.old pages.new }
{
    let mut payload = Vec::new(alloc);
    match write_record(entry, &mut payload) {
        Ok(()) => (),
        Err(_) => return Err(InsertFault::Fetch(FetchFault::Memory)),
    }
    insert_in_tree(alloc, pages, root, Key::Entry(entry), payload.as_slice())
}
