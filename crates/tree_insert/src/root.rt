// A whole tree: its root, which keeps its number.
ghost use Rattle.std.specs.Prelude.{◌≡◌, ℕ, ◌≤◌, ◌==◌, ◌&&◌, true, false, length, OnOk, IfErr};
ghost use Rattle.page_face.specs.Pages.{Editing};
ghost use Rattle.node_spec.specs.Kinds.{is_leaf, is_table};
ghost use Rattle.node_spec.specs.Nodes.{Node};
ghost use Rattle.tree_keys.specs.Keys.{sought_by, is_row};
ghost use Rattle.tree_insert.specs.Inserting.{RefusesInsert, PutsTreeEach};
ghost use Rattle.tree_keys.specs.Standing.{IsAtHand};

use crate::descend::insert_from;
use crate::fault::InsertFault;
use crate::first::insert_in_first;
use page_face::{EditPages, FetchFault};
use page_form::{Page, is_leaf};
use std::alloc::Global;
use tree_edit::raise_root;
use tree_keys::Key;
use tree_read::{page_buffer, read_node};

/// Puts a key with its payload into the tree of a root.
pub(crate) fn insert_in_tree<P: EditPages>(
    alloc: Global,
    pages: &mut P,
    root: u32,
    key: Key,
    payload: &[u8],
) -> Result<(), InsertFault>
    requires ready { P.ready pages.old }
    ensures inserted { OnOk result (PutsTreeEach P.PagesTells pages.old (sought_by key.entry) payload.now root pages.new) }
    ensures refused { IfErr result (RefusesInsert P.PagesTells pages.old (sought_by key.entry) 0 root pages.new) }
    ensures edits { Editing P.PagesTells pages.old pages.new }
{
    if root < 1 || root > pages.last() {
        return Err(InsertFault::Fetch(FetchFault::Corrupt { page: root }));
    }
    let mut buf = match page_buffer(alloc, pages.page_size()) {
        Ok(buf) => buf,
        Err(why) => return Err(InsertFault::Fetch(why)),
    };
    insert_at_root(alloc, pages, root, key, payload, buf.as_mut_slice())
}

// The same, with a buffer and a root in range.
fn insert_at_root<P: EditPages>(
    alloc: Global,
    pages: &mut P,
    root: u32,
    key: Key,
    payload: &[u8],
    buf: &mut [u8],
) -> Result<(), InsertFault>
    requires ready { P.ready pages.old }
    requires root { (1 ≤ root) × (root ≤ P.last_page pages.old) }
    requires room { length buf.old ≡ P.page_size pages.old }
    ensures inserted { OnOk result (PutsTreeEach P.PagesTells pages.old (sought_by key.entry) payload.now root pages.new) }
    ensures refused { IfErr result (RefusesInsert P.PagesTells pages.old (sought_by key.entry) 0 root pages.new) }
    ensures edits { Editing P.PagesTells pages.old pages.new }
{
    let node = match read_node(alloc, pages, key.is_rowid(), root, 0, buf) {
        Ok(node) => node,
        Err(why) => return Err(InsertFault::Fetch(why)),
    };
    match insert_at_node(alloc, pages, root, &node, key, payload, buf) {
        Ok(()) => Ok(()),
        Err(why) => Err(why),
    }
}

// The same, with the root's node.
fn insert_at_node<P: EditPages>(
    alloc: Global,
    pages: &mut P,
    root: u32,
    node: &Page,
    key: Key,
    payload: &[u8],
    buf: &mut [u8],
) -> Result<(), InsertFault>
    requires ready { P.ready pages.old }
    requires root { (1 ≤ root) × (root ≤ P.last_page pages.old) }
    requires room { length buf.old ≡ P.page_size pages.old }
    requires read { (shown : Node) × IsAtHand P.PagesTells pages.old (sought_by key) root 0 buf.old node.now shown }
    ensures inserted { OnOk result (PutsTreeEach P.PagesTells pages.old (sought_by key.entry) payload.now root pages.new) }
    ensures refused { IfErr result (RefusesInsert P.PagesTells pages.old (sought_by key.entry) 0 root pages.new) }
    ensures edits { Editing P.PagesTells pages.old pages.new }
{
    if is_first_leaf(root, node, key) {
        insert_in_first(alloc, pages, node, key, payload, buf)
    } else {
        insert_and_raise(alloc, pages, root, node, key, payload, buf)
    }
}

// Whether a root is page 1 and a leaf of a table.
fn is_first_leaf(root: u32, node: &Page, key: Key) -> bool
    ensures yes { result ≡ true → (root ≡ 1) × (is_leaf node.now.kind ≡ true) × (is_row (sought_by key.entry) ≡ true) }
    ensures no { result ≡ false → root == 1 ≡ true → is_row (sought_by key.entry) ≡ true → is_leaf node.now.kind ≡ false }
{
    root == 1 && key.is_rowid() && is_leaf(node.kind)
}

// Puts a key into the tree of a root that isn't page 1 with a table's rows. Where it has new siblings then, it grows by a level.
fn insert_and_raise<P: EditPages>(
    alloc: Global,
    pages: &mut P,
    root: u32,
    node: &Page,
    key: Key,
    payload: &[u8],
    buf: &mut [u8],
) -> Result<(), InsertFault>
    requires ready { P.ready pages.old }
    requires root { (1 ≤ root) × (root ≤ P.last_page pages.old) }
    requires room { length buf.old ≡ P.page_size pages.old }
    requires read { (shown : Node) × IsAtHand P.PagesTells pages.old (sought_by key) root 0 buf.old node.now shown }
    requires first { root == 1 ≡ true → is_leaf node.now.kind && is_table node.now.kind ≡ false }
    ensures inserted { OnOk result (PutsTreeEach P.PagesTells pages.old (sought_by key.entry) payload.now root pages.new) }
    ensures refused { IfErr result (RefusesInsert P.PagesTells pages.old (sought_by key.entry) 0 root pages.new) }
    ensures edits { Editing P.PagesTells pages.old pages.new }
{
    let news = match insert_from(alloc, pages, root, 0, node, key, payload, buf) {
        Ok(news) => news,
        Err(why) => return Err(why),
    };
    if news.is_empty() {
        return Ok(());
    }
    match raise_root(alloc, pages, key.is_rowid(), root, news.as_slice()) {
        Ok(_) => Ok(()),
        Err(why) => Err(InsertFault::Fetch(why)),
    }
}
