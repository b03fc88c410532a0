// Page 1 as a leaf of a table's rows. A cell of nearly a whole page may have no room on it, however its cells are divided, since 100 bytes of the page are
// the database's header. Where a cell has no room, all cells go to a page of their own, which takes it or is divided, and to which page 1 leads then.
ghost use Rattle.std.specs.Prelude.{◌≡◌, ℕ, ◌≤◌, true, [], ◌∷◌, length, All, OnOk, IfErr, Some};
ghost use Rattle.page_spec.specs.View.{View};
ghost use Rattle.page_face.specs.Pages.{Editing};
ghost use Rattle.node_spec.specs.declared.kinds.Kind.TheVariants as kind;
ghost use Rattle.node_spec.specs.Kinds.{is_leaf};
ghost use Rattle.node_spec.specs.Cells.{IsOneCell};
ghost use Rattle.node_spec.specs.Nodes.{Node, node_of};
ghost use Rattle.overflow.specs.Writing.{BarsWriting};
ghost use Rattle.edit_spec.specs.Nodes.{node_taking};
ghost use Rattle.node_edit.specs.Runs.{spelled_by};
ghost use Rattle.tree_keys.specs.Keys.{sought_by, is_row};
ghost use Rattle.tree_insert.specs.Inserting.{RefusesInsert, PutsTreeEach, TakesFirst, MovesFirst};
ghost use Rattle.tree_keys.specs.Standing.{IsAtHand};

use crate::cell::make_cell;
use crate::fault::InsertFault;
use disk_face::Bytes;
use node_edit::{copy_node, put_cells, start_inner};
use page_face::{EditPages, FetchFault};
use page_form::{Kind, Page};
use std::alloc::Global;
use tree_edit::{make_page, settle, store};
use tree_keys::{Key, place_in};
use tree_read::{Spot, page_buffer, usable_of};

/// Puts a row into the table of page 1, which was read and is a leaf.
pub(crate) fn insert_in_first<P: EditPages>(
    alloc: Global,
    pages: &mut P,
    node: &Page,
    key: Key,
    payload: &[u8],
    buf: &mut [u8],
) -> Result<(), InsertFault>
    requires ready { P.ready pages.old }
    requires last { 1 ≤ P.last_page pages.old }
    requires room { length buf.old ≡ P.page_size pages.old }
    requires read { (shown : Node) × IsAtHand P.PagesTells pages.old (sought_by key) 1 0 buf.old node.now shown × (is_leaf shown.kind ≡ true) }
    requires table { is_row (sought_by key) ≡ true }
    ensures inserted { OnOk result (PutsTreeEach P.PagesTells pages.old (sought_by key.entry) payload.now 1 pages.new) }
    ensures refused { IfErr result (RefusesInsert P.PagesTells pages.old (sought_by key.entry) 0 1 pages.new) }
    ensures edits { Editing P.PagesTells pages.old pages.new }
{
    let place = match place_in(alloc, pages, 1, node, buf, key) {
        Ok(Spot::At) => return Err(InsertFault::Exists),
        Ok(Spot::Before(place)) => place,
        Err(why) => return Err(InsertFault::Fetch(why)),
    };
    let cell = match make_cell(alloc, pages, key, payload) {
        Ok(cell) => cell,
        Err(why) => return Err(InsertFault::Fetch(why)),
    };
    match put_in_first(alloc, pages, place, cell, buf) {
        Ok(()) => Ok(()),
        Err(why) => Err(InsertFault::Fetch(why)),
    }
}

// Puts a cell into page 1, whose bytes are handed in, or into the pages that it leads to then.
fn put_in_first<P: EditPages>(
    alloc: Global,
    pages: &mut P,
    place: usize,
    cell: Bytes,
    bytes: &mut [u8],
) -> Result<(), FetchFault>
    requires ready { P.ready pages.old }
    requires last { 1 ≤ P.last_page pages.old }
    requires whole { length bytes.old ≡ P.page_size pages.old }
    requires shown { (node : Node) × (node_of (P.usable pages.old) true bytes.old ≡ Some node) × (node.kind ≡ kind.TableLeaf) × (place ≤ length node.cells) }
    requires cell { IsOneCell kind.TableLeaf (P.usable pages.old) cell }
    ensures taken { OnOk result ((node : Node) → node_of (P.usable pages.old) true bytes.old ≡ Some node → (world : View) → P.tells pages.new world → P.neat pages.old world
        → (P.free pages.old world 1 → ⊥) → TakesFirst P.PagesTells pages.old (node_taking node place (spelled_by kind.TableLeaf (P.usable pages.old) (cell ∷ []))) pages.new world) }
    ensures stopped { IfErr result (λ why. BarsWriting P.PagesTells pages.old why pages.new) }
    ensures edits { Editing P.PagesTells pages.old pages.new }
{
    let news = [cell];
    if put_cells(bytes, usable_of(pages), true, place, &news) {
        return store(alloc, pages, 1, bytes);
    }
    let mut down = match page_buffer(alloc, pages.page_size()) {
        Ok(down) => down,
        Err(why) => return Err(why),
    };
    move_first(alloc, pages, place, &news, bytes, down.as_mut_slice())
}

// Lets page 1 lead to a page that has its cells and takes one more.
fn move_first<P: EditPages>(
    alloc: Global,
    pages: &mut P,
    place: usize,
    news: &[Bytes],
    bytes: &mut [u8],
    down: &mut [u8],
) -> Result<(), FetchFault>
    requires ready { P.ready pages.old }
    requires last { 1 ≤ P.last_page pages.old }
    requires whole { (length bytes.old ≡ P.page_size pages.old) × (length down.old ≡ P.page_size pages.old) }
    requires shown { (node : Node) × (node_of (P.usable pages.old) true bytes.old ≡ Some node) × (node.kind ≡ kind.TableLeaf) × (place ≤ length node.cells) }
    requires one { length news.now ≡ 1 }
    requires cells { All (IsOneCell kind.TableLeaf (P.usable pages.old)) news.now }
    ensures moved { OnOk result ((node : Node) → node_of (P.usable pages.old) true bytes.old ≡ Some node → (world : View) → P.tells pages.new world → P.neat pages.old world
        → (P.free pages.old world 1 → ⊥) → MovesFirst P.PagesTells pages.old (node_taking node place (spelled_by kind.TableLeaf (P.usable pages.old) news.now)) pages.new world) }
    ensures stopped { IfErr result (λ why. BarsWriting P.PagesTells pages.old why pages.new) }
    ensures edits { Editing P.PagesTells pages.old pages.new }
{
    let usable = usable_of(pages);
    if !copy_node(bytes, true, down, false, usable) {
        unreachable!()
    }
    let child = match make_page(pages, down) {
        Ok(child) => child,
        Err(why) => return Err(why),
    };
    let siblings = match settle(alloc, pages, child, down, place, news) {
        Ok(siblings) => siblings,
        Err(why) => return Err(why),
    };
    start_inner(
        bytes,
        usable,
        true,
        Kind::TableInner,
        siblings.as_slice(),
        child,
    );
    store(alloc, pages, 1, bytes)
}
