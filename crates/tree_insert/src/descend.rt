// The way down to a key's leaf, and back up.
ghost use Rattle.std.specs.Prelude.{◌≡◌, ℕ, ◌≤◌, ◌==◌, ◌&&◌, true, false, length, IfOk, IfErr, Some};
ghost use Rattle.page_face.specs.Pages.{Editing};
ghost use Rattle.node_spec.specs.Kinds.{is_leaf, is_table};
ghost use Rattle.node_spec.specs.Nodes.{Node, node_of};
ghost use Rattle.page_form.specs.Reading.{Tells};
ghost use Rattle.overflow.specs.Writing.{BarsWriting};
ghost use Rattle.tree_keys.specs.Keys.{sought_by, is_row};
ghost use Rattle.tree_keys.specs.Spots.{HasSpot, HoldsPlace};
ghost use Rattle.tree_read.specs.Entries.{IsSpotWithin};
ghost use Rattle.tree_insert.specs.Inserting.{RefusesInsert, AreNews, PutsUnderEach, PassesUp};
ghost use Rattle.tree_keys.specs.Standing.{IsAtHand};

use crate::cell::make_cell;
use crate::fault::InsertFault;
use disk_face::Bytes;
use page_face::{EditPages, FetchFault};
use page_form::{Page, is_leaf};
use std::alloc::Global;
use tree_edit::settle;
use tree_keys::{Key, place_in};
use tree_read::{Spot, child_before, is_outside, page_buffer, read_node, usable_of};

// Puts a key with its payload into the tree at a page, which is no root. The answer has a cell for each new sibling to the page's left.
#[cycle(levels)]
fn insert_at<P: EditPages>(
    alloc: Global,
    pages: &mut P,
    page: u32,
    level: u32,
    key: Key,
    payload: &[u8],
) -> Result<Vec<Bytes>, InsertFault>
    requires ready { P.ready pages.old }
    requires page { (2 ≤ page) × (page ≤ P.last_page pages.old) }
    requires level { (1 ≤ level) × (level ≤ 41) }
    ensures inserted { IfOk result (λ news. PutsUnderEach P.PagesTells pages.old (sought_by key.entry) payload.now level page pages.new news.items) }
    ensures news { IfOk result (λ news. AreNews (sought_by key.entry) (P.usable pages.old) (P.last_page pages.new) news.items) }
    ensures refused { IfErr result (RefusesInsert P.PagesTells pages.old (sought_by key.entry) level page pages.new) }
    ensures edits { Editing P.PagesTells pages.old pages.new }
{
    let mut buf = match page_buffer(alloc, pages.page_size()) {
        Ok(buf) => buf,
        Err(why) => return Err(InsertFault::Fetch(why)),
    };
    insert_with(alloc, pages, page, level, key, payload, buf.as_mut_slice())
}

// The same, with a buffer.
#[cycle(levels)]
fn insert_with<P: EditPages>(
    alloc: Global,
    pages: &mut P,
    page: u32,
    level: u32,
    key: Key,
    payload: &[u8],
    buf: &mut [u8],
) -> Result<Vec<Bytes>, InsertFault>
    requires ready { P.ready pages.old }
    requires page { (2 ≤ page) × (page ≤ P.last_page pages.old) }
    requires level { (1 ≤ level) × (level ≤ 41) }
    requires room { length buf.old ≡ P.page_size pages.old }
    ensures inserted { IfOk result (λ news. PutsUnderEach P.PagesTells pages.old (sought_by key.entry) payload.now level page pages.new news.items) }
    ensures news { IfOk result (λ news. AreNews (sought_by key.entry) (P.usable pages.old) (P.last_page pages.new) news.items) }
    ensures refused { IfErr result (RefusesInsert P.PagesTells pages.old (sought_by key.entry) level page pages.new) }
    ensures edits { Editing P.PagesTells pages.old pages.new }
{
    let node = match read_node(alloc, pages, key.is_rowid(), page, level, buf) {
        Ok(node) => node,
        Err(why) => return Err(InsertFault::Fetch(why)),
    };
    match insert_from(alloc, pages, page, level, &node, key, payload, buf) {
        Ok(news) => Ok(news),
        Err(why) => Err(why),
    }
}

/// Goes on from a page that was read: a leaf takes the cell, another page sends the key on to a child. Page 1 is no leaf of a table.
#[cycle(levels)]
pub(crate) fn insert_from<P: EditPages>(
    alloc: Global,
    pages: &mut P,
    page: u32,
    level: u32,
    node: &Page,
    key: Key,
    payload: &[u8],
    buf: &mut [u8],
) -> Result<Vec<Bytes>, InsertFault>
    requires ready { P.ready pages.old }
    requires page { (1 ≤ page) × (page ≤ P.last_page pages.old) }
    requires room { length buf.old ≡ P.page_size pages.old }
    requires read { (shown : Node) × IsAtHand P.PagesTells pages.old (sought_by key) page level buf.old node.now shown }
    requires first { page == 1 ≡ true → is_leaf node.now.kind && is_table node.now.kind ≡ false }
    ensures inserted { IfOk result (λ news. PutsUnderEach P.PagesTells pages.old (sought_by key.entry) payload.now level page pages.new news.items) }
    ensures news { IfOk result (λ news. AreNews (sought_by key.entry) (P.usable pages.old) (P.last_page pages.new) news.items) }
    ensures refused { IfErr result (RefusesInsert P.PagesTells pages.old (sought_by key.entry) level page pages.new) }
    ensures edits { Editing P.PagesTells pages.old pages.new }
{
    let place = match place_in(alloc, pages, page, node, buf, key) {
        Ok(Spot::At) => return Err(InsertFault::Exists),
        Ok(Spot::Before(place)) => place,
        Err(why) => return Err(InsertFault::Fetch(why)),
    };
    if is_leaf(node.kind) {
        match insert_in_leaf(alloc, pages, page, level, place, key, payload, buf) {
            Ok(news) => Ok(news),
            Err(why) => Err(InsertFault::Fetch(why)),
        }
    } else {
        match insert_below(alloc, pages, page, level, node, place, key, payload, buf) {
            Ok(news) => Ok(news),
            Err(why) => Err(why),
        }
    }
}

// Goes on from an interior page to a child, and takes the child's new siblings.
#[cycle(levels)]
fn insert_below<P: EditPages>(
    alloc: Global,
    pages: &mut P,
    page: u32,
    level: u32,
    node: &Page,
    place: usize,
    key: Key,
    payload: &[u8],
    buf: &mut [u8],
) -> Result<Vec<Bytes>, InsertFault>
    requires ready { P.ready pages.old }
    requires page { (1 ≤ page) × (page ≤ P.last_page pages.old) }
    requires room { length buf.old ≡ P.page_size pages.old }
    requires read { (shown : Node) × HoldsPlace P.PagesTells pages.old (sought_by key) page level buf.old shown place
        × Tells (P.usable pages.old) (page == 1) buf.old node.now shown × (is_leaf shown.kind ≡ false) }
    ensures inserted { IfOk result (λ news. PutsUnderEach P.PagesTells pages.old (sought_by key.entry) payload.now level page pages.new news.items) }
    ensures news { IfOk result (λ news. AreNews (sought_by key.entry) (P.usable pages.old) (P.last_page pages.new) news.items) }
    ensures refused { IfErr result (RefusesInsert P.PagesTells pages.old (sought_by key.entry) level page pages.new) }
    ensures edits { Editing P.PagesTells pages.old pages.new }
{
    let child = child_before(node, buf, usable_of(pages), place);
    if is_outside(child, pages.last()) {
        return Err(InsertFault::Fetch(FetchFault::Corrupt { page }));
    }
    let news = match insert_at(alloc, pages, child, level + 1, key, payload) {
        Ok(news) => news,
        Err(why) => return Err(why),
    };
    match pass_up(alloc, pages, page, place, key, news, buf) {
        Ok(siblings) => Ok(siblings),
        Err(why) => Err(InsertFault::Fetch(why)),
    }
}

// Lets an interior page take the cells of its child's new siblings.
fn pass_up<P: EditPages>(
    alloc: Global,
    pages: &mut P,
    page: u32,
    place: usize,
    key: Key,
    news: Vec<Bytes>,
    bytes: &mut [u8],
) -> Result<Vec<Bytes>, FetchFault>
    requires ready { P.ready pages.old }
    requires page { (1 ≤ page) × (page ≤ P.last_page pages.old) }
    requires whole { length bytes.old ≡ P.page_size pages.old }
    requires news { AreNews (sought_by key) (P.usable pages.old) (P.last_page pages.old) news.items }
    requires shown { (node : Node) × (node_of (P.usable pages.old) (page == 1) bytes.old ≡ Some node) × (is_leaf node.kind ≡ false) × (is_table node.kind ≡ is_row (sought_by key))
        × (place ≤ length node.cells) }
    ensures passed { IfOk result (λ siblings. (node : Node) → node_of (P.usable pages.old) (page == 1) bytes.old ≡ Some node
        → PassesUp P.PagesTells pages.old page node place news.items siblings.items pages.new) }
    ensures siblings { IfOk result (λ siblings. AreNews (sought_by key.entry) (P.usable pages.old) (P.last_page pages.new) siblings.items) }
    ensures stopped { IfErr result (λ why. BarsWriting P.PagesTells pages.old why pages.new) }
    ensures edits { Editing P.PagesTells pages.old pages.new }
{
    if news.is_empty() {
        return Ok(news);
    }
    match settle(alloc, pages, page, bytes, place, news.as_slice()) {
        Ok(siblings) => Ok(siblings),
        Err(why) => Err(why),
    }
}

// Puts a cell into a leaf, which isn't page 1 in a table.
fn insert_in_leaf<P: EditPages>(
    alloc: Global,
    pages: &mut P,
    page: u32,
    level: u32,
    place: usize,
    key: Key,
    payload: &[u8],
    buf: &mut [u8],
) -> Result<Vec<Bytes>, FetchFault>
    requires ready { P.ready pages.old }
    requires page { (1 ≤ page) × (page ≤ P.last_page pages.old) }
    requires room { length buf.old ≡ P.page_size pages.old }
    requires read { (shown : Node) × HoldsPlace P.PagesTells pages.old (sought_by key) page level buf.old shown place × (is_leaf shown.kind ≡ true) }
    requires first { is_row (sought_by key) ≡ true → page == 1 ≡ false }
    ensures inserted { IfOk result (λ news. PutsUnderEach P.PagesTells pages.old (sought_by key.entry) payload.now level page pages.new news.items) }
    ensures news { IfOk result (λ news. AreNews (sought_by key.entry) (P.usable pages.old) (P.last_page pages.new) news.items) }
    ensures stopped { IfErr result (λ why. BarsWriting P.PagesTells pages.old why pages.new) }
    ensures edits { Editing P.PagesTells pages.old pages.new }
{
    let cell = match make_cell(alloc, pages, key, payload) {
        Ok(cell) => cell,
        Err(why) => return Err(why),
    };
    let news = [cell];
    match settle(alloc, pages, page, buf, place, &news) {
        Ok(siblings) => Ok(siblings),
        Err(why) => Err(why),
    }
}
