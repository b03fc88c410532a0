// Cells that a page takes, or for which it is divided.
ghost use Rattle.std.specs.Prelude.{◌≡◌, ℕ, ◌≤◌, ◌==◌, ◌&&◌, true, [], ◌∷◌, List, length, IfOk, IfErr, Some};
ghost use Rattle.page_spec.specs.View.{View};
ghost use Rattle.page_face.specs.Pages.{Editing};
ghost use Rattle.node_spec.specs.Kinds.{is_leaf, is_table};
ghost use Rattle.node_spec.specs.Nodes.{Node, node_of};
ghost use Rattle.overflow.specs.Writing.{BarsWriting};
ghost use Rattle.edit_spec.specs.Nodes.{node_taking};
ghost use Rattle.engine_spec.specs.declared.commits.FetchFault.TheVariants as fault;
ghost use Rattle.node_edit.specs.Keys.{LeadsTo};
ghost use Rattle.node_edit.specs.Runs.{spelled_by};
ghost use Rattle.node_edit.specs.Dividing.{IsCrowded, ShowTwo, ShowThree};
ghost use Rattle.tree_edit.specs.Settling.{MayTake, SettlesNode, AreSiblings};

use crate::lay::{make_page, store};
use disk_face::Bytes;
use node_edit::{Divided, cell_above, divide, put_cells};
use page_face::{EditPages, FetchFault};
use std::alloc::Global;
use tree_read::{page_buffer, usable_of};

/// Puts cells in before the cell at a place of a page whose bytes are handed in: the page takes them, or it is divided.
///
/// The bytes may have lost cells that these replace. A leaf of a table takes one cell, another page one or two. The answer has a cell for each new sibling
/// to the page's left, from left to right; the page keeps its number and its upper cells. Page 1 as a leaf isn't divided: where [`put_cells`] refuses it
/// there, it is raised first, and its copy settled.
///
/// `Size` and `Corrupt` come as of [`fresh`](EditPages::fresh), and only where the page is divided. Only then three buffers of a page are taken.
pub fn settle<P: EditPages>(
    alloc: Global,
    pages: &mut P,
    page: u32,
    bytes: &mut [u8],
    at: usize,
    news: &[Bytes],
) -> Result<Vec<Bytes>, FetchFault>
    requires ready { P.ready pages.old }
    requires page { (1 ≤ page) × (page ≤ P.last_page pages.old) }
    requires whole { length bytes.old ≡ P.page_size pages.old }
    requires shown { (node : Node) × (node_of (P.usable pages.old) (page == 1) bytes.old ≡ Some node) × MayTake (P.usable pages.old) (page == 1) node at news.now }
    ensures settled { IfOk result (λ siblings. (node : Node) → node_of (P.usable pages.old) (page == 1) bytes.old ≡ Some node → (world : View) → P.tells pages.new world
        → P.neat pages.old world → (P.free pages.old world page → ⊥)
        → SettlesNode P.PagesTells pages.old page (node_taking node at (spelled_by node.kind (P.usable pages.old) news.now)) siblings.items pages.new world) }
    ensures siblings { IfOk result (λ siblings. (node : Node) → node_of (P.usable pages.old) (page == 1) bytes.old ≡ Some node
        → AreSiblings (P.usable pages.old) (P.last_page pages.new) node siblings.items) }
    ensures stopped { IfErr result (λ why. BarsWriting P.PagesTells pages.old why pages.new) }
    ensures edits { Editing P.PagesTells pages.old pages.new }
{
    let usable = usable_of(pages);
    if put_cells(bytes, usable, page == 1, at, news) {
        return settle_whole(alloc, pages, page, bytes);
    }
    settle_apart(alloc, pages, page, bytes, at, news)
}

// Stores a page that took all.
fn settle_whole<P: EditPages>(
    alloc: Global,
    pages: &mut P,
    page: u32,
    bytes: &mut [u8],
) -> Result<Vec<Bytes>, FetchFault>
    requires ready { P.ready pages.old }
    requires page { (1 ≤ page) × (page ≤ P.last_page pages.old) }
    requires whole { length bytes.old ≡ P.page_size pages.old }
    ensures settled { IfOk result (λ siblings. (whole : Node) → node_of (P.usable pages.old) (page == 1) bytes.old ≡ Some whole → (world : View) → P.tells pages.new world
        → P.neat pages.old world → (P.free pages.old world page → ⊥) → SettlesNode P.PagesTells pages.old page whole siblings.items pages.new world) }
    ensures none { IfOk result (λ siblings. siblings.items ≡ []) }
    ensures stopped { IfErr result (λ why. BarsWriting P.PagesTells pages.old why pages.new) }
    ensures edits { Editing P.PagesTells pages.old pages.new }
{
    match store(alloc, pages, page, bytes) {
        Ok(()) => Ok(Vec::new(alloc)),
        Err(why) => Err(why),
    }
}

// Divides a page that has no room for these cells.
fn settle_apart<P: EditPages>(
    alloc: Global,
    pages: &mut P,
    page: u32,
    bytes: &mut [u8],
    at: usize,
    news: &[Bytes],
) -> Result<Vec<Bytes>, FetchFault>
    requires ready { P.ready pages.old }
    requires page { (1 ≤ page) × (page ≤ P.last_page pages.old) }
    requires whole { length bytes.old ≡ P.page_size pages.old }
    requires crowded { (node : Node) × (node_of (P.usable pages.old) (page == 1) bytes.old ≡ Some node) × IsCrowded (P.usable pages.old) (page == 1) node at news.now }
    ensures settled { IfOk result (λ siblings. (node : Node) → node_of (P.usable pages.old) (page == 1) bytes.old ≡ Some node → (world : View) → P.tells pages.new world
        → P.neat pages.old world → (P.free pages.old world page → ⊥)
        → SettlesNode P.PagesTells pages.old page (node_taking node at (spelled_by node.kind (P.usable pages.old) news.now)) siblings.items pages.new world) }
    ensures siblings { IfOk result (λ siblings. (node : Node) → node_of (P.usable pages.old) (page == 1) bytes.old ≡ Some node
        → AreSiblings (P.usable pages.old) (P.last_page pages.new) node siblings.items) }
    ensures stopped { IfErr result (λ why. BarsWriting P.PagesTells pages.old why pages.new) }
    ensures edits { Editing P.PagesTells pages.old pages.new }
{
    let mut left = match page_buffer(alloc, pages.page_size()) {
        Ok(left) => left,
        Err(why) => return Err(why),
    };
    let mut middle = match page_buffer(alloc, pages.page_size()) {
        Ok(middle) => middle,
        Err(why) => return Err(why),
    };
    let mut spare = match page_buffer(alloc, pages.page_size()) {
        Ok(spare) => spare,
        Err(why) => return Err(why),
    };
    settle_among(
        alloc,
        pages,
        page,
        bytes,
        left.as_mut_slice(),
        middle.as_mut_slice(),
        spare.as_mut_slice(),
        at,
        news,
    )
}

// The same, with buffers.
fn settle_among<P: EditPages>(
    alloc: Global,
    pages: &mut P,
    page: u32,
    bytes: &mut [u8],
    left: &mut [u8],
    middle: &mut [u8],
    spare: &mut [u8],
    at: usize,
    news: &[Bytes],
) -> Result<Vec<Bytes>, FetchFault>
    requires ready { P.ready pages.old }
    requires page { (1 ≤ page) × (page ≤ P.last_page pages.old) }
    requires whole { length bytes.old ≡ P.page_size pages.old }
    requires room { (length left.old ≡ P.page_size pages.old) × (length middle.old ≡ P.page_size pages.old) × (length spare.old ≡ P.page_size pages.old) }
    requires crowded { (node : Node) × (node_of (P.usable pages.old) (page == 1) bytes.old ≡ Some node) × IsCrowded (P.usable pages.old) (page == 1) node at news.now }
    ensures settled { IfOk result (λ siblings. (node : Node) → node_of (P.usable pages.old) (page == 1) bytes.old ≡ Some node → (world : View) → P.tells pages.new world
        → P.neat pages.old world → (P.free pages.old world page → ⊥)
        → SettlesNode P.PagesTells pages.old page (node_taking node at (spelled_by node.kind (P.usable pages.old) news.now)) siblings.items pages.new world) }
    ensures siblings { IfOk result (λ siblings. (node : Node) → node_of (P.usable pages.old) (page == 1) bytes.old ≡ Some node
        → AreSiblings (P.usable pages.old) (P.last_page pages.new) node siblings.items) }
    ensures stopped { IfErr result (λ why. BarsWriting P.PagesTells pages.old why pages.new) }
    ensures edits { Editing P.PagesTells pages.old pages.new }
{
    let usable = usable_of(pages);
    match divide(
        alloc,
        bytes,
        left,
        middle,
        spare,
        usable,
        page == 1,
        at,
        news,
    ) {
        Ok(Divided::Two { key }) => match settle_two(alloc, pages, page, bytes, left, &key) {
            Ok(siblings) => Ok(siblings),
            Err(why) => Err(why),
        },
        Ok(Divided::Three { low, high }) => match settle_three(
            alloc, pages, page, bytes, left, middle, &low, &high,
        ) {
            Ok(siblings) => Ok(siblings),
            Err(why) => Err(why),
        },
        Err(_) => Err(FetchFault::Memory),
    }
}

// The list of one cell, which leads to a page.
fn one_above(alloc: Global, page: u32, key: &Bytes) -> Result<Vec<Bytes>, FetchFault>
    ensures one { IfOk result (λ news. (text : List ℕ) × (LeadsTo page key.now text × (news.items ≡ text ∷ []))) }
    ensures cause { IfErr result (λ why. why ≡ fault.Memory) }
{
    let text = match cell_above(alloc, page, key) {
        Ok(text) => text,
        Err(_) => return Err(FetchFault::Memory),
    };
    let mut news = Vec::new(alloc);
    match news.push(text) {
        Ok(()) => Ok(news),
        Err(_) => Err(FetchFault::Memory),
    }
}

// A page divided into two: a new one to its left, and itself.
fn settle_two<P: EditPages>(
    alloc: Global,
    pages: &mut P,
    page: u32,
    bytes: &mut [u8],
    left: &[u8],
    key: &Bytes,
) -> Result<Vec<Bytes>, FetchFault>
    requires ready { P.ready pages.old }
    requires page { (1 ≤ page) × (page ≤ P.last_page pages.old) }
    requires whole { length bytes.old ≡ P.page_size pages.old }
    requires room { length left.now ≡ P.page_size pages.old }
    ensures settled { IfOk result (λ siblings. (whole : Node) → ShowTwo (P.usable pages.old) (page == 1) whole key.now left.now bytes.old → (world : View) → P.tells pages.new world
        → P.neat pages.old world → (P.free pages.old world page → ⊥) → SettlesNode P.PagesTells pages.old page whole siblings.items pages.new world) }
    ensures siblings { IfOk result (λ siblings. (whole : Node) → ShowTwo (P.usable pages.old) (page == 1) whole key.now left.now bytes.old
        → AreSiblings (P.usable pages.old) (P.last_page pages.new) whole siblings.items × (length siblings.items ≡ 1)) }
    ensures stopped { IfErr result (λ why. BarsWriting P.PagesTells pages.old why pages.new) }
    ensures edits { Editing P.PagesTells pages.old pages.new }
{
    let made = match make_page(pages, left) {
        Ok(made) => made,
        Err(why) => return Err(why),
    };
    let news = match one_above(alloc, made, key) {
        Ok(news) => news,
        Err(why) => return Err(why),
    };
    match store(alloc, pages, page, bytes) {
        Ok(()) => Ok(news),
        Err(why) => Err(why),
    }
}

// A page divided into three.
fn settle_three<P: EditPages>(
    alloc: Global,
    pages: &mut P,
    page: u32,
    bytes: &mut [u8],
    left: &[u8],
    middle: &[u8],
    low: &Bytes,
    high: &Bytes,
) -> Result<Vec<Bytes>, FetchFault>
    requires ready { P.ready pages.old }
    requires page { (1 ≤ page) × (page ≤ P.last_page pages.old) }
    requires whole { length bytes.old ≡ P.page_size pages.old }
    requires room { (length left.now ≡ P.page_size pages.old) × (length middle.now ≡ P.page_size pages.old) }
    ensures settled { IfOk result (λ siblings. (whole : Node) → ShowThree (P.usable pages.old) (page == 1) whole low.now high.now left.now middle.now bytes.old → (world : View)
        → P.tells pages.new world → P.neat pages.old world → (P.free pages.old world page → ⊥) → SettlesNode P.PagesTells pages.old page whole siblings.items pages.new world) }
    ensures siblings { IfOk result (λ siblings. (whole : Node) → ShowThree (P.usable pages.old) (page == 1) whole low.now high.now left.now middle.now bytes.old
        → is_leaf whole.kind && is_table whole.kind ≡ true → AreSiblings (P.usable pages.old) (P.last_page pages.new) whole siblings.items) }
    ensures stopped { IfErr result (λ why. BarsWriting P.PagesTells pages.old why pages.new) }
    ensures edits { Editing P.PagesTells pages.old pages.new }
{
    let made = match make_page(pages, left) {
        Ok(made) => made,
        Err(why) => return Err(why),
    };
    let mut news = match one_above(alloc, made, low) {
        Ok(news) => news,
        Err(why) => return Err(why),
    };
    let mut rest = match settle_two(alloc, pages, page, bytes, middle, high) {
        Ok(rest) => rest,
        Err(why) => return Err(why),
    };
    match news.append(&mut rest) {
        Ok(()) => Ok(news),
        Err(_) => Err(FetchFault::Memory),
    }
}
