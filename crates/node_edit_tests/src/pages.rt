// Pages of 512 bytes made of cells, and what they show.
ghost use Rattle.std.specs.Prelude.{◌≡◌, ◌&&◌, ℕ, ◌<◌, ◌≤◌, List, length, slice_index_or, true, All};
ghost use Rattle.page_form.specs.Reading.{Tells};
ghost use Rattle.node_spec.specs.Kinds.{is_leaf, is_table};
ghost use Rattle.node_spec.specs.Cells.{IsOneCell};
ghost use Rattle.node_spec.specs.Nodes.{Node};
ghost use Rattle.node_edit.specs.Keys.{kind_above};

use disk_face::Bytes;
use edit_tests::is_cell;
use node_edit::{count_of, put_cells, start_inner};
use page_edit::start_page;
use page_form::{Kind, Page, is_leaf, is_table, read_cell, read_page};
use std::alloc::Global;
use std::test::Fail;

/// How many bytes a page has, all of them usable.
pub const SIZE: usize = 512;

/// A cell: its left child, its rowid, and how many bytes its payload has. What a kind of page hasn't is 0.
pub type Shown = (u32, u8, u16);

// Whether a page of this kind has cells with a payload.
fn has_payload(kind: Kind) -> bool {
    is_leaf(kind) || !is_table(kind)
}

// The text of a cell, whose rowid is below 128 and whose payload is stored whole.
fn text_of(alloc: Global, kind: Kind, cell: Shown) -> Result<Bytes, Fail> {
    let mut text = Vec::new(alloc);
    if !is_leaf(kind) {
        text.extend_from_slice(cell.0.to_be_bytes().as_slice())?;
    }
    if has_payload(kind) && cell.2 >= 128 {
        text.push((cell.2 / 128 % 128 + 128) as u8)?;
    }
    if has_payload(kind) {
        text.push((cell.2 % 128) as u8)?;
    }
    if is_table(kind) {
        text.push(cell.1 % 128)?;
    }
    if has_payload(kind) {
        for _ in 0..cell.2 {
            text.push(0x61)?;
        }
    }
    Ok(Bytes::from_vec(text))
}

/// The texts of cells.
pub fn texts(alloc: Global, kind: Kind, cells: &[Shown]) -> Result<Vec<Bytes>, Fail> {
    let mut texts = Vec::new(alloc);
    for cell in cells {
        texts.push(text_of(alloc, kind, *cell)?)?;
    }
    Ok(texts)
}

/// Whether a page of a kind is a leaf of a table.
pub fn is_rows(kind: Kind) -> bool
    ensures { result ≡ (is_leaf kind && is_table kind) }
{
    match kind {
        Kind::TableLeaf => true,
        Kind::IndexInner | Kind::TableInner | Kind::IndexLeaf => false,
    }
}

/// The kind of the pages above those of a kind.
pub fn kind_above(kind: Kind) -> Kind
    ensures { result ≡ kind_above kind }
{
    match kind {
        Kind::TableInner | Kind::TableLeaf => Kind::TableInner,
        Kind::IndexInner | Kind::IndexLeaf => Kind::IndexInner,
    }
}

/// Whether a text is one cell.
pub fn is_cell_at(kind: Kind, news: &[Bytes], i: usize) -> bool
    requires { i < length news.now }
    ensures { result ≡ true → (other : List ℕ) → IsOneCell kind 512 (slice_index_or news.now i other) }
{
    is_cell(kind, SIZE, news[i].bytes())
}

/// Whether each text is one cell, and there are few.
pub fn are_cells(kind: Kind, news: &[Bytes]) -> bool
    ensures all { result ≡ true → All (IsOneCell kind 512) news.now }
    ensures few { result ≡ true → length news.now ≤ 65536 }
{
    if news.len() > 65536 {
        return false;
    }
    for i in 0..news.len() {
        if !is_cell_at(kind, news, i) {
            return false;
        }
    }
    true
}

/// Puts cells in, and tells whether there was room; None where they or the place aren't of the page.
pub fn put(
    alloc: Global,
    bytes: &mut [u8; 512],
    first: bool,
    at: usize,
    news: &[Bytes],
) -> Result<Option<bool>, Fail> {
    let page = read_page(alloc, bytes, SIZE, first)?;
    if at > page.cells.len() || !are_cells(page.kind, news) {
        return Ok(None);
    }
    Ok(Some(put_cells(bytes, SIZE, first, at, news)))
}

/// A page with these cells, put in together.
pub fn page_of(
    alloc: Global,
    first: bool,
    kind: Kind,
    cells: &[Shown],
    right: u32,
) -> Result<[u8; 512], Fail> {
    let mut bytes = [0xaau8; 512];
    start_page(&mut bytes, SIZE, first, kind, right);
    let news = texts(alloc, kind, cells)?;
    let _put = put(alloc, &mut bytes, first, 0, &news)?;
    Ok(bytes)
}

// Cell `k` of a page that was read is this one.
fn is_shown(page: &Page, bytes: &[u8], first: bool, k: usize, cell: Shown) -> bool
    requires { (node : Node) × Tells 512 first bytes.now page.now node }
{
    if k >= page.cells.len() {
        return false;
    }
    let told = read_cell(page, bytes, SIZE, k);
    told.left == cell.0 && told.rowid == i64::from(cell.1) && told.payload == u64::from(cell.2)
}

/// Whether a page shows just these cells and this right child.
pub fn shows(
    alloc: Global,
    bytes: &[u8; 512],
    first: bool,
    kind: Kind,
    cells: &[Shown],
    right: u32,
) -> Result<bool, Fail> {
    let page = read_page(alloc, bytes, SIZE, first)?;
    if page.kind != kind || page.right != right || page.cells.len() != cells.len() {
        return Ok(false);
    }
    if count_of(bytes, SIZE, first) != cells.len() {
        return Ok(false);
    }
    for k in 0..cells.len() {
        if !is_shown(&page, bytes, first, k, cells[k]) {
            return Ok(false);
        }
    }
    Ok(true)
}

/// An interior page of few cells, whatever stood there; None where it has no room for them.
pub fn inner_of(kind: Kind, cells: &[Bytes], right: u32) -> Option<[u8; 512]> {
    let mut trial = [0xaau8; 512];
    start_page(&mut trial, SIZE, false, kind, right);
    if !are_cells(kind, cells) || !put_cells(&mut trial, SIZE, false, 0, cells) {
        return None;
    }
    let mut bytes = [0x55u8; 512];
    start_inner(&mut bytes, SIZE, false, kind, cells, right);
    Some(bytes)
}
