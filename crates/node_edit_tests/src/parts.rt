// Pages divided, and what their parts show.
ghost use Rattle.std.specs.Prelude.{◌≡◌, ◌≤◌, ◌&&◌, true, false};
ghost use Rattle.node_spec.specs.Kinds.{is_leaf, is_table};
ghost use Rattle.edit_spec.specs.Nodes.{ByLeafOfTable};

use crate::pages::{SIZE, Shown, are_cells, inner_of, kind_above, page_of, shows, texts};
use disk_face::Bytes;
use node_edit::{Divided, cell_above, divide, put_cells};
use page_form::{Kind, read_page};
use std::alloc::Global;
use std::test::Fail;

/// A page that is asked to take cells for which it has no room, and what its parts show then.
#[derive(Clone, Copy)]
pub struct Cut<'a> {
    pub kind: Kind,
    /// The page's cells and its right child.
    pub cells: &'a [Shown],
    pub right: u32,
    /// The cells that are put in, and the place before which.
    pub at: usize,
    pub news: &'a [Shown],
    /// The cells of the left part and its right child.
    pub left: &'a [Shown],
    pub left_right: u32,
    /// The cells of the part in the middle, of which most pages have none.
    pub middle: &'a [Shown],
    /// The cells of the page itself.
    pub rest: &'a [Shown],
    /// The cells above, of which the first leads to page 7 and the second to page 8.
    pub above: &'a [Shown],
}

// Whether a page that isn't page 1 may be asked to take so many cells.
fn is_few(kind: Kind, count: usize) -> bool
    ensures { result ≡ true → ByLeafOfTable (is_leaf kind && is_table kind) ((false ≡ false) × (count ≡ 1)) (count ≤ 2) }
{
    match kind {
        Kind::TableLeaf => count == 1,
        Kind::IndexLeaf | Kind::TableInner | Kind::IndexInner => count <= 2,
    }
}

// Divides a page, None where it has room for the cells or they or the place aren't of the page.
fn divided(
    alloc: Global,
    bytes: &mut [u8; 512],
    at: usize,
    news: &[Bytes],
    left: &mut [u8; 512],
    middle: &mut [u8; 512],
) -> Result<Option<Divided>, Fail> {
    let page = read_page(alloc, bytes, SIZE, false)?;
    if at > page.cells.len() || !are_cells(page.kind, news) || !is_few(page.kind, news.len()) {
        return Ok(None);
    }
    if put_cells(bytes, SIZE, false, at, news) {
        return Ok(None);
    }
    let mut spare = [0u8; 512];
    let divided = divide(
        alloc, bytes, left, middle, &mut spare, SIZE, false, at, news,
    )?;
    Ok(Some(divided))
}

// The cells above for the keys between parts.
fn above_of(alloc: Global, divided: Option<Divided>) -> Result<Vec<Bytes>, Fail> {
    let mut above = Vec::new(alloc);
    match divided {
        Some(Divided::Two { key }) => above.push(cell_above(alloc, 7, &key)?)?,
        Some(Divided::Three { low, high }) => {
            above.push(cell_above(alloc, 7, &low)?)?;
            above.push(cell_above(alloc, 8, &high)?)?;
        }
        None => (),
    }
    Ok(above)
}

// Whether an interior page of these texts, with right child 9, shows the cells.
fn are_above(alloc: Global, kind: Kind, above: &[Bytes], cells: &[Shown]) -> Result<bool, Fail> {
    let kind = kind_above(kind);
    match inner_of(kind, above, 9) {
        Some(page) => shows(alloc, &page, false, kind, cells, 9),
        None => Ok(false),
    }
}

/// Whether a page is divided so.
pub fn is_cut_so(alloc: Global, cut: Cut<'_>) -> Result<bool, Fail> {
    let mut bytes = page_of(alloc, false, cut.kind, cut.cells, cut.right)?;
    let mut left = [0xaau8; 512];
    let mut middle = [0xaau8; 512];
    let news = texts(alloc, cut.kind, cut.news)?;
    let keys = divided(alloc, &mut bytes, cut.at, &news, &mut left, &mut middle)?;
    let above = above_of(alloc, keys)?;
    Ok(
        are_above(alloc, cut.kind, &above, cut.above)?
            && shows(alloc, &left, false, cut.kind, cut.left, cut.left_right)?
            && (cut.middle.is_empty() || shows(alloc, &middle, false, cut.kind, cut.middle, 0)?)
            && shows(alloc, &bytes, false, cut.kind, cut.rest, cut.right)?,
    )
}
