// Neighbours of 512 bytes that have no room in one page, though one has no cell, divided anew between their pages. An interior page has 500 bytes for cells
// and their pointers.
ghost use Rattle.std.specs.Prelude.{◌≡◌, ◌⊎◌, true, vec_len};

use crate::pages::{SIZE, Shown, are_cells, inner_of, is_rows, page_of, shows, texts};
use disk_face::Bytes;
use node_edit::{cell_above, divide_joined, take_over};
use page_form::{Kind, Page, flag_of, read_page};
use std::alloc::Global;
use std::test::Fail;

// Whether two kinds are the same.
fn is_same(one: Kind, other: Kind) -> bool
    ensures { result ≡ true → other ≡ one }
{
    flag_of(one) == flag_of(other)
}

// Whether one of two pages has no cell.
fn is_thin(left: &Page, right: &Page) -> bool
    ensures { result ≡ true → (vec_len left.now.cells ≡ 0) ⊎ (vec_len right.now.cells ≡ 0) }
{
    if left.cells.len() == 0 {
        return true;
    }
    right.cells.len() == 0
}

// Divides neighbours anew, and tells the cell above for the left one, page 7; None where they have room in one page, or aren't such neighbours.
fn divided_anew(
    alloc: Global,
    left: &mut [u8; 512],
    between: &[Bytes],
    bytes: &mut [u8; 512],
) -> Result<Option<Bytes>, Fail> {
    let page = read_page(alloc, left, SIZE, false)?;
    let other = read_page(alloc, bytes, SIZE, false)?;
    if is_rows(page.kind) || !is_same(page.kind, other.kind) || !is_thin(&page, &other) {
        return Ok(None);
    }
    if between.len() > 2 || !are_cells(page.kind, between) {
        return Ok(None);
    }
    if take_over(left, between, bytes, SIZE) {
        return Ok(None);
    }
    let mut low = [0u8; 512];
    let mut high = [0u8; 512];
    let key = divide_joined(alloc, left, between, bytes, &mut low, &mut high, SIZE)?;
    let text = cell_above(alloc, 7, &key)?;
    Ok(Some(text))
}

// Two interior pages of an index and the cell between as it came down, and what they show then.
#[derive(Clone, Copy)]
struct Anew<'a> {
    /// The left page's cells and right child, the cell between, and the right page's cells and right child.
    left: &'a [Shown],
    left_right: u32,
    between: &'a [Shown],
    cells: &'a [Shown],
    right: u32,
    /// The left page's cells and right child then, the cell above, and the right page's cells.
    left_then: &'a [Shown],
    left_right_then: u32,
    above: &'a [Shown],
    cells_then: &'a [Shown],
}

// Whether an interior page of one text, with right child 9, shows the cells.
fn is_above(alloc: Global, above: Bytes, cells: &[Shown]) -> Result<bool, Fail> {
    let mut news = Vec::new(alloc);
    news.push(above)?;
    match inner_of(Kind::IndexInner, &news, 9) {
        Some(page) => shows(alloc, &page, false, Kind::IndexInner, cells, 9),
        None => Ok(false),
    }
}

fn is_divided_so(alloc: Global, anew: Anew<'_>) -> Result<bool, Fail> {
    let kind = Kind::IndexInner;
    let mut left = page_of(alloc, false, kind, anew.left, anew.left_right)?;
    let mut bytes = page_of(alloc, false, kind, anew.cells, anew.right)?;
    let between = texts(alloc, kind, anew.between)?;
    let Some(above) = divided_anew(alloc, &mut left, &between, &mut bytes)? else {
        return Ok(false);
    };
    Ok(
        is_above(alloc, above, anew.above)?
            && shows(
                alloc,
                &left,
                false,
                kind,
                anew.left_then,
                anew.left_right_then,
            )?
            && shows(alloc, &bytes, false, kind, anew.cells_then, anew.right)?,
    )
}

// Entries of 41 to 49 bytes take 48 to 56, and 468 together.
const ENTRIES: &[Shown] = &[
    (11, 0, 41),
    (12, 0, 42),
    (13, 0, 43),
    (14, 0, 44),
    (15, 0, 45),
    (16, 0, 46),
    (17, 0, 47),
    (18, 0, 48),
    (19, 0, 49),
];

// The one between takes 67: all together 535. In front of the others it makes 67, 115, 164, 214 and 265 with the first four, and half of all is 267.
const LEFT_WITHOUT_A_CELL: Anew<'static> = Anew {
    left: &[],
    left_right: 10,
    between: &[(10, 0, 60)],
    cells: ENTRIES,
    right: 20,
    left_then: &[
        (10, 0, 60),
        (11, 0, 41),
        (12, 0, 42),
        (13, 0, 43),
        (14, 0, 44),
    ],
    left_right_then: 15,
    above: &[(7, 0, 45)],
    cells_then: &[(16, 0, 46), (17, 0, 47), (18, 0, 48), (19, 0, 49)],
};

// Behind them the first five make 250, and six 303.
const RIGHT_WITHOUT_A_CELL: Anew<'static> = Anew {
    left: ENTRIES,
    left_right: 20,
    between: &[(20, 0, 60)],
    cells: &[],
    right: 21,
    left_then: &[
        (11, 0, 41),
        (12, 0, 42),
        (13, 0, 43),
        (14, 0, 44),
        (15, 0, 45),
    ],
    left_right_then: 16,
    above: &[(7, 0, 46)],
    cells_then: &[(17, 0, 47), (18, 0, 48), (19, 0, 49), (20, 0, 60)],
};

#[test]
fn neighbours_are_divided_anew(rt: HostRuntime) -> Result<(), Fail> {
    assert!(rt; is_divided_so(rt.alloc(), LEFT_WITHOUT_A_CELL)?);
    assert!(rt; is_divided_so(rt.alloc(), RIGHT_WITHOUT_A_CELL)?);
    Ok(())
}
