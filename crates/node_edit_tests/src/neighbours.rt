// Pages of 512 bytes that take over their left neighbour.
ghost use Rattle.std.specs.Prelude.{◌≡◌, ◌&&◌, false};
ghost use Rattle.node_spec.specs.Kinds.{is_leaf, is_table};

use crate::pages::{
    SIZE, Shown, are_cells, is_cell_at, is_rows, kind_above, page_of, shows, texts,
};
use disk_face::Bytes;
use node_edit::{cell_down, take_over};
use page_form::{Kind, read_page};
use std::alloc::Global;
use std::test::Fail;

// The first of these texts as it comes down; None where it isn't a cell of the pages above.
fn first_down(alloc: Global, kind: Kind, texts: &[Bytes], right: u32) -> Result<Option<Bytes>, Fail>
    requires kind { is_leaf kind && is_table kind ≡ false }
{
    if texts.is_empty() || !is_cell_at(kind_above(kind), texts, 0) {
        return Ok(None);
    }
    let text = cell_down(alloc, kind, &texts[0], right)?;
    Ok(Some(text))
}

// The cell between as it comes down, of which leaves of tables have none.
fn down_of(
    alloc: Global,
    kind: Kind,
    between: &[Shown],
    right: u32,
) -> Result<Option<Vec<Bytes>>, Fail> {
    let mut down = Vec::new(alloc);
    if is_rows(kind) {
        return Ok(Some(down));
    }
    let above = texts(alloc, kind_above(kind), between)?;
    let Some(text) = first_down(alloc, kind, &above, right)? else {
        return Ok(None);
    };
    down.push(text)?;
    Ok(Some(down))
}

// Takes the left page over; None where the cells between aren't of its kind, or the pages are of two kinds.
fn taken(
    alloc: Global,
    left: &[u8; 512],
    between: &[Bytes],
    bytes: &mut [u8; 512],
) -> Result<Option<bool>, Fail> {
    let page = read_page(alloc, left, SIZE, false)?;
    let other = read_page(alloc, bytes, SIZE, false)?;
    if page.kind != other.kind || !are_cells(page.kind, between) {
        return Ok(None);
    }
    Ok(Some(take_over(left, between, bytes, SIZE)))
}

/// Two neighbours of a kind and the cell between them, and what the right one shows then.
#[derive(Clone, Copy)]
struct Join<'a> {
    kind: Kind,
    /// The left page's cells and right child.
    left: &'a [Shown],
    left_right: u32,
    /// The cell between, as it stands above.
    between: &'a [Shown],
    /// The right page's cells and right child.
    cells: &'a [Shown],
    right: u32,
    /// Whether there is room, and what the right page has then.
    room: bool,
    want: &'a [Shown],
}

fn is_joined_so(alloc: Global, join: Join<'_>) -> Result<bool, Fail> {
    let left = page_of(alloc, false, join.kind, join.left, join.left_right)?;
    let mut bytes = page_of(alloc, false, join.kind, join.cells, join.right)?;
    let Some(down) = down_of(alloc, join.kind, join.between, join.left_right)? else {
        return Ok(false);
    };
    Ok(
        taken(alloc, &left, &down, &mut bytes)? == Some(join.room)
            && shows(alloc, &bytes, false, join.kind, join.want, join.right)?,
    )
}

const ROWS: Join<'static> = Join {
    kind: Kind::TableLeaf,
    left: &[(0, 2, 48), (0, 4, 48)],
    left_right: 0,
    between: &[],
    cells: &[(0, 6, 48), (0, 8, 48)],
    right: 0,
    room: true,
    want: &[(0, 2, 48), (0, 4, 48), (0, 6, 48), (0, 8, 48)],
};

// The cell between led to the left page, and leads to its right child then.
const CHILDREN: Join<'static> = Join {
    kind: Kind::TableInner,
    left: &[(11, 2, 0)],
    left_right: 12,
    between: &[(7, 4, 0)],
    cells: &[(13, 6, 0)],
    right: 14,
    room: true,
    want: &[(11, 2, 0), (12, 4, 0), (13, 6, 0)],
};

// On a leaf it leads nowhere.
const ENTRIES: Join<'static> = Join {
    kind: Kind::IndexLeaf,
    left: &[],
    left_right: 0,
    between: &[(7, 0, 40)],
    cells: &[(0, 0, 41)],
    right: 0,
    room: true,
    want: &[(0, 0, 40), (0, 0, 41)],
};

// An entry of 100 bytes takes 101 with its size and 103 with its pointer, so five take 515 of the 504 bytes that a leaf has.
const TOO_MANY: Join<'static> = Join {
    kind: Kind::IndexLeaf,
    left: &[(0, 0, 100), (0, 0, 100)],
    left_right: 0,
    between: &[(7, 0, 100)],
    cells: &[(0, 0, 100), (0, 0, 100)],
    right: 0,
    room: false,
    want: &[(0, 0, 100), (0, 0, 100)],
};

#[test]
fn a_page_takes_over_its_left_neighbour(rt: HostRuntime) -> Result<(), Fail> {
    assert!(rt; is_joined_so(rt.alloc(), ROWS)?);
    assert!(rt; is_joined_so(rt.alloc(), CHILDREN)?);
    assert!(rt; is_joined_so(rt.alloc(), ENTRIES)?);
    assert!(rt; is_joined_so(rt.alloc(), TOO_MANY)?);
    Ok(())
}
