// Cells put in together, and nodes copied. A leaf of 512 bytes has 504 for cells and their pointers, page 1's 404; a row of 48 bytes takes 52.
use crate::pages::{SIZE, Shown, page_of, put, shows, texts};
use node_edit::copy_node;
use page_form::{Kind, read_page};
use std::alloc::Global;
use std::test::Fail;

// Whether cells that are put in at a place are answered so, and leave a page with these cells.
fn is_put_so(
    alloc: Global,
    cells: &[Shown],
    at: usize,
    news: &[Shown],
    room: bool,
    want: &[Shown],
) -> Result<bool, Fail> {
    let mut bytes = page_of(alloc, false, Kind::TableLeaf, cells, 0)?;
    let before = bytes;
    let news = texts(alloc, Kind::TableLeaf, news)?;
    let answer = put(alloc, &mut bytes, false, at, &news)?;
    Ok(
        answer == Some(room)
            && shows(alloc, &bytes, false, Kind::TableLeaf, want, 0)?
            && (room || bytes.as_slice() == before.as_slice()),
    )
}

// Three rows of 48 bytes take 156, and one of 343, with 2 bytes for its size, 348 with its pointer: together just 504. With a byte more there is no room.
#[test]
fn cells_are_put_in_together(rt: HostRuntime) -> Result<(), Fail> {
    let two = &[(0, 2, 48), (0, 8, 48)];
    assert!(rt;
        is_put_so(
            rt.alloc(),
            two,
            1,
            &[(0, 4, 48), (0, 6, 48)],
            true,
            &[(0, 2, 48), (0, 4, 48), (0, 6, 48), (0, 8, 48)]
        )?
    );
    assert!(rt;
        is_put_so(
            rt.alloc(),
            two,
            2,
            &[(0, 9, 48), (0, 10, 343)],
            true,
            &[(0, 2, 48), (0, 8, 48), (0, 9, 48), (0, 10, 343)]
        )?
    );
    assert!(rt; is_put_so(rt.alloc(), two, 2, &[(0, 9, 48), (0, 10, 344)], false, two)?);
    Ok(())
}

// A row of 395 bytes takes 400 with its size, its rowid and its pointer: just what two rows leave.
#[test]
fn one_cell_is_put_in(rt: HostRuntime) -> Result<(), Fail> {
    let two = &[(0, 2, 48), (0, 8, 48)];
    let three = &[(0, 2, 48), (0, 4, 395), (0, 8, 48)];
    assert!(rt; is_put_so(rt.alloc(), two, 1, &[(0, 4, 395)], true, three)?);
    assert!(rt; is_put_so(rt.alloc(), two, 1, &[(0, 4, 396)], false, two)?);
    Ok(())
}

// Whether a leaf's node is copied to a page so.
fn is_copied_so(alloc: Global, cells: &[Shown], first: bool, room: bool) -> Result<bool, Fail> {
    let from = page_of(alloc, false, Kind::TableLeaf, cells, 0)?;
    let _page = read_page(alloc, &from, SIZE, false)?;
    let mut to = [0x55u8; 512];
    if copy_node(&from, false, &mut to, first, SIZE) != room {
        return Ok(false);
    }
    if !room {
        return Ok(to.as_slice() == [0x55u8; 512].as_slice());
    }
    shows(alloc, &to, first, Kind::TableLeaf, cells, 0)
}

// Seven rows take 364 bytes, eight 416.
#[test]
fn a_node_is_copied(rt: HostRuntime) -> Result<(), Fail> {
    let seven = &[
        (0, 2, 48),
        (0, 4, 48),
        (0, 6, 48),
        (0, 8, 48),
        (0, 10, 48),
        (0, 12, 48),
        (0, 14, 48),
    ];
    let eight = &[
        (0, 2, 48),
        (0, 4, 48),
        (0, 6, 48),
        (0, 8, 48),
        (0, 10, 48),
        (0, 12, 48),
        (0, 14, 48),
        (0, 16, 48),
    ];
    assert!(rt; is_copied_so(rt.alloc(), seven, true, true)?);
    assert!(rt; is_copied_so(rt.alloc(), eight, false, true)?);
    assert!(rt; is_copied_so(rt.alloc(), eight, true, false)?);
    Ok(())
}
