// Each call made on pages of 512 bytes. The expected bytes and numbers are worked by hand from SQLite's page "Database File
// Format": a leaf's header has 8 bytes, an interior page's 12, a pointer 2, and the cell of rowid 1 and (NULL, 'Ada') 8.
use crate::pages::{Shape, cell_of, check, put, read, take};
use page_edit::{NoRoom, start_page};
use page_form::{Cell, Kind, PageFault};
use std::alloc::Global;
use std::process::Abort;

const PLAIN: Shape = Shape {
    usable: 512,
    first: false,
};

const FIRST: Shape = Shape {
    usable: 512,
    first: true,
};

const RESERVED: Shape = Shape {
    usable: 480,
    first: false,
};

const ADA: &[u8] = b"\x06\x01\x03\x00\x13\x41\x64\x61";

const BOB: &[u8] = b"\x06\x02\x03\x00\x13\x42\x6f\x62";

const EVE: &[u8] = b"\x06\x03\x03\x00\x13\x45\x76\x65";

// An empty leaf of a table, made of bytes that have no meaning.
fn empty(rt: &impl Abort, shape: Shape) -> [u8; 512] {
    let mut page = [0xaau8; 512];
    assert!(rt; shape.usable >= 480 && shape.usable <= 512);
    start_page(&mut page, shape.usable, shape.first, Kind::TableLeaf, 7);
    page
}

#[test]
fn a_leaf_is_begun(rt: HostRuntime) -> Result<(), PageFault> {
    let page = empty(&rt, PLAIN);
    assert_eq!(rt; &page[..8], b"\x0d\x00\x00\x00\x00\x02\x00\x00".as_slice());
    check(&rt, rt.alloc(), PLAIN, &page, &[], 504)
}

#[test]
fn an_interior_page_is_begun(rt: HostRuntime) -> Result<(), PageFault> {
    let mut page = [0xaau8; 512];
    start_page(&mut page, 512, false, Kind::IndexInner, 7);
    assert_eq!(rt;
        &page[..12],
        b"\x02\x00\x00\x00\x00\x02\x00\x00\x00\x00\x00\x07".as_slice()
    );
    let told = read(&rt, rt.alloc(), PLAIN, &page)?;
    assert_eq!(rt; told.kind, Kind::IndexInner);
    assert_eq!(rt; told.right, 7);
    assert_eq!(rt; told.free, 500);
    Ok(())
}

// The header of page 1 stands behind the first 100 bytes, which no edit touches.
fn check_first(rt: &impl Abort, page: &[u8; 512], header: &[u8]) {
    assert!(rt; header.len() <= 100);
    assert_eq!(rt; &page[100..100 + header.len()], header);
    assert_eq!(rt; &page[..100], [0xaau8; 100].as_slice());
}

#[test]
fn page_1_is_edited(rt: HostRuntime) -> Result<(), PageFault> {
    let mut page = empty(&rt, FIRST);
    check_first(&rt, &page, b"\x0d\x00\x00\x00\x00\x02\x00\x00");
    assert_eq!(rt; put(&rt, rt.alloc(), FIRST, &mut page, 0, ADA)?, None);
    check_first(&rt, &page, b"\x0d\x00\x00\x00\x01\x01\xf8\x00\x01\xf8");
    assert_eq!(rt; &page[504..], ADA);
    check(&rt, rt.alloc(), FIRST, &page, &[ADA], 394)?;
    take(&rt, rt.alloc(), FIRST, &mut page, 0)?;
    check_first(&rt, &page, b"\x0d\x00\x00\x00\x00\x02\x00\x00");
    check(&rt, rt.alloc(), FIRST, &page, &[], 404)
}

#[test]
fn reserved_bytes_stay(rt: HostRuntime) -> Result<(), PageFault> {
    let mut page = empty(&rt, RESERVED);
    assert_eq!(rt; put(&rt, rt.alloc(), RESERVED, &mut page, 0, ADA)?, None);
    assert_eq!(rt; put(&rt, rt.alloc(), RESERVED, &mut page, 1, BOB)?, None);
    take(&rt, rt.alloc(), RESERVED, &mut page, 0)?;
    assert_eq!(rt;
        &page[..10],
        b"\x0d\x00\x00\x00\x01\x01\xd8\x00\x01\xd8".as_slice()
    );
    assert_eq!(rt; &page[472..480], BOB);
    assert_eq!(rt; &page[480..], [0xaau8; 32].as_slice());
    check(&rt, rt.alloc(), RESERVED, &page, &[BOB], 462)
}

// Three cells, put in before, behind and between one another.
fn three(rt: &impl Abort, alloc: Global) -> Result<[u8; 512], PageFault> {
    let mut page = empty(rt, PLAIN);
    assert_eq!(rt; put(rt, alloc, PLAIN, &mut page, 0, EVE)?, None);
    assert_eq!(rt; put(rt, alloc, PLAIN, &mut page, 0, ADA)?, None);
    assert_eq!(rt; put(rt, alloc, PLAIN, &mut page, 1, BOB)?, None);
    Ok(page)
}

#[test]
fn cells_are_put_in_at_their_places(rt: HostRuntime) -> Result<(), PageFault> {
    let mut page = three(&rt, rt.alloc())?;
    check(&rt, rt.alloc(), PLAIN, &page, &[ADA, BOB, EVE], 474)?;
    assert_eq!(rt; put(&rt, rt.alloc(), PLAIN, &mut page, 3, ADA)?, None);
    check(&rt, rt.alloc(), PLAIN, &page, &[ADA, BOB, EVE, ADA], 464)
}

// What three cells leave without the one at a place.
fn check_taken(rt: &impl Abort, alloc: Global, k: usize, left: &[&[u8]]) -> Result<(), PageFault> {
    let mut page = three(rt, alloc)?;
    take(rt, alloc, PLAIN, &mut page, k)?;
    check(rt, alloc, PLAIN, &page, left, 484)
}

#[test]
fn a_cell_is_taken_out_of_each_place(rt: HostRuntime) -> Result<(), PageFault> {
    check_taken(&rt, rt.alloc(), 0, &[BOB, EVE])?;
    check_taken(&rt, rt.alloc(), 1, &[ADA, EVE])?;
    check_taken(&rt, rt.alloc(), 2, &[ADA, BOB])
}

// Of fewer than 4 bytes, a cell is filled up with zeros.
#[test]
fn a_short_cell_is_filled_up(rt: HostRuntime) -> Result<(), PageFault> {
    let mut page = empty(&rt, PLAIN);
    assert_eq!(rt;
        put(&rt, rt.alloc(), PLAIN, &mut page, 0, b"\x00\x05")?,
        None
    );
    assert_eq!(rt;
        &page[..10],
        b"\x0d\x00\x00\x00\x01\x01\xfc\x00\x01\xfc".as_slice()
    );
    assert_eq!(rt; &page[508..], b"\x00\x05\x00\x00".as_slice());
    check(&rt, rt.alloc(), PLAIN, &page, &[b"\x00\x05"], 498)
}

// A cell put into an empty page of its kind, with right child 7.
fn check_alone(
    rt: &impl Abort,
    alloc: Global,
    kind: Kind,
    text: &[u8],
    front: &[u8],
    want: Cell,
) -> Result<(), PageFault> {
    let mut page = [0xaau8; 512];
    start_page(&mut page, 512, false, kind, 7);
    assert_eq!(rt; put(rt, alloc, PLAIN, &mut page, 0, text)?, None);
    assert!(rt; front.len() <= 14 && text.len() <= 512);
    assert_eq!(rt; &page[..front.len()], front);
    assert_eq!(rt; &page[512 - text.len()..], text);
    let told = read(rt, alloc, PLAIN, &page)?;
    assert_eq!(rt; cell_of(rt, PLAIN, &told, &page, 0), want);
    Ok(())
}

// Child 5 and rowid 10.
#[test]
fn a_child_of_a_table_is_put_in(rt: HostRuntime) -> Result<(), PageFault> {
    let want = Cell {
        start: 507,
        len: 5,
        left: 5,
        rowid: 10,
        payload: 0,
        local: 0,
        overflow: 0,
    };
    let front = b"\x05\x00\x00\x00\x01\x01\xfb\x00\x00\x00\x00\x07\x01\xfb";
    check_alone(
        &rt,
        rt.alloc(),
        Kind::TableInner,
        b"\x00\x00\x00\x05\x0a",
        front,
        want,
    )
}

// The record of the number 7, without a child and with child 5.
#[test]
fn entries_of_an_index_are_put_in(rt: HostRuntime) -> Result<(), PageFault> {
    let leaf = Cell {
        start: 508,
        len: 4,
        left: 0,
        rowid: 0,
        payload: 3,
        local: 3,
        overflow: 0,
    };
    let front = b"\x0a\x00\x00\x00\x01\x01\xfc\x00\x01\xfc";
    check_alone(
        &rt,
        rt.alloc(),
        Kind::IndexLeaf,
        b"\x03\x02\x01\x07",
        front,
        leaf,
    )?;
    let inner = Cell {
        start: 504,
        len: 8,
        left: 5,
        rowid: 0,
        payload: 3,
        local: 3,
        overflow: 0,
    };
    let front = b"\x02\x00\x00\x00\x01\x01\xf8\x00\x00\x00\x00\x07\x01\xf8";
    check_alone(
        &rt,
        rt.alloc(),
        Kind::IndexInner,
        b"\x00\x00\x00\x05\x03\x02\x01\x07",
        front,
        inner,
    )
}

// Of a payload of 500 bytes a leaf of a table stores 39 here, and the 461 others are on page 9 and, were they more than 508, behind it.
#[test]
fn a_cell_with_an_overflow_page_is_put_in(rt: HostRuntime) -> Result<(), PageFault> {
    let text = b"\x83\x74\x01abcdefghijklmnopqrstuvwxyzABCDEFGHIJKLM\x00\x00\x00\x09";
    let want = Cell {
        start: 466,
        len: 46,
        left: 0,
        rowid: 1,
        payload: 500,
        local: 39,
        overflow: 9,
    };
    let front = b"\x0d\x00\x00\x00\x01\x01\xd2\x00\x01\xd2";
    check_alone(&rt, rt.alloc(), Kind::TableLeaf, text, front, want)
}

// 50 cells and their pointers take 500 of the 504 bytes behind the header.
fn nearly_full(rt: &impl Abort, alloc: Global) -> Result<[u8; 512], PageFault> {
    let mut page = empty(rt, PLAIN);
    for k in 0..50 {
        assert_eq!(rt; put(rt, alloc, PLAIN, &mut page, k, ADA)?, None);
    }
    Ok(page)
}

#[test]
fn a_cell_without_room_is_refused(rt: HostRuntime) -> Result<(), PageFault> {
    let mut page = nearly_full(&rt, rt.alloc())?;
    let before = page;
    assert_eq!(rt;
        put(&rt, rt.alloc(), PLAIN, &mut page, 7, BOB)?,
        Some(NoRoom { need: 10, free: 4 })
    );
    assert_eq!(rt; page.as_slice(), before.as_slice());
    assert_eq!(rt;
        put(&rt, rt.alloc(), PLAIN, &mut page, 50, b"\x00\x05")?,
        Some(NoRoom { need: 6, free: 4 })
    );
    assert_eq!(rt; page.as_slice(), before.as_slice());
    Ok(())
}

// A cell of 12 bytes in place of one of 8 leaves no byte free.
#[test]
fn a_page_is_filled_to_its_last_byte(rt: HostRuntime) -> Result<(), PageFault> {
    let mut page = nearly_full(&rt, rt.alloc())?;
    take(&rt, rt.alloc(), PLAIN, &mut page, 49)?;
    assert_eq!(rt;
        put(
            &rt,
            rt.alloc(),
            PLAIN,
            &mut page,
            0,
            b"\x0a\x06\x02\x1c01234567"
        )?,
        None
    );
    let before = page;
    assert_eq!(rt;
        put(&rt, rt.alloc(), PLAIN, &mut page, 0, b"\x00\x05")?,
        Some(NoRoom { need: 6, free: 0 })
    );
    assert_eq!(rt; page.as_slice(), before.as_slice());
    Ok(())
}
