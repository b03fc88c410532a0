// Pages of strangers, whose room is in pieces: freeblocks and fragments. And the largest page, where 0 stands for 65536.
use crate::pages::{Shape, check, packed, put, take};
use page_edit::{NoRoom, start_page};
use page_form::{Kind, PageFault};
use std::alloc::Global;
use std::process::Abort;

const PLAIN: Shape = Shape {
    usable: 512,
    first: false,
};

const LARGEST: Shape = Shape {
    usable: 65536,
    first: false,
};

const ADA: &[u8] = b"\x06\x01\x03\x00\x13\x41\x64\x61";

const BOB: &[u8] = b"\x06\x02\x03\x00\x13\x42\x6f\x62";

const EVE: &[u8] = b"\x06\x03\x03\x00\x13\x45\x76\x65";

// | from | bytes                     |
// | 0    | the header, two pointers  |
// | 12   | a freeblock of 200        |
// | 212  | a fragment of 3           |
// | 215  | the first cell, of 8      |
// | 223  | a freeblock of 279        |
// | 502  | a fragment of 2           |
// | 504  | the second cell           |
fn in_pieces() -> [u8; 512] {
    let mut page = [0x55u8; 512];
    page[..12].copy_from_slice(b"\x0d\x00\x0c\x00\x02\x00\x0c\x05\x00\xd7\x01\xf8");
    page[12..16].copy_from_slice(b"\x00\xdf\x00\xc8");
    page[215..223].copy_from_slice(ADA);
    page[223..227].copy_from_slice(b"\x00\x00\x01\x17");
    page[504..].copy_from_slice(BOB);
    page
}

#[test]
fn a_page_is_packed(rt: HostRuntime) -> Result<(), PageFault> {
    let mut page = in_pieces();
    check(&rt, rt.alloc(), PLAIN, &page, &[ADA, BOB], 484)?;
    packed(&rt, rt.alloc(), PLAIN, &mut page)?;
    assert_eq!(rt; &page[..8], b"\x0d\x00\x00\x00\x02\x01\xf0\x00".as_slice());
    check(&rt, rt.alloc(), PLAIN, &page, &[ADA, BOB], 484)
}

#[test]
fn room_in_pieces_is_brought_together(rt: HostRuntime) -> Result<(), PageFault> {
    let mut page = in_pieces();
    assert_eq!(rt; put(&rt, rt.alloc(), PLAIN, &mut page, 1, EVE)?, None);
    assert_eq!(rt; &page[..8], b"\x0d\x00\x00\x00\x03\x01\xe8\x00".as_slice());
    check(&rt, rt.alloc(), PLAIN, &page, &[ADA, EVE, BOB], 474)
}

#[test]
fn a_cell_is_taken_from_a_page_in_pieces(rt: HostRuntime) -> Result<(), PageFault> {
    let mut page = in_pieces();
    take(&rt, rt.alloc(), PLAIN, &mut page, 0)?;
    assert_eq!(rt;
        &page[..10],
        b"\x0d\x00\x00\x00\x01\x01\xf8\x00\x01\xf8".as_slice()
    );
    assert_eq!(rt; &page[504..], BOB);
    check(&rt, rt.alloc(), PLAIN, &page, &[BOB], 494)
}

// | from | bytes                             |
// | 0    | the header, three pointers        |
// | 14   | a fragment of 3                   |
// | 17   | a freeblock of 4                  |
// | 21   | the first cell, of 8              |
// | 29   | a fragment of 3                   |
// | 32   | the second cell, of 8             |
// | 40   | the third cell, of 3 + 469 bytes  |
fn nearly_full() -> [u8; 512] {
    let mut page = [0x42u8; 512];
    page[..14].copy_from_slice(b"\x0d\x00\x11\x00\x03\x00\x0e\x06\x00\x15\x00\x20\x00\x28");
    page[17..21].copy_from_slice(b"\x00\x00\x00\x04");
    page[21..29].copy_from_slice(ADA);
    page[32..40].copy_from_slice(BOB);
    page[40..43].copy_from_slice(b"\x83\x55\x09");
    page
}

// The pieces have 10 bytes, just enough for a cell of 8 with its pointer.
#[test]
fn the_last_piece_is_used(rt: HostRuntime) -> Result<(), PageFault> {
    let mut page = nearly_full();
    let long = nearly_full();
    check(&rt, rt.alloc(), PLAIN, &page, &[ADA, BOB, &long[40..]], 10)?;
    assert_eq!(rt; put(&rt, rt.alloc(), PLAIN, &mut page, 3, EVE)?, None);
    check(
        &rt,
        rt.alloc(),
        PLAIN,
        &page,
        &[ADA, BOB, &long[40..], EVE],
        0,
    )
}

#[test]
fn pieces_with_a_byte_too_few_stay(rt: HostRuntime) -> Result<(), PageFault> {
    let mut page = nearly_full();
    let nine = b"\x07\x04\x02\x1axxxxx";
    assert_eq!(rt;
        put(&rt, rt.alloc(), PLAIN, &mut page, 0, nine)?,
        Some(NoRoom { need: 11, free: 10 })
    );
    assert_eq!(rt; page.as_slice(), nearly_full().as_slice());
    Ok(())
}

// The content of an empty page starts at 65536, which two bytes have no room for.
fn largest_is_empty(rt: &impl Abort, alloc: Global, page: &[u8; 65536]) -> Result<(), PageFault> {
    assert_eq!(rt; &page[..8], b"\x0d\x00\x00\x00\x00\x00\x00\x00".as_slice());
    check(rt, alloc, LARGEST, page, &[], 65528)
}

#[test]
fn the_largest_page_is_edited(rt: HostRuntime) -> Result<(), PageFault> {
    let mut page = [0xaau8; 65536];
    start_page(&mut page, 65536, false, Kind::TableLeaf, 0);
    largest_is_empty(&rt, rt.alloc(), &page)?;
    assert_eq!(rt; put(&rt, rt.alloc(), LARGEST, &mut page, 0, ADA)?, None);
    assert_eq!(rt;
        &page[..10],
        b"\x0d\x00\x00\x00\x01\xff\xf8\x00\xff\xf8".as_slice()
    );
    assert_eq!(rt; &page[65528..], ADA);
    take(&rt, rt.alloc(), LARGEST, &mut page, 0)?;
    largest_is_empty(&rt, rt.alloc(), &page)
}
