// Broken pages, each refused with the field that breaks it. The page is of 512 bytes: a leaf of a table with the cell of rowid 1 and
// (NULL, 'Ada') twice, or once with a freeblock of 8 bytes behind it. The expected fields are worked by hand.
ghost use Rattle.std.specs.Prelude.{◌≡◌, length};

use page_form::{PageFault, read_page};
use std::alloc::Global;
use std::process::Abort;

const ADA: &[u8; 8] = b"\x06\x01\x03\x00\x13\x41\x64\x61";

fn write(page: &mut [u8], at: usize, bytes: &[u8]) {
    for (k, byte) in bytes.iter().enumerate() {
        if k < page.len() && at < page.len() - k {
            page[at + k] = *byte;
        }
    }
}

// The fault of a page with bytes written at a place; 512 where it has none.
fn fault_of(
    rt: &impl Abort,
    alloc: Global,
    page: &[u8; 512],
    at: usize,
    bytes: &[u8],
) -> Result<usize, PageFault> {
    let mut broken = *page;
    write(&mut broken, at, bytes);
    match read_page(alloc, &broken, 512, false) {
        Ok(page) => {
            assert_eq!(rt; page.right, 0);
            Ok(512)
        }
        Err(PageFault::Bad { at }) => Ok(at),
        Err(PageFault::Memory) => Err(PageFault::Memory),
    }
}

#[test]
fn cells_are_checked(rt: HostRuntime) -> Result<(), PageFault> {
    let mut page = [0u8; 512];
    write(
        &mut page,
        0,
        b"\x0d\x00\x00\x00\x02\x01\xf0\x00\x01\xf0\x01\xf8",
    );
    write(&mut page, 496, ADA);
    write(&mut page, 504, ADA);
    let cases: [(usize, &[u8], usize); 13] = [
        (0, b"\x0d", 512),
        (0, b"\x0c", 0),
        (3, b"\x00\xfd", 3),
        (5, b"\x00\x00", 5),
        (5, b"\x00\x0b", 5),
        (8, b"\x01\xef", 8),
        (10, b"\x01\xfe", 510),
        (10, b"\x01\xf4", 500),
        (10, b"\x01\xf0", 496),
        (10, b"\x01\xff", 511),
        (10, b"\x01\xfa", 7),
        (496, b"\xc0\x80\x80\x80\x80\x80\x80\x80\x00", 496),
        (7, b"\x01", 7),
    ];
    for (at, bytes, field) in cases {
        assert_eq!(rt; fault_of(&rt, rt.alloc(), &page, at, bytes)?, field);
    }
    Ok(())
}

#[test]
fn freeblocks_are_checked(rt: HostRuntime) -> Result<(), PageFault> {
    let mut page = [0u8; 512];
    write(&mut page, 0, b"\x0d\x01\xf8\x00\x01\x01\xf0\x00\x01\xf0");
    write(&mut page, 496, ADA);
    write(&mut page, 504, b"\x00\x00\x00\x08");
    let cases: [(usize, &[u8], usize); 9] = [
        (1, b"\x01\xf8", 512),
        (504, b"\x01\xf8", 504),
        (504, b"\x01\xf0", 496),
        (506, b"\x00\x03", 504),
        (506, b"\x00\x09", 504),
        (506, b"\x00\x07", 7),
        (1, b"\x01\x00", 256),
        (1, b"\x01\xf6", 502),
        (1, b"\x00\x00", 7),
    ];
    for (at, bytes, field) in cases {
        assert_eq!(rt; fault_of(&rt, rt.alloc(), &page, at, bytes)?, field);
    }
    Ok(())
}
