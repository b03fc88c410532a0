use db_header::{Header, HeaderFault, read_header, write_header};
use std::alloc::{AllocError, Global};
use std::test::Fail;

/// The first 100 bytes of the file that sqlite3 3.40.1 makes of
/// `CREATE TABLE people(id INTEGER PRIMARY KEY, name VARCHAR(40)); INSERT INTO people VALUES (1, 'Ada'), (2, 'Bob');
/// CREATE VIEW names AS SELECT name FROM people;`, as `xxd -l 100` shows them. The file has 8,192 bytes.
const STOCK: &[u8; 100] =
    b"SQLite format 3\x00\x10\x00\x01\x01\x00\x40\x20\x20\x00\x00\x00\x03\x00\x00\x00\x02\
\x00\x00\x00\x00\x00\x00\x00\x00\x00\x00\x00\x02\x00\x00\x00\x04\
\x00\x00\x00\x00\x00\x00\x00\x00\x00\x00\x00\x01\x00\x00\x00\x00\
\x00\x00\x00\x00\x00\x00\x00\x00\x00\x00\x00\x00\x00\x00\x00\x00\
\x00\x00\x00\x00\x00\x00\x00\x00\x00\x00\x00\x00\x00\x00\x00\x03\x00\x2e\x63\x01";

const STOCK_HEADER: Header = Header {
    page_size: 4096,
    versions: (1, 1),
    reserved: 0,
    change: 3,
    pages: 2,
    trunk: 0,
    free: 0,
    cookie: 2,
    format: 4,
    encoding: 1,
};

/// The stock header with three bytes changed: of each its offset and what stands there then. Offset 100 lies behind
/// the header: it is given where fewer are changed.
type Change = [u8; 6];

fn changed(change: &Change) -> [u8; 100] {
    let mut bytes = *STOCK;
    let [first, first_byte, second, second_byte, third, third_byte] = *change;
    put(&mut bytes, first, first_byte);
    put(&mut bytes, second, second_byte);
    put(&mut bytes, third, third_byte);
    bytes
}

fn put(bytes: &mut [u8; 100], at: u8, byte: u8) {
    if at < 100 {
        bytes[at as usize] = byte;
    }
}

#[test]
fn a_stock_header_is_read_and_written(rt: HostRuntime) {
    assert_eq!(rt; read_header(STOCK, 8192), Ok(STOCK_HEADER));
    let mut written = *STOCK;
    write_header(&STOCK_HEADER, &mut written);
    assert_eq!(rt; written.as_slice(), STOCK.as_slice());
    let mut page = [0xffu8; 512];
    write_header(&STOCK_HEADER, &mut page);
    assert_eq!(rt; read_header(&page, 0), Ok(STOCK_HEADER));
    assert_eq!(rt; &page[48..52], b"\xff\xff\xff\xff".as_slice());
    assert_eq!(rt; page[60], 0xff);
    assert_eq!(rt; page[96], 0xff);
}

/// Headers that don't tell the size any more, with the file's length, the change counter and the size that follows.
const STALE: [(Change, u64, u32, u32); 5] = [
    ([100, 0, 100, 0, 100, 0], 40960, 3, 2),
    ([27, 4, 100, 0, 100, 0], 40960, 4, 10),
    ([95, 4, 100, 0, 100, 0], 45055, 3, 10),
    ([31, 0, 100, 0, 100, 0], 4096, 3, 1),
    ([31, 0, 100, 0, 100, 0], 4095, 3, 0),
];

#[test]
fn the_size_of_a_stale_header_is_that_of_the_file(rt: HostRuntime) {
    for (change, length, counter, pages) in &STALE {
        let header = Header {
            change: *counter,
            pages: *pages,
            ..STOCK_HEADER
        };
        assert_eq!(rt; read_header(&changed(change), *length), Ok(header));
    }
}

/// Headers that are refused. Where several fields are wrong the first in the order of the checks is told.
const REFUSED: [Change; 23] = [
    [0, b's', 100, 0, 100, 0],
    [15, 1, 100, 0, 100, 0],
    [21, 65, 100, 0, 100, 0],
    [22, 33, 100, 0, 100, 0],
    [23, 31, 100, 0, 100, 0],
    [0, b's', 17, 1, 100, 0],
    [17, 1, 100, 0, 100, 0],
    [16, 0, 100, 0, 100, 0],
    [16, 1, 100, 0, 100, 0],
    [17, 1, 18, 2, 100, 0],
    [18, 2, 100, 0, 100, 0],
    [18, 4, 19, 4, 100, 0],
    [18, 0, 19, 0, 100, 0],
    [18, 2, 59, 2, 100, 0],
    [59, 2, 100, 0, 100, 0],
    [59, 2, 55, 4, 100, 0],
    [55, 4, 100, 0, 100, 0],
    [55, 4, 16, 2, 20, 33],
    [16, 2, 20, 33, 100, 0],
    [16, 2, 20, 33, 47, 5],
    [47, 5, 100, 0, 100, 0],
    [47, 5, 29, 4, 100, 0],
    [29, 4, 100, 0, 100, 0],
];

/// The reasons in their order.
const REASONS: &str = "not a database
not a database
not a database
not a database
not a database
not a database
page size 4097
page size 0
page size 256
page size 4097
versions 2 1
versions 4 4
versions 0 0
versions 2 1
encoding 2
encoding 2
auto-vacuum 4
auto-vacuum 4
reserved 33
reserved 33
format 5
format 5
too large 262146
";

#[test]
fn refusals_come_in_their_order_with_their_reasons(rt: HostRuntime) -> Result<(), Fail> {
    assert_eq!(rt; reasons(rt.alloc())?.as_str(), REASONS);
    assert_eq!(rt; read_header(&STOCK[..99], 8192), Err(HeaderFault::NotADb));
    Ok(())
}

fn reasons(alloc: Global) -> Result<String, AllocError> {
    let mut text = String::new(alloc);
    for change in &REFUSED {
        let reason = reason(alloc, change)?;
        text.push_str(reason.as_str())?;
    }
    Ok(text)
}

fn reason(alloc: Global, change: &Change) -> Result<String, AllocError> {
    match read_header(&changed(change), 8192) {
        Ok(_) => format!(in alloc; "taken\n"),
        Err(fault) => format!(in alloc; "{fault}\n"),
    }
}

/// The last values that pass, with the page size and the size in pages that are read.
const TAKEN: [(Change, u32, u32); 6] = [
    ([16, 2, 20, 32, 100, 0], 512, 2),
    ([16, 0, 17, 1, 59, 0], 65536, 2),
    ([47, 0, 100, 0, 100, 0], 4096, 2),
    ([18, 2, 19, 2, 100, 0], 4096, 2),
    ([18, 3, 19, 3, 100, 0], 4096, 2),
    ([29, 4, 31, 0, 100, 0], 4096, 262144),
];

#[test]
fn the_last_values_that_pass(rt: HostRuntime) {
    for (change, page_size, pages) in &TAKEN {
        let read = sizes(change);
        assert_eq!(rt; read, Some((*page_size, *pages, 1)));
    }
}

fn sizes(change: &Change) -> Option<(u32, u32, u32)> {
    match read_header(&changed(change), 8192) {
        Ok(header) => Some((header.page_size, header.pages, header.encoding)),
        Err(_) => None,
    }
}
