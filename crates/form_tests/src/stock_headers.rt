// Headers of databases that sqlite3 3.40.1 wrote, one of each page size, with free pages, a trunk page and reserved bytes.
// `bench/stock_headers.py` made them.
use db_header::{Header, read_header, write_header};

/// Bytes 16 to 39 of page 1, the file's length, and what sqlite3 tells of it: page size, reserved bytes, pages and free pages.
struct Stock {
    fields: [u8; 24],
    length: u64,
    page_size: u32,
    reserved: u8,
    pages: u32,
    free: u32,
}

/// The other bytes are the same in all of them. Each has its first trunk page at 4.
const TEXT: &[u8; 16] = b"SQLite format 3\x00";

const REST: &[u8; 60] =
    b"\x00\x00\x00\x04\x00\x00\x00\x04\x00\x00\x00\x00\x00\x00\x00\x00\x00\x00\x00\x01\
\x00\x00\x00\x00\x00\x00\x00\x00\x00\x00\x00\x00\x00\x00\x00\x00\x00\x00\x00\x00\
\x00\x00\x00\x00\x00\x00\x00\x00\x00\x00\x00\x00\x00\x00\x00\x05\x00\x2e\x63\x01";

const DATABASES: [Stock; 8] = [
    Stock {
        fields: *b"\x02\x00\x01\x01\x08\x40\x20\x20\x00\x00\x00\x05\x00\x00\x00\x05\x00\x00\x00\x04\x00\x00\x00\x03",
        length: 2560,
        page_size: 512,
        reserved: 8,
        pages: 5,
        free: 3,
    },
    Stock {
        fields: *b"\x04\x00\x01\x01\x10\x40\x20\x20\x00\x00\x00\x05\x00\x00\x00\x06\x00\x00\x00\x04\x00\x00\x00\x04",
        length: 6144,
        page_size: 1024,
        reserved: 16,
        pages: 6,
        free: 4,
    },
    Stock {
        fields: *b"\x08\x00\x01\x01\x18\x40\x20\x20\x00\x00\x00\x05\x00\x00\x00\x07\x00\x00\x00\x04\x00\x00\x00\x05",
        length: 14336,
        page_size: 2048,
        reserved: 24,
        pages: 7,
        free: 5,
    },
    Stock {
        fields: *b"\x10\x00\x01\x01\x20\x40\x20\x20\x00\x00\x00\x05\x00\x00\x00\x08\x00\x00\x00\x04\x00\x00\x00\x06",
        length: 32768,
        page_size: 4096,
        reserved: 32,
        pages: 8,
        free: 6,
    },
    Stock {
        fields: *b"\x20\x00\x01\x01\x07\x40\x20\x20\x00\x00\x00\x05\x00\x00\x00\x09\x00\x00\x00\x04\x00\x00\x00\x07",
        length: 73728,
        page_size: 8192,
        reserved: 7,
        pages: 9,
        free: 7,
    },
    Stock {
        fields: *b"\x40\x00\x01\x01\x0f\x40\x20\x20\x00\x00\x00\x05\x00\x00\x00\x0a\x00\x00\x00\x04\x00\x00\x00\x08",
        length: 163840,
        page_size: 16384,
        reserved: 15,
        pages: 10,
        free: 8,
    },
    Stock {
        fields: *b"\x80\x00\x01\x01\x17\x40\x20\x20\x00\x00\x00\x05\x00\x00\x00\x0b\x00\x00\x00\x04\x00\x00\x00\x09",
        length: 360448,
        page_size: 32768,
        reserved: 23,
        pages: 11,
        free: 9,
    },
    Stock {
        fields: *b"\x00\x01\x01\x01\x1f\x40\x20\x20\x00\x00\x00\x05\x00\x00\x00\x0c\x00\x00\x00\x04\x00\x00\x00\x0a",
        length: 786432,
        page_size: 65536,
        reserved: 31,
        pages: 12,
        free: 10,
    },
];

fn first_bytes(stock: &Stock) -> [u8; 100] {
    let mut bytes = [0u8; 100];
    bytes[..16].copy_from_slice(TEXT);
    bytes[16..40].copy_from_slice(&stock.fields);
    bytes[40..].copy_from_slice(REST);
    bytes
}

#[test]
fn headers_of_each_page_size_are_read_as_sqlite_wrote_them(rt: HostRuntime) {
    for stock in &DATABASES {
        let bytes = first_bytes(stock);
        let header = Header {
            page_size: stock.page_size,
            versions: (1, 1),
            reserved: stock.reserved,
            change: 5,
            pages: stock.pages,
            trunk: 4,
            free: stock.free,
            cookie: 4,
            format: 4,
            encoding: 1,
        };
        assert_eq!(rt; read_header(&bytes, stock.length), Ok(header));
        let mut written = [0u8; 100];
        written[96..].copy_from_slice(&bytes[96..]);
        write_header(&header, &mut written);
        assert_eq!(rt; written.as_slice(), bytes.as_slice());
    }
}
