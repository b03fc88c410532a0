// Why a header is refused. The texts are told to users as they stand.
use std::error::Error;
use std::fmt;

/// Why the first bytes of page 1 are refused. Where several causes stand together, the first of this list is told.
#[derive(Clone, Copy, Debug, PartialEq, Eq)]
pub enum HeaderFault {
    /// Fewer than 100 bytes, another text at their start, or other numbers than 64, 32 and 32 in bytes 21 to 23.
    NotADb,
    /// The two bytes at 16 are no legal page size.
    PageSize(u16),
    /// The write and read versions, at 18 and 19, are neither both 1, nor both 2, nor both 3.
    Versions(u8, u8),
    /// The text encoding, at 56, is neither 0 nor 1.
    Utf16(u32),
    /// The largest root page, at 52, isn't 0.
    AutoVacuum(u32),
    /// The reserved bytes, at 20, leave fewer than 480 of a page.
    Reserved(u8),
    /// The schema format, at 44, is above 4.
    Format(u32),
    /// So many pages are more than 2^30 bytes.
    TooLarge { pages: u64 },
}

impl fmt::Display for HeaderFault {
    ghost use Rattle.std.specs.Prelude.{Some};
    ghost use Rattle.db_header.specs.Texts.{header_text};

    ghost output = { λ fault. Some (header_text fault) };

    fn fmt<W: fmt::Write>(&self, f: &mut fmt::Formatter<W>) -> fmt::Result {
        match *self {
            HeaderFault::NotADb => write!(f, "not a database"),
            HeaderFault::PageSize(stored) => write!(f, "page size {stored}"),
            HeaderFault::Versions(write, read) => write!(f, "versions {write} {read}"),
            HeaderFault::Utf16(encoding) => write!(f, "encoding {encoding}"),
            HeaderFault::AutoVacuum(largest_root) => write!(f, "auto-vacuum {largest_root}"),
            HeaderFault::Reserved(bytes) => write!(f, "reserved {bytes}"),
            HeaderFault::Format(number) => write!(f, "format {number}"),
            HeaderFault::TooLarge { pages } => write!(f, "too large {pages}"),
        }
    }
}

impl Error for HeaderFault {}
