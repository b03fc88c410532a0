// What a check answers. The texts are told to users as they stand.
use std::error::Error;
use std::fmt;

/// What a sound database has.
#[derive(Clone, Copy, Debug, PartialEq, Eq)]
pub struct Count {
    /// How many pages there are.
    pub pages: u32,
    /// How many trees, page 1's among them.
    pub trees: u32,
    /// How many pages are free.
    pub free: u32,
}

/// Why a database is refused: the first fault on the walk.
#[derive(Clone, Copy, Debug, PartialEq, Eq)]
pub enum CheckFault {
    /// A field of a page breaks what is asked of it where the page stands. `at` is its offset in bytes.
    ///
    /// On page 1: 28 where the header is none or counts other pages than there are, 32 where the first trunk is out of range, 36 where the
    /// freelist has other pages than the header counts. On a trunk: 0, 4 or 8 + 4i for the next trunk, the count of leaves and leaf i. On a page of
    /// a tree: what reading it says; or the number of a child or a chain; or the page's header, where its kind, its depth or a missing cell is
    /// at fault. On a page of a chain: 0, for the next number.
    Page { page: u32, at: usize },
    /// The row of page 1's tree with this rowid is no schema row, or names a root out of range.
    Schema { rowid: i64 },
    /// The rowid of a cell isn't above the one before it, or breaks the bound of an interior cell. Cells are counted from 0.
    Order { page: u32, cell: usize },
    /// A page is met again.
    Twice { page: u32 },
    /// The least page that is in no place.
    Lost { page: u32 },
    /// The disk failed and counted it.
    Disk,
    /// Want of memory.
    Memory,
}

impl fmt::Display for CheckFault {
    ghost use Rattle.std.specs.Prelude.{Some};
    ghost use Rattle.check_spec.specs.Texts.{check_text};

    ghost output = { λ fault. Some (check_text fault) };

    fn fmt<W: fmt::Write>(&self, f: &mut fmt::Formatter<W>) -> fmt::Result {
        match *self {
            CheckFault::Page { page, at } => write!(f, "page {page} at {at}"),
            CheckFault::Schema { rowid } => write!(f, "schema row {rowid}"),
            CheckFault::Order { page, cell } => write!(f, "order page {page} cell {cell}"),
            CheckFault::Twice { page } => write!(f, "twice page {page}"),
            CheckFault::Lost { page } => write!(f, "lost page {page}"),
            CheckFault::Disk => write!(f, "disk failed"),
            CheckFault::Memory => write!(f, "out of memory"),
        }
    }
}

impl Error for CheckFault {}
