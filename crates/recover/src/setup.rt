// What a database is opened as.

/// What a database holds.
#[derive(Clone, Copy, Debug, PartialEq, Eq)]
pub enum StoreKind {
    /// 16 pages of plain bytes, written by page lines.
    Pages,
    /// Tables, as SQLite's file format has them.
    Tables,
}

/// How a database is opened.
#[derive(Clone, Copy, Debug, PartialEq, Eq)]
pub struct Setup {
    /// What it holds.
    pub kind: StoreKind,
    /// The page size in bytes that a new database gets, a legal one.
    pub page_size: u32,
    /// How many frames a log takes before the next commit may go over to the other log, at least 1.
    pub limit: u32,
}
