/// What the first 100 bytes of page 1 tell of a database.
#[derive(Clone, Copy, Debug, PartialEq, Eq)]
pub struct Header {
    /// The size of a page in bytes: a power of two from 512 to 65536.
    pub page_size: u32,
    /// The write and the read version: both 1 for a rollback journal, 2 for one log, 3 for two logs.
    pub versions: (u8, u8),
    /// How many bytes at the end of each page are reserved.
    pub reserved: u8,
    /// The change counter, which each commit raises by 1 modulo 2^32.
    pub change: u32,
    /// The size of the database in pages.
    pub pages: u32,
    /// The page number of the first freelist trunk, 0 for none.
    pub trunk: u32,
    /// How many pages are on the freelist.
    pub free: u32,
    /// The schema cookie, which each change of the schema raises by 1 modulo 2^32.
    pub cookie: u32,
    /// The schema format, 0 to 4; 0 where there is no schema yet.
    pub format: u32,
    /// The text encoding: 1, which is UTF-8.
    pub encoding: u32,
}
