// What is told of a page.
use node_spec::Kind;
use thiserror::Error;

/// What a page holds.
#[derive(Debug, Drop)]
pub struct Page {
    /// Its kind.
    pub kind: Kind,
    /// The offset in bytes of each cell, in the order of the cells.
    pub cells: Vec<u16>,
    /// The page number of the right child, 0 on a leaf.
    pub right: u32,
    /// How many bytes are free, fragments and freeblocks included.
    pub free: usize,
}

/// Why bytes are refused.
#[derive(Clone, Copy, Debug, PartialEq, Eq, Error)]
pub enum PageFault {
    /// The first field that breaks the text of a page, by its offset in bytes; a cell and a freeblock by where they start.
    #[error("page broken at {at}")]
    Bad { at: usize },
    /// Want of memory.
    #[error("out of memory")]
    Memory,
}
