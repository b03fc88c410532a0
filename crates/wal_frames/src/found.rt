use crate::header::Front;
use crate::sum::Sum;
use thiserror::Error;

/// What is accepted of a log.
#[derive(Debug, Drop)]
pub struct Accepted {
    /// What the log begins with.
    pub front: Front,
    /// The page numbers of the accepted frames, in order.
    pub pages: Vec<u32>,
    /// The size of the database in pages after the last accepted frame, 0 where there is none.
    pub size: u32,
    /// The checksum after the last accepted frame. Where there is none it is that of the header, or 0, 0 without a header of
    /// ours.
    pub sum: Sum,
}

/// Why the accepted frames of a log can't be told.
#[derive(Clone, Copy, Debug, PartialEq, Eq, Error)]
pub enum ScanFault {
    /// The disk failed, and its count of faults rose.
    #[error("disk failed")]
    Disk,
    /// There was no memory for the page numbers.
    #[error("out of memory")]
    Memory,
}
