// What a transaction hands over, and what it is answered.
use disk_face::{Bytes, Txt};
use sqlite_items::Items;
use thiserror::Error;

/// How a transaction was begun.
#[derive(Clone, Copy, Debug, PartialEq, Eq)]
pub enum Mode {
    /// By BEGIN: refused after any other commit.
    Plain,
    /// By BEGIN CONCURRENT: refused only after a commit that wrote what it read.
    Concurrent,
}

/// A page with its bytes.
#[derive(Debug, Drop)]
pub struct PageImage {
    /// The page's number, from 1.
    pub page: u32,
    /// All bytes of the page.
    pub bytes: Bytes,
}

/// Whose transaction it is.
#[derive(Clone, Copy, Debug, PartialEq, Eq)]
pub struct Who {
    /// The session's number.
    pub session: u32,
    /// Which transaction of the session it is, from 1. A count that reaches 2^64-1 stays there.
    pub ordinal: u64,
}

/// What a transaction that ended well is told.
#[derive(Clone, Copy, Debug, PartialEq, Eq)]
pub enum Receipt {
    /// It is the commit of this number.
    At(u64),
    /// It wrote nothing, and read the snapshot of this number.
    ReadOnly(u64),
}

/// Why a page couldn't be given, written, made or freed.
#[derive(Clone, Copy, Debug, PartialEq, Eq, Error)]
pub enum FetchFault {
    /// The disk failed, and counted it.
    #[error("disk failed")]
    Disk,
    /// A page that was read breaks its form.
    #[error("page {page} is corrupt")]
    Corrupt {
        /// The page that was read.
        page: u32,
    },
    /// The database would be larger than 2^30 bytes.
    #[error("{pages} pages are too many")]
    Size {
        /// How many pages it would have.
        pages: u64,
    },
    /// Memory ran out.
    #[error("out of memory")]
    Memory,
}

/// Why a commit was refused. The order of the causes is that of the variants, with `Memory` before `Disk` and `Corrupt`.
#[derive(Clone, Copy, Debug, PartialEq, Eq, Error)]
pub enum CommitFault {
    /// An earlier write or sync of a log failed, so nothing can be committed any more.
    #[error("stopped at byte {at} of log {log}")]
    Stopped {
        /// The log, 1 or 2.
        log: u8,
        /// The offset in it of the first frame that wasn't written, in bytes.
        at: u64,
    },
    /// A page that the transaction read was written by a later commit.
    #[error("page {page} was written by commit {commit}")]
    BusySnapshot {
        /// The least such page.
        page: u32,
        /// The first commit after the snapshot that wrote it.
        commit: u64,
    },
    /// The database would be larger than 2^30 bytes, or a log longer than 4,294,967,295 frames.
    #[error("{pages} pages or {frames} frames are too many")]
    SizeLimit {
        /// How many pages the database would have.
        pages: u64,
        /// How many frames the log could have.
        frames: u64,
    },
    /// Memory ran out.
    #[error("out of memory")]
    Memory,
    /// The disk failed, and counted it.
    #[error("disk failed")]
    Disk,
    /// A page of the freelist that was read breaks its form.
    #[error("page {page} is corrupt")]
    Corrupt {
        /// The page that was read.
        page: u32,
    },
}

/// One entry of a history: a transaction that was committed.
#[derive(Debug, Drop)]
pub struct Entry {
    /// The session's number.
    pub session: u32,
    /// Which transaction of the session it was, from 1.
    pub ordinal: u64,
    /// The number of the snapshot that it began at.
    pub snap: u64,
    /// The texts of its accepted statements, in order.
    pub statements: Items<Txt>,
}

/// One commit of a history. Commits are numbered from 1.
#[derive(Debug, Drop)]
pub struct Commit {
    /// Whose it was, and what was said.
    pub entry: Entry,
    /// The pages that it wrote.
    pub wrote: Items<u32>,
    /// Whether it changed page 1 from byte 100 on.
    pub tail: bool,
}
