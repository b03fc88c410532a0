// What each session holds.
use disk_face::Txt;
use engine_spec::PageImage;
use page_face::{Pin, ReadSet};
use sqlite_items::Items;

/// A session of page lines.
#[derive(Drop)]
pub struct Seat {
    /// The session's number.
    pub session: u32,
    /// How many transactions it has begun. A count that reaches 2^64-1 stays there.
    pub begun: u64,
    /// How it stands.
    pub state: State,
}

/// How a session stands.
#[derive(Drop)]
pub enum State {
    /// Out of a transaction.
    Out,
    /// In a transaction.
    Open(Transaction),
    /// In a transaction whose COMMIT was refused because of a later commit. It keeps its pin until ROLLBACK.
    Refused(Pin),
}

/// A transaction of page lines.
#[derive(Drop)]
pub struct Transaction {
    /// Its hold on its snapshot.
    pub pin: Pin,
    /// The pages of the snapshot that it read.
    pub reads: ReadSet,
    /// The pages that it wrote.
    pub changed: Items<PageImage>,
    /// The texts of its reads and writes, in order.
    pub said: Items<Txt>,
    /// Whether it wrote a page.
    pub wrote: bool,
}
