// A transaction as it is handed in to be committed.
use crate::{Mode, PageImage, ReadSet};
use disk_face::Txt;
use sqlite_items::Items;
use std::marker::PhantomData;

/// A transaction that is ready to be committed: how it was begun, what it read and what it changed.
#[derive(Drop)]
#[derive_where(Debug)]
pub struct Prepared<M> {
    /// How it was begun.
    pub mode: Mode,
    /// The number of its snapshot.
    pub snap: u64,
    /// How many pages its snapshot has.
    pub base: u32,
    /// The pages of the snapshot that it read.
    pub reads: ReadSet,
    /// The pages of the snapshot that it changed, each once.
    pub changed: Items<PageImage>,
    /// Its new pages, numbered on from the base.
    pub fresh: Items<PageImage>,
    /// The pages that it freed, in order.
    pub freed: Items<u32>,
    /// Whether it changed page 1 from byte 100 on.
    pub tail: bool,
    /// Whether an accepted statement changed anything.
    pub wrote: bool,
    /// The texts of its accepted statements.
    pub said: Items<Txt>,
    /// What its statements mean.
    pub of: PhantomData<M>,
}
