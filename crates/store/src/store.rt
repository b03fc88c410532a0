// A store over a disk, and those of its calls that write nothing.
ghost use Rattle.std.specs.Prelude.{◌≡◌, Some};
ghost use Rattle.engine_spec.specs.TwoLogs.{told_logs};
ghost use Rattle.store_spec.specs.Pins.{newest_pin};
ghost use Rattle.store_spec.specs.Standing.{IsWholeStore};
ghost use Rattle.store_spec.specs.Store.{two_logs};
ghost use Rattle.store.specs.Kept.{kept_of};

use crate::commits::Commits;
use crate::kept_pages::KeptPages;
use disk_face::{Disk, Salts};
use log_pair::LogPair;
use page_face::{Logs, Means, Pin};
use std::alloc::Global;
use std::marker::PhantomData;
use wal_index::WalIndex;
use wal_rules::{LogState, lock_of};

/// Where a write or sync of a log failed.
#[derive(Clone, Copy, Debug)]
pub struct Halt {
    /// The log, 1 or 2.
    pub log: u8,
    /// The offset of the commit's first frame in it, in bytes; 0 where it is the header of a switch.
    pub at: u64,
    /// How many pages the map of that commit would have had.
    pub size: u32,
}

/// A store over a disk.
///
/// Its readers are counted by whoever owns it, and handed to the calls that go by them. Of each commit it keeps the entry, the pages that it wrote, and
/// its tail; it keeps no old map: the disk and the index of the logs give the newest map and that of each pin that holds.
#[derive(Drop)]
pub struct Store<D, W, M> {
    pub(crate) alloc: Global,
    pub(crate) disk: D,
    pub(crate) salts: W,
    /// The page size and how much of a page is in use, in bytes.
    pub(crate) page_size: usize,
    pub(crate) usable: usize,
    /// How many pages the newest map has.
    pub(crate) size: u32,
    /// How many frames a log takes before the next commit may go over to the other.
    pub(crate) limit: u32,
    pub(crate) pair: LogPair,
    pub(crate) index: WalIndex,
    pub(crate) state: LogState,
    pub(crate) commits: Commits,
    /// Where a log write failed, if one did; `spare` has the pages of that commit then, and else is empty, with room.
    pub(crate) stop: Option<Halt>,
    pub(crate) spare: KeptPages,
    /// One page.
    pub(crate) buf: Vec<u8>,
    pub(crate) of: PhantomData<M>,
}

impl<D: Disk, W: Salts, M: Means> Store<D, W, M> {
    /// The page size in bytes. It stays.
    pub fn page_size(&self) -> usize
        ensures { result ≡ (kept_of self.now).page_size }
    {
        self.page_size
    }

    /// How many bytes of a page are in use: the page size less the reserved bytes. It stays.
    pub fn usable(&self) -> usize
        ensures { result ≡ (kept_of self.now).usable }
    {
        self.usable
    }

    /// Pins the newest map. It takes no memory and can't fail. Whoever owns the store counts one reader more of the pin's lock.
    pub fn begin(&mut self) -> Pin
        requires { IsWholeStore (kept_of self.old) }
        ensures pin { result ≡ newest_pin (kept_of self.old) }
        ensures same { self.new ≡ self.old }
    {
        let log = self.pair.current();
        Pin {
            n: self.commits.len() as u64,
            size: self.size,
            lock: lock_of(&self.state),
            generation: self.pair.generation(),
            mark: self.pair.frames(log),
        }
    }

    /// Says how the logs stand.
    pub fn logs(&self) -> Logs
        requires { IsWholeStore (kept_of self.now) }
        ensures { result ≡ told_logs (Some (two_logs (kept_of self.now))) (kept_of self.now).history }
    {
        let log = self.pair.current();
        Logs {
            current: log,
            frames: self.pair.frames(log),
            done: self.state.done,
        }
    }
}
