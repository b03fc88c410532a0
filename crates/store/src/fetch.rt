// Pages of a pin's map, found through the index and read from where they stand.
ghost use Rattle.std.specs.Prelude.{◌≡◌, ◌⊎◌, ◌≤◌, ◌*◌, ◌-◌, true, ℕ, List, length, is_ok, IfSome, IfErr, OnOk, Contains};
ghost use Rattle.disk_face.specs.Faults.{Counts};
ghost use Rattle.disk_face.specs.Stays.{OnlyReads};
ghost use Rattle.disk_face.specs.Told.{IsInside};
ghost use Rattle.disk_face.specs.declared.disk.File.TheVariants.{Main};
ghost use Rattle.page_spec.specs.PageMap.{page_at};
ghost use Rattle.engine_spec.specs.declared.commits.FetchFault.TheVariants as fault;
ghost use Rattle.engine_spec.specs.declared.pins.Pin.{Pin as Pins};
ghost use Rattle.engine_spec.specs.declared.pins.Readers.{Readers};
ghost use Rattle.log_spec.specs.Frames.{frame_place, frame_size};
ghost use Rattle.log_pair.specs.Pair.{log_of};
ghost use Rattle.wal_frames.specs.Found.{log_file};
ghost use Rattle.store_spec.specs.Store.{pin_told};
ghost use Rattle.store_spec.specs.Reading.{FindsPage, FindsBelow, FindsOver, current_pages};
ghost use Rattle.store_spec.specs.Standing.{IsWholeStore};
ghost use Rattle.store.specs.Kept.{kept_of, IsLiveIn};
ghost use Rattle.store.specs.Fetching.{IsPlaceInside, IsReadAt};

use crate::store::Store;
use disk_face::{Disk, Failed, File, Salts};
use log_pair::LogPair;
use page_face::{FetchFault, Means, Pin};

impl<D: Disk, W: Salts, M: Means> Store<D, W, M> {
    // The log and the frame that have a page of a pin's map, or none where the database has it.
    pub(crate) fn find(&self, pin: &Pin, page: u32) -> Option<(u8, u32)>
        requires { IsWholeStore (kept_of self.now) }
        ensures { FindsPage (kept_of self.now) pin.now page result }
    {
        let log = self.pair.current();
        if pin.generation != self.pair.generation() {
            return self.find_below(page, pin.mark);
        }
        match self.index.find(log, page, pin.mark) {
            Some(frame) => Some((log, frame)),
            None => self.find_below(page, self.pair.frames(3 - log)),
        }
    }

    // The same of the newest map.
    pub(crate) fn find_newest(&self, page: u32) -> Option<(u8, u32)>
        requires { IsWholeStore (kept_of self.now) }
        ensures { FindsOver (kept_of self.now) (length (current_pages (kept_of self.now))) page result }
    {
        let log = self.pair.current();
        match self.index.find(log, page, self.pair.frames(log)) {
            Some(frame) => Some((log, frame)),
            None => self.find_below(page, self.pair.frames(3 - log)),
        }
    }

    // The last frame of the page in the other log up to a mark, or none where the database has it.
    fn find_below(&self, page: u32, mark: u32) -> Option<(u8, u32)>
        requires { IsWholeStore (kept_of self.now) }
        ensures { FindsBelow (kept_of self.now) mark page result }
    {
        let other = 3 - self.pair.current();
        match self.index.find(other, page, mark) {
            Some(frame) => Some((other, frame)),
            None => None,
        }
    }

    /// Fills the buffer, of one page, with a page of the pin's map. It takes no memory, and fails only where the disk does: the buffer has any bytes
    /// then, and nothing else changed.
    pub fn fetch(&mut self, pin: &Pin, page: u32, buf: &mut [u8]) -> Result<(), FetchFault>
        requires live { (readers : Readers) × (pins : List Pins) × IsLiveIn D.DiskTells self.old readers pins × Contains pins pin.now }
        requires page { (1 ≤ page) × (page ≤ pin.now.size) }
        requires room { length buf.old ≡ (kept_of self.old).page_size }
        ensures page_is { OnOk result (IfSome (pin_told (kept_of self.old) (D.told self.old.disk) pin.now) (λ pages. buf.new ≡ page_at pages page)) }
        ensures cause { IfErr result (λ why. why ≡ fault.Disk) }
        ensures same { self.new ≡ record self.old { disk = self.new.disk } }
        ensures size { length buf.new ≡ length buf.old }
        ensures stays { OnlyReads D.DiskTells self.old.disk self.new.disk }
        ensures faults { Counts (is_ok result) (D.faults self.old.disk) (D.faults self.new.disk) }
    {
        let found = self.find(pin, page);
        match read_page(&mut self.disk, &self.pair, found, page, buf) {
            Ok(()) => Ok(()),
            Err(Failed) => Err(FetchFault::Disk),
        }
    }
}

// Reads a page from a log's frame, or from the database.
pub(crate) fn read_page<D: Disk>(
    disk: &mut D,
    pair: &LogPair,
    found: Option<(u8, u32)>,
    page: u32,
    buf: &mut [u8],
) -> Result<(), Failed>
    requires attached { D.attached disk.old ≡ true }
    requires page { 1 ≤ page }
    requires small { length buf.old ≤ 65536 }
    requires inside { IsPlaceInside (D.told disk.old) pair.now (length buf.old) page found }
    ensures read { OnOk result (IsReadAt (D.told disk.old) pair.now page found buf.new) }
    ensures size { length buf.new ≡ length buf.old }
    ensures stays { OnlyReads D.DiskTells disk.old disk.new }
    ensures faults { Counts (is_ok result) (D.faults disk.old) (D.faults disk.new) }
{
    match found {
        Some((log, frame)) => pair.read_frame(disk, log, frame, buf),
        None => disk.read_at(File::Main, u64::from(page - 1) * buf.len() as u64, buf),
    }
}
