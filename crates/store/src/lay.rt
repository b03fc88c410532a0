// Page 1 of the map that a commit makes.
ghost use Rattle.std.specs.Prelude.{◌≡◌, ◌≤◌, [], length, is_ok, All, IfSome, OnOk, List};
ghost use Rattle.disk_face.specs.Faults.{Counts};
ghost use Rattle.disk_face.specs.Stays.{OnlyReads};
ghost use Rattle.page_spec.specs.PageMap.{PageMap, page_at};
ghost use Rattle.engine_spec.specs.PageSet.{AreDifferent};
ghost use Rattle.engine_spec.specs.Change.{Change, laid};
ghost use Rattle.engine_spec.specs.declared.pins.Pin.{Pin as Pins};
ghost use Rattle.engine_spec.specs.declared.pins.Readers.{Readers};
ghost use Rattle.laying.specs.Order.{page_numbers};
ghost use Rattle.laying.specs.First.{IsChangeOf};
ghost use Rattle.page_face.specs.Prepared.{change_in};
ghost use Rattle.store_spec.specs.Store.{newest_told};
ghost use Rattle.store.specs.Kept.{kept_of, IsLiveIn};

use crate::fetch::read_page;
use crate::store::Store;
use disk_face::{Disk, Failed, Salts};
use engine_spec::PageImage;
use laying::lay_first;
use page_face::{Means, Mode, Prepared};

impl<D: Disk, W: Salts, M: Means> Store<D, W, M> {
    // Puts page 1 of the map that the transaction's commit makes into the buffer. After `Failed` the disk failed in reading, and the buffer has any bytes.
    pub(crate) fn lay(&mut self, prepared: &Prepared<M>) -> Result<(), Failed>
        requires live { (readers : Readers) × (pins : List Pins) × IsLiveIn D.DiskTells self.old readers pins }
        requires different { AreDifferent (page_numbers prepared.now.changed) }
        requires least { All (λ image. 1 ≤ image.page) prepared.now.changed }
        requires whole { All (λ image. length image.bytes ≡ self.old.page_size) prepared.now.changed }
        requires fresh { prepared.now.fresh ≡ [] }
        requires freed { prepared.now.freed ≡ [] }
        ensures laid { OnOk result (IfSome (newest_told (kept_of self.old) (D.told self.old.disk)) (λ pages. self.new.buf.items ≡ page_at (laid pages (change_in prepared.now)) 1)) }
        ensures same { self.new ≡ record self.old { disk = self.new.disk; buf = self.new.buf } }
        ensures size { length self.new.buf.items ≡ length self.old.buf.items }
        ensures stays { OnlyReads D.DiskTells self.old.disk self.new.disk }
        ensures faults { Counts (is_ok result) (D.faults self.old.disk) (D.faults self.new.disk) }
    {
        match self.read_first() {
            Ok(()) => {
                lay_in(
                    prepared.mode,
                    prepared.tail,
                    prepared.changed.as_slice(),
                    self.size,
                    &mut self.buf,
                );
                Ok(())
            }
            Err(Failed) => Err(Failed),
        }
    }

    // Reads page 1 of the newest map into the buffer.
    fn read_first(&mut self) -> Result<(), Failed>
        requires live { (readers : Readers) × (pins : List Pins) × IsLiveIn D.DiskTells self.old readers pins }
        ensures read { OnOk result (IfSome (newest_told (kept_of self.old) (D.told self.old.disk)) (λ pages. self.new.buf.items ≡ page_at pages 1)) }
        ensures same { self.new ≡ record self.old { disk = self.new.disk; buf = self.new.buf } }
        ensures size { length self.new.buf.items ≡ length self.old.buf.items }
        ensures stays { OnlyReads D.DiskTells self.old.disk self.new.disk }
        ensures faults { Counts (is_ok result) (D.faults self.old.disk) (D.faults self.new.disk) }
    {
        let found = self.find_newest(1);
        read_page(
            &mut self.disk,
            &self.pair,
            found,
            1,
            self.buf.as_mut_slice(),
        )
    }
}

// Lays page 1 in a buffer that has page 1 of the newest map.
fn lay_in(mode: Mode, tail: bool, changed: &[PageImage], size: u32, buf: &mut Vec<u8>)
    requires room { 100 ≤ length buf.old.items }
    requires different { AreDifferent (page_numbers changed.now) }
    requires least { All (λ image. 1 ≤ image.page) changed.now }
    requires whole { All (λ image. length image.bytes ≡ length buf.old.items) changed.now }
    ensures laid { (pages : PageMap) (change : Change) → IsChangeOf mode tail changed.now change → length pages ≡ size
        → page_at pages 1 ≡ buf.old.items → buf.new.items ≡ page_at (laid pages change) 1 }
    ensures count { length buf.new.items ≡ length buf.old.items }
{
    lay_first(mode, tail, changed, size, buf.as_mut_slice());
}
