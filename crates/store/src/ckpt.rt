// A step of a checkpoint.
ghost use Rattle.std.specs.Prelude.{◌≡◌, List, is_ok, IfOk};
ghost use Rattle.disk_face.specs.Faults.{Counts};
ghost use Rattle.disk_face.specs.Stays.{OnlyWrites};
ghost use Rattle.engine_spec.specs.declared.pins.Pin.{Pin as Pins};
ghost use Rattle.engine_spec.specs.TwoLogs.{Steps};
ghost use Rattle.store_spec.specs.Store.{two_logs};
ghost use Rattle.store_spec.specs.Steps.{HasTakenStep, stepped};
ghost use Rattle.store.specs.Kept.{kept_of, IsAble, IsLiveIn};

use crate::store::Store;
use checkpoint::step;
use disk_face::{Disk, Failed, Salts};
use page_face::{Ckpt, Means, Readers};

impl<D: Disk, W: Salts, M: Means> Store<D, W, M> {
    /// Takes one step of a checkpoint: the next page of the log that isn't current is copied into the database, or the database is synced and that log
    /// is done. It takes no memory.
    ///
    /// The readers are those of all pins that hold. After `Failed` the count of faults rose and the logs are as before: the step may be taken again.
    pub fn ckpt(&mut self, readers: &Readers) -> Result<Ckpt, Failed>
        requires { (pins : List Pins) × IsLiveIn D.DiskTells self.old readers.now pins }
        ensures taken { HasTakenStep (kept_of self.old) readers.now result self.new.state (D.told self.old.disk) (D.told self.new.disk) }
        ensures becomes { kept_of self.new ≡ stepped (kept_of self.old) self.new.state }
        ensures logs { IfOk result (λ answer. Steps (two_logs (kept_of self.old)) readers.now (kept_of self.old).history answer (two_logs (kept_of self.new))) }
        ensures able { IsAble D.DiskTells self.new }
        ensures stays { OnlyWrites D.DiskTells self.old.disk self.new.disk }
        ensures salts { self.new.salts ≡ self.old.salts }
        ensures faults { Counts (is_ok result) (D.faults self.old.disk) (D.faults self.new.disk) }
    {
        step(
            &mut self.disk,
            &self.pair,
            &self.index,
            &mut self.state,
            readers,
            self.buf.as_mut_slice(),
        )
    }
}
