// The calls of a store of page maps.
ghost use Rattle.std.specs.Prelude.{◌≡◌, ◌≤◌, length};
ghost use Rattle.page_face.specs.Pins.{IsLive};
ghost use Rattle.page_face.specs.Prepared.{IsFit};
ghost use Rattle.page_face.specs.Calls.{IsWholeEngine, IsGoodForOthers, HasBegun, HasFetched, HasCommitted, HasStepped, HasToldLogs, HasEnded};

use crate::{Ckpt, CommitFault, EngineTells, FetchFault, Logs, Means, Pin, Prepared, Receipt, Who};
use disk_face::Failed;

/// A store of page maps with snapshots: each commit makes one map more, and a pin keeps the map of its snapshot readable.
///
/// Others may commit to the same store between two calls. So a call's clause speaks of the moment at which the call's own
/// event came: the history had then grown at its end alone. A call that answers well counts no fault.
pub trait Engine<M: Means>: EngineTells<M> {
    /// The page size in bytes. It stays.
    fn page_size(&self) -> usize
        ensures { result ≡ (Self.state self.now).page_size };

    /// How many bytes of a page are in use: the page size less the reserved bytes. It stays.
    fn usable(&self) -> usize
        ensures { result ≡ (Self.state self.now).usable };

    /// Pins the newest map. It takes no memory and can't fail.
    fn begin(&mut self) -> Pin
        requires whole { IsWholeEngine Self.EngineTells self.old }
        requires may_begin { Self.may_begin self.old }
        ensures { HasBegun Self.EngineTells self.old result self.new };

    /// Fills the buffer, of one page, with a page of the pin's map. It takes no memory, and fails only where the disk does.
    fn fetch(&mut self, pin: &Pin, page: u32, buf: &mut [u8]) -> Result<(), FetchFault>
        requires live { IsLive Self.live self.old pin.now }
        requires page { (1 ≤ page) × (page ≤ pin.now.size) }
        requires room { length buf.old ≡ (Self.state self.old).page_size }
        ensures { HasFetched Self.EngineTells self.old pin.now page result buf.new self.new };

    /// Commits a transaction of a pin that holds, or says why not and hands the transaction back as it was.
    ///
    /// Of an engine that is alone it asks nothing of what the change means: a run for which the engine stands goes on where the
    /// change is good for it. Where others commit to the same store the change is good for each run, since theirs go on too.
    fn commit(
        &mut self,
        pin: &Pin,
        prepared: Prepared<M>,
        who: Who,
    ) -> Result<Receipt, (CommitFault, Prepared<M>)>
        requires live { IsLive Self.live self.old pin.now }
        requires fit { IsFit (Self.state self.old) pin.now prepared }
        requires good { IsGoodForOthers M.Means Self.EngineTells self.old pin.now prepared }
        ensures { HasCommitted M.Means Self.EngineTells self.old pin.now prepared who result self.new };

    /// Takes one step of a checkpoint. After `Failed` the logs are as before, and the step may be taken again.
    fn ckpt(&mut self) -> Result<Ckpt, Failed>
        requires { IsWholeEngine Self.EngineTells self.old }
        ensures { HasStepped Self.EngineTells self.old result self.new };

    /// Says how the logs stand.
    fn logs(&mut self) -> Logs
        requires { IsWholeEngine Self.EngineTells self.old }
        ensures { HasToldLogs Self.EngineTells self.old result self.new };

    /// Gives a pin back. It takes no memory and can't fail.
    fn end(&mut self, pin: Pin)
        requires { IsLive Self.live self.old pin }
        ensures { HasEnded Self.EngineTells self.old pin self.new };
}
