// A commit: barred, planned, laid and written.
ghost use Rattle.std.specs.Prelude.{◌≡◌, ◌+◌, true, length, List, None, IfSome, OnOk, OnErr, Err, Contains};
ghost use Rattle.page_spec.specs.PageMap.{page_at};
ghost use Rattle.engine_spec.specs.Change.{laid};
ghost use Rattle.engine_spec.specs.Events.{IsClear};
ghost use Rattle.engine_spec.specs.declared.pins.Pin.{Pin as Pins};
ghost use Rattle.engine_spec.specs.declared.pins.Readers.{Readers as Counted};
ghost use Rattle.engine_spec.specs.declared.commits.Who.{Who as Owner};
ghost use Rattle.engine_spec.specs.declared.commits.CommitFault.TheVariants as fault;
ghost use Rattle.page_face.specs.Pins.{IsLive};
ghost use Rattle.page_face.specs.Prepared.{IsFit, change_in, submitted};
ghost use Rattle.page_face.specs.Calls.{HasCommitted};
ghost use Rattle.store_spec.specs.Store.{newest_told};
ghost use Rattle.store.specs.Kept.{kept_of, state_of, IsAble, IsLiveIn};
ghost use Rattle.store.specs.Tells.{store_tells};
ghost use Rattle.store.specs.Planning.{IsPlanOf, HasPlanRoom};
ghost use Rattle.store_spec.specs.Standing.{IsLiveStore};
ghost use Rattle.store_spec.specs.Steady.{IsSteady};
ghost use Rattle.store.specs.CommittedFrom.{CommittedFrom, IsReadyFrom, Before, before_of, state_before};

use crate::plan::Plan;
use crate::store::Store;
use disk_face::{Disk, Failed, Salts};
use page_face::{CommitFault, Means, Pin, Prepared, Readers, Receipt, Who};

impl<D: Disk, W: Salts, M: Means> Store<D, W, M> {
    /// Commits a transaction of a pin that holds, or says why not and hands the transaction back as it was. The readers are those of all pins that
    /// hold, this one included.
    ///
    /// The causes of a refusal come in the order of `CommitFault`'s variants. All memory is taken before the first write. After a failed write or
    /// sync of a log each later commit is refused as stopped, and pages are still read.
    pub fn commit(
        &mut self,
        pin: &Pin,
        readers: &Readers,
        prepared: Prepared<M>,
        who: Who,
    ) -> Result<Receipt, (CommitFault, Prepared<M>)>
        requires live { IsLive (λ store pins. IsLiveIn D.DiskTells store readers.now pins) self.old pin.now }
        requires fit { IsFit (state_of D.DiskTells self.old readers.now) pin.now prepared }
        ensures { HasCommitted M.Means (store_tells D.DiskTells W.loans M.Means readers.now) self.old pin.now prepared who result self.new }
    {
        let _ = pin;
        if !prepared.wrote {
            return Ok(Receipt::ReadOnly(prepared.snap));
        }
        match self.bar(readers, &prepared) {
            Some(fault) => Err((fault, prepared)),
            None => self.add(readers, prepared, who),
        }
    }

    // Commits a transaction that nothing bars, of whichever pin that holds.
    fn add(
        &mut self,
        readers: &Readers,
        prepared: Prepared<M>,
        who: Who,
    ) -> Result<Receipt, (CommitFault, Prepared<M>)>
        requires live { (pins : List Pins) × (pin : Pins) × IsLiveIn D.DiskTells self.old readers.now pins × Contains pins pin × IsFit (state_of D.DiskTells self.old readers.now) pin prepared }
        requires clear { IsClear (state_of D.DiskTells self.old readers.now) (submitted prepared who) }
        ensures { (pins : List Pins) (pin : Pins) → IsLiveIn D.DiskTells self.old readers.now pins → Contains pins pin → IsFit (state_of D.DiskTells self.old readers.now) pin prepared
            → CommittedFrom D.DiskTells W.loans M.Means (before_of D.DiskTells W.loans self.old) readers.now pin prepared who result self.new }
    {
        let plan = match self.plan(prepared.changed.as_slice()) {
            Ok(plan) => plan,
            Err(_) => return Err((CommitFault::Memory, prepared)),
        };
        match self.lay(&prepared) {
            Ok(()) => self.write(readers, plan, prepared, who),
            Err(Failed) => Err((CommitFault::Disk, prepared)),
        }
    }

    // Writes a commit whose page 1 is in the buffer.
    fn write(
        &mut self,
        readers: &Readers,
        plan: Plan,
        prepared: Prepared<M>,
        who: Who,
    ) -> Result<Receipt, (CommitFault, Prepared<M>)>
        requires live { (pins : List Pins) × (pin : Pins) × IsLiveIn D.DiskTells self.old readers.now pins × Contains pins pin × IsFit (state_of D.DiskTells self.old readers.now) pin prepared }
        requires clear { IsClear (state_of D.DiskTells self.old readers.now) (submitted prepared who) }
        requires plan { IsPlanOf prepared.changed plan }
        requires room { HasPlanRoom self.old (length plan.order.items + 1) }
        requires laid { IfSome (newest_told (kept_of self.old) (D.told self.old.disk)) (λ pages. self.old.buf.items ≡ page_at (laid pages (change_in prepared)) 1) }
        ensures { (pins : List Pins) (pin : Pins) → IsLiveIn D.DiskTells self.old readers.now pins → Contains pins pin → IsFit (state_of D.DiskTells self.old readers.now) pin prepared
            → CommittedFrom D.DiskTells W.loans M.Means (before_of D.DiskTells W.loans self.old) readers.now pin prepared who result self.new }
    {
        match self.ready(readers, &plan, &prepared) {
            Ok(()) => self.finish(plan, prepared, who),
            Err(Failed) => Err((CommitFault::Disk, prepared)),
        }
    }

    // Goes over to the other log where the rule has it so. After `Failed` the commit is refused, whosever it is.
    fn ready(
        &mut self,
        readers: &Readers,
        plan: &Plan,
        prepared: &Prepared<M>,
    ) -> Result<(), Failed>
        requires live { (pins : List Pins) × (pin : Pins) × IsLiveIn D.DiskTells self.old readers.now pins × Contains pins pin × IsFit (state_of D.DiskTells self.old readers.now) pin prepared.now }
        requires clear { (who : Owner) × IsClear (state_of D.DiskTells self.old readers.now) (submitted prepared.now who) }
        requires plan { IsPlanOf prepared.now.changed plan.now }
        requires room { HasPlanRoom self.old (length plan.now.order.items + 1) }
        requires laid { IfSome (newest_told (kept_of self.old) (D.told self.old.disk)) (λ pages. self.old.buf.items ≡ page_at (laid pages (change_in prepared.now)) 1) }
        ensures ready { OnOk result (IsReadyFrom D.DiskTells W.loans M.Means (before_of D.DiskTells W.loans self.old) readers.now self.new) }
        ensures room { OnOk result (HasPlanRoom self.new (length plan.now.order.items + 1)) }
        ensures buf { self.new.buf ≡ self.old.buf }
        ensures able { IsAble D.DiskTells self.new }
        ensures failed { OnErr result ((pins : List Pins) (pin : Pins) (who : Owner) → IsLiveIn D.DiskTells self.old readers.now pins → Contains pins pin
            → IsFit (state_of D.DiskTells self.old readers.now) pin prepared.now → IsClear (state_of D.DiskTells self.old readers.now) (submitted prepared.now who)
            → CommittedFrom D.DiskTells W.loans M.Means (before_of D.DiskTells W.loans self.old) readers.now pin prepared.now who (Err (fault.Disk, prepared.now)) self.new) }
    {
        if self.goes_over(readers) {
            self.go_over(prepared.changed.as_slice(), plan)
        } else {
            Ok(())
        }
    }

    // Writes the frames of a commit, and enters it.
    fn finish(
        &mut self,
        plan: Plan,
        prepared: Prepared<M>,
        who: Who,
    ) -> Result<Receipt, (CommitFault, Prepared<M>)>
        requires live { (before : Before) × (readers : Counted) × (pins : List Pins) × (pin : Pins) × IsLiveStore before.told before.kept readers pins × IsSteady before.told before.kept readers pins × Contains pins pin
            × IsReadyFrom D.DiskTells W.loans M.Means before readers self.old × IsFit (state_before before readers) pin prepared
            × IsClear (state_before before readers) (submitted prepared who)
            × IfSome (newest_told before.kept before.told) (λ pages. self.old.buf.items ≡ page_at (laid pages (change_in prepared)) 1) }
        requires able { IsAble D.DiskTells self.old }
        requires plan { IsPlanOf prepared.changed plan }
        requires room { HasPlanRoom self.old (length plan.order.items + 1) }
        ensures { (before : Before) (readers : Counted) (pins : List Pins) (pin : Pins) → IsLiveStore before.told before.kept readers pins → IsSteady before.told before.kept readers pins → Contains pins pin
            → IsReadyFrom D.DiskTells W.loans M.Means before readers self.old → IsFit (state_before before readers) pin prepared → IsClear (state_before before readers) (submitted prepared who)
            → IfSome (newest_told before.kept before.told) (λ pages. self.old.buf.items ≡ page_at (laid pages (change_in prepared)) 1)
            → CommittedFrom D.DiskTells W.loans M.Means before readers pin prepared who result self.new }
    {
        match self.write_frames(prepared.changed.as_slice(), &plan) {
            Ok(()) => Ok(Receipt::At(self.enter(plan.wrote, prepared, who))),
            Err(Failed) => Err((CommitFault::Disk, prepared)),
        }
    }
}
