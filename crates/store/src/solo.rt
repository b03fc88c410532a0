// A store as an engine: its readers are counted beside it.
//
// Its invariant is that of its store (`IsLiveIn`): each pin that holds is counted among the readers of its lock.
ghost use Rattle.std.specs.Prelude.{◌≡◌, ◌≤◌, [], true, Some, IfOk, IfErr, IfSome, IsTrue};
ghost use Rattle.disk_face.specs.Faults.{one_more};
ghost use Rattle.disk_face.specs.Stays.{OnlyWrites};
ghost use Rattle.disk_face.specs.Steps.{History, reads};
ghost use Rattle.page_spec.specs.Header.{is_page_size};
ghost use Rattle.page_spec.specs.PageMap.{PageMap};
ghost use Rattle.crash_spec.specs.Opening.{Opening, opening_at};
ghost use Rattle.crash_spec.specs.Passes.{Passes};
ghost use Rattle.log_pair.specs.Pair.{current_header};
ghost use Rattle.opening_spec.specs.Begins.{MayOpen, view_at};
ghost use Rattle.engine_spec.specs.TwoLogs.{one_fewer, change_readers};
ghost use Rattle.page_face.specs.Pins.{IsLive};
ghost use Rattle.page_face.specs.Prepared.{IsFit};
ghost use Rattle.page_face.specs.Calls.{HasCommitted, IsGoodForOthers};
ghost use Rattle.recover.specs.Ready.{LeavesSettling};
ghost use Rattle.recover.specs.Seeing.{generation_opened};
ghost use Rattle.recover.specs.declared.setup.StoreKind.TheVariants.{Pages};
ghost use Rattle.store.specs.Kept.{kept_of, state_of};
ghost use Rattle.store.specs.Opening.{AreOpened, HasSizesOf, IsBeginning, MaySettle, StandsAs, RefusesOpen, disk_of, map_opened, size_opened};
ghost use Rattle.store.specs.Tells.{store_tells};
ghost use Rattle.store.specs.Solo.{as_store, no_readers, store_of, solo_tells};

use crate::open_fault::OpenFault;
use crate::store::Store;
use disk_face::{Disk, Failed, Salts};
use page_face::{
    Ckpt, CommitFault, Engine, EngineTells, FetchFault, Lock, Logs, Means, Pin, Prepared, Readers,
    Receipt, Who,
};
use recover::Setup;
use std::alloc::Global;

/// A store over a disk, and how many readers hold each lock. Nobody else begins, commits or ends on it.
#[derive(Drop)]
pub struct Solo<D, W, M> {
    store: Store<D, W, M>,
    readers: Readers,
}

impl<D: Disk, W: Salts, M: Means> Solo<D, W, M> {
    /// The store as an engine, with no reader. Where the store holds no pin, the engine holds none, stands for the same runs, and is opened as the store is.
    pub fn new(store: Store<D, W, M>) -> Solo<D, W, M>
        ensures store { store_of result ≡ store }
        ensures state { ⟦<Solo<D, W, M> as EngineTells<M>>⟧.state result ≡ (store_tells D.DiskTells W.loans M.Means no_readers).state store }
        ensures live { (store_tells D.DiskTells W.loans M.Means no_readers).live store [] → ⟦<Solo<D, W, M> as EngineTells<M>>⟧.live result [] }
        ensures runs { (first : PageMap) → (store_tells D.DiskTells W.loans M.Means no_readers).stands_from store first
            → ⟦<Solo<D, W, M> as EngineTells<M>>⟧.stands_from result first }
        ensures opened { (opening : Opening) → (store_tells D.DiskTells W.loans M.Means no_readers).opened store opening
            → ⟦<Solo<D, W, M> as EngineTells<M>>⟧.opened result opening }
        ensures loans { ⟦<Solo<D, W, M> as EngineTells<M>>⟧.loans result ≡ (store_tells D.DiskTells W.loans M.Means no_readers).loans store }
    {
        Solo {
            store,
            readers: Readers {
                part1: 0,
                part1_full2: 0,
                part2: 0,
                part2_full1: 0,
            },
        }
    }

    /// The store, moved out. Its readers are no longer counted.
    pub fn into_store(self) -> Store<D, W, M>
        ensures { result ≡ store_of self }
    {
        self.store
    }
}

impl<D: Disk, W: Salts + Drop, M: Means> Solo<D, W, M> {
    /// Opens the database of a disk as [`Store::open`] does for pages, as an engine with no reader. What is left after a refusal is said there. A store of
    /// tables is made an engine by [`Solo::new`].
    pub fn open(
        alloc: Global,
        disk: D,
        salts: W,
        setup: Setup,
    ) -> Result<Solo<D, W, M>, (OpenFault, D)>
        requires attached { D.attached disk ≡ true }
        requires page_size { IsTrue (is_page_size setup.page_size) }
        requires limit { 1 ≤ setup.limit }
        requires kind { setup.kind ≡ Pages }
        ensures begins { IfOk result (λ solo. IsBeginning (store_of solo).page_size (store_of solo).usable setup.limit (kept_of (store_of solo))) }
        ensures sizes { IfOk result (λ solo. IfSome (D.told disk) (λ told. HasSizesOf setup.page_size (reads told) (kept_of (store_of solo)))) }
        ensures generation { IfOk result (λ solo. IfSome (D.told disk) (λ told. (current_header (kept_of (store_of solo)).pair).generation ≡ generation_opened (reads told))) }
        ensures state { IfOk result (λ solo. ⟦<Solo<D, W, M> as EngineTells<M>>⟧.state solo ≡ state_of D.DiskTells (store_of solo) no_readers) }
        ensures live { IfOk result (λ solo. IfSome (D.told disk) (λ told. MaySettle (reads told)) → ⟦<Solo<D, W, M> as EngineTells<M>>⟧.live solo []) }
        ensures newest { IfOk result (λ solo. IfSome (D.told disk) (λ told. MaySettle (reads told)
            → (⟦<Solo<D, W, M> as EngineTells<M>>⟧.state solo).newest ≡ Some (map_opened setup.page_size (reads told)))) }
        ensures runs { IfOk result (λ solo. (first : PageMap) → IfSome (D.told disk) (λ told. MaySettle (reads told) × (first ≡ map_opened setup.page_size (reads told)) × M.sound first first)
            → ⟦<Solo<D, W, M> as EngineTells<M>>⟧.stands_from solo first) }
        ensures moments { (told : History) → D.told disk ≡ Some told → MayOpen (size_opened setup.page_size (reads told)) told → MaySettle (reads told)
            → Passes (opening_at told) (LeavesSettling (view_at (size_opened setup.page_size (reads told)) told) (map_opened setup.page_size (reads told))) (StandsAs (as_store result) (opening_at told)) (D.told disk) (D.told (disk_of (as_store result))) }
        ensures opened { IfOk result (λ solo. IfSome (D.told disk) (λ told. AreOpened (D.journal_answer disk) (reads told))) }
        ensures refused { IfErr result (λ refused. RefusesOpen Pages (D.faults disk) (D.faults refused.1) (D.told disk) (D.told refused.1) (D.journal_answer disk) refused.0) }
        ensures faults { IfOk result (λ solo. D.faults (store_of solo).disk ≡ D.faults disk) }
        ensures stays { OnlyWrites D.DiskTells disk (disk_of (as_store result)) }
        ensures loans { IfOk result (λ solo. W.loans (store_of solo).salts ≡ W.loans salts) }
    {
        match Store::open_pages(alloc, disk, salts, setup) {
            Ok(store) => Ok(Solo::new(store)),
            Err(refused) => Err(refused),
        }
    }
}

// The readers with one more of this lock. A count that reaches 2^64-1 stays there.
fn with_reader(readers: Readers, lock: Lock) -> Readers
    ensures { result ≡ change_readers one_more readers lock }
{
    let mut changed = readers;
    match lock {
        Lock::Part1 => changed.part1 = changed.part1.saturating_add(1),
        Lock::Part1Full2 => changed.part1_full2 = changed.part1_full2.saturating_add(1),
        Lock::Part2 => changed.part2 = changed.part2.saturating_add(1),
        Lock::Part2Full1 => changed.part2_full1 = changed.part2_full1.saturating_add(1),
    }
    changed
}

// The readers with one fewer of this lock.
fn without_reader(readers: Readers, lock: Lock) -> Readers
    ensures { result ≡ change_readers one_fewer readers lock }
{
    let mut changed = readers;
    match lock {
        Lock::Part1 => changed.part1 = fewer(changed.part1),
        Lock::Part1Full2 => changed.part1_full2 = fewer(changed.part1_full2),
        Lock::Part2 => changed.part2 = fewer(changed.part2),
        Lock::Part2Full1 => changed.part2_full1 = fewer(changed.part2_full1),
    }
    changed
}

// One fewer. A count at 2^64-1 stays there: nobody knows how many there are.
fn fewer(count: u64) -> u64
    ensures { result ≡ one_fewer count }
{
    if count == u64::MAX {
        return count;
    }
    count.saturating_sub(1)
}

impl<D: Disk, W: Salts, M: Means> EngineTells<M> for Solo<D, W, M> {
    ghost use Rattle.store.specs.Solo.{solo_run};

    ghost state = { (solo_tells D.DiskTells W.loans M.Means).state };

    ghost live = { (solo_tells D.DiskTells W.loans M.Means).live };

    ghost map_at = { (solo_tells D.DiskTells W.loans M.Means).map_at };

    ghost stands_from = { (solo_tells D.DiskTells W.loans M.Means).stands_from };

    ghost opened = { (solo_tells D.DiskTells W.loans M.Means).opened };

    ghost may_begin = { (solo_tells D.DiskTells W.loans M.Means).may_begin };

    ghost loans = { (solo_tells D.DiskTells W.loans M.Means).loans };

    ghost newest_sizes = { (solo_tells D.DiskTells W.loans M.Means).newest_sizes };

    ghost pinned_sizes = { (solo_tells D.DiskTells W.loans M.Means).pinned_sizes };

    ghost tells = { (solo_tells D.DiskTells W.loans M.Means).tells };

    ghost bounds = { (solo_tells D.DiskTells W.loans M.Means).bounds };

    ghost own_there = { (solo_tells D.DiskTells W.loans M.Means).own_there };

    ghost legal = { (solo_tells D.DiskTells W.loans M.Means).legal };

    ghost are_logs = { (solo_tells D.DiskTells W.loans M.Means).are_logs };

    ghost run = { solo_run D.DiskTells W.loans M.Means };

    ghost begins_now = { (solo_tells D.DiskTells W.loans M.Means).begins_now };

    ghost recovers = { (solo_tells D.DiskTells W.loans M.Means).recovers };
}

impl<D: Disk, W: Salts, M: Means> Engine<M> for Solo<D, W, M> {
    fn page_size(&self) -> usize {
        self.store.page_size()
    }

    fn usable(&self) -> usize {
        self.store.usable()
    }

    fn begin(&mut self) -> Pin {
        let pin = self.store.begin();
        self.readers = with_reader(self.readers, pin.lock);
        pin
    }

    fn fetch(&mut self, pin: &Pin, page: u32, buf: &mut [u8]) -> Result<(), FetchFault> {
        self.store.fetch(pin, page, buf)
    }

    fn commit(
        &mut self,
        pin: &Pin,
        prepared: Prepared<M>,
        who: Who,
    ) -> Result<Receipt, (CommitFault, Prepared<M>)>
        requires live { IsLive ⟦<Solo<D, W, M> as EngineTells<M>>⟧.live self.old pin.now }
        requires fit { IsFit (⟦<Solo<D, W, M> as EngineTells<M>>⟧.state self.old) pin.now prepared }
        requires good { IsGoodForOthers M.Means ⟦<Solo<D, W, M> as EngineTells<M>>⟧ self.old pin.now prepared }
        ensures { HasCommitted M.Means ⟦<Solo<D, W, M> as EngineTells<M>>⟧ self.old pin.now prepared who result self.new }
    {
        self.store.commit(pin, &self.readers, prepared, who)
    }

    fn ckpt(&mut self) -> Result<Ckpt, Failed> {
        self.store.ckpt(&self.readers)
    }

    fn logs(&mut self) -> Logs {
        self.store.logs()
    }

    fn end(&mut self, pin: Pin) {
        self.readers = without_reader(self.readers, pin.lock);
    }
}
