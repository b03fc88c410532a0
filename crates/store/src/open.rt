// A store is opened over a disk, and closed.
ghost use Rattle.std.specs.Prelude.{◌≡◌, ◌*◌, ◌≤◌, ◌<◌, true, false, [], length, map, None, Some, IfOk, IfErr, IfSome, IsTrue};
ghost use Rattle.disk_face.specs.Stays.{OnlyWrites};
ghost use Rattle.disk_face.specs.Steps.{History, reads};
ghost use Rattle.page_spec.specs.Header.{database_limit, is_page_size};
ghost use Rattle.page_spec.specs.PageMap.{PageMap};
ghost use Rattle.crash_spec.specs.Opening.{Since, opening_at};
ghost use Rattle.crash_spec.specs.Passes.{Passes};
ghost use Rattle.log_pair.specs.Pair.{current_header};
ghost use Rattle.opening_spec.specs.Found.{FoundLog, OpeningView};
ghost use Rattle.opening_spec.specs.States.{IsSyncing};
ghost use Rattle.opening_spec.specs.Begins.{MayOpen, view_at};
ghost use Rattle.recover.specs.Ready.{IsViewOf, LeavesSettling, first_map};
ghost use Rattle.recover.specs.Seeing.{IsSeen, IsWholeSeen, fault_of, generation_opened};
ghost use Rattle.recover.specs.declared.setup.StoreKind.TheVariants.{Pages, Tables};
ghost use Rattle.store_spec.specs.Store.{newest_told};
ghost use Rattle.store_spec.specs.Standing.{IsWholeStore, StandsFrom};
ghost use Rattle.store.specs.Kept.{kept_of, IsAble, IsLiveIn};
ghost use Rattle.store.specs.Opening.{AreOpened, BeginsWith, HasSizesOf, IsBeginning, MaySettle, ReadyAs, StandsAs, FailsToSettle, RefusesOpen, AreOpenedAs, AreTables, BeginsAs, IsCountOf, count_begun, disk_of, map_begun, map_opened, no_readers, size_opened, uncounted};

use crate::commits::Commits;
use crate::kept_pages::KeptPages;
use crate::open_fault::{OpenFault, PAGE_COUNT, is_mixed, of_look, pages_fault};
use crate::store::Store;
use crate::tables::look_tables;
use check_spec::Count;
use disk_face::{Disk, Salts};
use engine_spec::Entry;
use page_face::Means;
use recover::{Seen, Setup, StoreKind, look, settle};
use std::alloc::Global;
use std::marker::PhantomData;
use wal_frames::ScanFault;
use wal_index::WalIndex;
use wal_rules::LogState;

/// Does the writes of an opening, and makes the store of what was seen, which has so many pages. Its page buffer is taken before the first write.
fn settle_as<D: Disk, W: Salts + Drop, M: Means>(
    alloc: Global,
    disk: D,
    salts: W,
    seen: Seen,
    setup: Setup,
    size: u32,
) -> Result<Store<D, W, M>, (OpenFault, D)>
    requires attached { D.attached disk ≡ true }
    requires page_size { IsTrue (is_page_size setup.page_size) }
    requires whole { IsWholeSeen seen }
    requires new_size { seen.is_new ≡ true → seen.page_size ≡ setup.page_size }
    requires seen { IfSome (D.told disk) (λ told. IsSeen setup.page_size (reads told) seen) }
    requires named { seen.is_new ≡ false → seen.named ≡ length seen.places }
    ensures begins { IfOk result (λ store. BeginsWith size seen.page_size seen.usable setup.limit (kept_of store)) }
    ensures generation { IfOk result (λ store. IfSome (D.told disk) (λ told. (current_header (kept_of store).pair).generation ≡ generation_opened (reads told))) }
    ensures able { IfOk result (λ store. IsAble D.DiskTells store) }
    ensures moments { (view : OpeningView) (one two : FoundLog) → Since view.opening.start (IsSyncing view one two []) (D.told disk)
        → IfSome (D.told disk) (λ told. IsViewOf seen (reads told) view one two)
        → Passes view.opening (LeavesSettling view (first_map setup.kind seen view.size view.map)) (ReadyAs result view (first_map setup.kind seen view.size view.map)) (D.told disk) (D.told (disk_of result)) }
    ensures refused { IfErr result (λ refused. FailsToSettle (D.faults disk) (D.faults refused.1) (D.told disk) (D.told refused.1) refused.0) }
    ensures faults { IfOk result (λ store. D.faults store.disk ≡ D.faults disk) }
    ensures stays { OnlyWrites D.DiskTells disk (disk_of result) }
    ensures loans { IfOk result (λ store. W.loans store.salts ≡ W.loans salts) }
{
    let mut disk = disk;
    let mut salts = salts;
    let page_size = seen.page_size() as usize;
    let usable = seen.usable() as usize;
    match vec![in alloc; 0; page_size] {
        Ok(buf) => match settle(alloc, &mut disk, &mut salts, seen, &setup) {
            Ok(pair) => Ok(Store {
                alloc,
                disk,
                salts,
                page_size,
                usable,
                size,
                limit: setup.limit,
                pair,
                index: WalIndex::new(alloc),
                state: LogState {
                    current: 1,
                    done: true,
                    copied: 0,
                },
                commits: Commits::new(alloc),
                stop: None,
                spare: KeptPages::new(alloc),
                buf,
                of: PhantomData,
            }),
            Err(ScanFault::Disk) => Err((OpenFault::Disk, disk)),
            Err(ScanFault::Memory) => Err((OpenFault::Memory, disk)),
        },
        Err(_) => Err((OpenFault::Memory, disk)),
    }
}

/// Opens what was seen, once it was judged, as a store of this kind with so many pages.
///
/// What it needs beside what a look gives is that page 1 names the size of the recovered map, and that the map fits a database: whoever judged what was
/// seen has found that.
fn open_seen<D: Disk, W: Salts + Drop, M: Means>(
    alloc: Global,
    disk: D,
    salts: W,
    seen: Seen,
    setup: Setup,
    size: u32,
) -> Result<Store<D, W, M>, (OpenFault, D)>
    requires attached { D.attached disk ≡ true }
    requires page_size { IsTrue (is_page_size setup.page_size) }
    requires limit { 1 ≤ setup.limit }
    requires whole { IsWholeSeen seen }
    requires new_size { seen.is_new ≡ true → seen.page_size ≡ setup.page_size }
    requires seen { IfSome (D.told disk) (λ told. IsSeen setup.page_size (reads told) seen) }
    requires fine { IfSome (D.told disk) (λ told. fault_of (reads told) false ≡ None) }
    requires named { seen.is_new ≡ false → seen.named ≡ length seen.places }
    requires counts { count_begun setup.kind seen ≡ size }
    requires some { 1 ≤ size }
    requires fits { size * seen.page_size ≤ database_limit }
    ensures begins { IfOk result (λ store. BeginsWith size seen.page_size seen.usable setup.limit (kept_of store)) }
    ensures whole { IfOk result (λ store. IsWholeStore (kept_of store)) }
    ensures generation { IfOk result (λ store. IfSome (D.told disk) (λ told. (current_header (kept_of store).pair).generation ≡ generation_opened (reads told))) }
    ensures able { IfOk result (λ store. IsAble D.DiskTells store) }
    ensures live { IfOk result (λ store. IfSome (D.told disk) (λ told. MaySettle (reads told)) → IsLiveIn D.DiskTells store no_readers []) }
    ensures newest { IfOk result (λ store. IfSome (D.told disk) (λ told. MaySettle (reads told) → newest_told (kept_of store) (D.told store.disk) ≡ Some (map_begun setup.kind setup.page_size (reads told)))) }
    ensures runs { IfOk result (λ store. (first : PageMap) → IfSome (D.told disk) (λ told. MaySettle (reads told) × (first ≡ map_begun setup.kind setup.page_size (reads told)) × M.sound first first)
        → StandsFrom (M.sound first) (M.leads first) first (D.told store.disk) (kept_of store) no_readers) }
    ensures moments { (told : History) → D.told disk ≡ Some told → MayOpen (size_opened setup.page_size (reads told)) told → MaySettle (reads told)
        → Passes (opening_at told) (LeavesSettling (view_at (size_opened setup.page_size (reads told)) told) (map_begun setup.kind setup.page_size (reads told))) (StandsAs result (opening_at told)) (D.told disk) (D.told (disk_of result)) }
    ensures refused { IfErr result (λ refused. FailsToSettle (D.faults disk) (D.faults refused.1) (D.told disk) (D.told refused.1) refused.0) }
    ensures faults { IfOk result (λ store. D.faults store.disk ≡ D.faults disk) }
    ensures stays { OnlyWrites D.DiskTells disk (disk_of result) }
    ensures loans { IfOk result (λ store. W.loans store.salts ≡ W.loans salts) }
{
    match settle_as(alloc, disk, salts, seen, setup, size) {
        Ok(store) => Ok(store),
        Err(refused) => Err(refused),
    }
}

impl<D: Disk, W: Salts + Drop, M: Means> Store<D, W, M> {
    /// Opens the database of a disk, as this kind: a new one where nothing is there yet.
    ///
    /// It looks at the files, and refuses them before it writes anything. Of causes that stand together the first of [`OpenFault`]'s list is told: what a
    /// look refuses; then, of a database that is there, `NotPages` for pages and `Check` for tables; each exactly where the files, or the journal's answer,
    /// show it. Memory for two pages is taken before the first write too. After these refusals the disk tells what it told. `Disk` comes where a call on
    /// the disk failed; where that was one that writes, the files are somewhere on the way, and the next opening recovers the same map, or that with which
    /// the store would have begun.
    ///
    /// The headers that both logs have then are of the generations that [`settle`] says. A store of pages has 16 of them; a new one of tables has one page.
    ///
    /// `NotPages` refuses too a database whose versions aren't this program's while log 2 begins with a header of ours. So what is said of a store of pages,
    /// which asks that log 2 has no accepted frame where the versions on page 1 aren't this program's, holds of each such store that is answered. What is
    /// said of a crash asks it too.
    pub fn open(
        alloc: Global,
        disk: D,
        salts: W,
        setup: Setup,
    ) -> Result<Store<D, W, M>, (OpenFault, D)>
        requires attached { D.attached disk ≡ true }
        requires page_size { IsTrue (is_page_size setup.page_size) }
        requires limit { 1 ≤ setup.limit }
        ensures begins { IfOk result (λ store. BeginsAs setup.kind store.page_size store.usable setup.limit (kept_of store)) }
        ensures whole { IfOk result (λ store. IsWholeStore (kept_of store)) }
        ensures sizes { IfOk result (λ store. IfSome (D.told disk) (λ told. HasSizesOf setup.page_size (reads told) (kept_of store))) }
        ensures generation { IfOk result (λ store. IfSome (D.told disk) (λ told. (current_header (kept_of store).pair).generation ≡ generation_opened (reads told))) }
        ensures live { IfOk result (λ store. IfSome (D.told disk) (λ told. MaySettle (reads told)) → IsLiveIn D.DiskTells store no_readers []) }
        ensures newest { IfOk result (λ store. IfSome (D.told disk) (λ told. MaySettle (reads told) → newest_told (kept_of store) (D.told store.disk) ≡ Some (map_begun setup.kind setup.page_size (reads told)))) }
        ensures runs { IfOk result (λ store. (first : PageMap) → IfSome (D.told disk) (λ told. MaySettle (reads told) × (first ≡ map_begun setup.kind setup.page_size (reads told)) × M.sound first first)
            → StandsFrom (M.sound first) (M.leads first) first (D.told store.disk) (kept_of store) no_readers) }
        ensures moments { (told : History) → D.told disk ≡ Some told → MayOpen (size_opened setup.page_size (reads told)) told → MaySettle (reads told)
            → Passes (opening_at told) (LeavesSettling (view_at (size_opened setup.page_size (reads told)) told) (map_begun setup.kind setup.page_size (reads told))) (StandsAs result (opening_at told)) (D.told disk) (D.told (disk_of result)) }
        ensures opened { IfOk result (λ store. IfSome (D.told disk) (λ told. AreOpenedAs setup.kind (D.journal_answer disk) (reads told))) }
        ensures refused { IfErr result (λ refused. RefusesOpen setup.kind (D.faults disk) (D.faults refused.1) (D.told disk) (D.told refused.1) (D.journal_answer disk) refused.0) }
        ensures faults { IfOk result (λ store. D.faults store.disk ≡ D.faults disk) }
        ensures stays { OnlyWrites D.DiskTells disk (disk_of result) }
        ensures loans { IfOk result (λ store. W.loans store.salts ≡ W.loans salts) }
    {
        match setup.kind {
            StoreKind::Pages => match Store::open_pages(alloc, disk, salts, setup) {
                Ok(store) => Ok(store),
                Err(refused) => Err(refused),
            },
            StoreKind::Tables => match Store::open_checked(alloc, disk, salts, setup) {
                Ok((store, _)) => Ok(store),
                Err(refused) => Err(refused),
            },
        }
    }

    /// Opens the database of a disk as a store of tables, and tells what the check of it counted. A new database has one page with one tree.
    ///
    /// It is [`Store::open`] of tables. The check reads each page once before anything is written; what it takes of memory is said at [`check_all`].
    pub fn open_checked(
        alloc: Global,
        disk: D,
        salts: W,
        setup: Setup,
    ) -> Result<(Store<D, W, M>, Count), (OpenFault, D)>
        requires attached { D.attached disk ≡ true }
        requires page_size { IsTrue (is_page_size setup.page_size) }
        requires limit { 1 ≤ setup.limit }
        requires kind { setup.kind ≡ Tables }
        ensures begins { IfOk result (λ opened. BeginsWith opened.1.pages opened.0.page_size opened.0.usable setup.limit (kept_of opened.0)) }
        ensures counted { IfOk result (λ opened. IfSome (D.told disk) (λ told. IsCountOf (reads told) opened.1)) }
        ensures whole { IfOk result (λ opened. IsWholeStore (kept_of opened.0)) }
        ensures sizes { IfOk result (λ opened. IfSome (D.told disk) (λ told. HasSizesOf setup.page_size (reads told) (kept_of opened.0))) }
        ensures generation { IfOk result (λ opened. IfSome (D.told disk) (λ told. (current_header (kept_of opened.0).pair).generation ≡ generation_opened (reads told))) }
        ensures able { IfOk result (λ opened. IsAble D.DiskTells opened.0) }
        ensures live { IfOk result (λ opened. IfSome (D.told disk) (λ told. MaySettle (reads told)) → IsLiveIn D.DiskTells opened.0 no_readers []) }
        ensures newest { IfOk result (λ opened. IfSome (D.told disk) (λ told. MaySettle (reads told) → newest_told (kept_of opened.0) (D.told opened.0.disk) ≡ Some (map_begun Tables setup.page_size (reads told)))) }
        ensures runs { IfOk result (λ opened. (first : PageMap) → IfSome (D.told disk) (λ told. MaySettle (reads told) × (first ≡ map_begun Tables setup.page_size (reads told)) × M.sound first first)
            → StandsFrom (M.sound first) (M.leads first) first (D.told opened.0.disk) (kept_of opened.0) no_readers) }
        ensures moments { (told : History) → D.told disk ≡ Some told → MayOpen (size_opened setup.page_size (reads told)) told → MaySettle (reads told)
            → Passes (opening_at told) (LeavesSettling (view_at (size_opened setup.page_size (reads told)) told) (map_begun Tables setup.page_size (reads told))) (StandsAs (uncounted result) (opening_at told)) (D.told disk) (D.told (disk_of (uncounted result))) }
        ensures opened { IfOk result (λ opened. IfSome (D.told disk) (λ told. AreTables (D.journal_answer disk) (reads told))) }
        ensures refused { IfErr result (λ refused. RefusesOpen Tables (D.faults disk) (D.faults refused.1) (D.told disk) (D.told refused.1) (D.journal_answer disk) refused.0) }
        ensures faults { IfOk result (λ opened. D.faults opened.0.disk ≡ D.faults disk) }
        ensures stays { OnlyWrites D.DiskTells disk (disk_of (uncounted result)) }
        ensures loans { IfOk result (λ opened. W.loans opened.0.salts ≡ W.loans salts) }
    {
        let mut disk = disk;
        match look_tables(alloc, &mut disk, &setup) {
            Ok((seen, count)) => {
                match open_seen(alloc, disk, salts, seen, setup, count.pages) {
                    Ok(store) => Ok((store, count)),
                    Err(refused) => Err(refused),
                }
            }
            Err(why) => Err((why, disk)),
        }
    }

    /// Opens the database of a disk as a store of 16 pages, as [`Store::open`] says.
    pub(crate) fn open_pages(
        alloc: Global,
        disk: D,
        salts: W,
        setup: Setup,
    ) -> Result<Store<D, W, M>, (OpenFault, D)>
        requires attached { D.attached disk ≡ true }
        requires page_size { IsTrue (is_page_size setup.page_size) }
        requires limit { 1 ≤ setup.limit }
        requires kind { setup.kind ≡ Pages }
        ensures begins { IfOk result (λ store. IsBeginning store.page_size store.usable setup.limit (kept_of store)) }
        ensures whole { IfOk result (λ store. IsWholeStore (kept_of store)) }
        ensures sizes { IfOk result (λ store. IfSome (D.told disk) (λ told. HasSizesOf setup.page_size (reads told) (kept_of store))) }
        ensures generation { IfOk result (λ store. IfSome (D.told disk) (λ told. (current_header (kept_of store).pair).generation ≡ generation_opened (reads told))) }
        ensures live { IfOk result (λ store. IfSome (D.told disk) (λ told. MaySettle (reads told)) → IsLiveIn D.DiskTells store no_readers []) }
        ensures newest { IfOk result (λ store. IfSome (D.told disk) (λ told. MaySettle (reads told) → newest_told (kept_of store) (D.told store.disk) ≡ Some (map_opened setup.page_size (reads told)))) }
        ensures runs { IfOk result (λ store. (first : PageMap) → IfSome (D.told disk) (λ told. MaySettle (reads told) × (first ≡ map_opened setup.page_size (reads told)) × M.sound first first)
            → StandsFrom (M.sound first) (M.leads first) first (D.told store.disk) (kept_of store) no_readers) }
        ensures moments { (told : History) → D.told disk ≡ Some told → MayOpen (size_opened setup.page_size (reads told)) told → MaySettle (reads told)
            → Passes (opening_at told) (LeavesSettling (view_at (size_opened setup.page_size (reads told)) told) (map_opened setup.page_size (reads told))) (StandsAs result (opening_at told)) (D.told disk) (D.told (disk_of result)) }
        ensures opened { IfOk result (λ store. IfSome (D.told disk) (λ told. AreOpened (D.journal_answer disk) (reads told))) }
        ensures refused { IfErr result (λ refused. RefusesOpen Pages (D.faults disk) (D.faults refused.1) (D.told disk) (D.told refused.1) (D.journal_answer disk) refused.0) }
        ensures faults { IfOk result (λ store. D.faults store.disk ≡ D.faults disk) }
        ensures stays { OnlyWrites D.DiskTells disk (disk_of result) }
        ensures loans { IfOk result (λ store. W.loans store.salts ≡ W.loans salts) }
    {
        let mut disk = disk;
        match look(alloc, &mut disk, &setup) {
            Ok(seen) => match pages_fault(&seen) {
                Some(fault) => Err((fault, disk)),
                None => {
                    if is_mixed(&seen) {
                        let (pages, byte) = (seen.pages(), seen.byte());
                        return Err((OpenFault::NotPages { pages, byte }, disk));
                    }
                    match open_seen(alloc, disk, salts, seen, setup, PAGE_COUNT) {
                        Ok(store) => Ok(store),
                        Err(refused) => Err(refused),
                    }
                }
            },
            Err(why) => Err((of_look(why), disk)),
        }
    }

    /// Takes the store apart: the disk as it is, and the entries of the history.
    pub fn close(self) -> (D, Vec<Entry>)
        ensures disk { result.0 ≡ self.disk }
        ensures entries { result.1.items ≡ map (λ commit. commit.entry) (kept_of self).history }
    {
        (self.disk, self.commits.into_entries())
    }
}
