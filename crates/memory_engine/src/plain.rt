// An engine that keeps each of its page maps in memory.
//
// Its invariant: there is one map more than commits, the first and the one after each; all have whole pages of one size; and each
// commit leads from one map to the next.
ghost use Rattle.std.specs.Prelude.{◌≡◌, ℕ, ◌+◌, ◌*◌, ◌^◌, ◌<◌, ◌≤◌, ◌⊎◌, true, false, List, [], ◌∷◌, ◌++◌, length, vec_len, All, Contains, IfOk, MatchOption};
ghost use Rattle.std.specs.Vec.{vec_capacity};
ghost use Rattle.page_spec.specs.Header.{database_limit};
ghost use Rattle.page_spec.specs.PageMap.{PageMap, page_at, page_size_of, page_sizes};
ghost use Rattle.engine_spec.specs.Change.{laid};
ghost use Rattle.engine_spec.specs.TwoLogs.{frame_limit};
ghost use Rattle.page_face.specs.Pins.{IsLive};
ghost use Rattle.page_face.specs.Prepared.{change_in, IsFit};
ghost use Rattle.page_face.specs.Calls.{HasCommitted, IsGoodForOthers};
ghost use Rattle.memory_engine.specs.Plain.{newest_of, usable_by, MayAdd, Bars, IsFree, Adds};

use crate::conflict::find_conflict;
use crate::lay::{lay, written_pages};
use crate::made::Made;
use crate::shared_page::SharedPage;
use disk_face::{Bytes, Failed};
use engine_spec::Entry;
use page_face::{
    Ckpt, CommitFault, Engine, EngineTells, FetchFault, Lock, Logs, Means, Pin, Prepared, Receipt,
    Who,
};
use sqlite_items::Items;
use std::alloc::{AllocError, Global};
use std::marker::{Model, PhantomData};

/// An engine over page maps in memory. It keeps the first map and the one after each commit; maps share the pages that didn't
/// change, so a commit costs its changed pages and its entry. It keeps no logs, and nothing in it can fail but for want of memory.
#[derive(Drop)]
pub struct Plain<M> {
    alloc: Global,
    page_size: usize,
    usable: usize,
    maps: Vec<Items<SharedPage>>,
    history: Vec<Made>,
    of: PhantomData<M>,
}

impl<M> Model for Plain<M> {
    ghost use Rattle.memory_engine.specs.Plain.{PlainState, IsPlain};

    ghost Value = { PlainState };

    ghost view = { λ plain. record { page_size = plain.page_size; usable = plain.usable; maps = plain.maps.items; history = plain.history.items } };

    ghost invariant = { λ plain. IsPlain (record { page_size = plain.page_size; usable = plain.usable; maps = plain.maps.items; history = plain.history.items }) };
}

impl<M: Means> Plain<M> {
    ghost use Rattle.memory_engine.specs.Plain.{IsPlain, PlainLive, PlainRuns};

    /// An engine whose first map has these pages. The error is want of memory.
    pub fn new(alloc: Global, pages: Vec<Bytes>) -> Result<Plain<M>, AllocError>
        requires first { 0 < length pages.items }
        requires few { length pages.items < 2 ^ 32 }
        requires legal { Contains page_sizes (page_size_of pages.items) }
        requires whole { All (λ page. length page ≡ page_size_of pages.items) pages.items }
        ensures maps { IfOk result (λ plain. plain.maps ≡ pages.items ∷ []) }
        ensures history { IfOk result (λ plain. plain.history ≡ []) }
        ensures page_size { IfOk result (λ plain. plain.page_size ≡ page_size_of pages.items) }
        ensures usable { IfOk result (λ plain. plain.usable ≡ usable_by (page_at pages.items 1)) }
        ensures live { IfOk result (λ plain. PlainLive plain []) }
        ensures runs { IfOk result (λ plain. M.sound pages.items pages.items
            → PlainRuns (M.sound pages.items) (M.leads pages.items) pages.items plain) }
    {
        let page_size = first_page(&pages).len();
        let usable = usable_of(first_page(&pages));
        let first = shared_pages(alloc, &pages)?;
        let mut maps = Vec::new(alloc);
        maps.push(first)?;
        Ok(Plain {
            alloc,
            page_size,
            usable,
            maps,
            history: Vec::new(alloc),
            of: PhantomData,
        })
    }
}

impl<M: Means> Plain<M> {
    // What bars a transaction that wrote from being committed.
    fn bar(&self, prepared: &Prepared<M>) -> Option<CommitFault>
        requires add { MayAdd self.now prepared.now }
        ensures { MatchOption result (IsFree self.now prepared.now) (λ fault. Bars self.now prepared.now fault) }
    {
        let found = find_conflict(
            prepared.mode,
            prepared.reads.pages(),
            prepared.snap,
            self.history.as_slice(),
        );
        if let Some((page, commit)) = found {
            return Some(CommitFault::BusySnapshot { page, commit });
        }
        let pages = self.maps[self.history.len()].len() as u64;
        let frames = prepared.changed.as_slice().len() as u64 + 2;
        if is_over(pages, self.page_size as u64, frames) {
            return Some(CommitFault::SizeLimit { pages, frames });
        }
        None
    }

    // Adds a commit that nothing bars. The error is want of memory; it leaves all as it was and hands the transaction back.
    fn add(
        &mut self,
        prepared: Prepared<M>,
        who: Who,
    ) -> Result<Receipt, (CommitFault, Prepared<M>)>
        requires add { MayAdd self.old prepared }
        ensures { Adds self.old prepared who result self.new }
    {
        let number = self.history.len() as u64 + 1;
        let pages = match self.laid(&prepared) {
            Ok(pages) => pages,
            Err(_) => return Err((CommitFault::Memory, prepared)),
        };
        let wrote = match written_pages(self.alloc, prepared.changed.as_slice()) {
            Ok(wrote) => wrote,
            Err(_) => return Err((CommitFault::Memory, prepared)),
        };
        if self.maps.reserve(1).is_err() || self.history.reserve(1).is_err() {
            return Err((CommitFault::Memory, prepared));
        }
        let entry = Entry {
            session: who.session,
            ordinal: who.ordinal,
            snap: prepared.snap,
            statements: prepared.said,
        };
        push_reserved(&mut self.maps, pages);
        push_reserved(
            &mut self.history,
            Made {
                entry,
                wrote,
                tail: prepared.tail,
            },
        );
        Ok(Receipt::At(number))
    }

    // The newest map with the transaction's change laid over it. The error is want of memory.
    fn laid(&self, prepared: &Prepared<M>) -> Result<Items<SharedPage>, AllocError>
        requires add { MayAdd self.now prepared.now }
        ensures { IfOk result (λ pages. pages ≡ laid (newest_of self.now) (change_in prepared.now)) }
    {
        let newest = &self.maps[self.history.len()];
        lay(
            self.alloc,
            prepared.mode,
            prepared.tail,
            newest.as_slice(),
            prepared.changed.as_slice(),
            self.page_size,
        )
    }
}

// The most bytes that a database may have.
const MOST_BYTES: u64 = 1 << 30;

// The most frames that a log may have.
const MOST_FRAMES: u64 = 4_294_967_295;

// Whether so many pages of this size, or so many frames, pass the limits.
fn is_over(pages: u64, page_size: u64, frames: u64) -> bool
    requires few { pages < 2 ^ 32 }
    requires small { page_size ≤ 65536 }
    ensures over { result ≡ true → (database_limit < pages * page_size) ⊎ (frame_limit < frames) }
    ensures within { result ≡ false → (pages * page_size ≤ database_limit) × (frames ≤ frame_limit) }
{
    pages * page_size > MOST_BYTES || frames > MOST_FRAMES
}

// Pushes an item for which there is room.
fn push_reserved<T: Drop>(items: &mut Vec<T>, item: T)
    requires { vec_len items.old < vec_capacity items.old }
    ensures { items.new.items ≡ items.old.items ++ item ∷ [] }
{
    match items.push(item) {
        Ok(()) => (),
        Err(_) => unreachable!(),
    }
}

// The first page.
fn first_page(pages: &[Bytes]) -> &[u8]
    requires { 0 < length pages.now }
    ensures { result.now ≡ page_at pages.now 1 }
{
    pages[0].bytes()
}

// How many bytes of a page are in use, by the first page: all but the reserved ones, or all where that leaves too few.
fn usable_of(first: &[u8]) -> usize
    requires legal { Contains page_sizes (length first.now) }
    ensures least { 480 ≤ result }
    ensures most { result ≤ length first.now }
    ensures value { result ≡ usable_by first.now }
{
    let usable = first.len() - first[20] as usize;
    if usable < 480 { first.len() } else { usable }
}

// Pages that maps can share.
fn shared_pages(alloc: Global, pages: &[Bytes]) -> Result<Items<SharedPage>, AllocError>
    ensures { IfOk result (λ shared. shared ≡ pages.now) }
{
    let mut shared = Items::new(alloc);
    for page in pages {
        let bytes = Vec::from_slice(alloc, page.bytes())?;
        shared.push(SharedPage::of(alloc, bytes)?)?;
    }
    Ok(shared)
}

impl<M: Means> EngineTells<M> for Plain<M> {
    ghost use Rattle.std.specs.Prelude.{[], slice_get};
    ghost use Rattle.memory_engine.specs.Plain.{PlainRuns, state_of, PlainLive};
    ghost use Rattle.memory_engine.specs.PlainLaws.{newest_has_sizes, pinned_has_sizes, plain_tells, plain_bounds, plain_own, plain_legal, plain_logs, plain_run};

    ghost state = { state_of };

    ghost live = { PlainLive };

    ghost map_at = { λ plain pin. slice_get plain.maps pin.n };

    ghost stands_from = { λ plain first. PlainRuns (M.sound first) (M.leads first) first plain };

    ghost opened = { λ plain opening. Unit {0} };

    ghost may_begin = { λ plain. Unit {0} };

    ghost loans = { λ plain. [] };

    ghost newest_sizes = { λ plain pins pages live told. newest_has_sizes plain pages live.0 told };

    ghost pinned_sizes = { pinned_has_sizes };

    ghost tells = { plain_tells };

    ghost bounds = { plain_bounds };

    ghost own_there = { λ plain pins number live there. plain_own plain number there };

    ghost legal = { plain_legal };

    ghost are_logs = { plain_logs };

    ghost run = { λ plain first runs. plain_run (M.sound first) (M.leads first) first plain runs };

    ghost begins_now = { λ plain always. tt };

    ghost recovers = { λ plain opening opened. tt };
}

impl<M: Means> Engine<M> for Plain<M> {
    fn page_size(&self) -> usize {
        self.page_size
    }

    fn usable(&self) -> usize {
        self.usable
    }

    fn begin(&mut self) -> Pin {
        let n = self.history.len();
        Pin {
            n: n as u64,
            size: self.maps[n].len() as u32,
            lock: Lock::Part1,
            generation: 0,
            mark: 0,
        }
    }

    fn fetch(&mut self, pin: &Pin, page: u32, buf: &mut [u8]) -> Result<(), FetchFault> {
        let pages = &self.maps[pin.n as usize];
        buf.copy_from_slice(pages.as_slice()[page as usize - 1].bytes());
        Ok(())
    }

    fn commit(
        &mut self,
        pin: &Pin,
        prepared: Prepared<M>,
        who: Who,
    ) -> Result<Receipt, (CommitFault, Prepared<M>)>
        requires live { IsLive ⟦<Plain<M> as EngineTells<M>>⟧.live self.old pin.now }
        requires fit { IsFit (⟦<Plain<M> as EngineTells<M>>⟧.state self.old) pin.now prepared }
        requires good { IsGoodForOthers M.Means ⟦<Plain<M> as EngineTells<M>>⟧ self.old pin.now prepared }
        ensures { HasCommitted M.Means ⟦<Plain<M> as EngineTells<M>>⟧ self.old pin.now prepared who result self.new }
    {
        let _ = pin;
        if !prepared.wrote {
            return Ok(Receipt::ReadOnly(prepared.snap));
        }
        match self.bar(&prepared) {
            Some(fault) => Err((fault, prepared)),
            None => self.add(prepared, who),
        }
    }

    fn ckpt(&mut self) -> Result<Ckpt, Failed> {
        Ok(Ckpt::Idle)
    }

    fn logs(&mut self) -> Logs {
        Logs {
            current: 1,
            frames: 0,
            done: true,
        }
    }

    fn end(&mut self, pin: Pin) {
        let _ = pin;
    }
}
