// A commit is written: over to the other log where the rule has it so, its frames, and its entry into index and history.
ghost use Rattle.std.specs.Prelude.{◌≡◌, ◌⊎◌, ◌≤◌, ◌<◌, ◌+◌, ◌*◌, ℕ, [], ◌∷◌, ◌++◌, true, length, map, is_ok, All, None, Option, OnOk, OnErr};
ghost use Rattle.disk_face.specs.Faults.{Counts};
ghost use Rattle.disk_face.specs.Stays.{OnlyWrites};
ghost use Rattle.engine_spec.specs.Written.{commit_of};
ghost use Rattle.laying.specs.Order.{in_order, images_of};
ghost use Rattle.log_spec.specs.LogHeader.{last_generation};
ghost use Rattle.log_spec.specs.Frames.{place_behind};
ghost use Rattle.log_pair.specs.Pair.{IsPair, current_header, log_of, other_number, next_place};
ghost use Rattle.log_pair.specs.Appending.{IsReached};
ghost use Rattle.page_face.specs.Prepared.{submitted};
ghost use Rattle.wal_index.specs.Index.{log_in, IsAbove, SameOther};
ghost use Rattle.store_spec.specs.Standing.{IsWholeStore};
ghost use Rattle.store_spec.specs.Steps.{HasSwitched, HasCleared, HasIndexed, HasWritten, gone_over, stopped};
ghost use Rattle.store.specs.Kept.{kept_of, bare, IsAble};
ghost use Rattle.store.specs.Planning.{IsPlanOf, HasPlanRoom};
ghost use Rattle.store.specs.Committing.{kept_stop, IsIndexed};
ghost use Rattle.store.specs.Writing.{EndWithin, HasAdded, HasEntered};

use crate::commits::Wrote;
use crate::plan::Plan;
use crate::store::Store;
use disk_face::{Disk, Failed, Salts};
use engine_spec::{Entry, PageImage};
use log_commit::{CommitPages, write_commit};
use page_face::{Means, Prepared, ReadSet, Who};
use wal_index::WalIndex;
use wal_rules::LogState;

impl<D: Disk, W: Salts, M: Means> Store<D, W, M> {
    // Goes over to the other log. After `Failed` the place is kept, with the commit's pages.
    pub(crate) fn go_over(&mut self, changed: &[PageImage], plan: &Plan) -> Result<(), Failed>
        requires able { IsAble D.DiskTells self.old }
        requires whole { IsWholeStore (kept_of self.old) }
        requires running { self.old.stop ≡ None }
        requires generation { (current_header self.old.pair).generation < last_generation }
        requires room { HasPlanRoom self.old (length plan.now.order.items + 1) }
        requires places { All (λ place. place < length changed.now) plan.now.order.items }
        requires images { All (λ image. length image.bytes ≡ self.old.page_size) changed.now }
        ensures switched { (salt2 : ℕ) × HasSwitched (kept_of self.old) (is_ok result) self.new.pair salt2 (D.told self.old.disk) (D.told self.new.disk) }
        ensures becomes { OnOk result (kept_of self.new ≡ gone_over (kept_of self.old) self.new.pair (bare self.new.index)) }
        ensures cleared { OnOk result (HasCleared (kept_of self.old) (bare self.new.index)) }
        ensures stops { OnErr result (kept_of self.new ≡ stopped (kept_of self.old) self.new.pair
            (kept_stop (other_number self.old.pair.current) 0 self.old.size (images_of self.old.buf.items changed.now plan.now.order.items))) }
        ensures room { OnOk result (HasPlanRoom self.new (length plan.now.order.items + 1)) }
        ensures buf { self.new.buf ≡ self.old.buf }
        ensures able { IsAble D.DiskTells self.new }
        ensures stays { OnlyWrites D.DiskTells self.old.disk self.new.disk }
        ensures salts { W.loans self.new.salts ≡ W.loans self.old.salts }
        ensures faults { Counts (is_ok result) (D.faults self.old.disk) (D.faults self.new.disk) }
    {
        let other = 3 - self.pair.current();
        let salt2 = self.salts.word();
        match self.pair.switch(&mut self.disk, salt2) {
            Ok(()) => {
                self.index.clear(other);
                self.state = LogState {
                    current: other,
                    done: false,
                    copied: 0,
                };
                Ok(())
            }
            Err(Failed) => {
                self.halt(other, 0, changed, plan.order.as_slice());
                Err(Failed)
            }
        }
    }

    // Writes the frames of a commit to the current log: of page 1, which is in the buffer, and of the changed pages. After `Failed` the place is kept,
    // with the commit's pages.
    pub(crate) fn write_frames(&mut self, changed: &[PageImage], plan: &Plan) -> Result<(), Failed>
        requires able { IsAble D.DiskTells self.old }
        requires whole { IsWholeStore (kept_of self.old) }
        requires running { self.old.stop ≡ None }
        requires reached { IsReached (D.told self.old.disk) self.old.pair }
        requires fits { (log_of self.old.pair self.old.pair.current).frames + (length plan.now.order.items + 1) ≤ 4294967295 }
        requires room { HasPlanRoom self.old (length plan.now.order.items + 1) }
        requires plan { IsPlanOf changed.now plan.now }
        requires images { All (λ image. (1 ≤ image.page) × (length image.bytes ≡ self.old.page_size)) changed.now }
        ensures written { HasWritten (kept_of self.old) (is_ok result) (images_of self.old.buf.items changed.now plan.now.order.items) self.new.pair (D.told self.old.disk) (D.told self.new.disk) }
        ensures becomes { OnOk result (self.new ≡ record self.old { disk = self.new.disk; pair = self.new.pair }) }
        ensures stops { OnErr result (kept_of self.new ≡ stopped (kept_of self.old) self.new.pair
            (kept_stop self.old.pair.current (next_place self.old.pair) self.old.size (images_of self.old.buf.items changed.now plan.now.order.items))) }
        ensures legal { IsPair self.new.pair }
        ensures able { IsAble D.DiskTells self.new }
        ensures stays { OnlyWrites D.DiskTells self.old.disk self.new.disk }
        ensures salts { self.new.salts ≡ self.old.salts }
        ensures faults { Counts (is_ok result) (D.faults self.old.disk) (D.faults self.new.disk) }
    {
        let log = self.pair.current();
        let at = self.pair.next_place();
        let pages = CommitPages {
            first: self.buf.as_slice(),
            changed,
            order: plan.order.as_slice(),
        };
        match write_commit(&mut self.pair, &mut self.disk, &pages, self.size) {
            Ok(()) => Ok(()),
            Err(Failed) => {
                self.halt(log, at, changed, plan.order.as_slice());
                Err(Failed)
            }
        }
    }

    // Enters a commit whose frames were written into the index and the history. It takes no memory.
    pub(crate) fn enter(&mut self, wrote: ReadSet, prepared: Prepared<M>, who: Who) -> u64
        requires indexed { IsIndexed self.old.index self.old.pair.current self.old.commits.commits }
        requires numbered { All (λ page. 0 < page) wrote }
        requires some { 0 < length wrote }
        requires fits { length (log_in self.old.index self.old.pair.current).pages + length wrote ≤ 4294967295 }
        requires room { HasPlanRoom self.old (length wrote) }
        ensures number { result ≡ length self.old.commits.commits + 1 }
        ensures indexed { HasEntered self.old.index self.old.pair.current wrote (length self.old.commits.commits + 1) prepared.tail self.new.index }
        ensures history { self.new.commits.commits ≡ self.old.commits.commits ++ commit_of (submitted prepared who) wrote ∷ [] }
        ensures same { self.new ≡ record self.old { index = self.new.index; commits = self.new.commits } }
    {
        let number = self.commits.len() as u64 + 1;
        let tail = prepared.tail;
        enter_commit(
            &mut self.index,
            self.pair.current(),
            wrote.pages(),
            number,
            tail,
        );
        let entry = Entry {
            session: who.session,
            ordinal: who.ordinal,
            snap: prepared.snap,
            statements: prepared.said,
        };
        self.commits.push(entry, Wrote { pages: wrote, tail });
        number
    }
}

// Enters a commit with a frame of each of these pages into a log of the index.
pub(crate) fn enter_commit(index: &mut WalIndex, log: u8, pages: &[u32], number: u64, tail: bool)
    requires which { (log ≡ 1) ⊎ (log ≡ 2) }
    requires numbered { All (λ page. 0 < page) pages.now }
    requires some { 0 < length pages.now }
    requires room { length pages.now ≤ (log_in index.old log).room }
    requires seals { 0 < (log_in index.old log).seals }
    requires fits { length (log_in index.old log).pages + length pages.now ≤ 4294967295 }
    requires rises1 { IsAbove index.old.log1.numbers number }
    requires rises2 { IsAbove index.old.log2.numbers number }
    requires ended { EndWithin (log_in index.old log) }
    ensures { HasEntered index.old log pages.now number tail index.new }
{
    add_frames(index, log, pages);
    index.seal(number, tail);
}

// Adds a frame of each of these pages to a log of the index.
fn add_frames(index: &mut WalIndex, log: u8, pages: &[u32])
    requires which { (log ≡ 1) ⊎ (log ≡ 2) }
    requires numbered { All (λ page. 0 < page) pages.now }
    requires some { 0 < length pages.now }
    requires room { length pages.now ≤ (log_in index.old log).room }
    requires fits { length (log_in index.old log).pages + length pages.now ≤ 4294967295 }
    ensures added { HasAdded (log_in index.old log) pages.now (log_in index.new log) }
    ensures other { SameOther index.old log index.new }
    ensures last { index.new.last ≡ log }
{
    let mut place = 0;
    'frames: while place < pages.len() {
        index.add(log, pages[place]);
        place += 1;
    }
}
