// One step of a checkpoint.
ghost use Rattle.std.specs.Prelude.{◌≡◌, ◌⊎◌, ◌-◌, ◌*◌, ◌<◌, ◌≤◌, true, false, ℕ, List, length, is_ok, IfOk, OnErr, All};
ghost use Rattle.disk_face.specs.Faults.{Counts};
ghost use Rattle.disk_face.specs.Stays.{OnlyWrites};
ghost use Rattle.disk_face.specs.Told.{IsInside};
ghost use Rattle.disk_face.specs.declared.disk.File.TheVariants.{Main};
ghost use Rattle.disk_face.specs.declared.step.Step.TheVariants.{Synced};
ghost use Rattle.disk_face.specs.Steps.{after};
ghost use Rattle.log_spec.specs.Accept.{page_numbers};
ghost use Rattle.log_spec.specs.Frames.{frame_place};
ghost use Rattle.crash_spec.specs.Opening.{Opening, Since};
ghost use Rattle.crash_spec.specs.Store.{StoreView, Holds, KeepsStore};
ghost use Rattle.engine_spec.specs.declared.commits.Commit.{Commit};
ghost use Rattle.engine_spec.specs.declared.pins.Readers.{Readers as ReadersValue};
ghost use Rattle.engine_spec.specs.declared.pins.Ckpt.TheVariants as ckpt;
ghost use Rattle.engine_spec.specs.TwoLogs.{TwoLogs, Steps};
ghost use Rattle.wal_frames.specs.Found.{log_file};
ghost use Rattle.wal_index.specs.Index.{log_in};
ghost use Rattle.wal_index.specs.Frames.{IsNextPage};
ghost use Rattle.log_pair.specs.Pair.{log_of};
ghost use Rattle.wal_rules.specs.Rules.{logs_with};
ghost use Rattle.wal_rules.specs.Indexing.{IsIndexOf};
ghost use Rattle.checkpoint.specs.Steps.{log_behind, pages_behind, view_behind, readers_behind, DoesStep, FailsIn};

use crate::copy::{copy_page, sync_main};
use disk_face::{Disk, Failed};
use log_pair::LogPair;
use page_face::{Ckpt, Readers};
use wal_index::WalIndex;
use wal_rules::{LogState, may_copy};

/// Takes one step: copies the least page of the log that isn't current above the last one copied, or, where none is left, syncs the
/// database, and that log is done. `Idle` comes exactly where it is done already, `Held` exactly where it isn't and readers hold what a copy would
/// change. It takes no memory.
///
/// The index holds the frames of the pair, and the buffer, of one page, has the page that was copied. After `Failed` the count of faults rose and
/// the state is as before: the step may be taken again. It comes only where readers hold nothing of what a copy would change.
pub fn step<D: Disk>(
    disk: &mut D,
    pair: &LogPair,
    index: &WalIndex,
    state: &mut LogState,
    readers: &Readers,
    buf: &mut [u8],
) -> Result<Ckpt, Failed>
    requires attached { D.attached disk.old ≡ true }
    requires which { (state.old.current ≡ 1) ⊎ (state.old.current ≡ 2) }
    requires frames { length (pages_behind index.now state.old) ≡ (view_behind pair.now state.old).frames }
    requires pages { All (λ page. 0 < page) (pages_behind index.now state.old) }
    requires room { length buf.old ≡ (view_behind pair.now state.old).header.page_size }
    requires inside { IsInside (D.told disk.old) (log_file (log_behind state.old)) (frame_place (view_behind pair.now state.old).header (view_behind pair.now state.old).frames) 0 }
    requires reached { (page : ℕ) → IsNextPage (pages_behind index.now state.old) state.old.copied page
        → IsInside (D.told disk.old) Main ((page - 1) * length buf.old) 0 }
    ensures does { IfOk result (λ answer. DoesStep pair.now (pages_behind index.now state.old) state.old readers.now answer state.new buf.new
        (D.told disk.old) (D.told disk.new)) }
    ensures refused { OnErr result (state.new ≡ state.old) }
    ensures fails { OnErr result (FailsIn (pages_behind index.now state.old) state.old (length buf.old) (D.told disk.old) (D.told disk.new)) }
    ensures unheld { OnErr result ((state.old.done ≡ false) × (readers_behind state.old readers.now ≡ 0)) }
    ensures logs { (rest : TwoLogs) (history : List Commit) → IsIndexOf index.now (logs_with state.old rest) history
        → IfOk result (λ answer. Steps (logs_with state.old rest) readers.now history answer (logs_with state.new rest)) }
    ensures moments { (opening : Opening) (view : StoreView) → Since opening.start (Holds opening view) (D.told disk.old) → view.size ≡ length buf.old
        → page_numbers view.other ≡ pages_behind index.now state.old → KeepsStore opening view (D.told disk.old) (D.told disk.new) }
    ensures size { length buf.new ≡ length buf.old }
    ensures stays { OnlyWrites D.DiskTells disk.old disk.new }
    ensures faults { Counts (is_ok result) (D.faults disk.old) (D.faults disk.new) }
{
    if state.done {
        return Ok(Ckpt::Idle);
    }
    if let Err(count) = may_copy(state, readers) {
        return Ok(Ckpt::Held(count));
    }
    match index.next_page(3 - state.current, state.copied) {
        Some(page) => copy_next(disk, pair, index, state, page, buf),
        None => finish(disk, state),
    }
}

// Copies the next page.
fn copy_next<D: Disk>(
    disk: &mut D,
    pair: &LogPair,
    index: &WalIndex,
    state: &mut LogState,
    page: u32,
    buf: &mut [u8],
) -> Result<Ckpt, Failed>
    requires attached { D.attached disk.old ≡ true }
    requires which { (state.old.current ≡ 1) ⊎ (state.old.current ≡ 2) }
    requires pending { state.old.done ≡ false }
    requires frames { length (pages_behind index.now state.old) ≡ (view_behind pair.now state.old).frames }
    requires pages { All (λ page. 0 < page) (pages_behind index.now state.old) }
    requires room { length buf.old ≡ (view_behind pair.now state.old).header.page_size }
    requires inside { IsInside (D.told disk.old) (log_file (log_behind state.old)) (frame_place (view_behind pair.now state.old).header (view_behind pair.now state.old).frames) 0 }
    requires next { IsNextPage (pages_behind index.now state.old) state.old.copied page }
    requires reached { IsInside (D.told disk.old) Main ((page - 1) * length buf.old) 0 }
    ensures does { (readers : ReadersValue) → readers_behind state.old readers ≡ 0
        → IfOk result (λ answer. DoesStep pair.now (pages_behind index.now state.old) state.old readers answer state.new buf.new (D.told disk.old) (D.told disk.new)) }
    ensures refused { OnErr result (state.new ≡ state.old) }
    ensures fails { OnErr result (FailsIn (pages_behind index.now state.old) state.old (length buf.old) (D.told disk.old) (D.told disk.new)) }
    ensures copied { IfOk result (λ answer. (answer ≡ ckpt.Copied page) × (state.new ≡ record state.old { copied = page })) }
    ensures moments { (opening : Opening) (view : StoreView) → Since opening.start (Holds opening view) (D.told disk.old) → view.size ≡ length buf.old
        → page_numbers view.other ≡ pages_behind index.now state.old → KeepsStore opening view (D.told disk.old) (D.told disk.new) }
    ensures size { length buf.new ≡ length buf.old }
    ensures stays { OnlyWrites D.DiskTells disk.old disk.new }
    ensures faults { Counts (is_ok result) (D.faults disk.old) (D.faults disk.new) }
{
    let other = 3 - state.current;
    match index.find(other, page, pair.frames(other)) {
        Some(frame) => match copy_page(disk, pair, other, frame, page, buf) {
            Ok(()) => {
                state.copied = page;
                Ok(Ckpt::Copied(page))
            }
            Err(Failed) => Err(Failed),
        },
        // The index has a frame of the page.
        None => unreachable!(),
    }
}

// All pages were copied: the database is synced, and the log is done.
fn finish<D: Disk>(disk: &mut D, state: &mut LogState) -> Result<Ckpt, Failed>
    requires attached { D.attached disk.old ≡ true }
    ensures finished { IfOk result (λ answer. (answer ≡ ckpt.Finished) × (state.new ≡ record state.old { done = true })
        × (D.told disk.new ≡ after (Synced Main) (D.told disk.old))) }
    ensures refused { OnErr result (state.new ≡ state.old) }
    ensures unsynced { OnErr result (D.told disk.new ≡ D.told disk.old) }
    ensures moments { (opening : Opening) (view : StoreView) → Since opening.start (Holds opening view) (D.told disk.old)
        → KeepsStore opening view (D.told disk.old) (D.told disk.new) }
    ensures stays { OnlyWrites D.DiskTells disk.old disk.new }
    ensures faults { Counts (is_ok result) (D.faults disk.old) (D.faults disk.new) }
{
    match sync_main(disk) {
        Ok(()) => {
            state.done = true;
            Ok(Ckpt::Finished)
        }
        Err(Failed) => Err(Failed),
    }
}
