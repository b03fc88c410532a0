// What bars a commit, before anything is read or taken.
ghost use Rattle.std.specs.Prelude.{◌≡◌, ◌≤◌, ◌<◌, ◌*◌, ◌⊎◌, ◌^◌, ◌+◌, true, false, [], length, MatchOption};
ghost use Rattle.page_spec.specs.Header.{database_limit};
ghost use Rattle.engine_spec.specs.declared.commits.Who.{Who as Owner};
ghost use Rattle.engine_spec.specs.Events.{IsClear};
ghost use Rattle.engine_spec.specs.TwoLogs.{frame_limit, may_switch, to_write, current_frames};
ghost use Rattle.page_face.specs.Prepared.{submitted};
ghost use Rattle.store_spec.specs.Store.{two_logs, other_since_of};
ghost use Rattle.store_spec.specs.Standing.{IsWholeStore};
ghost use Rattle.store.specs.Kept.{kept_of, state_of};
ghost use Rattle.store.specs.Barring.{FindsFor, Bars};

use crate::store::Store;
use disk_face::{Disk, Salts};
use page_face::{CommitFault, Means, Mode, Prepared, Readers};
use wal_rules::{Conflict, least_conflict, may_switch};

// The most bytes that a database may have.
const MOST_BYTES: u64 = 1 << 30;

// The most frames that a log may have.
const MOST_FRAMES: u64 = 4_294_967_295;

impl<D: Disk, W: Salts, M: Means> Store<D, W, M> {
    // The first cause that bars a transaction that wrote, whosever it is, of those that need no memory and no disk.
    pub(crate) fn bar(&self, readers: &Readers, prepared: &Prepared<M>) -> Option<CommitFault>
        requires whole { IsWholeStore (kept_of self.now) }
        requires wrote { prepared.now.wrote ≡ true }
        requires least { other_since_of (kept_of self.now) ≤ prepared.now.snap }
        requires most { prepared.now.snap ≤ length (kept_of self.now).history }
        requires few { length prepared.now.changed < 2 ^ 32 }
        requires fresh { prepared.now.fresh ≡ [] }
        requires freed { prepared.now.freed ≡ [] }
        ensures { (who : Owner) → MatchOption result (IsClear (state_of D.DiskTells self.now readers.now) (submitted prepared.now who))
            (λ fault. Bars (state_of D.DiskTells self.now readers.now) (submitted prepared.now who) fault) }
    {
        if let Some(halt) = self.stop {
            return Some(CommitFault::Stopped {
                log: halt.log,
                at: halt.at,
            });
        }
        if let Some(found) = self.conflict(prepared) {
            return Some(CommitFault::BusySnapshot {
                page: found.page,
                commit: found.commit,
            });
        }
        let pages = u64::from(self.size);
        let frames = self.frames_after(readers, prepared.changed.as_slice().len());
        if is_over(pages, self.page_size as u64, frames) {
            return Some(CommitFault::SizeLimit { pages, frames });
        }
        None
    }

    // The least page that the transaction read and a later commit wrote.
    fn conflict(&self, prepared: &Prepared<M>) -> Option<Conflict>
        requires whole { IsWholeStore (kept_of self.now) }
        requires least { other_since_of (kept_of self.now) ≤ prepared.now.snap }
        requires most { prepared.now.snap ≤ length (kept_of self.now).history }
        ensures { FindsFor prepared.now.mode prepared.now.reads prepared.now.snap (kept_of self.now).history result }
    {
        match prepared.mode {
            Mode::Plain => least_conflict(&prepared.reads, true, &self.index, prepared.snap),
            Mode::Concurrent => least_conflict(&prepared.reads, false, &self.index, prepared.snap),
        }
    }

    // Whether the next commit goes over to the other log.
    pub(crate) fn goes_over(&self, readers: &Readers) -> bool
        requires { IsWholeStore (kept_of self.now) }
        ensures { result ≡ may_switch (two_logs (kept_of self.now)) readers.now (kept_of self.now).history }
    {
        let frames = self.pair.frames(self.pair.current());
        may_switch(
            &self.state,
            readers,
            frames,
            self.limit,
            self.pair.generation(),
        )
    }

    // How many frames the log that the commit goes to could come to have, where it changes so many pages.
    fn frames_after(&self, readers: &Readers, changed: usize) -> u64
        requires whole { IsWholeStore (kept_of self.now) }
        requires few { changed < 2 ^ 32 }
        ensures value { result ≡ length (current_frames (to_write (two_logs (kept_of self.now)) readers.now (kept_of self.now).history) (kept_of self.now).history) + changed + 2 }
    {
        let frames = if self.goes_over(readers) {
            0
        } else {
            self.pair.frames(self.pair.current())
        };
        u64::from(frames) + changed as u64 + 2
    }
}

// Whether so many pages of this size, or so many frames, pass the limits.
fn is_over(pages: u64, page_size: u64, frames: u64) -> bool
    requires few { pages < 2 ^ 32 }
    requires small { page_size ≤ 65536 }
    ensures over { result ≡ true → (database_limit < pages * page_size) ⊎ (frame_limit < frames) }
    ensures within { result ≡ false → (pages * page_size ≤ database_limit) × (frames ≤ frame_limit) }
{
    pages * page_size > MOST_BYTES || frames > MOST_FRAMES
}
