// The state of the two logs, and what it allows.
//
// `c` is the current log and `o` the other. Readers that hold Part(c) read a front of log c over the database, those that hold
// Part(c)Full(o) a front of log c over all of log o over the database.
ghost use Rattle.std.specs.Prelude.{◌≡◌, ◌⊎◌, ◌==◌, ◌&&◌, not, List, length};
ghost use Rattle.engine_spec.specs.TwoLogs.{TwoLogs, holders, full_holders, current_frames, lock_of, may_switch};
ghost use Rattle.engine_spec.specs.declared.commits.Commit.{Commit};
ghost use Rattle.log_spec.specs.LogHeader.{last_generation};
ghost use Rattle.wal_rules.specs.Rules.{logs_with, logs_within, MayCopy};

use page_face::{Lock, Readers};

/// How the two logs stand.
#[derive(Clone, Copy, Debug, PartialEq, Eq)]
pub struct LogState {
    /// The log that commits are written to, 1 or 2.
    pub current: u8,
    /// Whether all of the other log was copied into the database.
    pub done: bool,
    /// The last page that was copied from the other log, 0 where none was.
    pub copied: u32,
}

/// The last generation of a log: from it on no log is begun anew.
const LAST_GENERATION: u32 = 4_000_000_000;

/// The lock of a reader that comes now: Part(c) where the other log is done, else Part(c)Full(o).
pub fn lock_of(state: &LogState) -> Lock
    requires { (state.now.current ≡ 1) ⊎ (state.now.current ≡ 2) }
    ensures { (rest : TwoLogs) → result ≡ lock_of (logs_with state.now rest) }
{
    match (state.current, state.done) {
        (1, true) => Lock::Part1,
        (1, false) => Lock::Part1Full2,
        (_, true) => Lock::Part2,
        (_, false) => Lock::Part2Full1,
    }
}

/// Whether a page may be copied from the other log. The error is how many readers hold Part(o), which a copy would change under them.
pub fn may_copy(state: &LogState, readers: &Readers) -> Result<(), u64>
    requires { (state.now.current ≡ 1) ⊎ (state.now.current ≡ 2) }
    ensures { (rest : TwoLogs) → MayCopy (holders (logs_with state.now rest) readers.now) result }
{
    match holders(state, readers) {
        0 => Ok(()),
        count => Err(count),
    }
}

// How many readers hold Part(o).
fn holders(state: &LogState, readers: &Readers) -> u64
    requires { (state.now.current ≡ 1) ⊎ (state.now.current ≡ 2) }
    ensures { (rest : TwoLogs) → result ≡ holders (logs_with state.now rest) readers.now }
{
    if state.current == 1 {
        readers.part2
    } else {
        readers.part1
    }
}

// How many readers hold Part(c)Full(o).
fn full_holders(state: &LogState, readers: &Readers) -> u64
    requires { (state.now.current ≡ 1) ⊎ (state.now.current ≡ 2) }
    ensures { (rest : TwoLogs) → result ≡ full_holders (logs_with state.now rest) readers.now }
{
    if state.current == 1 {
        readers.part1_full2
    } else {
        readers.part2_full1
    }
}

/// Whether the next commit goes over to the other log: that one is done and no reader reads any of it, the current log has at least `limit` frames,
/// and its generation isn't the last. The reader that commits is among the readers.
pub fn may_switch(
    state: &LogState,
    readers: &Readers,
    frames: u32,
    limit: u32,
    generation: u32,
) -> bool
    requires { (state.now.current ≡ 1) ⊎ (state.now.current ≡ 2) }
    ensures { (rest : TwoLogs) (history : List Commit) → length (current_frames (logs_within state.now limit generation rest) history) ≡ frames
        → result ≡ may_switch (logs_within state.now limit generation rest) readers.now history }
{
    let full = full_holders(state, readers);
    let held = holders(state, readers);
    is_open(state.done, full, held, frames < limit) && generation < LAST_GENERATION
}

// Whether the other log may be begun anew: it is done, nobody reads any of it, and the current one isn't short of its limit.
fn is_open(done: bool, full: u64, held: u64, short: bool) -> bool
    ensures { result ≡ (done && (full == 0) && (held == 0) && not short) }
{
    if !done {
        return false;
    }
    if full > 0 {
        return false;
    }
    if held > 0 {
        return false;
    }
    !short
}
