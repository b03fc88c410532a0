// Page lines over a store in memory, and played over the engine in memory.
//
// The expected answers are worked by hand from the rules. Of all answers these never come here: `Disk` and `Stopped`, since no disk
// can fail; `Size`, since 16 pages are far below the limit; and of a checkpoint all but `Idle`, since the engine keeps no logs.
ghost use Rattle.std.specs.Prelude.{◌≡◌, ◌≤◌, [], IfOk, All, true};
ghost use Rattle.page_lines.specs.Range.{IsInRange};

use acts::{Act, Told, play};
use engine_spec::{Ckpt, Logs, Receipt};
use page_face::Engine;
use page_lines::Raw;
use page_runs::{Sessions, engine_of_zeros};
use std::alloc::{AllocError, Global};
use std::process::Abort;
use std::test::Fail;

#[test]
fn a_store_in_memory_answers_each_act(rt: HostRuntime) -> Result<(), Fail> {
    let engine = engine_of_zeros(rt.alloc())?;
    let mut memory = Sessions::new(rt.alloc(), engine);
    assert_eq!(rt; memory.act(Act::Begin { session: 1 }), Ok(Told::Ok));
    assert_eq!(rt; memory.act(Act::Begin { session: 2 }), Ok(Told::Ok));
    assert_eq!(rt;
        memory.act(Act::Read {
            session: 1,
            page: 3
        }),
        Ok(Told::Byte(0))
    );
    assert_eq!(rt;
        memory.act(Act::Write {
            session: 1,
            page: 4,
            byte: 9
        }),
        Ok(Told::Ok)
    );
    assert_eq!(rt;
        memory.act(Act::Write {
            session: 2,
            page: 3,
            byte: 7
        }),
        Ok(Told::Ok)
    );
    assert_eq!(rt; memory.act(Act::Commit { session: 2 }), Ok(AT_1));
    assert_eq!(rt; memory.act(Act::Commit { session: 1 }), Ok(busy(3, 1)));
    Ok(())
}

// Whether the page of an act is one that page lines may name.
fn is_in_range(act: Act) -> bool
    ensures { result ≡ true → IsInRange act }
{
    match act {
        Act::Read { page, .. } | Act::Write { page, .. } => 2 <= page && page <= 16,
        _ => true,
    }
}

// Adds an act, which has to be in range.
fn add_act(rt: &impl Abort, acts: &mut Vec<Act>, act: Act) -> Result<(), AllocError>
    requires { All IsInRange acts.old.items }
    ensures { All IsInRange acts.new.items }
{
    assert!(rt; is_in_range(act), "{act:?}");
    acts.push(act)?;
    Ok(())
}

// The acts of these rows.
fn acts_of(rt: &impl Abort, alloc: Global, rows: &[(Act, Told)]) -> Result<Vec<Act>, AllocError>
    ensures { IfOk result (λ acts. All IsInRange acts.items) }
{
    let mut acts = Vec::new(alloc);
    for row in rows {
        add_act(rt, &mut acts, row.0)?;
    }
    Ok(acts)
}

// Plays the acts of these rows over 16 pages of zeros. Each is answered as its row says.
fn answered(rt: &impl Abort, alloc: Global, rows: &[(Act, Told)]) -> Result<(), AllocError> {
    let mut engine = engine_of_zeros(alloc)?;
    answered_by(rt, alloc, &mut engine, rows)
}

/// Plays the acts of these rows over an engine. Each is answered as its row says.
pub fn answered_by<E: Engine<Raw>>(
    rt: &impl Abort,
    alloc: Global,
    engine: &mut E,
    rows: &[(Act, Told)],
) -> Result<(), AllocError>
    requires always { (E.state engine.old).always_begins ≡ true }
    requires pages { 16 ≤ (E.state engine.old).size }
    requires live { E.live engine.old [] }
{
    let acts = acts_of(rt, alloc, rows)?;
    let answers = play(alloc, engine, &acts)?;
    assert_eq!(rt; answers.len(), rows.len());
    for (at, row) in rows.iter().enumerate() {
        assert_eq!(rt; answers[at], row.1, "at act {at}");
    }
    Ok(())
}

/// A session begins a transaction.
pub fn begin(session: u32) -> Act {
    Act::Begin { session }
}

/// A session reads a page.
pub fn read(session: u32, page: u32) -> Act {
    Act::Read { session, page }
}

/// A session sets each byte of a page.
pub fn write(session: u32, page: u32, byte: u8) -> Act {
    Act::Write {
        session,
        page,
        byte,
    }
}

/// A session commits.
pub fn commit(session: u32) -> Act {
    Act::Commit { session }
}

fn rollback(session: u32) -> Act {
    Act::Rollback { session }
}

/// The answer to who read a page that this commit wrote.
pub fn busy(page: u32, commit: u64) -> Told {
    Told::Busy { page, commit }
}

const AT_1: Told = Told::Done(Receipt::At(1));

const AT_2: Told = Told::Done(Receipt::At(2));

const AT_3: Told = Told::Done(Receipt::At(3));

#[test]
fn a_lost_update_is_refused(rt: HostRuntime) -> Result<(), Fail> {
    answered(
        &rt,
        rt.alloc(),
        &[
            (begin(1), Told::Ok),
            (begin(2), Told::Ok),
            (read(1, 2), Told::Byte(0)),
            (write(2, 2, 7), Told::Ok),
            (commit(2), AT_1),
            (write(1, 3, 9), Told::Ok),
            (read(1, 2), Told::Byte(0)),
            (commit(1), busy(2, 1)),
            (read(1, 2), Told::MustRollBack),
            (rollback(1), Told::Ok),
            (begin(1), Told::Ok),
            (read(1, 2), Told::Byte(7)),
            (read(1, 3), Told::Byte(0)),
        ],
    )?;
    Ok(())
}

#[test]
fn who_reads_nothing_is_never_refused(rt: HostRuntime) -> Result<(), Fail> {
    answered(
        &rt,
        rt.alloc(),
        &[
            (begin(1), Told::Ok),
            (begin(2), Told::Ok),
            (write(1, 2, 5), Told::Ok),
            (write(2, 2, 6), Told::Ok),
            (commit(1), AT_1),
            (commit(2), AT_2),
            (begin(1), Told::Ok),
            (read(1, 2), Told::Byte(6)),
        ],
    )?;
    Ok(())
}

#[test]
fn acts_out_of_their_place(rt: HostRuntime) -> Result<(), Fail> {
    answered(
        &rt,
        rt.alloc(),
        &[
            // Out of a transaction, before the first one and after one.
            (read(1, 2), Told::NoTransaction),
            (write(1, 2, 7), Told::NoTransaction),
            (commit(1), Told::NoTransaction),
            (rollback(1), Told::NoTransaction),
            (begin(1), Told::Ok),
            (begin(1), Told::InTransaction),
            (rollback(1), Told::Ok),
            (rollback(1), Told::NoTransaction),
            (read(1, 2), Told::NoTransaction),
            // In a transaction whose COMMIT was refused.
            (begin(1), Told::Ok),
            (read(1, 16), Told::Byte(0)),
            (write(1, 15, 1), Told::Ok),
            (begin(2), Told::Ok),
            (write(2, 16, 2), Told::Ok),
            (commit(2), AT_1),
            (commit(1), busy(16, 1)),
            (begin(1), Told::MustRollBack),
            (read(1, 16), Told::MustRollBack),
            (write(1, 16, 3), Told::MustRollBack),
            (commit(1), Told::MustRollBack),
            (rollback(1), Told::Ok),
            (commit(1), Told::NoTransaction),
            // What was refused or rolled back left no byte.
            (begin(1), Told::Ok),
            (read(1, 15), Told::Byte(0)),
            (read(1, 16), Told::Byte(2)),
        ],
    )?;
    Ok(())
}

#[test]
fn a_snapshot_stays_and_own_writes_are_seen(rt: HostRuntime) -> Result<(), Fail> {
    answered(
        &rt,
        rt.alloc(),
        &[
            (begin(1), Told::Ok),
            (begin(2), Told::Ok),
            (write(1, 2, 255), Told::Ok),
            (read(1, 2), Told::Byte(255)),
            (write(1, 2, 254), Told::Ok),
            (read(1, 2), Told::Byte(254)),
            (read(2, 2), Told::Byte(0)),
            // A page that was read only after it was written there isn't read from the snapshot.
            (write(2, 3, 1), Told::Ok),
            (read(2, 3), Told::Byte(1)),
            (write(1, 3, 9), Told::Ok),
            (commit(1), AT_1),
            (read(2, 2), Told::Byte(0)),
            (begin(3), Told::Ok),
            (read(3, 2), Told::Byte(254)),
            (read(3, 3), Told::Byte(9)),
            // A transaction that wrote nothing is told its snapshot, whatever was committed since.
            (begin(1), Told::Ok),
            (write(1, 2, 3), Told::Ok),
            (commit(1), AT_2),
            (commit(3), Told::Done(Receipt::ReadOnly(1))),
            (begin(3), Told::Ok),
            (commit(3), Told::Done(Receipt::ReadOnly(2))),
            (commit(2), busy(2, 1)),
        ],
    )?;
    Ok(())
}

#[test]
fn the_least_page_and_the_first_commit_are_told(rt: HostRuntime) -> Result<(), Fail> {
    answered(
        &rt,
        rt.alloc(),
        &[
            (begin(1), Told::Ok),
            (read(1, 9), Told::Byte(0)),
            (read(1, 4), Told::Byte(0)),
            (read(1, 12), Told::Byte(0)),
            (write(1, 2, 1), Told::Ok),
            // Pages 9 and 4 are written since, page 9 first.
            (begin(2), Told::Ok),
            (write(2, 9, 1), Told::Ok),
            (commit(2), AT_1),
            (begin(2), Told::Ok),
            (write(2, 4, 2), Told::Ok),
            (write(2, 12, 2), Told::Ok),
            (commit(2), AT_2),
            // Page 4 is written once more, and one that session 1 didn't read.
            (begin(2), Told::Ok),
            (write(2, 4, 3), Told::Ok),
            (write(2, 3, 3), Told::Ok),
            (commit(2), AT_3),
            (commit(1), busy(4, 2)),
        ],
    )?;
    Ok(())
}

#[test]
fn without_logs_there_is_nothing_to_copy(rt: HostRuntime) -> Result<(), Fail> {
    let logs = Told::Logs(Logs {
        current: 1,
        frames: 0,
        done: true,
    });
    answered(
        &rt,
        rt.alloc(),
        &[
            (Act::Logs, logs),
            (begin(1), Told::Ok),
            (write(1, 2, 1), Told::Ok),
            (commit(1), AT_1),
            (begin(1), Told::Ok),
            (Act::Copy, Told::Ckpt(Ckpt::Idle)),
            (Act::Step, Told::Ckpt(Ckpt::Idle)),
            (Act::Logs, logs),
            (read(1, 2), Told::Byte(1)),
        ],
    )?;
    Ok(())
}

// The most sessions that a script has.
const SESSIONS: u32 = 15;

#[test]
fn fifteen_sessions_at_once(rt: HostRuntime) -> Result<(), Fail> {
    let mut rows = Vec::new(rt.alloc());
    // Each reads page 2 and writes a page of its own, which is page 2 for session 1.
    for session in 1..=SESSIONS {
        rows.push((begin(session), Told::Ok))?;
        rows.push((read(session, 2), Told::Byte(0)))?;
        rows.push((write(session, session + 1, 7), Told::Ok))?;
    }
    rows.push((commit(1), AT_1))?;
    for session in 2..=SESSIONS {
        rows.push((commit(session), busy(2, 1)))?;
        rows.push((rollback(session), Told::Ok))?;
    }
    // Each writes its own page and reads none.
    for session in 1..=SESSIONS {
        rows.push((begin(session), Told::Ok))?;
        rows.push((write(session, session + 1, 8), Told::Ok))?;
    }
    for session in 1..=SESSIONS {
        let receipt = Receipt::At(session as u64 + 1);
        rows.push((commit(session), Told::Done(receipt)))?;
    }
    answered(&rt, rt.alloc(), &rows)?;
    Ok(())
}
