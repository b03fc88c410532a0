// A script in which each call of the disk fails in turn: what is answered then, and what the files are opened with again.
use crate::lines::Line;
use crate::model::PlainMaps;
use crate::quiet::{Quiet, filled};
use crate::trial::{Run, opens, starts, starts_again};
use disk_face::{Failed, File};
use disk_mem::{Call, Fail};
use page_face::Ckpt;
use page_lines::Told;
use std::alloc::{AllocError, Global};
use store::OpenFault;

/// The bytes of a page.
const PAGE: u32 = 512;

/// The frames that a log takes before the next commit may go over.
const LIMIT: u32 = 4;

/// Ten commits, with three switches, readers of either lock, and what is behind copied step by step. Each commit has a roll-back behind it, which
/// ends a transaction that was refused.
const SCRIPT: &[Line] = &[
    Line::Begin(1),
    Line::Write(1, 2, 7),
    Line::Commit(1, 1),
    Line::Rollback(1, false),
    Line::Begin(5),
    Line::Begin(1),
    Line::Write(1, 3, 8),
    Line::Commit(1, 2),
    Line::Rollback(1, false),
    Line::Read(5, 2, 7),
    Line::Read(5, 3, 0),
    Line::End(5, 1),
    Line::Begin(3),
    Line::Begin(1),
    Line::Write(1, 4, 9),
    Line::Commit(1, 3),
    Line::Rollback(1, false),
    Line::Logs(2, 2, false),
    Line::Copy(Ckpt::Held(1)),
    Line::Begin(4),
    Line::Read(3, 3, 8),
    Line::Read(3, 4, 0),
    Line::Read(4, 4, 9),
    Line::End(3, 2),
    Line::Step(Ckpt::Copied(1)),
    Line::Step(Ckpt::Copied(2)),
    Line::Copy(Ckpt::Finished),
    Line::Copy(Ckpt::Idle),
    Line::Begin(1),
    Line::Write(1, 5, 10),
    Line::Commit(1, 4),
    Line::Rollback(1, false),
    Line::Begin(1),
    Line::Write(1, 2, 11),
    Line::Commit(1, 5),
    Line::Rollback(1, false),
    Line::Logs(2, 6, true),
    Line::Read(4, 2, 7),
    Line::Read(4, 3, 8),
    Line::Read(4, 5, 0),
    Line::End(4, 3),
    Line::Begin(1),
    Line::Write(1, 7, 12),
    Line::Commit(1, 6),
    Line::Rollback(1, false),
    Line::Logs(1, 2, false),
    Line::Begin(2),
    Line::Step(Ckpt::Copied(1)),
    Line::Begin(1),
    Line::Write(1, 3, 13),
    Line::Commit(1, 7),
    Line::Rollback(1, false),
    Line::Copy(Ckpt::Finished),
    Line::Read(2, 2, 11),
    Line::Read(2, 3, 8),
    Line::Read(2, 7, 12),
    Line::Begin(1),
    Line::Write(1, 16, 14),
    Line::Commit(1, 8),
    Line::Rollback(1, false),
    Line::Read(2, 5, 10),
    Line::Read(2, 16, 0),
    Line::End(2, 6),
    Line::Step(Ckpt::Idle),
    Line::Begin(2),
    Line::Write(2, 6, 15),
    Line::Commit(2, 9),
    Line::Rollback(2, false),
    Line::Begin(2),
    Line::Write(2, 6, 16),
    Line::Commit(2, 10),
    Line::Rollback(2, false),
];

/// Reads each page.
const READS: &[Line] = &[
    Line::Begin(1),
    Line::Read(1, 2, 0),
    Line::Read(1, 3, 0),
    Line::Read(1, 4, 0),
    Line::Read(1, 5, 0),
    Line::Read(1, 6, 0),
    Line::Read(1, 7, 0),
    Line::Read(1, 8, 0),
    Line::Read(1, 9, 0),
    Line::Read(1, 10, 0),
    Line::Read(1, 11, 0),
    Line::Read(1, 12, 0),
    Line::Read(1, 13, 0),
    Line::Read(1, 14, 0),
    Line::Read(1, 15, 0),
    Line::Read(1, 16, 0),
];

/// The writes and syncs of a log after which nothing is committed any more, each with the log and the place in it that are told: the first frame of
/// that commit, or 0 for the header of a switch. The opening of three empty files takes 18 writes and 3 syncs of log 1, and one of each of log 2. A
/// frame has 536 bytes, and those of a commit go one by one. The last commit isn't here: none comes after it.
const HALTS: &[(File, Call, u64, u8, u64)] = &[
    (File::Log1, Call::Write, 19, 1, 32),
    (File::Log1, Call::Write, 20, 1, 32),
    (File::Log1, Call::Sync, 4, 1, 32),
    (File::Log1, Call::Write, 21, 1, 1104),
    (File::Log1, Call::Write, 22, 1, 1104),
    (File::Log1, Call::Sync, 5, 1, 1104),
    (File::Log2, Call::Write, 2, 2, 0),
    (File::Log2, Call::Sync, 2, 2, 0),
    (File::Log2, Call::Write, 3, 2, 32),
    (File::Log2, Call::Write, 4, 2, 32),
    (File::Log2, Call::Sync, 3, 2, 32),
    (File::Log2, Call::Write, 5, 2, 1104),
    (File::Log2, Call::Write, 6, 2, 1104),
    (File::Log2, Call::Sync, 4, 2, 1104),
    (File::Log2, Call::Write, 7, 2, 2176),
    (File::Log2, Call::Write, 8, 2, 2176),
    (File::Log2, Call::Sync, 5, 2, 2176),
    (File::Log1, Call::Write, 23, 1, 0),
    (File::Log1, Call::Sync, 6, 1, 0),
    (File::Log1, Call::Write, 24, 1, 32),
    (File::Log1, Call::Write, 25, 1, 32),
    (File::Log1, Call::Sync, 7, 1, 32),
    (File::Log1, Call::Write, 26, 1, 1104),
    (File::Log1, Call::Write, 27, 1, 1104),
    (File::Log1, Call::Sync, 8, 1, 1104),
    (File::Log1, Call::Write, 28, 1, 2176),
    (File::Log1, Call::Write, 29, 1, 2176),
    (File::Log1, Call::Sync, 9, 1, 2176),
    (File::Log2, Call::Write, 9, 2, 0),
    (File::Log2, Call::Sync, 6, 2, 0),
    (File::Log2, Call::Write, 10, 2, 32),
    (File::Log2, Call::Write, 11, 2, 32),
    (File::Log2, Call::Sync, 7, 2, 32),
];

/// What a run shows.
#[derive(Clone, Copy)]
enum Shown {
    /// No call failed, and each line is answered as it says.
    Over,
    /// A call failed, and all is as it has to be then.
    Right,
    Wrong,
}

/// The place that is told after this call failed, if one is.
fn halt_of(fail: Fail) -> Option<(u8, u64)> {
    for row in HALTS {
        let (file, call, nth, log, at) = *row;
        if fail.file == file && fail.call == call && fail.nth == nth {
            return Some((log, at));
        }
    }
    None
}

fn any_failed(run: &Run) -> bool {
    run.disk.disk.made().iter().any(|made| made.failed)
}

/// Whether the answers to the script may come, and the history has the length that they tell.
fn may_come(plain: &mut PlainMaps, run: &Run) -> bool {
    match &run.told {
        Ok(told) => takes_all(plain, told) && run.entries.len() == plain.commits(),
        Err(fault) => *fault == OpenFault::Disk,
    }
}

fn takes_all(plain: &mut PlainMaps, told: &[Told]) -> bool {
    for at in 0..SCRIPT.len() {
        if at >= told.len() || !plain.takes(SCRIPT[at].act(), told[at]) {
            return false;
        }
    }
    true
}

/// Whether the files that a crash leaves with this pick are opened with a map that the plain store allows.
#[tactic(auto, unfolding(page_spec::specs::Header::is_page_size))]
fn recovers(alloc: Global, run: &Run, pick: &[u8], plain: &PlainMaps) -> bool {
    match starts_again(alloc, run, pick, PAGE, LIMIT, READS) {
        Ok(again) => allows(plain, &again),
        Err(_) => false,
    }
}

fn allows(plain: &PlainMaps, again: &Run) -> bool {
    match &again.told {
        Ok(told) => plain.recovers(told),
        Err(_) => false,
    }
}

fn recovers_by(
    alloc: Global,
    run: &Run,
    pick: Result<Vec<u8>, AllocError>,
    plain: &PlainMaps,
) -> bool {
    match pick {
        Ok(pick) => recovers(alloc, run, &pick, plain),
        Err(_) => false,
    }
}

/// The same where a crash leaves what was written, bytes of all ones, and old bytes.
fn recovers_each(alloc: Global, run: &Run, plain: &PlainMaps) -> bool {
    recovers(alloc, run, &[], plain)
        && recovers_by(alloc, run, filled(alloc, 255), plain)
        && recovers_by(alloc, run, run.disk.old_bytes(), plain)
}

/// Whether the call that failed is told, and it alone, and after the write or sync of a log each later commit is refused with the place.
fn tells_one(run: &Run, plain: &PlainMaps, fail: Fail) -> bool {
    run.told.is_err() || plain.failures == 1 && plain.halt == halt_of(fail)
}

/// Whether a run in which calls failed, of which one may be named, is as it has to be.
fn is_right(alloc: Global, run: &Run, plain: &mut PlainMaps, named: Option<Fail>) -> bool {
    may_come(plain, run)
        && match named {
            Some(fail) => tells_one(run, plain, fail),
            None => true,
        }
        && recovers_each(alloc, run, plain)
}

fn shown_by(right: bool) -> Shown {
    if right { Shown::Right } else { Shown::Wrong }
}

fn judged(alloc: Global, run: &Run, named: Option<Fail>) -> Shown {
    match PlainMaps::new(alloc) {
        Ok(mut plain) => shown_by(is_right(alloc, run, &mut plain, named)),
        Err(_) => Shown::Wrong,
    }
}

fn over(run: &Run) -> Shown {
    match run.first_wrong(SCRIPT) {
        None => Shown::Over,
        Some(_) => Shown::Wrong,
    }
}

fn shown_in(alloc: Global, run: &Run, named: Option<Fail>) -> Shown {
    if any_failed(run) {
        judged(alloc, run, named)
    } else {
        over(run)
    }
}

/// What the script shows where this call fails.
#[tactic(auto, unfolding(page_spec::specs::Header::is_page_size))]
fn shows_failing(alloc: Global, fail: Fail) -> Shown {
    match starts(alloc, Some(fail), PAGE, LIMIT, SCRIPT) {
        Ok(run) => shown_in(alloc, &run, Some(fail)),
        Err(_) => Shown::Wrong,
    }
}

#[tactic(auto, unfolding(page_spec::specs::Header::is_page_size))]
fn stopped(alloc: Global, calls: u64) -> Result<Run, Failed> {
    let mut disk = Quiet::empty(alloc, None)?;
    disk.disk.stop_after(calls);
    match opens(alloc, disk, PAGE, LIMIT, SCRIPT) {
        Ok(run) => Ok(run),
        Err(_) => Err(Failed),
    }
}

/// What the script shows where so many calls go well and all later ones fail.
fn shows_stopped(alloc: Global, calls: u64) -> Shown {
    match stopped(alloc, calls) {
        Ok(run) => shown_in(alloc, &run, None),
        Err(_) => Shown::Wrong,
    }
}

/// How many calls of a kind there are in the script, each of which failed in a run of its own; else the first that shows otherwise than it has to.
fn count_failing(alloc: Global, file: File, call: Call) -> Result<u64, u64> {
    for nth in 1..1000 {
        match shows_failing(alloc, Fail { file, call, nth }) {
            Shown::Over => return Ok(nth - 1),
            Shown::Right => {}
            Shown::Wrong => return Err(nth),
        }
    }
    Err(0)
}

/// The calls of each kind. A header, a frame and a page of Main are one write each. How often it reads and asks for sizes isn't said.
const COUNTS: &[(File, Call, Option<u64>)] = &[
    (File::Main, Call::Write, Some(23)),
    (File::Main, Call::Sync, Some(3)),
    (File::Log1, Call::Write, Some(29)),
    (File::Log1, Call::Sync, Some(9)),
    (File::Log2, Call::Write, Some(13)),
    (File::Log2, Call::Sync, Some(8)),
    (File::Main, Call::Journal, Some(1)),
    (File::Main, Call::Read, None),
    (File::Main, Call::Size, None),
    (File::Log1, Call::Read, None),
    (File::Log1, Call::Size, None),
    (File::Log2, Call::Read, None),
    (File::Log2, Call::Size, None),
];

fn is_counted(alloc: Global, file: File, call: Call, said: Option<u64>) -> bool {
    match count_failing(alloc, file, call) {
        Ok(count) => said.is_none() || said == Some(count),
        Err(_) => false,
    }
}

/// The place of the first row that isn't right.
fn first_wrong_count(alloc: Global) -> Option<usize> {
    for at in 0..COUNTS.len() {
        let (file, call, said) = COUNTS[at];
        if !is_counted(alloc, file, call, said) {
            return Some(at);
        }
    }
    None
}

#[test]
fn each_call_fails_in_turn(rt: HostRuntime) {
    assert_eq!(rt; first_wrong_count(rt.alloc()), None);
}

/// The first number of calls after which the script stops and shows otherwise than it has to; none where there is none up to its end.
fn first_wrong_stop(alloc: Global) -> Option<u64> {
    for calls in 0..10_000 {
        match shows_stopped(alloc, calls) {
            Shown::Over => return None,
            Shown::Right => {}
            Shown::Wrong => return Some(calls),
        }
    }
    Some(10_000)
}

#[test]
fn it_stops_after_each_call(rt: HostRuntime) {
    assert_eq!(rt; first_wrong_stop(rt.alloc()), None);
}
