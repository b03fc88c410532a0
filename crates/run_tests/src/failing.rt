// A script of which each call of the disk fails in turn, and which stops after each call: what is written then, and what the files are read as again.
ghost use Rattle.std.specs.Prelude.{◌≡◌, false};

use crate::plain::Plain;
use crate::rows::{READS, ROWS};
use disk_face::File;
use disk_mem::{Call, Fail, FixedSalts, MemDisk, MemSink, MemSource};
use disk_runs::run_on_disk;
use page_runs::Status;
use recover::{Setup, StoreKind};
use std::alloc::{AllocError, Global};
use std::test;

/// More bytes than a crash leaves unsure in these tests.
const UNSURE: usize = 60_000;

/// What a run shows.
#[derive(Clone, Copy, Debug, PartialEq, Eq)]
enum Shown {
    /// No call failed, and each line is answered as its row says.
    Over,
    /// A call failed, and all is as it has to be then.
    Right,
    Wrong,
}

/// The lines of the rows, or their replies.
fn text_of(alloc: Global, replies: bool) -> Result<Vec<u8>, AllocError> {
    let mut text = Vec::new(alloc);
    for row in ROWS {
        text.extend_from_slice(if replies { row.2 } else { row.1 })?;
        text.push(b'\n')?;
    }
    Ok(text)
}

/// Runs a script over the files of this disk, and gives how it ended and what was written.
#[tactic(auto, unfolding(page_spec::specs::Header::is_page_size))]
fn run(alloc: Global, disk: &mut MemDisk, script: Vec<u8>) -> Result<(Status, Vec<u8>), AllocError>
    requires { disk.old.attached ≡ false }
{
    let setup = Setup {
        kind: StoreKind::Pages,
        page_size: 512,
        limit: 4,
    };
    let mut source = MemSource::new(script, 4096, None);
    let mut sink = MemSink::new(alloc, 4096, None);
    let mut salts = FixedSalts::new(Vec::new(alloc));
    let status = run_on_disk(
        alloc,
        b"db",
        setup,
        disk,
        &mut source,
        &mut sink,
        &mut salts,
    );
    Ok((status, sink.written().to_vec(alloc)?))
}

/// Three empty files. The calls that are named fail.
fn empty(alloc: Global, failing: Vec<Fail>) -> MemDisk
    ensures { result.attached ≡ false }
{
    MemDisk::new(
        alloc,
        Vec::new(alloc),
        Vec::new(alloc),
        Vec::new(alloc),
        failing,
    )
}

fn any_failed(disk: &MemDisk) -> bool {
    disk.made().iter().any(|made| made.failed)
}

/// The plain store after these replies; none where one of them may not come.
fn judged(written: &[u8]) -> Option<Plain> {
    let mut plain = Plain::new();
    let mut replies = written.split(|byte| *byte == b'\n');
    for row in ROWS {
        if !plain.takes(row.0, replies.next()?) {
            return None;
        }
    }
    // Behind the last line there is nothing.
    if replies.next()?.is_empty() && replies.next().is_none() {
        Some(plain)
    } else {
        None
    }
}

/// The plain store after a run, in which no line was answered where the opening failed.
fn after(status: Status, written: &[u8]) -> Option<Plain> {
    match status {
        Status::Done => judged(written),
        Status::DiskFailed if written == b"disk failed\n".as_slice() => Some(Plain::new()),
        _ => None,
    }
}

/// Whether the files that a crash leaves with this pick are read as the plain store allows.
fn recovers(alloc: Global, disk: &MemDisk, pick: &[u8], plain: &Plain) -> Result<bool, AllocError> {
    let mut left = disk.crash(pick)?;
    let (status, written) = run(alloc, &mut left, READS.to_vec(alloc)?)?;
    Ok(status == Status::Done && plain.recovers(alloc, &written)?)
}

/// The same where a crash leaves what was written, zeros, and bytes of all ones.
fn recovers_each(alloc: Global, disk: &MemDisk, plain: &Plain) -> Result<bool, AllocError> {
    let zeros = vec![in alloc; 0; UNSURE]?;
    let ones = vec![in alloc; 255; UNSURE]?;
    Ok(
        recovers(alloc, disk, &[], plain)?
            && recovers(alloc, disk, &zeros, plain)?
            && recovers(alloc, disk, &ones, plain)?,
    )
}

fn shown_by(right: bool) -> Shown {
    if right { Shown::Right } else { Shown::Wrong }
}

/// What a run in which no call failed shows.
fn over(alloc: Global, status: Status, written: &[u8]) -> Result<Shown, AllocError> {
    let replies = text_of(alloc, true)?;
    if status == Status::Done && written == replies.as_slice() {
        Ok(Shown::Over)
    } else {
        Ok(Shown::Wrong)
    }
}

/// Whether nothing is committed any more once this call failed in a commit.
fn stops_commits(fail: Fail) -> bool {
    fail.file != File::Main && (fail.call == Call::Write || fail.call == Call::Sync)
}

/// What the script shows where this call fails: one reply tells of it, or the opening does, and after the write or sync of a log each commit is refused
/// with the place.
fn shows_failing(alloc: Global, fail: Fail) -> Result<Shown, AllocError> {
    let mut failing = Vec::new(alloc);
    failing.push(fail)?;
    let mut disk = empty(alloc, failing);
    let (status, written) = run(alloc, &mut disk, text_of(alloc, false)?)?;
    if !any_failed(&disk) {
        return over(alloc, status, &written);
    }
    let Some(plain) = after(status, &written) else {
        return Ok(Shown::Wrong);
    };
    let told = status == Status::DiskFailed
        || plain.failures == 1 && plain.stopped.is_some() == stops_commits(fail);
    Ok(shown_by(told && recovers_each(alloc, &disk, &plain)?))
}

/// What the script shows where so many calls go well and all later ones fail.
fn shows_stopped(alloc: Global, calls: u64) -> Result<Shown, AllocError> {
    let mut disk = empty(alloc, Vec::new(alloc));
    disk.stop_after(calls);
    let (status, written) = run(alloc, &mut disk, text_of(alloc, false)?)?;
    if !any_failed(&disk) {
        return over(alloc, status, &written);
    }
    match after(status, &written) {
        Some(plain) => Ok(shown_by(recovers_each(alloc, &disk, &plain)?)),
        None => Ok(Shown::Wrong),
    }
}

/// How many calls of a kind there are in the script, each of which failed in a run of its own; else the first that shows otherwise than it has to.
fn count_failing(alloc: Global, file: File, call: Call) -> Result<Result<u64, u64>, AllocError> {
    for nth in 1..1000 {
        match shows_failing(alloc, Fail { file, call, nth })? {
            Shown::Over => return Ok(Ok(nth - 1)),
            Shown::Right => {}
            Shown::Wrong => return Ok(Err(nth)),
        }
    }
    Ok(Err(0))
}

#[test]
fn each_call_fails_in_turn(rt: HostRuntime) -> Result<(), test::Fail> {
    // The opening writes 16 pages into log 1 and into Main, and headers before and after. A commit reads page 1 and writes two frames; the third one writes a
    // header before. Session 3 reads a page of Main, and three pages are copied from log 1 into Main.
    let cases = [
        (File::Main, Call::Attach, 1),
        (File::Main, Call::Journal, 1),
        (File::Main, Call::Read, 2),
        (File::Main, Call::Write, 19),
        (File::Main, Call::Sync, 2),
        (File::Log1, Call::Read, 5),
        (File::Log1, Call::Write, 22),
        (File::Log1, Call::Sync, 5),
        (File::Log2, Call::Read, 0),
        (File::Log2, Call::Write, 4),
        (File::Log2, Call::Sync, 3),
    ];
    for (file, call, count) in cases {
        assert_eq!(rt;
            count_failing(rt.alloc(), file, call)?,
            Ok(count),
            "{file:?} {call:?}"
        );
    }
    // How often it asks for sizes isn't said.
    for file in [File::Main, File::Log1, File::Log2] {
        assert!(rt;
            count_failing(rt.alloc(), file, Call::Size)?.is_ok(),
            "{file:?}"
        );
    }
    Ok(())
}

/// After how many calls the script stopped in a run of its own each; else the first that shows otherwise than it has to.
fn count_stopped(alloc: Global) -> Result<Result<u64, u64>, AllocError> {
    for calls in 0..10_000 {
        match shows_stopped(alloc, calls)? {
            Shown::Over => return Ok(Ok(calls)),
            Shown::Right => {}
            Shown::Wrong => return Ok(Err(calls)),
        }
    }
    Ok(Err(0))
}

#[test]
fn it_stops_after_each_call(rt: HostRuntime) -> Result<(), test::Fail> {
    assert!(rt; count_stopped(rt.alloc())?.is_ok());
    Ok(())
}
