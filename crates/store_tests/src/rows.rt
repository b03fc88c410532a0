// Runs that are worked by hand from the rules of the two logs. Each commit has two frames: of page 1, and of the page that it wrote.
use crate::lines::Line;
use crate::trial::starts;
use disk_face::File;
use disk_mem::{Call, Fail};
use page_face::Ckpt;
use std::alloc::Global;

/// The bytes of a page in these runs.
pub const PAGE: u32 = 4096;

/// Over to the other log, and what is behind is copied once its last reader is gone.
pub const SWITCH: &[Line] = &[
    Line::Begin(1),
    Line::Write(1, 2, 7),
    Line::Commit(1, 1),
    Line::Begin(1),
    Line::Write(1, 3, 8),
    Line::Commit(1, 2),
    Line::Logs(1, 4, true),
    Line::Begin(3),
    Line::Begin(1),
    Line::Write(1, 4, 9),
    Line::Commit(1, 3),
    Line::Logs(2, 2, false),
    Line::Copy(Ckpt::Held(1)),
    Line::Step(Ckpt::Held(1)),
    // Session 3 still reads its snapshot.
    Line::Read(3, 4, 0),
    Line::Read(3, 2, 7),
    Line::Read(3, 3, 8),
    Line::End(3, 2),
    Line::Step(Ckpt::Copied(1)),
    Line::Copy(Ckpt::Finished),
    Line::Copy(Ckpt::Idle),
];

/// A snapshot in the middle of log 1 outlives a commit to that log and the switch.
const OLD_READER: &[Line] = &[
    Line::Begin(1),
    Line::Write(1, 2, 7),
    Line::Commit(1, 1),
    Line::Begin(5),
    Line::Begin(1),
    Line::Write(1, 2, 8),
    Line::Commit(1, 2),
    Line::Begin(1),
    Line::Write(1, 4, 9),
    Line::Commit(1, 3),
    Line::Logs(2, 2, false),
    Line::Read(5, 2, 7),
    Line::Read(5, 4, 0),
    Line::Copy(Ckpt::Held(1)),
    Line::Begin(2),
    Line::Read(2, 2, 8),
    Line::Read(2, 4, 9),
    Line::End(5, 1),
    Line::Copy(Ckpt::Finished),
    Line::Read(2, 2, 8),
    Line::End(2, 3),
];

/// A reader of all of log 1 below log 2 keeps log 1 from being written anew, though it is copied.
const FULL_READER: &[Line] = &[
    Line::Begin(1),
    Line::Write(1, 2, 7),
    Line::Commit(1, 1),
    Line::Begin(1),
    Line::Write(1, 3, 8),
    Line::Commit(1, 2),
    Line::Begin(3),
    Line::Begin(1),
    Line::Write(1, 4, 9),
    Line::Commit(1, 3),
    Line::Copy(Ckpt::Held(1)),
    Line::Begin(4),
    Line::End(3, 2),
    Line::Copy(Ckpt::Finished),
    Line::Begin(1),
    Line::Write(1, 5, 10),
    Line::Commit(1, 4),
    Line::Begin(1),
    Line::Write(1, 6, 11),
    Line::Commit(1, 5),
    Line::Logs(2, 6, true),
    Line::Read(4, 2, 7),
    Line::Read(4, 3, 8),
    Line::Read(4, 4, 9),
    Line::Read(4, 5, 0),
    Line::End(4, 3),
    Line::Begin(1),
    Line::Write(1, 7, 12),
    Line::Commit(1, 6),
    Line::Logs(1, 2, false),
    Line::Begin(2),
    Line::Read(2, 2, 7),
    Line::Read(2, 4, 9),
    Line::Read(2, 6, 11),
    Line::Read(2, 7, 12),
    Line::End(2, 6),
];

/// A page that was read and then written by another; who reads nothing is never refused; the least page and the first commit are told.
const CONFLICTS: &[Line] = &[
    Line::Begin(1),
    Line::Begin(2),
    Line::Read(1, 2, 0),
    Line::Write(2, 2, 7),
    Line::Commit(2, 1),
    Line::Write(1, 3, 9),
    Line::Read(1, 2, 0),
    Line::Busy(1, 2, 1),
    Line::Rollback(1, true),
    Line::Begin(1),
    Line::Read(1, 2, 7),
    Line::Read(1, 3, 0),
    Line::End(1, 1),
    Line::Begin(1),
    Line::Begin(2),
    Line::Write(1, 2, 5),
    Line::Write(2, 2, 6),
    Line::Commit(1, 2),
    Line::Commit(2, 3),
    Line::Begin(1),
    Line::Read(1, 9, 0),
    Line::Read(1, 4, 0),
    Line::Write(1, 2, 1),
    Line::Begin(2),
    Line::Write(2, 9, 1),
    Line::Commit(2, 4),
    Line::Begin(2),
    Line::Write(2, 4, 2),
    Line::Write(2, 9, 2),
    Line::Commit(2, 5),
    Line::Begin(2),
    Line::Write(2, 4, 3),
    Line::Commit(2, 6),
    Line::Busy(1, 4, 5),
];

/// The sync of the header of log 2: the second of that log, since the opening takes one.
pub const HEADER_SYNC: Option<Fail> = Some(Fail {
    file: File::Log2,
    call: Call::Sync,
    nth: 2,
});

/// The sync of the second commit: the fifth of log 1, since the opening takes three.
pub const SECOND_SYNC: Option<Fail> = Some(Fail {
    file: File::Log1,
    call: Call::Sync,
    nth: 5,
});

/// The header of the other log isn't on the medium: nothing is committed any more, and pages are read.
pub const TORN_HEADER: &[Line] = &[
    Line::Begin(1),
    Line::Write(1, 2, 7),
    Line::Commit(1, 1),
    Line::Begin(1),
    Line::Write(1, 3, 8),
    Line::Commit(1, 2),
    Line::Begin(1),
    Line::Write(1, 4, 9),
    Line::Disk(1),
    Line::Stopped(1, 2, 0),
    Line::Rollback(1, true),
    Line::Begin(2),
    Line::Read(2, 3, 8),
    Line::Read(2, 4, 0),
    Line::Write(2, 5, 1),
    Line::Stopped(2, 2, 0),
    Line::Rollback(2, true),
    Line::Logs(1, 4, true),
    Line::Step(Ckpt::Idle),
];

/// The frames of the second commit aren't on the medium.
pub const TORN_FRAME: &[Line] = &[
    Line::Begin(1),
    Line::Write(1, 2, 7),
    Line::Commit(1, 1),
    Line::Begin(1),
    Line::Write(1, 3, 8),
    Line::Disk(1),
    Line::Stopped(1, 1, 8272),
    Line::Logs(1, 2, true),
];

/// Whether all lines are answered as they say by a store on three empty files, where the call that is named fails.
#[tactic(auto, unfolding(page_spec::specs::Header::is_page_size))]
fn is_answered(alloc: Global, limit: u32, failing: Option<Fail>, lines: &[Line]) -> bool {
    1 <= limit
        && match starts(alloc, failing, PAGE, limit, lines) {
            Ok(run) => run.first_wrong(lines).is_none(),
            Err(_) => false,
        }
}

/// A commit for which a page can't be read is refused, and goes well when it is asked for again.
const READ_IN_VAIN: &[Line] = &[
    Line::Begin(1),
    Line::Write(1, 2, 7),
    Line::Disk(1),
    Line::Read(1, 2, 7),
    Line::Commit(1, 1),
    Line::Begin(2),
    Line::Read(2, 2, 7),
    Line::Read(2, 3, 0),
];

/// Whether there is a read of Main for which that holds. How many reads there are before it isn't said.
fn commits_again(alloc: Global) -> bool {
    for nth in 1..100 {
        let fail = Fail {
            file: File::Main,
            call: Call::Read,
            nth,
        };
        if is_answered(alloc, 4, Some(fail), READ_IN_VAIN) {
            return true;
        }
    }
    false
}

#[test]
fn a_commit_that_is_handed_back_goes_well_later(rt: HostRuntime) {
    assert!(rt; commits_again(rt.alloc()));
}

/// The limit of a run, which call of it fails, and its lines.
const RUNS: &[(u32, Option<Fail>, &[Line])] = &[
    (4, None, SWITCH),
    (4, None, OLD_READER),
    (4, None, FULL_READER),
    (1000, None, CONFLICTS),
    (4, HEADER_SYNC, TORN_HEADER),
    (4, SECOND_SYNC, TORN_FRAME),
];

/// The place of the first run that is answered otherwise than it says.
fn first_wrong_run(alloc: Global) -> Option<usize> {
    for at in 0..RUNS.len() {
        let (limit, failing, lines) = RUNS[at];
        if !is_answered(alloc, limit, failing, lines) {
            return Some(at);
        }
    }
    None
}

#[test]
fn runs_that_are_worked_by_hand(rt: HostRuntime) {
    assert_eq!(rt; first_wrong_run(rt.alloc()), None);
}
