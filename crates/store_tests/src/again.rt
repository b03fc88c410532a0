// Files that are opened again, as they were left or after a crash, and calls that touch nothing. All is worked by hand.
use crate::lines::Line;
use crate::quiet::filled;
use crate::rows::{HEADER_SYNC, PAGE, SECOND_SYNC, SWITCH, TORN_FRAME, TORN_HEADER};
use crate::trial::{Run, opens, starts, starts_again};
use disk_face::{Failed, File};
use disk_mem::{Fail, MemDisk};
use page_face::Ckpt;
use std::alloc::{AllocError, Global};

/// The frames that a log takes before the next commit may go over.
const LIMIT: u32 = 4;

/// Three pages are copied into Main, which isn't synced.
const COPYING: &[Line] = &[
    Line::Begin(1),
    Line::Write(1, 2, 7),
    Line::Commit(1, 1),
    Line::Begin(1),
    Line::Write(1, 3, 8),
    Line::Commit(1, 2),
    Line::Begin(1),
    Line::Write(1, 4, 9),
    Line::Commit(1, 3),
    Line::Step(Ckpt::Copied(1)),
    Line::Step(Ckpt::Copied(2)),
    Line::Step(Ckpt::Copied(3)),
];

/// What a crash leaves where it may leave any bytes: first those of a file from a place on, as they were written, and then so many bytes of all ones.
/// The bytes behind them are as they were written.
type Pick = (File, usize, usize, usize);

/// Lines, which call of them fails, what a crash leaves then, and what the store that is opened again answers.
type Again = (&'static [Line], Option<Fail>, Pick, &'static [Line]);

const AGAIN: &[Again] = &[
    // Nothing is torn.
    (
        SWITCH,
        None,
        (File::Main, 0, 0, 0),
        &[
            Line::Logs(1, 0, true),
            Line::Begin(1),
            Line::Read(1, 2, 7),
            Line::Read(1, 3, 8),
            Line::Read(1, 4, 9),
            Line::Read(1, 5, 0),
            Line::End(1, 0),
            Line::Step(Ckpt::Idle),
        ],
    ),
    // A page of Main is torn: log 1 has it.
    (
        COPYING,
        None,
        (File::Main, 0, 8192, 4096),
        &[
            Line::Begin(1),
            Line::Read(1, 2, 7),
            Line::Read(1, 3, 8),
            Line::Read(1, 4, 9),
        ],
    ),
    // The header of log 2 is torn: log 1 has all that was committed.
    (
        TORN_HEADER,
        HEADER_SYNC,
        (File::Log2, 0, 0, 32),
        &[
            Line::Begin(1),
            Line::Read(1, 2, 7),
            Line::Read(1, 3, 8),
            Line::Read(1, 4, 0),
        ],
    ),
    // The last frame is torn: both of its commit are gone. They begin at 32 + 2 * 4120, and the page of the second is behind 4120 + 24 bytes more.
    (
        TORN_FRAME,
        SECOND_SYNC,
        (File::Log1, 8272, 4144, 4096),
        &[Line::Begin(1), Line::Read(1, 2, 7), Line::Read(1, 3, 0)],
    ),
    // It isn't torn: the commit that was refused stands.
    (
        TORN_FRAME,
        SECOND_SYNC,
        (File::Main, 0, 0, 0),
        &[Line::Begin(1), Line::Read(1, 2, 7), Line::Read(1, 3, 8)],
    ),
];

fn picked(alloc: Global, disk: &MemDisk, pick: Pick) -> Result<Vec<u8>, AllocError> {
    let (file, from, count, ones) = pick;
    let bytes = disk.file(file);
    let mut picked = Vec::new(alloc);
    if from <= bytes.len() && count <= bytes.len() - from {
        picked.extend_from_slice(&bytes[from..from + count])?;
    }
    picked.resize(count.saturating_add(ones), 255)?;
    Ok(picked)
}

/// Whether the lines of a row are answered as they say, before the crash and behind it.
#[tactic(auto, unfolding(page_spec::specs::Header::is_page_size))]
fn is_right(alloc: Global, row: &Again) -> bool {
    let (lines, failing, pick, after) = *row;
    match starts(alloc, failing, PAGE, LIMIT, lines) {
        Ok(run) => run.first_wrong(lines).is_none() && goes_on(alloc, &run, pick, after),
        Err(_) => false,
    }
}

fn goes_on(alloc: Global, run: &Run, pick: Pick, after: &[Line]) -> bool {
    match picked(alloc, &run.disk.disk, pick) {
        Ok(pick) => answers_after(alloc, run, &pick, after),
        Err(_) => false,
    }
}

#[tactic(auto, unfolding(page_spec::specs::Header::is_page_size))]
fn answers_after(alloc: Global, run: &Run, pick: &[u8], after: &[Line]) -> bool {
    match starts_again(alloc, run, pick, PAGE, LIMIT, after) {
        Ok(again) => again.first_wrong(after).is_none(),
        Err(_) => false,
    }
}

/// The place of the first row that isn't right.
fn first_wrong_row(alloc: Global) -> Option<usize> {
    for at in 0..AGAIN.len() {
        if !is_right(alloc, &AGAIN[at]) {
            return Some(at);
        }
    }
    None
}

#[test]
fn what_a_crash_leaves_is_opened_again(rt: HostRuntime) {
    assert_eq!(rt; first_wrong_row(rt.alloc()), None);
}

/// Whether a page of Main has this byte alone.
fn is_filled(main: &[u8], page: usize, byte: u8) -> bool {
    for place in 0..main.len() {
        if place / 4096 + 1 == page && main[place] != byte {
            return false;
        }
    }
    true
}

/// The numbers on page 1 in these four bytes.
fn word_at(main: &[u8], at: usize) -> [u8; 4] {
    let mut word = [0; 4];
    for place in 0..4 {
        let from = at.saturating_add(place);
        if from < main.len() {
            word[place] = main[from];
        }
    }
    word
}

/// Main after a run and another opening.
#[tactic(auto, unfolding(page_spec::specs::Header::is_page_size))]
fn settled(alloc: Global) -> Result<Run, Failed> {
    let run = starts(alloc, None, PAGE, LIMIT, SWITCH)?;
    match opens(alloc, run.disk, PAGE, LIMIT, &[]) {
        Ok(again) => Ok(again),
        Err(_) => Err(Failed),
    }
}

/// A new store counts one change, and each commit one more.
fn has_counts(main: &[u8]) -> bool {
    main.len() == 65_536
        && word_at(main, 24) == [0, 0, 0, 4]
        && word_at(main, 28) == [0, 0, 0, 16]
        && word_at(main, 92) == [0, 0, 0, 4]
}

fn has_pages(main: &[u8]) -> bool {
    is_filled(main, 2, 7) && is_filled(main, 3, 8) && is_filled(main, 4, 9) && is_filled(main, 5, 0)
}

fn is_settled(run: &Run) -> bool {
    let main = run.disk.disk.file(File::Main);
    has_counts(main) && has_pages(main) && run.entries.len() == 0
}

fn settles(alloc: Global) -> bool {
    match settled(alloc) {
        Ok(run) => is_settled(&run),
        Err(_) => false,
    }
}

#[test]
fn main_alone_is_the_map_once_it_is_opened_again(rt: HostRuntime) {
    assert!(rt; settles(rt.alloc()));
}

/// How many calls of the disk lines take, with the opening of three empty files, where each is answered as it says.
#[tactic(auto, unfolding(page_spec::specs::Header::is_page_size))]
fn calls_of(alloc: Global, lines: &[Line]) -> Option<u64> {
    match starts(alloc, None, PAGE, LIMIT, lines) {
        Ok(run) => calls_in(&run, lines),
        Err(_) => None,
    }
}

fn calls_in(run: &Run, lines: &[Line]) -> Option<u64> {
    match run.first_wrong(lines) {
        None => Some(run.disk.disk.calls()),
        Some(_) => None,
    }
}

/// Whether both take as many.
fn take_as_many(alloc: Global, one: &[Line], two: &[Line]) -> bool {
    match calls_of(alloc, one) {
        Some(calls) => calls_of(alloc, two) == Some(calls),
        None => false,
    }
}

/// One commit writes what another transaction has read.
const READ_BEFORE: &[Line] = &[
    Line::Begin(1),
    Line::Read(1, 2, 0),
    Line::Write(1, 3, 9),
    Line::Begin(2),
    Line::Write(2, 2, 7),
    Line::Commit(2, 1),
];

/// And that one is refused.
const REFUSED: &[Line] = &[
    Line::Begin(1),
    Line::Read(1, 2, 0),
    Line::Write(1, 3, 9),
    Line::Begin(2),
    Line::Write(2, 2, 7),
    Line::Commit(2, 1),
    Line::Busy(1, 2, 1),
    Line::Rollback(1, true),
];

/// Nothing is read and nothing is written.
const IDLE: &[Line] = &[
    Line::Begin(1),
    Line::End(1, 0),
    Line::Begin(2),
    Line::Logs(1, 0, true),
    Line::Step(Ckpt::Idle),
    Line::Write(2, 2, 7),
    Line::Rollback(2, true),
];

#[test]
fn what_writes_nothing_makes_no_call(rt: HostRuntime) {
    assert!(rt; take_as_many(rt.alloc(), &[], IDLE));
    assert!(rt; take_as_many(rt.alloc(), READ_BEFORE, REFUSED));
}

/// How an opening that stops after some calls ends.
#[derive(Clone, Copy)]
enum Ends {
    /// All calls went well, and both commits stand.
    Well,
    /// It was stopped, and the first commit stands after a crash, the second perhaps.
    Stopped,
    Wrong,
}

const BOTH: &[Line] = &[Line::Begin(1), Line::Read(1, 2, 7), Line::Read(1, 3, 8)];

/// The disk on which the sync of the second commit failed is opened again without a crash, and so many calls go well.
#[tactic(auto, unfolding(page_spec::specs::Header::is_page_size))]
fn stopped(alloc: Global, calls: u64) -> Result<Run, Failed> {
    let run = starts(alloc, SECOND_SYNC, PAGE, LIMIT, TORN_FRAME)?;
    let mut disk = run.disk;
    disk.disk.stop_after(calls);
    match opens(alloc, disk, PAGE, LIMIT, &[]) {
        Ok(again) => Ok(again),
        Err(_) => Err(Failed),
    }
}

/// Then it crashes with bytes of all ones.
fn ended(alloc: Global, calls: u64) -> Ends {
    match stopped(alloc, calls) {
        Ok(again) => end_by_ones(alloc, &again),
        Err(_) => Ends::Wrong,
    }
}

fn end_by_ones(alloc: Global, again: &Run) -> Ends {
    match filled(alloc, 255) {
        Ok(ones) => end_by(alloc, again, &ones),
        Err(_) => Ends::Wrong,
    }
}

#[tactic(auto, unfolding(page_spec::specs::Header::is_page_size))]
fn end_by(alloc: Global, again: &Run, pick: &[u8]) -> Ends {
    match starts_again(alloc, again, pick, PAGE, LIMIT, BOTH) {
        Ok(last) => end_of(again, &last),
        Err(_) => Ends::Wrong,
    }
}

fn end_of(again: &Run, last: &Run) -> Ends {
    let both = last.first_wrong(BOTH).is_none();
    if again.told.is_ok() {
        return if both { Ends::Well } else { Ends::Wrong };
    }
    if both || last.first_wrong(BOTH) == Some(2) && last.tells_zero(2) {
        Ends::Stopped
    } else {
        Ends::Wrong
    }
}

/// Whether each opening that stops ends well, up to the first that isn't stopped.
fn end_well(alloc: Global) -> bool {
    for calls in 0..10_000 {
        match ended(alloc, calls) {
            Ends::Well => return true,
            Ends::Stopped => {}
            Ends::Wrong => return false,
        }
    }
    false
}

#[test]
fn a_commit_that_was_refused_stands_or_not_once_it_is_opened_again(rt: HostRuntime) {
    assert!(rt; end_well(rt.alloc()));
}
