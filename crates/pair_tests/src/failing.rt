// Calls that fail, one at a time.
use crate::logs::{FIRST_HEADER, LITTLE_HEADER};
use crate::trial::Trial;
use disk_face::File;
use disk_mem::{Call, Fail};
use std::alloc::Global;

/// Whether two frames, their seal, a switch, and a page that is read go well.
fn runs(trial: &mut Trial) -> bool {
    trial.append(1, &[7; 512], 0).is_ok()
        && trial.append(2, &[8; 512], 2).is_ok()
        && trial.seal().is_ok()
        && trial.switch(9).is_ok()
        && trial.read(1, 2, &mut [0; 512]).is_ok()
}

/// A call that fails, and how many calls the disk was asked for then, attaching included; 0 where the run goes well. A frame takes one write, a seal one sync,
/// a switch one of each of the other log, and a page one read.
type Row = (File, Call, u64, u64);

const ROWS: &[Row] = &[
    (File::Log1, Call::Write, 1, 2),
    (File::Log1, Call::Write, 2, 3),
    (File::Log1, Call::Sync, 1, 4),
    (File::Log2, Call::Write, 1, 5),
    (File::Log2, Call::Sync, 1, 6),
    (File::Log1, Call::Read, 1, 7),
    (File::Log1, Call::Write, 3, 0),
    (File::Log1, Call::Sync, 2, 0),
    (File::Log2, Call::Write, 2, 0),
    (File::Log2, Call::Sync, 2, 0),
];

fn fails_after(trial: &mut Trial, calls: u64) -> bool {
    if runs(trial) {
        calls == 0
    } else {
        trial.disk.calls() == calls
    }
}

fn is_right(alloc: Global, row: Row) -> bool {
    let (file, call, nth, calls) = row;
    let fail = Fail { file, call, nth };
    match Trial::new(alloc, 1, &FIRST_HEADER, &LITTLE_HEADER, Some(fail)) {
        Ok(mut trial) => fails_after(&mut trial, calls),
        Err(_) => false,
    }
}

/// The place of the first row that isn't right.
fn first_wrong(alloc: Global) -> Option<usize> {
    for at in 0..ROWS.len() {
        if !is_right(alloc, ROWS[at]) {
            return Some(at);
        }
    }
    None
}

#[test]
fn each_call_that_fails_is_told(rt: HostRuntime) {
    assert_eq!(rt; first_wrong(rt.alloc()), None);
}
