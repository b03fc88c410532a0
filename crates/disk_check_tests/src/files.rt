// How checks of files in memory end, what they write, and what a check of the files says that a crash leaves then.
ghost use Rattle.std.specs.Prelude.{◌≡◌, false, IfOk};

use disk_checks::check_on_disk;
use disk_face::File;
use disk_mem::{Call, Fail, FixedSalts, MemDisk, MemSink};
use page_runs::Status;
use std::alloc::{AllocError, Global};
use std::test;

/// How a check ends, and what it writes.
#[derive(Clone, Copy)]
struct End {
    status: Status,
    written: &'static [u8],
}

/// A check of files of which the database's alone has bytes.
#[derive(Clone, Copy)]
struct Row {
    main: &'static [u8],
    /// Which call on the database's file fails at its first time.
    fails: Option<Call>,
    /// Which call of the sink fails, from 1.
    sink_fails: Option<u64>,
    end: End,
    /// How it ends over what a crash leaves then, where nothing fails any more.
    again: End,
}

/// What is told of a new database.
const NEW: End = End {
    status: Status::Done,
    written: b"pages 1 trees 1 free 0\n",
};

const FAILED: End = End {
    status: Status::DiskFailed,
    written: b"disk failed\n",
};

const REFUSED: End = End {
    status: Status::DatabaseRefused,
    written: b"database refused: not a database\n",
};

const ROWS: &[Row] = &[
    // Three empty files, none of whose calls fails.
    Row {
        main: b"",
        fails: None,
        sink_fails: None,
        end: NEW,
        again: NEW,
    },
    Row {
        main: &[0; 100],
        fails: None,
        sink_fails: None,
        end: REFUSED,
        again: REFUSED,
    },
    // The files can't be named, and the first write to the database's file fails.
    Row {
        main: b"",
        fails: Some(Call::Attach),
        sink_fails: None,
        end: FAILED,
        again: NEW,
    },
    Row {
        main: b"",
        fails: Some(Call::Write),
        sink_fails: None,
        end: FAILED,
        again: NEW,
    },
    Row {
        main: b"",
        fails: None,
        sink_fails: Some(1),
        end: End {
            status: Status::SinkFailed,
            written: b"",
        },
        again: NEW,
    },
];

/// Whether a check of the files of this disk ends so.
fn ends(alloc: Global, disk: &mut MemDisk, sink_fails: Option<u64>, end: End) -> bool
    requires { disk.old.attached ≡ false }
{
    let mut sink = MemSink::new(alloc, 4096, sink_fails);
    let mut salts = FixedSalts::new(Vec::new(alloc));
    let status = check_on_disk(alloc, b"db", disk, &mut sink, &mut salts);
    status == end.status && sink.written() == end.written
}

/// The same of the files that a crash leaves.
fn ends_again(alloc: Global, disk: &MemDisk, end: End) -> bool {
    match disk.crash(&[]) {
        Ok(mut left) => ends(alloc, &mut left, None, end),
        Err(_) => false,
    }
}

/// The calls of a row's disk that fail.
fn failing(alloc: Global, call: Option<Call>) -> Result<Vec<Fail>, AllocError> {
    let mut failing = Vec::new(alloc);
    if let Some(call) = call {
        failing.push(Fail {
            file: File::Main,
            call,
            nth: 1,
        })?;
    }
    Ok(failing)
}

/// The disk of a row.
fn disk_of(alloc: Global, row: Row) -> Result<MemDisk, AllocError>
    ensures { IfOk result (λ disk. disk.attached ≡ false) }
{
    let failing = failing(alloc, row.fails)?;
    let main = row.main.to_vec(alloc)?;
    Ok(MemDisk::new(alloc, main, Vec::new(alloc), Vec::new(alloc), failing))
}

/// Whether the checks of a row's files, and of what a crash leaves of them, end as it says.
fn ends_as_told(alloc: Global, row: Row) -> bool {
    match disk_of(alloc, row) {
        Ok(mut disk) => ends(alloc, &mut disk, row.sink_fails, row.end)
            && ends_again(alloc, &disk, row.again),
        Err(_) => false,
    }
}

/// The same of all rows.
fn all_end_as_told(alloc: Global) -> bool {
    for row in ROWS {
        if !ends_as_told(alloc, *row) {
            return false;
        }
    }
    true
}

#[test]
fn checks_of_files(rt: HostRuntime) -> Result<(), test::Fail> {
    assert!(rt; all_end_as_told(rt.alloc()));
    Ok(())
}
