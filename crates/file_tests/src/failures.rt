// A call of the files fails, and the disk tells it.
use crate::notes::{Fault, Notes};
use crate::room::remove_folder;
use crate::run::run;
use std::io;
use std::io::ErrorKind;
use std::test::Fail;

/// A call that fails and the file that it is made of, how many like it are let through before, how it fails, and the letters of
/// the run.
type Case = (&'static str, &'static str, u32, ErrorKind, &'static str);

const CASES: [Case; 30] = [
    ("none", "", 0, ErrorKind::Other, "ajsrwyzmnk"),
    // A file that can't be opened or looked at isn't missing.
    ("open", "/", 0, ErrorKind::PermissionDenied, "a!"),
    ("look", "db", 0, ErrorKind::PermissionDenied, "a!"),
    ("look", "db", 1, ErrorKind::PermissionDenied, "a!"),
    ("look", "db", 2, ErrorKind::PermissionDenied, "a!"),
    ("update", "db", 0, ErrorKind::PermissionDenied, "a!"),
    ("size", "db", 0, ErrorKind::Other, "a!"),
    ("look", "db-wal", 0, ErrorKind::PermissionDenied, "a!"),
    ("update", "db-wal", 0, ErrorKind::PermissionDenied, "a!"),
    ("look", "db-wal2", 0, ErrorKind::PermissionDenied, "a!"),
    // What can't be held alone isn't taken.
    ("lock", "db", 0, ErrorKind::WouldBlock, "a!"),
    ("lock", "db", 0, ErrorKind::Unsupported, "a!"),
    (
        "look",
        "db-journal",
        0,
        ErrorKind::PermissionDenied,
        "aj!srwyzmnk",
    ),
    (
        "open",
        "db-journal",
        0,
        ErrorKind::PermissionDenied,
        "aj!srwyzmnk",
    ),
    ("read", "db-journal", 0, ErrorKind::Other, "aj!srwyzmnk"),
    ("size", "db-wal", 1, ErrorKind::Other, "ajs!rwyzmnk"),
    ("seek", "db-wal", 0, ErrorKind::Other, "ajsr!wyzmnk"),
    // In the middle of a read and of a write.
    ("read", "db-wal", 2, ErrorKind::Other, "ajsr!wyzmnk"),
    ("seek", "db-wal", 1, ErrorKind::Other, "ajsrw!yzmnk"),
    ("write", "db-wal", 2, ErrorKind::StorageFull, "ajsrw!yzmnk"),
    // The second sync would go well.
    ("sync", "db-wal", 0, ErrorKind::Other, "ajsrwy!z!mnk"),
    ("sync", "db-wal", 1, ErrorKind::Other, "ajsrwyz!mnk"),
    ("sync", "db", 0, ErrorKind::Other, "ajsrwyzm!nk"),
    ("sync", "db-wal2", 0, ErrorKind::Other, "ajsrwyzmnk!"),
    // A folder's sync isn't made again either, for another file.
    ("sync", "t_faults", 0, ErrorKind::Other, "ajsrwy!z!m!nk!"),
    // A folder that can't be opened, or of which the system knows no sync.
    (
        "open",
        "t_faults",
        0,
        ErrorKind::PermissionDenied,
        "ajsrwyzmnk",
    ),
    ("sync", "t_faults", 0, ErrorKind::InvalidInput, "ajsrwyzmnk"),
    ("sync", "t_faults", 0, ErrorKind::Unsupported, "ajsrwyzmnk"),
    // A log that isn't made is missing, and has nothing to sync.
    ("size", "db", 1, ErrorKind::Other, "ajsrwyzmn!k"),
    ("make", "db-wal2", 0, ErrorKind::StorageFull, "ajsrwyzmn!k"),
];

#[test]
fn a_failure_is_told(rt: HostRuntime) -> Result<(), Fail> {
    for case in &CASES {
        assert!(rt; is_told(&rt, case)?, "{} {}", case.0, case.1);
    }
    remove_folder(&rt, "t_faults")?;
    Ok(())
}

fn is_told(rt: &HostRuntime, case: &Case) -> io::Result<bool> {
    let (call, name, after, kind, letters) = *case;
    let fault = Fault {
        call,
        name,
        after,
        times: 1,
        kind,
    };
    let notes = Notes::new(rt.alloc(), fault);
    run(rt, "t_faults", &notes)?;
    Ok(notes.are(letters))
}

const INTERRUPTED: [(&str, &str); 19] = [
    ("open", "/"),
    ("look", "db"),
    ("update", "db"),
    ("size", "db"),
    ("lock", "db"),
    ("look", "db-wal"),
    ("update", "db-wal"),
    ("look", "db-journal"),
    ("open", "db-journal"),
    ("read", "db-journal"),
    ("size", "db-wal"),
    ("seek", "db-wal"),
    ("read", "db-wal"),
    ("write", "db-wal"),
    ("sync", "db-wal"),
    ("open", "t_again"),
    ("sync", "t_again"),
    ("make", "db-wal2"),
    ("size", "db-wal2"),
];

#[test]
fn an_interrupted_call_is_made_again(rt: HostRuntime) -> Result<(), Fail> {
    for (call, name) in INTERRUPTED {
        assert!(rt; is_made_again(&rt, call, name)?, "{call} {name}");
    }
    remove_folder(&rt, "t_again")?;
    Ok(())
}

fn is_made_again(rt: &HostRuntime, call: &'static str, name: &'static str) -> io::Result<bool> {
    let fault = Fault {
        call,
        name,
        after: 0,
        times: 2,
        kind: ErrorKind::Interrupted,
    };
    let notes = Notes::new(rt.alloc(), fault);
    run(rt, "t_again", &notes)?;
    Ok(notes.are("ajsrwyzmnk"))
}
