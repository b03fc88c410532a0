// Programs that were started with standard streams closed: no database has a descriptor of theirs.
use crate::notes::{Fault, NO_FAULT, Notes};
use crate::room::remove_folder;
use crate::run::{attach, run, start};
use crate::watched::Watched;
use disk_face::{Disk, File};
use disk_real::FileDisk;
use std::io;
use std::io::ErrorKind;
use std::test::Fail;

// What is opened first takes the descriptors of three closed streams.
const ALL_CLOSED: &str = "(open /)(open /)(open /)(update db)(lock db)(update db-wal)a\
(open db-journal)jsrw(sync db-wal)(open t_closed)(sync t_closed)y(sync db-wal)z\
(sync db)(open t_closed)(sync t_closed)m\
(open /)(make db-wal2)n(sync db-wal2)(open t_closed)(sync t_closed)k";

#[test]
fn closed_streams_are_filled(rt: HostRuntime) -> Result<(), Fail> {
    let notes = Notes::of_calls(rt.alloc(), 3, NO_FAULT);
    run(&rt, "t_closed", &notes)?;
    assert!(rt; notes.are(ALL_CLOSED));
    remove_folder(&rt, "t_closed")?;
    Ok(())
}

const ONE_CLOSED: &str = "(open /)(open /)(update db)(lock db)(update db-wal)a\
(open db-journal)jsrw(sync db-wal)(open t_one)(sync t_one)y(sync db-wal)z\
(sync db)(open t_one)(sync t_one)m\
(open /)(make db-wal2)n(sync db-wal2)(open t_one)(sync t_one)k";

#[test]
fn one_closed_stream_is_filled(rt: HostRuntime) -> Result<(), Fail> {
    let notes = Notes::of_calls(rt.alloc(), 1, NO_FAULT);
    run(&rt, "t_one", &notes)?;
    assert!(rt; notes.are(ONE_CLOSED));
    remove_folder(&rt, "t_one")?;
    Ok(())
}

// Whatever fails, and whoever else goes: a disk that couldn't open its file is attached again, then another one, and the first
// one goes.
const STAYS: &str = "(open /)(open /)(open /)(update db)(open /)(update db)(lock db)(update db-wal)\
(open /)(open /)(open /)(open /)(make new)(lock new)(make new-wal)";

const REFUSED: Fault = Fault {
    call: "update",
    name: "db",
    after: 0,
    times: 1,
    kind: ErrorKind::PermissionDenied,
};

#[test]
fn a_stream_that_was_filled_stays_so(rt: HostRuntime) -> Result<(), Fail> {
    start(&rt, "t_filled")?;
    let notes = Notes::of_calls(rt.alloc(), 2, REFUSED);
    two_disks(&rt, &notes)?;
    assert!(rt; notes.are(STAYS));
    remove_folder(&rt, "t_filled")?;
    Ok(())
}

fn two_disks(rt: &HostRuntime, notes: &Notes) -> io::Result<()> {
    let files = Watched::new(rt, notes);
    let mut first = FileDisk::new(&files, rt.alloc());
    let mut second = FileDisk::new(&files, rt.alloc());
    if !attach(&mut first, "t_filled/db") {
        attach(&mut first, "t_filled/db");
    }
    attach(&mut second, "t_filled/new");
    drop(first);
    wrote(&mut second);
    Ok(())
}

fn wrote(disk: &mut FileDisk<'_, Watched<'_>>) -> bool {
    disk.write_at(File::Log1, 0, b"abc").is_ok()
}
