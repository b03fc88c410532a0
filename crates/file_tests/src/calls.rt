// What a disk of real files asks of its files, call by call.
use crate::notes::{NO_FAULT, Notes};
use crate::room::{holds, remove_folder};
use crate::run::{calls, put, run, start};
use std::io;
use std::test::Fail;

// Each sync is made of the file that is named, and the first one of the folder too. Descriptors of standard streams are looked
// after before a file is opened or made. The second log has a name of its own.
const CALLS: &str = "(open /)(update db)(lock db)(update db-wal)a\
(open db-journal)jsrw(sync db-wal)(open t_calls)(sync t_calls)y(sync db-wal)z\
(sync db)(open t_calls)(sync t_calls)m\
(open /)(make db-wal2)n(sync db-wal2)(open t_calls)(sync t_calls)k";

#[test]
fn each_call_is_made_of_the_file_that_is_named(rt: HostRuntime) -> Result<(), Fail> {
    let notes = Notes::of_calls(rt.alloc(), 0, NO_FAULT);
    run(&rt, "t_calls", &notes)?;
    assert!(rt; notes.are(CALLS));
    assert!(rt; holds(&rt, "t_calls/db-wal", b"xyz")?);
    assert!(rt; holds(&rt, "t_calls/db-wal2", b"q")?);
    remove_folder(&rt, "t_calls")?;
    Ok(())
}

#[test]
fn a_database_in_whose_place_a_link_is_put_is_refused(rt: HostRuntime) -> Result<(), Fail> {
    assert!(rt; is_refused(&rt, "t_swapped", "db")?);
    Ok(())
}

#[test]
fn a_log_in_whose_place_a_link_is_put_is_refused(rt: HostRuntime) -> Result<(), Fail> {
    assert!(rt; is_refused(&rt, "t_swap", "db-wal")?);
    Ok(())
}

// Whether `attach` fails where a link to another file takes the place of this one while it is opened.
fn is_refused(rt: &HostRuntime, folder: &str, name: &'static str) -> io::Result<bool> {
    start(rt, folder)?;
    put(rt, folder, "other", b"kept")?;
    let notes = Notes::of_swap(rt.alloc(), name);
    calls(rt, folder, &notes)?;
    remove_folder(rt, folder)?;
    Ok(notes.are("a!"))
}
