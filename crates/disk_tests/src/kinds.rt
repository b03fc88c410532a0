// What stands at a name and is no regular file, and regular files that have two names.
use crate::room::{attaches, empties, makes_file, makes_folder, removes};
use disk_face::Disk;
use disk_real::FileDisk;
use std::fs;

#[test]
fn a_device_is_no_database(rt: HostRuntime) {
    assert!(rt; !attaches(&rt, "/dev/null"));
    assert!(rt; !attaches(&rt, "/dev/full"));
    assert!(rt; !attaches(&rt, "/dev/zero"));
}

#[test]
fn a_folder_is_no_file(rt: HostRuntime) {
    assert!(rt; is_no_file(&rt));
}

// Neither a database nor a log of one.
fn is_no_file(rt: &HostRuntime) -> bool {
    empties(rt, "t_folders")
        && makes_folder(rt, "t_folders/one")
        && !attaches(rt, "t_folders/one")
        && makes_file(rt, "t_folders/db", b"main")
        && attaches(rt, "t_folders/db")
        && makes_folder(rt, "t_folders/db-wal2")
        && !attaches(rt, "t_folders/db")
        && removes(rt, "t_folders")
}

#[test]
fn a_folder_is_no_journal(rt: HostRuntime) {
    assert!(rt; is_no_journal(&rt));
}

fn is_no_journal(rt: &HostRuntime) -> bool {
    empties(rt, "t_no_journal")
        && makes_folder(rt, "t_no_journal/db-journal")
        && !tells_journal(rt, b"t_no_journal/db")
        && removes(rt, "t_no_journal")
}

// Whether a database can be attached and asked for its journal.
fn tells_journal(rt: &HostRuntime, path: &[u8]) -> bool {
    let mut disk = FileDisk::new(rt, rt.alloc());
    disk.attach(path).is_ok() && disk.journal().is_ok()
}

fn names_again(rt: &HostRuntime, path: &str, name: &str) -> bool {
    fs::hard_link(rt, path, name).is_ok()
}

// By either name it would have logs of its own.
#[test]
fn a_database_with_two_names_is_refused(rt: HostRuntime) {
    assert!(rt; is_refused_by_both(&rt));
}

// It is taken once the other name is gone.
fn is_refused_by_both(rt: &HostRuntime) -> bool {
    empties(rt, "t_names")
        && makes_file(rt, "t_names/db", b"main")
        && names_again(rt, "t_names/db", "t_names/other")
        && !attaches(rt, "t_names/db")
        && !attaches(rt, "t_names/other")
        && fs::remove_file(rt, "t_names/other").is_ok()
        && attaches(rt, "t_names/db")
        && removes(rt, "t_names")
}

#[test]
fn one_file_is_not_both_logs(rt: HostRuntime) {
    assert!(rt; is_not_both(&rt));
}

fn is_not_both(rt: &HostRuntime) -> bool {
    empties(rt, "t_both")
        && makes_file(rt, "t_both/db", b"main")
        && makes_file(rt, "t_both/db-wal", b"log")
        && names_again(rt, "t_both/db-wal", "t_both/db-wal2")
        && !attaches(rt, "t_both/db")
        && removes(rt, "t_both")
}
