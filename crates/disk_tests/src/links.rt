// Databases and logs whose names are symbolic links.
use crate::room::{
    attaches, empties, holds, is_missing, links, makes_file, makes_folder, removes, writes,
};
use disk_face::{Disk, File};
use disk_real::FileDisk;

#[test]
fn a_linked_database_has_its_logs_where_it_lies(rt: HostRuntime) {
    assert!(rt; has_logs_where_it_lies(&rt));
}

fn has_logs_where_it_lies(rt: &HostRuntime) -> bool {
    empties(rt, "t_links")
        && links_twice(rt)
        && is_followed(rt)
        && holds(rt, "t_links/far/db", b"Main")
        && holds(rt, "t_links/far/db-wal2", b"log")
        && is_missing(rt, "t_links/link-wal2")
        && removes(rt, "t_links")
}

// A link leads to another one, and that to a database. A journal stands beside the first link.
fn links_twice(rt: &HostRuntime) -> bool {
    makes_folder(rt, "t_links/far")
        && makes_folder(rt, "t_links/near")
        && makes_file(rt, "t_links/far/db", b"main")
        && makes_file(rt, "t_links/link-journal", b"hot")
        && links(rt, "../far/db", "t_links/near/middle")
        && links(rt, "near/middle", "t_links/link")
}

fn is_followed(rt: &HostRuntime) -> bool {
    let mut disk = FileDisk::new(rt, rt.alloc());
    disk.attach(b"t_links/link").is_ok()
        && disk.size(File::Main) == Ok(4)
        && disk.journal() == Ok(false)
        && writes(&mut disk, File::Main, b"M")
        && writes(&mut disk, File::Log2, b"log")
        && disk.sync(File::Log2).is_ok()
}

#[test]
fn a_journal_stands_where_a_linked_database_lies(rt: HostRuntime) {
    assert!(rt; has_its_journal(&rt));
}

fn has_its_journal(rt: &HostRuntime) -> bool {
    empties(rt, "t_hot")
        && makes_folder(rt, "t_hot/far")
        && makes_file(rt, "t_hot/far/db-journal", b"hot")
        && links(rt, "far/db", "t_hot/link")
        && is_hot(rt)
        && removes(rt, "t_hot")
}

fn is_hot(rt: &HostRuntime) -> bool {
    let mut disk = FileDisk::new(rt, rt.alloc());
    disk.attach(b"t_hot/link").is_ok() && disk.journal() == Ok(true)
}

#[test]
fn a_link_to_a_missing_database_is_followed(rt: HostRuntime) {
    assert!(rt; is_made_where_it_leads(&rt));
}

fn is_made_where_it_leads(rt: &HostRuntime) -> bool {
    empties(rt, "t_dangling")
        && makes_folder(rt, "t_dangling/far")
        && links(rt, "far/db", "t_dangling/link")
        && is_made(rt)
        && holds(rt, "t_dangling/far/db", b"main")
        && holds(rt, "t_dangling/far/db-wal", b"log")
        && removes(rt, "t_dangling")
}

fn is_made(rt: &HostRuntime) -> bool {
    let mut disk = FileDisk::new(rt, rt.alloc());
    disk.attach(b"t_dangling/link").is_ok()
        && disk.size(File::Main) == Ok(0)
        && writes(&mut disk, File::Main, b"main")
        && writes(&mut disk, File::Log1, b"log")
}

#[test]
fn links_that_lead_round_are_refused(rt: HostRuntime) {
    assert!(rt; is_refused_round(&rt));
}

fn is_refused_round(rt: &HostRuntime) -> bool {
    empties(rt, "t_round")
        && links(rt, "two", "t_round/one")
        && links(rt, "one", "t_round/two")
        && !attaches(rt, "t_round/one")
        && removes(rt, "t_round")
}

#[test]
fn a_linked_log_is_refused(rt: HostRuntime) {
    assert!(rt; is_refused(&rt, "t_log_link/db-wal", "other"));
    assert!(rt; is_refused(&rt, "t_log_link/db-wal2", "other"));
    assert!(rt; is_refused(&rt, "t_log_link/db-wal", "missing"));
}

// Whether a database whose log of this name is a link is refused.
fn is_refused(rt: &HostRuntime, log: &str, target: &str) -> bool {
    empties(rt, "t_log_link")
        && makes_file(rt, "t_log_link/db", b"main")
        && makes_file(rt, "t_log_link/other", b"kept")
        && links(rt, target, log)
        && !attaches(rt, "t_log_link/db")
}

#[test]
fn a_link_that_is_put_there_later_is_not_followed(rt: HostRuntime) {
    assert!(rt; keeps_the_other(&rt));
}

fn keeps_the_other(rt: &HostRuntime) -> bool {
    empties(rt, "t_later")
        && makes_file(rt, "t_later/db", b"main")
        && makes_file(rt, "t_later/other", b"kept")
        && is_not_followed(rt)
        && holds(rt, "t_later/other", b"kept")
        && is_missing(rt, "t_later/missing")
        && removes(rt, "t_later")
}

fn is_not_followed(rt: &HostRuntime) -> bool {
    let mut disk = FileDisk::new(rt, rt.alloc());
    disk.attach(b"t_later/db").is_ok()
        && links(rt, "other", "t_later/db-wal")
        && links(rt, "missing", "t_later/db-wal2")
        && !writes(&mut disk, File::Log1, b"lost")
        && !writes(&mut disk, File::Log2, b"lost")
}
