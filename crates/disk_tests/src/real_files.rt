// Real files, as this system has them.
use crate::room::{attaches, empties, holds, is_missing, makes_file, removes, writes};
use disk_face::{Disk, Failed, File, Salts};
use disk_real::{FileDisk, NumberSalts};
use std::fs;
use std::fs::{OpenOptions, Permissions};
use std::os::unix::fs::PermissionsExt;

#[test]
fn real_files_keep_what_is_written(rt: HostRuntime) {
    assert!(rt; keeps_all(&rt));
}

fn keeps_all(rt: &HostRuntime) -> bool {
    empties(rt, "t_keep")
        && keeps(rt)
        && holds(rt, "t_keep/db-wal", b"abdefg")
        && has_kept(rt)
        && removes(rt, "t_keep")
}

// A log is written, read and synced, and nothing is read that isn't there.
fn keeps(rt: &HostRuntime) -> bool {
    let mut disk = FileDisk::new(rt, rt.alloc());
    let mut buf = [0; 4];
    disk.attach(b"t_keep/db").is_ok()
        && disk.size(File::Log1) == Ok(0)
        && writes(&mut disk, File::Log1, b"abc")
        && disk.write_at(File::Log1, 2, b"defg").is_ok()
        && reads(&mut disk, File::Log1, 1, b"bdef")
        && syncs_twice(&mut disk)
        && disk.read_at(File::Log1, 3, &mut buf).is_err()
        && disk.read_at(File::Main, 0, &mut buf).is_err()
}

fn reads(disk: &mut FileDisk<'_, HostRuntime>, file: File, at: u64, bytes: &[u8; 4]) -> bool {
    let mut buf = [0; 4];
    disk.read_at(file, at, &mut buf).is_ok() && buf == *bytes
}

// A file that isn't there has nothing to sync.
fn syncs_twice(disk: &mut FileDisk<'_, HostRuntime>) -> bool {
    disk.sync(File::Log1).is_ok() && disk.sync(File::Log1).is_ok() && disk.sync(File::Log2).is_ok()
}

// A later disk finds what was written.
fn has_kept(rt: &HostRuntime) -> bool {
    let mut disk = FileDisk::new(rt, rt.alloc());
    disk.attach(b"t_keep/db").is_ok()
        && disk.size(File::Log1) == Ok(6)
        && disk.size(File::Main) == Ok(0)
        && reads(&mut disk, File::Log1, 2, b"defg")
}

#[test]
fn a_journal_is_hot_where_its_first_byte_is_not_0(rt: HostRuntime) {
    assert!(rt; is_hot_by_its_first_byte(&rt));
}

// A journal that is missing isn't hot.
fn is_hot_by_its_first_byte(rt: &HostRuntime) -> bool {
    empties(rt, "t_journal")
        && tells(rt, false)
        && tells_of(rt, b"", false)
        && tells_of(rt, b"\0hot", false)
        && tells_of(rt, b"hot", true)
        && removes(rt, "t_journal")
}

fn tells_of(rt: &HostRuntime, journal: &[u8], is_hot: bool) -> bool {
    makes_file(rt, "t_journal/db-journal", journal) && tells(rt, is_hot)
}

// Whether the disk tells so of the journal.
fn tells(rt: &HostRuntime, is_hot: bool) -> bool {
    let mut disk = FileDisk::new(rt, rt.alloc());
    disk.attach(b"t_journal/db").is_ok() && disk.journal() == Ok(is_hot)
}

#[test]
fn a_name_that_is_no_text_is_refused(rt: HostRuntime) {
    let mut disk = FileDisk::new(&rt, rt.alloc());
    assert_eq!(rt; disk.attach(b"\xff.db"), Err(Failed));
}

#[test]
fn a_file_that_cannot_be_written_is_refused(rt: HostRuntime) {
    // A program that runs can be read and not written, also by root.
    assert!(rt; !attaches(&rt, "/proc/self/exe"));
    assert!(rt; is_refused_read_only(&rt));
}

// It is taken once its files can be written.
fn is_refused_read_only(rt: &HostRuntime) -> bool {
    empties(rt, "t_read_only")
        && makes_file(rt, "t_read_only/db", b"")
        && makes_file(rt, "t_read_only/db-wal", b"")
        && is_as_allowed(rt, "t_read_only/db")
        && is_as_allowed(rt, "t_read_only/db-wal")
        && attaches(rt, "t_read_only/db")
        && removes(rt, "t_read_only")
}

// Whether the database can be attached exactly where this file of it, made read only, can be written. Root may write it all the
// same.
fn is_as_allowed(rt: &HostRuntime, name: &str) -> bool {
    permits(rt, name, 0o444)
        && attaches(rt, "t_read_only/db") == opens(rt, name)
        && permits(rt, name, 0o644)
}

fn permits(rt: &HostRuntime, name: &str, mode: u32) -> bool {
    fs::set_permissions(rt, name, Permissions::from_mode(mode)).is_ok()
}

fn opens(rt: &HostRuntime, name: &str) -> bool {
    let mut how = OpenOptions::new();
    how.read(true).write(true);
    how.open(rt, name).is_ok()
}

#[test]
fn a_database_has_one_holder(rt: HostRuntime) {
    assert!(rt; is_held_once(&rt));
}

fn is_held_once(rt: &HostRuntime) -> bool {
    empties(rt, "t_lock")
        && makes_file(rt, "t_lock/db", b"main")
        && has_one_holder(rt)
        && removes(rt, "t_lock")
}

// The second one can attach it once the first one is gone.
fn has_one_holder(rt: &HostRuntime) -> bool {
    let mut first = FileDisk::new(rt, rt.alloc());
    let is_attached = first.attach(b"t_lock/db").is_ok();
    let is_kept_out = !attaches(rt, "t_lock/db");
    let is_written = writes(&mut first, File::Log1, b"mine");
    drop(first);
    is_attached && is_kept_out && is_written && attaches(rt, "t_lock/db")
}

#[test]
fn a_new_database_is_held_by_who_writes_first(rt: HostRuntime) {
    assert!(rt; is_held_by_the_first(&rt));
}

fn is_held_by_the_first(rt: &HostRuntime) -> bool {
    empties(rt, "t_new")
        && is_late(rt)
        && is_missing(rt, "t_new/db-wal2")
        && holds(rt, "t_new/db-wal", b"first")
        && removes(rt, "t_new")
}

// Both find no database. Who is late fails, also once the other one is gone.
fn is_late(rt: &HostRuntime) -> bool {
    let mut first = FileDisk::new(rt, rt.alloc());
    let mut late = FileDisk::new(rt, rt.alloc());
    let is_attached = first.attach(b"t_new/db").is_ok() && late.attach(b"t_new/db").is_ok();
    let is_written = writes(&mut first, File::Log1, b"first");
    let is_kept_out = !writes(&mut late, File::Log2, b"late");
    drop(first);
    is_attached && is_written && is_kept_out && !writes(&mut late, File::Main, b"late")
}

#[test]
fn a_log_takes_the_permissions_of_its_database(rt: HostRuntime) {
    assert!(rt; takes_mode(&rt, 0o600));
    assert!(rt; takes_mode(&rt, 0o640));
    assert!(rt; takes_mode(&rt, 0o666));
}

fn takes_mode(rt: &HostRuntime, mode: u32) -> bool {
    empties(rt, "t_mode")
        && makes_file(rt, "t_mode/db", b"main")
        && permits(rt, "t_mode/db", mode)
        && makes_logs(rt)
        && has_mode(rt, "t_mode/db-wal", mode)
        && has_mode(rt, "t_mode/db-wal2", mode)
}

fn makes_logs(rt: &HostRuntime) -> bool {
    let mut disk = FileDisk::new(rt, rt.alloc());
    disk.attach(b"t_mode/db").is_ok()
        && writes(&mut disk, File::Log1, b"a")
        && writes(&mut disk, File::Log2, b"b")
}

fn has_mode(rt: &HostRuntime, path: &str, mode: u32) -> bool {
    match fs::metadata(rt, path) {
        Ok(data) => data.permissions().mode() & 0o777 == mode,
        Err(_) => false,
    }
}

// No file goes on so far.
#[test]
fn a_write_that_the_system_refuses_is_a_failure(rt: HostRuntime) {
    assert!(rt; fails_far(&rt));
}

fn fails_far(rt: &HostRuntime) -> bool {
    empties(rt, "t_refused") && is_refused_far(rt) && removes(rt, "t_refused")
}

fn is_refused_far(rt: &HostRuntime) -> bool {
    let mut disk = FileDisk::new(rt, rt.alloc());
    disk.attach(b"t_refused/db").is_ok()
        && disk.write_at(File::Main, i64::MAX as u64, b"abc").is_err()
}

// The first halves of two numbers that are published for SplitMix64 from 1234567.
#[test]
fn salts_are_those_of_the_generator(rt: HostRuntime) {
    let mut salts = NumberSalts::new(1_234_567);
    assert_eq!(rt; salts.word(), 1_503_580_183);
    assert_eq!(rt; salts.word(), 745_795_716);
}
