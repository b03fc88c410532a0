// Openings that only look, that settle the files, and that break off at each call.
ghost use Rattle.std.specs.Prelude.{◌≡◌, true, false, IfOk, IsTrue};
ghost use Rattle.page_spec.specs.Header.{is_page_size};

use crate::files::Named;
use crate::left::{SETTLES, Settled};
use crate::seen::{LOOKS, Look};
use crate::trial::{Told, bytes_of, disk_of, holds, looks, opens, opens_first};
use disk_face::{Disk, Failed, File};
use disk_mem::{Call, Made, MemDisk};
use recover::LookFault;
use std::alloc::{AllocError, Global};
use std::test::Fail;

/// Each opening of `SETTLES` makes fewer calls.
const MOST_CALLS: u64 = 80;

/// More bytes than a crash leaves unsure in any of them.
const UNSURE: usize = 20_000;

/// Puts a piece over bytes.
fn put(bytes: &mut [u8], at: usize, piece: &[u8]) {
    if at <= bytes.len() && piece.len() <= bytes.len() - at {
        bytes[at..at + piece.len()].copy_from_slice(piece);
    }
}

/// Main of a row.
fn main_of(alloc: Global, row: &Look) -> Result<Vec<u8>, AllocError> {
    let mut main = bytes_of(alloc, row.main)?;
    for (at, piece) in row.puts {
        put(&mut main, *at, piece);
    }
    main.truncate(main.len().saturating_sub(row.cut));
    Ok(main)
}

/// What a look sees of files that are still to be named.
fn first_look(alloc: Global, mut disk: MemDisk, page_size: u32) -> Result<Told, LookFault>
    requires attached { disk.attached ≡ false }
    requires page_size { IsTrue (is_page_size page_size) }
{
    if disk.attach(b"db").is_err() {
        return Err(LookFault::Disk);
    }
    looks(alloc, &mut disk, page_size)
}

/// What a look sees of a row's files.
#[tactic(auto, unfolding(page_spec::specs::Header::is_page_size))]
fn seen_of(alloc: Global, row: &Look) -> Result<Result<Told, LookFault>, AllocError> {
    let main = main_of(alloc, row)?;
    let mut disk = disk_of(alloc, main, row.one, row.two)?;
    disk.set_journal(row.hot);
    Ok(first_look(alloc, disk, 4096))
}

#[test]
fn what_a_look_sees(rt: HostRuntime) -> Result<(), Fail> {
    for row in LOOKS {
        assert_eq!(rt; seen_of(rt.alloc(), row)?, row.told);
    }
    Ok(())
}

/// The files of a row.
fn files_of(alloc: Global, row: &Settled) -> Result<MemDisk, AllocError>
    ensures { IfOk result (λ disk. disk.attached ≡ false) }
{
    let main = bytes_of(alloc, row.main)?;
    disk_of(alloc, main, row.one, row.two)
}

/// How many calls of a kind there were on a file.
fn count(made: &[Made], file: File, call: Call) -> usize {
    let mut calls: usize = 0;
    for one in made {
        if one.file == file && one.call == call {
            calls = calls.saturating_add(1);
        }
    }
    calls
}

/// The same of each file.
fn counts(made: &[Made], call: Call) -> [usize; 3] {
    [
        count(made, File::Main, call),
        count(made, File::Log1, call),
        count(made, File::Log2, call),
    ]
}

/// Whether Main is the row's map and no log says otherwise: a look at the files as they are sees that map.
#[tactic(auto, unfolding(page_spec::specs::Header::is_page_size))]
fn is_map(alloc: Global, disk: &MemDisk, row: &Settled) -> Result<bool, AllocError> {
    let same = disk.crash(&[])?;
    let told = first_look(alloc, same, 512);
    Ok(holds(alloc, disk, File::Main, row.after)? && told == Ok(row.told))
}

/// Whether the logs begin with the row's headers.
fn has_headers(disk: &MemDisk, row: &Settled) -> bool {
    disk.file(File::Log1).starts_with(&row.header1)
        && disk.file(File::Log2).starts_with(&row.header2)
}

/// Whether the files are settled as the row says.
fn settles(alloc: Global, row: &Settled) -> Result<bool, AllocError> {
    let mut disk = files_of(alloc, row)?;
    let told = opens_first(alloc, &mut disk, row.kind);
    Ok(
        told == Ok(row.generation)
            && has_headers(&disk, row)
            && counts(disk.made(), Call::Write) == row.writes
            && counts(disk.made(), Call::Sync) == row.syncs
            && is_map(alloc, &disk, row)?,
    )
}

#[test]
fn what_settling_leaves(rt: HostRuntime) -> Result<(), Fail> {
    for row in SETTLES {
        assert!(rt; settles(rt.alloc(), row)?);
    }
    Ok(())
}

/// Whether an opening of what a crash leaves recovers the row's map.
fn recovers(alloc: Global, disk: &MemDisk, pick: &[u8], row: &Settled) -> Result<bool, AllocError> {
    let mut left = disk.crash(pick)?;
    Ok(opens_first(alloc, &mut left, row.kind).is_ok() && is_map(alloc, &left, row)?)
}

/// Whether the answer is a failed disk exactly where the last call failed.
fn is_told(disk: &MemDisk, told: &Result<u32, LookFault>, row: &Settled) -> bool {
    match disk.made().last() {
        Some(Made { failed: true, .. }) => *told == Err(LookFault::Disk),
        _ => *told == Ok(row.generation),
    }
}

/// Whether an opening of what a crash leaves recovers the row's map: where it leaves all bytes that were written, and where all that are
/// unsure are 0, or 255.
fn recovers_each(alloc: Global, disk: &MemDisk, row: &Settled) -> Result<bool, AllocError> {
    let mut zeros = Vec::new(alloc);
    zeros.resize(UNSURE, 0)?;
    let mut wild = Vec::new(alloc);
    wild.resize(UNSURE, 255)?;
    Ok(
        recovers(alloc, disk, &[], row)?
            && recovers(alloc, disk, &zeros, row)?
            && recovers(alloc, disk, &wild, row)?,
    )
}

/// Whether an opening of which only so many calls go well tells that, and crashes after it leave the row's map.
fn breaks_off(alloc: Global, row: &Settled, calls: u64) -> Result<bool, AllocError> {
    let mut disk = files_of(alloc, row)?;
    disk.stop_after(calls);
    let told = opens_first(alloc, &mut disk, row.kind);
    Ok(is_told(&disk, &told, row) && recovers_each(alloc, &disk, row)?)
}

/// Writes a log and doesn't sync it.
fn write_log(alloc: Global, disk: &mut MemDisk, file: File, named: Named) -> Result<(), Failed>
    requires { disk.old.attached ≡ true }
    ensures { disk.new.attached ≡ true }
{
    match bytes_of(alloc, named) {
        Ok(bytes) => disk.write_at(file, 0, &bytes),
        Err(_) => Err(Failed),
    }
}

/// Whether the same holds of files whose logs were written and not synced, once Main is written to: before that a crash may leave what it
/// might have left without the opening.
fn breaks_off_later(alloc: Global, row: &Settled, calls: u64) -> Result<bool, AllocError> {
    let main = bytes_of(alloc, row.main)?;
    let mut disk = disk_of(alloc, main, Named::Empty, Named::Empty)?;
    if disk.attach(b"db").is_err()
        || write_log(alloc, &mut disk, File::Log1, row.one).is_err()
        || write_log(alloc, &mut disk, File::Log2, row.two).is_err()
    {
        return Ok(false);
    }
    disk.stop_after(calls);
    let _ = opens(alloc, &mut disk, row.kind);
    Ok(count(disk.made(), File::Main, Call::Write) == 0 || recovers_each(alloc, &disk, row)?)
}

#[test]
fn an_opening_that_breaks_off_loses_no_page(rt: HostRuntime) -> Result<(), Fail> {
    for row in SETTLES {
        for calls in 0..MOST_CALLS {
            assert!(rt; breaks_off(rt.alloc(), row, calls)?);
            assert!(rt; breaks_off_later(rt.alloc(), row, calls)?);
        }
    }
    Ok(())
}
