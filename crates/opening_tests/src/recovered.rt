// The pages of the recovered map, each from where it stands.
ghost use Rattle.std.specs.Prelude.{◌≡◌, true, false};
ghost use Rattle.disk_face.specs.Steps.{reads};
ghost use Rattle.recover.specs.Seeing.{IsWholeSeen, IsSeen};

use crate::files::Named;
use crate::trial::{bytes_of, disk_of};
use disk_face::Disk;
use disk_mem::MemDisk;
use page_face::Pages;
use recover::{Recovered, Seen, Setup, StoreKind, look};
use std::alloc::{AllocError, Global};
use std::test::Fail;

/// The size of the pages.
const SIZE: usize = 512;

/// A page of the map that some files make, and where its bytes stand.
#[derive(Clone, Copy)]
struct Row {
    main: Named,
    one: Named,
    two: Named,
    page: u32,
    file: Named,
    at: usize,
}

/// SQLite's file below a log with its page 1 and a page 4, and below one with a page 2.
const STOCK: Row = Row {
    main: Named::Stock,
    one: Named::Migrating,
    two: Named::Empty,
    page: 3,
    file: Named::Stock,
    at: 1024,
};

/// Log 2 over log 1, which hold page 1 and page 2 both.
const BOTH: Row = Row {
    main: Named::Three,
    one: Named::Older,
    two: Named::Second,
    page: 3,
    file: Named::Three,
    at: 1024,
};

const ROWS: &[Row] = &[
    STOCK,
    Row {
        page: 1,
        file: Named::Migrating,
        at: 56,
        ..STOCK
    },
    Row {
        page: 4,
        file: Named::Migrating,
        at: 592,
        ..STOCK
    },
    Row {
        one: Named::OnlyPage2,
        page: 2,
        file: Named::OnlyPage2,
        at: 56,
        ..STOCK
    },
    BOTH,
    Row {
        page: 1,
        file: Named::Second,
        at: 592,
        ..BOTH
    },
    // log 1 over log 2, whose last frame of page 4 counts
    Row {
        one: Named::Newer,
        page: 2,
        file: Named::Newer,
        at: 1128,
        ..BOTH
    },
    Row {
        one: Named::Newer,
        page: 4,
        file: Named::Newer,
        at: 1664,
        ..BOTH
    },
];

/// Reads a page of what was seen.
fn reads_page(disk: &mut MemDisk, seen: &Seen, page: u32, buf: &mut [u8]) -> bool
    requires attached { disk.old.attached ≡ true }
    requires whole { IsWholeSeen seen.now }
    requires seen { IsSeen 512 (reads disk.old.told) seen.now }
{
    if seen.is_new() || page == 0 || page > seen.pages() || buf.len() != seen.page_size() as usize {
        return false;
    }
    let mut pages = Recovered {
        seen,
        disk,
        failed: false,
    };
    pages.fetch(page, buf).is_ok()
}

/// Looks at the files, and reads a page.
#[tactic(auto, unfolding(page_spec::specs::Header::is_page_size))]
fn looks_and_reads(alloc: Global, disk: &mut MemDisk, page: u32, buf: &mut [u8]) -> bool
    requires { disk.old.attached ≡ true }
{
    let setup = Setup {
        kind: StoreKind::Tables,
        page_size: 512,
        limit: 1,
    };
    match look(alloc, disk, &setup) {
        Ok(seen) => reads_page(disk, &seen, page, buf),
        Err(_) => false,
    }
}

/// The same of files that are still to be named.
fn names_and_reads(alloc: Global, mut disk: MemDisk, page: u32, buf: &mut [u8]) -> bool
    requires { disk.attached ≡ false }
{
    disk.attach(b"db").is_ok() && looks_and_reads(alloc, &mut disk, page, buf)
}

/// Whether the row's page is what stands there.
fn is_there(alloc: Global, row: &Row) -> Result<bool, AllocError> {
    let main = bytes_of(alloc, row.main)?;
    let disk = disk_of(alloc, main, row.one, row.two)?;
    let mut buf = [0u8; SIZE];
    let read = names_and_reads(alloc, disk, row.page, &mut buf);
    let bytes = bytes_of(alloc, row.file)?;
    Ok(
        read && bytes
            .get(row.at..)
            .is_some_and(|rest| rest.starts_with(&buf)),
    )
}

#[test]
fn each_page_comes_from_where_it_stands(rt: HostRuntime) -> Result<(), Fail> {
    for row in ROWS {
        assert!(rt; is_there(rt.alloc(), row)?);
    }
    Ok(())
}
