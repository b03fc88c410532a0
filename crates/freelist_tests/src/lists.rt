// Lists walked, and changed page by page. The trunks in `stock` come from bench/freelist_vectors.py; the others, and the pages that are named, are worked
// by hand.
use crate::laid::Laid;
use crate::stock::{BYTES, FREE, LAST, TRUNKS};
use freelist::{Free, give, take, walk};
use page_face::FetchFault;
use std::alloc::{AllocError, Global};
use std::test::Fail;

// A trunk with these bytes at its front, and zeros behind them.
fn trunk(front: &[u8; 16]) -> [u8; 512] {
    let mut bytes = [0; 512];
    bytes[..16].copy_from_slice(front);
    bytes
}

// Trunk 3 with the leaves 5 and 7, before trunk 4 without leaves.
fn two_trunks() -> Laid {
    Laid {
        last: 8,
        numbers: [3, 4],
        bytes: [
            trunk(b"\x00\x00\x00\x04\x00\x00\x00\x02\x00\x00\x00\x05\x00\x00\x00\x07"),
            [0; 512],
        ],
        fetched: 0,
        put: 0,
        lost: 0,
    }
}

// The page that is named where a list of so many pages can't be walked from a trunk on in a database with so many pages, 0 where there is none.
fn named(alloc: Global, trunk: u32, count: u32, last: u32) -> Result<u32, FetchFault> {
    let mut pages = two_trunks();
    pages.last = last;
    let mut to = Vec::new(alloc);
    match walk(alloc, &mut pages, &Free { trunk, count }, &mut to) {
        Ok(()) => Ok(0),
        Err(FetchFault::Corrupt { page }) => Ok(page),
        Err(why) => Err(why),
    }
}

// Each row is a first trunk, a count, the last page and the page that is named.
const BROKEN: [(u32, u32, u32, u32); 8] = [
    (3, 4, 8, 0),
    (3, 5, 8, 4),
    (3, 3, 8, 3),
    (3, 2, 8, 3),
    (3, 4, 6, 3),
    (9, 1, 8, 9),
    (0, 1, 8, 0),
    (4, 0, 8, 4),
];

#[test]
fn lists_that_break_off(rt: HostRuntime) -> Result<(), Fail> {
    for (trunk, count, last, page) in BROKEN {
        assert_eq!(rt; named(rt.alloc(), trunk, count, last), Ok(page));
    }
    Ok(())
}

// Whether the list that sqlite3 wrote was walked, behind one number that was there, and how many pages were fetched.
fn walks(alloc: Global) -> Result<(bool, u32), FetchFault> {
    let mut pages = Laid {
        last: LAST,
        numbers: TRUNKS,
        bytes: [*BYTES[0], *BYTES[1]],
        fetched: 0,
        put: 0,
        lost: 0,
    };
    let Ok(mut to) = vec![in alloc; 1; 1] else {
        return Err(FetchFault::Memory);
    };
    let free = Free {
        trunk: TRUNKS[0],
        count: FREE.len() as u32,
    };
    match walk(alloc, &mut pages, &free, &mut to) {
        Ok(()) => Ok((
            to.len() == 1 + FREE.len() && to.ends_with(&FREE),
            pages.fetched,
        )),
        Err(why) => Err(why),
    }
}

#[test]
fn a_list_of_sqlite(rt: HostRuntime) -> Result<(), Fail> {
    assert_eq!(rt; walks(rt.alloc()), Ok((true, 2)));
    Ok(())
}

// Puts these pages into a list, one after another.
fn gives(
    alloc: Global,
    pages: &mut Laid,
    free: &mut Free,
    numbers: &[u32],
) -> Result<(), FetchFault> {
    for page in numbers {
        if *page < 2 || *page > pages.last || free.count == u32::MAX {
            return Err(FetchFault::Corrupt { page: *page });
        }
        match give(alloc, pages, free, *page) {
            Ok(()) => (),
            Err(why) => return Err(why),
        }
    }
    Ok(())
}

// Whether the pages of the list that sqlite3 wrote, put in one after another in the order in which it put them in, make trunks of the same bytes, and how
// often a page was put.
fn makes(alloc: Global) -> Result<(bool, u32), FetchFault> {
    let mut pages = Laid {
        last: LAST,
        numbers: TRUNKS,
        bytes: [[0; 512]; 2],
        fetched: 0,
        put: 0,
        lost: 0,
    };
    let mut free = Free { trunk: 0, count: 0 };
    let (later, first) = FREE.as_slice().split_at(4);
    match gives(alloc, &mut pages, &mut free, first) {
        Ok(()) => (),
        Err(why) => return Err(why),
    }
    match gives(alloc, &mut pages, &mut free, later) {
        Ok(()) => (),
        Err(why) => return Err(why),
    }
    let same = pages.bytes[0] == *BYTES[0] && pages.bytes[1] == *BYTES[1];
    let begins = free.trunk == TRUNKS[0] && free.count as usize == FREE.len();
    Ok((same && begins && pages.lost == 0, pages.put))
}

#[test]
fn a_list_as_sqlite_makes_it(rt: HostRuntime) -> Result<(), Fail> {
    assert_eq!(rt; makes(rt.alloc()), Ok((true, 125)));
    Ok(())
}

// Appends the pages that are taken out of a list until it has none, but five at most.
fn takes(
    alloc: Global,
    pages: &mut Laid,
    free: &mut Free,
    to: &mut Vec<u32>,
) -> Result<(), FetchFault> {
    for _ in 0..5 {
        match take(alloc, pages, free) {
            Ok(Some(page)) => match to.push(page) {
                Ok(()) => (),
                Err(_) => return Err(FetchFault::Memory),
            },
            Ok(None) => return Ok(()),
            Err(why) => return Err(why),
        }
    }
    Ok(())
}

// Whether these pages are taken out of the two trunks one after another, and how often a page was put.
fn took(alloc: Global, wanted: &[u32]) -> Result<(bool, u32), FetchFault> {
    let mut pages = two_trunks();
    let mut free = Free { trunk: 3, count: 4 };
    let mut to = Vec::new(alloc);
    match takes(alloc, &mut pages, &mut free, &mut to) {
        Ok(()) => (),
        Err(why) => return Err(why),
    }
    let none = free.trunk == 0 && free.count == 0;
    Ok((none && to.as_slice() == wanted, pages.put))
}

#[test]
fn pages_taken_one_after_another(rt: HostRuntime) -> Result<(), Fail> {
    assert_eq!(rt; took(rt.alloc(), &[7, 5, 3, 4]), Ok((true, 2)));
    Ok(())
}
