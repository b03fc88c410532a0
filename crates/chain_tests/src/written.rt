// Chains written, read back and given up. The pages that are compared come from bench/chain_vectors.py; how many there are of them, and the pages that
// are named, are worked by hand.
use crate::edited::{Edited, MOST};
use crate::stock::{END, LINKS};
use overflow::{free_chain, read_chain, write_chain};
use page_face::FetchFault;
use std::alloc::{AllocError, Global};
use std::test::Fail;

// Pages up to a last one, all of them zeros.
fn zeros(last: u32) -> Edited {
    Edited {
        last,
        bytes: [[0; 512]; 3],
        fetched: 0,
        put: 0,
        gone: [0; 3],
        given: 0,
    }
}

// Whether the end of the text, written behind page 2, makes the pages that sqlite3 made of it.
fn as_sqlite(alloc: Global) -> Result<bool, FetchFault> {
    let mut pages = zeros(2);
    match write_chain(alloc, &mut pages, END) {
        Ok(first) => {
            let same = pages.bytes[0] == *LINKS[0] && pages.bytes[1] == *LINKS[1];
            Ok(first == 3 && pages.put == 2 && same)
        }
        Err(why) => Err(why),
    }
}

#[test]
fn a_chain_as_sqlite_writes_it(rt: HostRuntime) -> Result<(), Fail> {
    assert_eq!(rt; as_sqlite(rt.alloc()), Ok(true));
    Ok(())
}

// So many bytes, no two of which that follow one another are equal.
fn pattern(alloc: Global, count: usize) -> Result<Vec<u8>, FetchFault> {
    let mut bytes = Vec::new(alloc);
    for i in 0..count {
        match bytes.push((i % 251) as u8) {
            Ok(()) => (),
            Err(_) => return Err(FetchFault::Memory),
        }
    }
    Ok(bytes)
}

// Whether a chain of these bytes is read back from its first page.
fn reads_back(
    alloc: Global,
    pages: &mut Edited,
    first: u32,
    bytes: &[u8],
) -> Result<bool, FetchFault> {
    let mut to = Vec::new(alloc);
    match read_chain(alloc, pages, first, bytes.len() as u64, &mut to) {
        Ok(()) => Ok(to.as_slice() == bytes),
        Err(why) => Err(why),
    }
}

// Writes a chain of so many bytes behind page 2, and gives it up: its first page, whether it was read back, the pages that were given up, and how many.
fn goes_round(alloc: Global, count: usize) -> Result<(u32, bool, [u32; 3], usize), FetchFault> {
    let bytes = match pattern(alloc, count) {
        Ok(bytes) => bytes,
        Err(why) => return Err(why),
    };
    let mut pages = zeros(2);
    let first = match write_chain(alloc, &mut pages, bytes.as_slice()) {
        Ok(first) => first,
        Err(why) => return Err(why),
    };
    let same = match reads_back(alloc, &mut pages, first, bytes.as_slice()) {
        Ok(same) => same,
        Err(why) => return Err(why),
    };
    match free_chain(alloc, &mut pages, first, count as u64) {
        Ok(()) => Ok((first, same, pages.gone, pages.given)),
        Err(why) => Err(why),
    }
}

// Each row is how many bytes there are, the first page, the pages, and how many.
const CHAINS: [(usize, u32, [u32; 3], usize); 5] = [
    (0, 0, [0, 0, 0], 0),
    (1, 3, [3, 0, 0], 1),
    (508, 3, [3, 0, 0], 1),
    (509, 3, [3, 4, 0], 2),
    (1524, 3, [3, 4, 5], 3),
];

#[test]
fn chains_written_and_given_up(rt: HostRuntime) -> Result<(), Fail> {
    for (count, first, gone, given) in CHAINS {
        assert_eq!(rt;
            goes_round(rt.alloc(), count),
            Ok((first, true, gone, given))
        );
    }
    Ok(())
}

// The page that is named where so many bytes can't be given up from a page on, of the chain that sqlite3 wrote, 0 where there is none, and how many
// pages were given up.
fn named(alloc: Global, first: u32, length: u64) -> Result<(u32, usize), FetchFault> {
    let mut pages = zeros(4);
    pages.bytes[0] = *LINKS[0];
    pages.bytes[1] = *LINKS[1];
    match free_chain(alloc, &mut pages, first, length) {
        Ok(()) => Ok((0, pages.given)),
        Err(FetchFault::Corrupt { page }) => Ok((page, pages.given)),
        Err(why) => Err(why),
    }
}

// Each row is a first page, a length, the page that is named, and how many pages were given up.
const BROKEN: [(u32, u64, u32, usize); 5] = [
    (3, 1013, 0, 2),
    (3, 1017, 4, 2),
    (4, 509, 4, 1),
    (1, 1, 1, 0),
    (5, 1, 5, 0),
];

#[test]
fn chains_given_up_that_break_off(rt: HostRuntime) -> Result<(), Fail> {
    for (first, length, page, given) in BROKEN {
        assert_eq!(rt; named(rt.alloc(), first, length), Ok((page, given)));
    }
    Ok(())
}

// How writing two pages ends where there is room for one more alone.
fn ends_full(alloc: Global) -> Result<u32, FetchFault> {
    let mut pages = zeros(MOST - 1);
    write_chain(alloc, &mut pages, END)
}

#[test]
fn a_chain_past_the_limit(rt: HostRuntime) -> Result<(), Fail> {
    assert_eq!(rt;
        ends_full(rt.alloc()),
        Err(FetchFault::Size { pages: 2097153 })
    );
    Ok(())
}
