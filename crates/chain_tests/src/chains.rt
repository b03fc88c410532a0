// Chains read. The pages and the text come from bench/chain_vectors.py; the pages that are named are worked by hand.
ghost use Rattle.std.specs.Prelude.{◌+◌, ◌≤◌};

use crate::laid::Laid;
use crate::stock::END;
use overflow::read_chain;
use page_face::FetchFault;
use std::alloc::{AllocError, Global};
use std::test::Fail;

// How many pages were fetched, and whether so many bytes of the end of the text, from a place on, were read from a page on, behind one
// byte that was there.
fn reads(alloc: Global, first: u32, from: usize, count: usize) -> Result<(u32, bool), FetchFault>
    requires { from + count ≤ 1013 }
{
    let (_, rest) = END.as_slice().split_at(from);
    let (bytes, _) = rest.split_at(count);
    let mut pages = Laid { fetched: 0 };
    let Ok(mut to) = vec![in alloc; 7; 1] else {
        return Err(FetchFault::Memory);
    };
    match read_chain(alloc, &mut pages, first, count as u64, &mut to) {
        Ok(()) => Ok((pages.fetched, to.starts_with(&[7]) && to.ends_with(bytes))),
        Err(why) => Err(why),
    }
}

// The page that is named where so many bytes can't be read from a page on, 0 where there is none.
fn named(alloc: Global, first: u32, length: u64) -> Result<u32, FetchFault> {
    let mut pages = Laid { fetched: 0 };
    let mut to = Vec::new(alloc);
    match read_chain(alloc, &mut pages, first, length, &mut to) {
        Ok(()) => Ok(0),
        Err(FetchFault::Corrupt { page }) => Ok(page),
        Err(why) => Err(why),
    }
}

#[test]
fn bytes_of_a_chain(rt: HostRuntime) -> Result<(), Fail> {
    assert_eq!(rt; reads(rt.alloc(), 3, 0, 1013), Ok((2, true)));
    assert_eq!(rt; reads(rt.alloc(), 3, 0, 508), Ok((1, true)));
    assert_eq!(rt; reads(rt.alloc(), 4, 508, 505), Ok((1, true)));
    assert_eq!(rt; reads(rt.alloc(), 9, 0, 0), Ok((0, true)));
    Ok(())
}

// Each row is a first page, a length and the page that is named.
const BROKEN: [(u32, u64, u32); 5] = [
    (3, 1016, 0),
    (3, 1017, 4),
    (4, 509, 4),
    (1, 1, 1),
    (5, 1, 5),
];

#[test]
fn chains_that_break_off(rt: HostRuntime) -> Result<(), Fail> {
    for (first, length, page) in BROKEN {
        assert_eq!(rt; named(rt.alloc(), first, length), Ok(page));
    }
    Ok(())
}
