// Trees given up. The pages come from bench/drop_vectors.py, where sqlite3 says which pages each tree has. The order in which they are given up is worked by hand:
// what a page leads to, cell by cell, and then the page.
use crate::laid::Laid;
use disk_face::Txt;
use page_face::FetchFault;
use std::alloc::{AllocError, Global};
use std::test::Fail;
use tree_drop::drop_tree;
use tree_read::{find_entry, find_row};
use value_form::{Row, Value};

// Gives up the tree of a root that isn't page 1.
fn drops(alloc: Global, pages: &mut Laid, root: u32) -> Result<(), FetchFault> {
    if root == 1 {
        return Err(FetchFault::Memory);
    }
    drop_tree(alloc, pages, root)
}

// How many bytes the text of a row has, which is its only value; 0 where there is no row.
fn text_of(alloc: Global, pages: &mut Laid, root: u32, rowid: i64) -> usize {
    match find_row(alloc, pages, root, rowid) {
        Ok(Some(row)) => match row.values() {
            [Value::Text(text)] => text.bytes().len(),
            _ => 0,
        },
        Ok(None) | Err(_) => 0,
    }
}

// An entry: a letter so many times, and a rowid.
fn entry(alloc: Global, letter: u8, count: usize, rowid: i64) -> Result<Row, AllocError> {
    let mut row = Row::new(alloc);
    row.push(Value::Text(Txt::from_vec(vec![in alloc; letter; count]?)))?;
    row.push(Value::Int(rowid))?;
    Ok(row)
}

// Whether the index has an entry.
fn has(alloc: Global, pages: &mut Laid, letter: u8, count: usize, rowid: i64) -> bool {
    match entry(alloc, letter, count, rowid) {
        Ok(entry) => find_entry(alloc, pages, 13, &entry) == Ok(true),
        Err(_) => false,
    }
}

// Each row is a root, how many pages are given up, and which. The last one is an index's.
const TREES: [(u32, usize, [u32; 10]); 3] = [
    (2, 10, [10, 9, 8, 5, 4, 7, 11, 6, 3, 2]),
    (12, 1, [12, 0, 0, 0, 0, 0, 0, 0, 0, 0]),
    (13, 9, [19, 20, 16, 15, 18, 21, 17, 14, 13, 0]),
];

#[test]
fn each_page_is_given_up(rt: HostRuntime) -> Result<(), Fail> {
    for (root, count, order) in TREES {
        let mut pages = Laid::new();
        assert_eq!(rt; drops(rt.alloc(), &mut pages, root), Ok(()));
        assert_eq!(rt; pages.given, count);
        assert_eq!(rt; pages.fetched, count);
        assert!(rt; pages.gone[..10] == order[..]);
    }
    Ok(())
}

#[test]
fn other_trees_stay(rt: HostRuntime) -> Result<(), Fail> {
    let mut pages = Laid::new();
    assert_eq!(rt; drops(rt.alloc(), &mut pages, 2), Ok(()));
    assert_eq!(rt; text_of(rt.alloc(), &mut pages, 12, 2), 200);
    assert_eq!(rt; text_of(rt.alloc(), &mut pages, 12, 5), 1);
    assert!(rt; has(rt.alloc(), &mut pages, b'c', 200, 2));
    assert!(rt; has(rt.alloc(), &mut pages, b'm', 200, 7));
    let mut pages = Laid::new();
    assert_eq!(rt; drops(rt.alloc(), &mut pages, 13), Ok(()));
    assert_eq!(rt; text_of(rt.alloc(), &mut pages, 2, 1), 1200);
    assert_eq!(rt; text_of(rt.alloc(), &mut pages, 2, 4), 700);
    Ok(())
}

// Each row is a page, an offset, the byte that is set there, and the page that is corrupt for the tree of page 2.
const BROKEN: [(usize, usize, u8, u32); 8] = [
    // The right child of page 4 is out of range, is page 1, was given up before.
    (4, 11, 99, 4),
    (4, 11, 0, 4),
    (4, 11, 1, 4),
    (4, 11, 8, 8),
    // The first child of page 4 is the root: page 4 stands on each odd level, at last on level 41.
    (4, 510, 2, 4),
    // A leaf is one of an index.
    (5, 0, 10, 5),
    // A chain ends early, or begins out of range.
    (10, 3, 0, 10),
    (6, 511, 99, 6),
];

#[test]
fn broken_trees(rt: HostRuntime) -> Result<(), Fail> {
    for (page, at, byte, corrupt) in BROKEN {
        let mut pages = Laid::new();
        pages.set(page, at, byte);
        assert_eq!(rt;
            drops(rt.alloc(), &mut pages, 2),
            Err(FetchFault::Corrupt { page: corrupt })
        );
    }
    Ok(())
}

// Out of range, and a chain's page.
const NO_ROOTS: [u32; 3] = [0, 22, 10];

#[test]
fn no_roots(rt: HostRuntime) -> Result<(), Fail> {
    for root in NO_ROOTS {
        let mut pages = Laid::new();
        assert_eq!(rt;
            drops(rt.alloc(), &mut pages, root),
            Err(FetchFault::Corrupt { page: root })
        );
        assert_eq!(rt; pages.given, 0);
    }
    Ok(())
}
