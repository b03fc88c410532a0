// Rows looked up, and the last rowid. The pages come from bench/tree_vectors.py, where sqlite3 was given the rowids 10 to 90, each with seven
// times its number among the rows and a text; the pages that are named and the counts are worked by hand.
use crate::laid::Laid;
use disk_face::Txt;
use page_face::FetchFault;
use std::alloc::{AllocError, Global};
use std::test::Fail;
use tree_read::{find_entry, find_row, last_row};
use value_form::{Row, Value};

/// What stands for no row and for no number.
const NONE: i64 = -1;

// The integer and the count of the text's bytes in a row of two values.
fn told(row: &Row) -> (i64, usize) {
    match row.values() {
        [Value::Int(number), Value::Text(text)] => (*number, text.bytes().len()),
        _ => (NONE, 0),
    }
}

// The row of a rowid in the tree at a page: its integer, the count of its text's bytes, and how many pages were fetched.
fn found(alloc: Global, last: u32, root: u32, rowid: i64) -> Result<(i64, usize, u32), FetchFault> {
    let mut pages = Laid { last, fetched: 0 };
    match find_row(alloc, &mut pages, root, rowid) {
        Ok(Some(row)) => {
            let (number, count) = told(&row);
            Ok((number, count, pages.fetched))
        }
        Ok(None) => Ok((NONE, 0, pages.fetched)),
        Err(why) => Err(why),
    }
}

// The last rowid of the tree at a page.
fn last_of(alloc: Global, last: u32, root: u32) -> Result<Option<i64>, FetchFault> {
    let mut pages = Laid { last, fetched: 0 };
    last_row(alloc, &mut pages, root)
}

// Each row is a rowid, the integer of its row, the count of its text's bytes, and how many pages are fetched.
const ROWS: [(i64, i64, usize, u32); 14] = [
    (10, 7, 100, 2),
    (20, 14, 100, 2),
    (40, 28, 100, 2),
    (50, 35, 600, 3),
    (80, 56, 100, 2),
    (90, 63, 100, 2),
    (9, NONE, 0, 2),
    (11, NONE, 0, 2),
    (41, NONE, 0, 2),
    (81, NONE, 0, 2),
    (91, NONE, 0, 2),
    (0, NONE, 0, 2),
    (i64::MIN, NONE, 0, 2),
    (i64::MAX, NONE, 0, 2),
];

#[test]
fn rows_of_a_table(rt: HostRuntime) -> Result<(), Fail> {
    for (rowid, number, count, fetched) in ROWS {
        assert_eq!(rt;
            found(rt.alloc(), 15, 2, rowid),
            Ok((number, count, fetched))
        );
    }
    assert_eq!(rt; found(rt.alloc(), 15, 3, 10), Ok((NONE, 0, 1)));
    Ok(())
}

#[test]
fn last_rowids(rt: HostRuntime) -> Result<(), Fail> {
    assert_eq!(rt; last_of(rt.alloc(), 15, 2), Ok(Some(90)));
    assert_eq!(rt; last_of(rt.alloc(), 15, 5), Ok(Some(40)));
    assert_eq!(rt; last_of(rt.alloc(), 15, 3), Ok(None));
    Ok(())
}

// An entry: a figure so many times, and a rowid.
fn entry(alloc: Global, figure: u8, count: usize, rowid: i64) -> Result<Row, AllocError> {
    let mut row = Row::new(alloc);
    row.push(Value::Text(Txt::from_vec(vec![in alloc; figure; count]?)))?;
    row.push(Value::Int(rowid))?;
    Ok(row)
}

// Whether the index at a page has an entry, and how many pages were fetched.
fn has(alloc: Global, last: u32, root: u32, entry: &Row) -> Result<(bool, u32), FetchFault> {
    let mut pages = Laid { last, fetched: 0 };
    match find_entry(alloc, &mut pages, root, entry) {
        Ok(found) => Ok((found, pages.fetched)),
        Err(why) => Err(why),
    }
}

// Each row is a figure, how often it stands in the entry's text, its rowid, whether the index has it, and how many pages are fetched. The
// fifth entry stands in the root, with an overflow page that each look-up reads.
const ENTRIES: [(u8, usize, i64, bool, u32); 12] = [
    (b'1', 56, 1, true, 3),
    (b'2', 56, 2, true, 3),
    (b'4', 56, 4, true, 3),
    (b'5', 300, 5, true, 2),
    (b'6', 56, 6, true, 3),
    (b'9', 56, 9, true, 3),
    (b'0', 1, 0, false, 3),
    (b'3', 55, 3, false, 3),
    (b'3', 56, 4, false, 3),
    (b'5', 299, 5, false, 3),
    (b'5', 300, 6, false, 3),
    (b'9', 57, 9, false, 3),
];

#[test]
fn entries_of_an_index(rt: HostRuntime) -> Result<(), Fail> {
    for (figure, count, rowid, there, fetched) in ENTRIES {
        let entry = entry(rt.alloc(), figure, count, rowid)?;
        assert_eq!(rt; has(rt.alloc(), 15, 9, &entry), Ok((there, fetched)));
    }
    Ok(())
}

#[test]
fn pages_that_are_named_of_an_index(rt: HostRuntime) -> Result<(), Fail> {
    let entry = entry(rt.alloc(), b'1', 56, 1)?;
    assert_eq!(rt;
        has(rt.alloc(), 15, 2, &entry),
        Err(FetchFault::Corrupt { page: 2 })
    );
    assert_eq!(rt;
        has(rt.alloc(), 15, 16, &entry),
        Err(FetchFault::Corrupt { page: 16 })
    );
    assert_eq!(rt;
        has(rt.alloc(), 9, 9, &entry),
        Err(FetchFault::Corrupt { page: 9 })
    );
    assert_eq!(rt;
        has(rt.alloc(), 12, 9, &entry),
        Err(FetchFault::Corrupt { page: 9 })
    );
    Ok(())
}

// Each row is the last page, a root, a rowid and the page that is named: a root out of range, pages that are none of a
// tree's, and children out of range.
const BROKEN: [(u32, u32, i64, u32); 7] = [
    (15, 0, 10, 0),
    (15, 16, 10, 16),
    (15, 4, 10, 4),
    (15, 1, 10, 1),
    (15, 9, 10, 9),
    (5, 2, 50, 2),
    (3, 2, 10, 2),
];

#[test]
fn pages_that_are_named(rt: HostRuntime) -> Result<(), Fail> {
    for (last, root, rowid, page) in BROKEN {
        assert_eq!(rt;
            found(rt.alloc(), last, root, rowid),
            Err(FetchFault::Corrupt { page })
        );
    }
    assert_eq!(rt;
        last_of(rt.alloc(), 6, 2),
        Err(FetchFault::Corrupt { page: 2 })
    );
    assert_eq!(rt;
        last_of(rt.alloc(), 15, 4),
        Err(FetchFault::Corrupt { page: 4 })
    );
    Ok(())
}
