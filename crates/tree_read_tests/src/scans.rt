// A tree's items in order. The rowids of the table at page 2 are 10 to 90, and the entries of the index at page 9 end with 1 to 9: the fifth stands
// in the root, with an overflow page, between two leaves.
ghost use Rattle.tree_scan.specs.Scanning.{Fits};

use crate::laid::Laid;
use disk_face::Txt;
use page_face::{FetchFault, PagesTells};
use std::alloc::{AllocError, Global};
use std::test::Fail;
use tree_scan::Cursor;
use value_form::{Row, Value};

/// What stands for no row.
const NONE: i64 = -1;

// The number of the next item.
fn next_of(cursor: &mut Cursor, pages: &mut Laid) -> Result<i64, FetchFault>
    requires { Fits ⟦<Laid as PagesTells>⟧ pages.old cursor.old }
    ensures { Fits ⟦<Laid as PagesTells>⟧ pages.new cursor.new }
{
    match cursor.next(pages) {
        Ok(Some(found)) => Ok(found.0),
        Ok(None) => Ok(NONE),
        Err(why) => Err(why),
    }
}

// Each page of the path is fetched once, and the page of the chain of row 50.
#[test]
fn rows_between_bounds(rt: HostRuntime) -> Result<(), Fail> {
    let mut pages = Laid {
        last: 15,
        fetched: 0,
    };
    let mut cursor = Cursor::rows(rt.alloc(), 2, Some(31), Some(85));
    assert_eq!(rt; next_of(&mut cursor, &mut pages), Ok(40));
    assert_eq!(rt; next_of(&mut cursor, &mut pages), Ok(50));
    assert_eq!(rt; next_of(&mut cursor, &mut pages), Ok(60));
    assert_eq!(rt; next_of(&mut cursor, &mut pages), Ok(70));
    assert_eq!(rt; next_of(&mut cursor, &mut pages), Ok(80));
    assert_eq!(rt; next_of(&mut cursor, &mut pages), Ok(NONE));
    assert_eq!(rt; next_of(&mut cursor, &mut pages), Ok(NONE));
    assert_eq!(rt; pages.fetched, 5);
    Ok(())
}

#[test]
fn no_rows(rt: HostRuntime) -> Result<(), Fail> {
    let mut pages = Laid {
        last: 15,
        fetched: 0,
    };
    let mut cursor = Cursor::rows(rt.alloc(), 3, None, None);
    assert_eq!(rt; next_of(&mut cursor, &mut pages), Ok(NONE));
    assert_eq!(rt; next_of(&mut cursor, &mut pages), Ok(NONE));
    assert_eq!(rt; pages.fetched, 1);
    Ok(())
}

// The root is no page of a table, or the second child is out of range: the rows before it come, and then the fault, each time.
#[test]
fn pages_that_are_named(rt: HostRuntime) -> Result<(), Fail> {
    let mut pages = Laid {
        last: 5,
        fetched: 0,
    };
    let mut index = Cursor::rows(rt.alloc(), 4, None, None);
    assert_eq!(rt;
        next_of(&mut index, &mut pages),
        Err(FetchFault::Corrupt { page: 4 })
    );
    let mut cursor = Cursor::rows(rt.alloc(), 2, Some(40), None);
    assert_eq!(rt; next_of(&mut cursor, &mut pages), Ok(40));
    assert_eq!(rt;
        next_of(&mut cursor, &mut pages),
        Err(FetchFault::Corrupt { page: 2 })
    );
    assert_eq!(rt;
        next_of(&mut cursor, &mut pages),
        Err(FetchFault::Corrupt { page: 2 })
    );
    Ok(())
}

// The leading value of an entry: a figure so many times.
fn leading(alloc: Global, figure: u8, count: usize) -> Result<Row, AllocError> {
    let mut row = Row::new(alloc);
    row.push(Value::Text(Txt::from_vec(vec![in alloc; figure; count]?)))?;
    Ok(row)
}

// The number of the next entry, and the count of its text's bytes.
fn entry_of(cursor: &mut Cursor, pages: &mut Laid) -> Result<(i64, usize), FetchFault>
    requires { Fits ⟦<Laid as PagesTells>⟧ pages.old cursor.old }
    ensures { Fits ⟦<Laid as PagesTells>⟧ pages.new cursor.new }
{
    match cursor.next(pages) {
        Ok(Some(found)) => match found.1.values() {
            [Value::Text(text), Value::Int(_)] => Ok((found.0, text.bytes().len())),
            _ => Ok((NONE, 0)),
        },
        Ok(None) => Ok((NONE, 0)),
        Err(why) => Err(why),
    }
}

// The chain of the fifth entry is fetched once.
#[test]
fn all_entries(rt: HostRuntime) -> Result<(), Fail> {
    let mut pages = Laid {
        last: 15,
        fetched: 0,
    };
    let mut cursor = Cursor::entries(rt.alloc(), 9, None, None);
    assert_eq!(rt; entry_of(&mut cursor, &mut pages), Ok((1, 56)));
    assert_eq!(rt; entry_of(&mut cursor, &mut pages), Ok((2, 56)));
    assert_eq!(rt; entry_of(&mut cursor, &mut pages), Ok((3, 56)));
    assert_eq!(rt; entry_of(&mut cursor, &mut pages), Ok((4, 56)));
    assert_eq!(rt; entry_of(&mut cursor, &mut pages), Ok((5, 300)));
    assert_eq!(rt; entry_of(&mut cursor, &mut pages), Ok((6, 56)));
    assert_eq!(rt; entry_of(&mut cursor, &mut pages), Ok((7, 56)));
    assert_eq!(rt; entry_of(&mut cursor, &mut pages), Ok((8, 56)));
    assert_eq!(rt; entry_of(&mut cursor, &mut pages), Ok((9, 56)));
    assert_eq!(rt; entry_of(&mut cursor, &mut pages), Ok((NONE, 0)));
    assert_eq!(rt; pages.fetched, 4);
    Ok(())
}

// It is fetched once more where the low bound is compared with that entry.
#[test]
fn entries_between_bounds(rt: HostRuntime) -> Result<(), Fail> {
    let mut pages = Laid {
        last: 15,
        fetched: 0,
    };
    let low = leading(rt.alloc(), b'3', 56)?;
    let high = leading(rt.alloc(), b'7', 1)?;
    let mut cursor = Cursor::entries(rt.alloc(), 9, Some(low), Some(high));
    assert_eq!(rt; entry_of(&mut cursor, &mut pages), Ok((3, 56)));
    assert_eq!(rt; entry_of(&mut cursor, &mut pages), Ok((4, 56)));
    assert_eq!(rt; entry_of(&mut cursor, &mut pages), Ok((5, 300)));
    assert_eq!(rt; entry_of(&mut cursor, &mut pages), Ok((6, 56)));
    assert_eq!(rt; entry_of(&mut cursor, &mut pages), Ok((NONE, 0)));
    assert_eq!(rt; entry_of(&mut cursor, &mut pages), Ok((NONE, 0)));
    assert_eq!(rt; pages.fetched, 5);
    Ok(())
}

// A bound of all an entry's values, between two entries, and one that the last entry begins with.
#[test]
fn entries_behind_one(rt: HostRuntime) -> Result<(), Fail> {
    let mut pages = Laid {
        last: 15,
        fetched: 0,
    };
    let mut low = leading(rt.alloc(), b'7', 56)?;
    low.push(Value::Int(8))?;
    let high = leading(rt.alloc(), b'9', 56)?;
    let mut cursor = Cursor::entries(rt.alloc(), 9, Some(low), Some(high));
    assert_eq!(rt; entry_of(&mut cursor, &mut pages), Ok((8, 56)));
    assert_eq!(rt; entry_of(&mut cursor, &mut pages), Ok((9, 56)));
    assert_eq!(rt; entry_of(&mut cursor, &mut pages), Ok((NONE, 0)));
    assert_eq!(rt; pages.fetched, 3);
    Ok(())
}

// The root is no page of an index, the chain with which the low bound is compared is out of range, or the second child is.
#[test]
fn pages_that_are_named_of_an_index(rt: HostRuntime) -> Result<(), Fail> {
    let mut pages = Laid {
        last: 13,
        fetched: 0,
    };
    let mut table = Cursor::entries(rt.alloc(), 2, None, None);
    assert_eq!(rt;
        entry_of(&mut table, &mut pages),
        Err(FetchFault::Corrupt { page: 2 })
    );
    let low = leading(rt.alloc(), b'4', 1)?;
    let mut cursor = Cursor::entries(rt.alloc(), 9, Some(low), None);
    assert_eq!(rt; entry_of(&mut cursor, &mut pages), Ok((4, 56)));
    assert_eq!(rt; entry_of(&mut cursor, &mut pages), Ok((5, 300)));
    assert_eq!(rt;
        entry_of(&mut cursor, &mut pages),
        Err(FetchFault::Corrupt { page: 9 })
    );
    assert_eq!(rt;
        entry_of(&mut cursor, &mut pages),
        Err(FetchFault::Corrupt { page: 9 })
    );
    let mut short = Laid {
        last: 9,
        fetched: 0,
    };
    let other = leading(rt.alloc(), b'4', 1)?;
    let mut compared = Cursor::entries(rt.alloc(), 9, Some(other), None);
    assert_eq!(rt;
        entry_of(&mut compared, &mut short),
        Err(FetchFault::Corrupt { page: 9 })
    );
    Ok(())
}
