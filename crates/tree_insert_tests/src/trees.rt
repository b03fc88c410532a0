// Trees that grow by one number after another. Each number has a row of its own, of the number and a text, which is the row of a table or the entry of an
// index; so the rows that come back are worked from the numbers alone.
ghost use Rattle.std.specs.Prelude.{◌≡◌};
ghost use Rattle.tree_scan.specs.Scanning.{Fits};

use disk_face::Txt;
use page_face::{EditPages, FetchFault, Pages};
use std::alloc::{AllocError, Global};
use std::cmp::Ordering;
use tree_insert::{InsertFault, insert_entry, insert_row};
use tree_scan::Cursor;
use value_form::{Row, Value, order_rows};

/// The row of a number. The texts have 0 to 620 bytes: some cells are nearly as large as a page, and some have a chain.
fn row_of(alloc: Global, number: i64) -> Result<Row, AllocError> {
    let size = (number & 31) as usize;
    let mut row = Row::new(alloc);
    row.push(Value::Int(number))?;
    row.push(Value::Text(Txt::from_vec(vec![in alloc; b'x'; size.wrapping_mul(20)]?)))?;
    Ok(row)
}

/// Puts the row of a number into a table or an index.
fn put_one<P: EditPages>(
    alloc: Global,
    pages: &mut P,
    root: u32,
    table: bool,
    number: i64,
) -> Result<(), InsertFault>
    requires { P.ready pages.old }
    ensures { P.ready pages.new }
{
    let Ok(row) = row_of(alloc, number) else {
        return Err(InsertFault::Fetch(FetchFault::Memory));
    };
    if table {
        insert_row(alloc, pages, root, number, &row)
    } else {
        insert_entry(alloc, pages, root, &row)
    }
}

/// Whether the row of each number is put in.
pub fn puts<P: EditPages>(
    alloc: Global,
    pages: &mut P,
    root: u32,
    table: bool,
    numbers: &[i64],
) -> bool
    requires { P.ready pages.old }
    ensures { P.ready pages.new }
{
    'numbers: for k in 0..numbers.len() {
        if put_one(alloc, pages, root, table, numbers[k]).is_err() {
            return false;
        }
    }
    true
}

/// Whether the row of each number is there, so that it isn't put in.
pub fn has<P: EditPages>(
    alloc: Global,
    pages: &mut P,
    root: u32,
    table: bool,
    numbers: &[i64],
) -> bool
    requires { P.ready pages.old }
    ensures { P.ready pages.new }
{
    'numbers: for k in 0..numbers.len() {
        if !matches!(
            put_one(alloc, pages, root, table, numbers[k]),
            Err(InsertFault::Exists)
        ) {
            return false;
        }
    }
    true
}

/// Whether the row of a number comes next.
fn comes<P: Pages>(
    alloc: Global,
    pages: &mut P,
    cursor: &mut Cursor,
    table: bool,
    number: i64,
) -> bool
    requires ready { P.ready pages.old }
    requires fits { Fits P.PagesTells pages.old cursor.old }
    ensures ready { P.ready pages.new }
    ensures fits { Fits P.PagesTells pages.new cursor.new }
{
    let Ok(row) = row_of(alloc, number) else {
        return false;
    };
    let key = if table { number } else { 0 };
    match cursor.next(pages) {
        Ok(Some(found)) => found.0 == key && order_rows(&found.1, &row) == Ordering::Equal,
        Ok(None) | Err(_) => false,
    }
}

/// Whether the tree lists the rows of these numbers, and no more.
pub fn lists<P: Pages>(
    alloc: Global,
    pages: &mut P,
    root: u32,
    table: bool,
    numbers: &[i64],
) -> bool
    requires { P.ready pages.old }
    ensures { P.ready pages.new }
{
    let mut cursor = if table {
        Cursor::rows(alloc, root, None, None)
    } else {
        Cursor::entries(alloc, root, None, None)
    };
    'numbers: for k in 0..numbers.len() {
        if !comes(alloc, pages, &mut cursor, table, numbers[k]) {
            return false;
        }
    }
    matches!(cursor.next(pages), Ok(None))
}
