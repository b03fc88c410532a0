//! A tree's items in key order: a cursor over the rows of a table or the entries of an index that goes on from where it stands.
//!
//! A cursor keeps its path: for each level from the root down a page with its bytes, and the place from which on what is under that page is
//! still to come. A call goes up past the pages of which nothing is left, then down along the children that come next to where a cell comes next,
//! and gives that cell's item. On a leaf cells alone come; on an interior page of an index the cell behind each child comes after what is under it.
//! So no page is fetched twice in a row, and none that the cursor stands on is fetched again. Going up or down leaves what is to come as it is: a
//! call that is refused half way has lost nothing.
#![tactic(auto)]

mod bounds;
mod buffers;
mod cursor;
mod level;
mod path;
mod row;
mod seek;

pub use cursor::Cursor;
