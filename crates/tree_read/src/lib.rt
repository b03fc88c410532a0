//! Trees read: a table's row found by its rowid, the greatest rowid, and whether an index has an entry.
//!
//! A look-up goes down from the root. On each page it looks for its place among the cells by halving, and goes on at the child there: that of
//! the first cell with no smaller rowid, or with a greater entry. It fetches one page a level, and the pages of the chains of the
//! payloads that it reads. Each page that is passed is looked at as a whole, stands where it may, and names a child in range.
#![tactic(auto)]

mod entry;
mod find;
mod last;
mod node;
mod place;
mod row;
mod way;

pub use entry::{Spot, find_entry, seek};
pub use find::find_row;
pub use last::last_row;
pub use node::{is_outside, read_node, usable_of};
pub use place::{child_before, place_of};
pub use row::{local_of, row_of};
pub use way::page_buffer;
