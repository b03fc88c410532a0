//! Rows and entries put into trees.
//!
//! An insert goes down to the leaf of its key, and puts the cell in there. A page that has no room is divided: it keeps its number and the upper part of
//! its cells, and the lower parts go to new pages to its left, for each of which the page above gets a cell. A root that was divided grows by a level and
//! keeps its number.
#![tactic(auto)]

mod cell;
mod descend;
mod entry;
mod fault;
mod first;
mod root;
mod row;

pub use entry::insert_entry;
pub use fault::InsertFault;
pub use row::insert_row;
