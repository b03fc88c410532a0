//! B-tree pages edited in place: a page begun, a cell put in or taken out, all free bytes brought together.
//!
//! Each edit is said of the node that the page shows (crate `node_spec`). None takes memory. An edit writes no freeblock and no
//! fragment: a cell is put into the gap between the pointers and the content, after the page was packed where the gap is too
//! small, and a page is packed when a cell is taken out. What a page of strangers has of both stays until it is packed.
#![tactic(auto)]

mod edit;
mod form;
mod gap;
mod moving;
mod start;

pub use edit::{NoRoom, pack, put_cell, take_cell};
pub use start::start_page;
