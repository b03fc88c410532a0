//! Trees given up: all pages of a tree go to the freelist.
//!
//! A page that was given up may be written over at once. So a page's cells are gone through before it is given up: what a cell leads to goes first,
//! children and chains, and the page itself last. Each page is fetched once. There is one buffer for each level, at most 41, and one for chains.
#![tactic(auto)]

mod cells;
mod tree;

pub use tree::drop_tree;
