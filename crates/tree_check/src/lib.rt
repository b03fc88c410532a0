//! A whole database checked: its header, freelist, schema and trees, and that each page is in one place.
//!
//! The pages are walked in one order: page 1's header, the freelist, page 1's tree, and then the trees of the roots that its rows name, in the
//! order of the rows, each depth first. No page is met twice, so the walk ends, and each is
//! read once. Which pages were met is kept in a bit a page; a tree's pages are read into one buffer a level, made once.
#![tactic(auto)]

mod chain;
mod check;
mod forms;
mod free;
mod marks;
mod row;
mod spot;
mod tree;
mod walk;

pub use check::check_all;
pub use check_spec::{CheckFault, Count};
