//! Tests of edits of b-tree pages. They stand apart, since a crate with tests of its own is proved twice.
//!
//! An edit wants a page whose bytes are the text of one, and a cell that is just one cell. Each helper of `pages` tests both when it
//! runs, so that a test needs no more than its bytes. `is_cell` is lent to the measurement of edits besides.
#![tactic(auto)]

#[cfg(test)]
mod calls;
mod cells;
#[cfg(test)]
mod pages;
#[cfg(test)]
mod pieces;
#[cfg(test)]
mod worn;

pub use cells::is_cell;
