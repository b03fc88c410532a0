//! Tests of the pages that a commit writes. They stand apart, since a crate with tests of its own is proved twice.
//!
//! Images that are laid have to be of different pages. The helper of `images` tests that when it runs, so that a test is a table of rows.
#![tactic(auto)]

#[cfg(test)]
mod first;
#[cfg(test)]
mod images;
#[cfg(test)]
mod orders;
