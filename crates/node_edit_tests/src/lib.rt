//! Tests of nodes edited in the bytes of their pages. They stand apart, since a crate with tests of its own is proved twice.
//!
//! An edit asks what its page shows and that each text is one cell. The helpers of `pages` and `parts` test both when they run, so that a test needs no more
//! than cells.
#![tactic(auto)]

#[cfg(test)]
mod anew;
#[cfg(test)]
mod divisions;
#[cfg(test)]
mod leaves;
#[cfg(test)]
mod neighbours;
#[cfg(test)]
mod pages;
#[cfg(test)]
mod parts;
#[cfg(test)]
mod puts;
