//! Tests of b-tree pages: pages that stock SQLite wrote, broken pages, and edits. They stand apart, since a crate with tests of its
//! own is proved twice.
#![tactic(auto)]

#[cfg(test)]
mod faults;
#[cfg(test)]
mod stock;
#[cfg(test)]
mod vectors;
