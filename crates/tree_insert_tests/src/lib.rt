//! Tests of rows and entries put into trees, over the pages of a transaction. They stand apart, since a crate with tests of its own is proved twice.
#![tactic(auto)]

#[cfg(test)]
mod database;
#[cfg(test)]
mod grown;
#[cfg(test)]
mod trees;
