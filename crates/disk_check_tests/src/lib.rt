//! Tests of checks of a database's files, on a disk in memory that fails. They stand apart, since a crate with tests of its own is proved twice.
#![tactic(auto)]

#[cfg(test)]
mod files;
