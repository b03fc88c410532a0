//! Tests of runs of page lines over a database's files, on a disk in memory that fails and stops. They stand apart, since a crate with tests of its own
//! is proved twice.
#![tactic(auto)]

#[cfg(test)]
mod failing;
#[cfg(test)]
mod plain;
#[cfg(test)]
mod rows;
