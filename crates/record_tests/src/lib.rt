//! Tests of records and of the order of values. They stand apart, since a crate with tests of its own is proved twice.
#![tactic(auto)]

#[cfg(test)]
mod faults;
#[cfg(test)]
mod ordered;
#[cfg(test)]
mod told;
#[cfg(test)]
mod written_by_sqlite;
