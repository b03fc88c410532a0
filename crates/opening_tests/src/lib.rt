//! Tests of the opening of a database. They stand apart, since a crate with tests of its own is proved twice.
//!
//! `bench/opening_files.py` computes the files, what a look has to see of them, and what settling has to leave.
#![tactic(auto)]

#[cfg(test)]
mod files;
#[cfg(test)]
mod left;
#[cfg(test)]
mod openings;
#[cfg(test)]
mod recovered;
#[cfg(test)]
mod seen;
#[cfg(test)]
mod trial;
