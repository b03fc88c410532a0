//! Tests of a transaction's pages, over a database that the real sqlite3 wrote, in the engine in memory. They stand apart, since a crate with
//! tests of its own is proved twice.
#![tactic(auto)]

#[cfg(test)]
mod database;
#[cfg(test)]
mod transactions;
