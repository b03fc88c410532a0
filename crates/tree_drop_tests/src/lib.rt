//! Tests of trees given up, over a database that the real sqlite3 finds in order. They stand apart, since a crate with tests of its own is proved twice.
#![tactic(auto)]

#[cfg(test)]
mod laid;
#[cfg(test)]
mod stock;
#[cfg(test)]
mod trees;
