//! Tests of look-ups and scans in trees that the real sqlite3 wrote. They stand apart, since a crate with tests of its own is proved twice.
#![tactic(auto)]

#[cfg(test)]
mod laid;
#[cfg(test)]
mod scans;
#[cfg(test)]
mod stock;
#[cfg(test)]
mod trees;
