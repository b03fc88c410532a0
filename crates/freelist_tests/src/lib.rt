//! Tests of the freelist, over trunks worked by hand and a list that the real sqlite3 wrote. They stand apart, since a crate with tests of its own is
//! proved twice.
#![tactic(auto)]

#[cfg(test)]
mod laid;
#[cfg(test)]
mod lists;
#[cfg(test)]
mod stock;
