//! Tests of chains over pages that the real sqlite3 wrote. They stand apart, since a crate with tests of its own is proved twice.
#![tactic(auto)]

#[cfg(test)]
mod chains;
#[cfg(test)]
mod edited;
#[cfg(test)]
mod laid;
#[cfg(test)]
mod stock;
#[cfg(test)]
mod written;
