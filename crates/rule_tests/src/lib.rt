//! Tests of the index of two logs and of what two logs allow. They stand apart, since a crate with tests of its own is proved twice.
#![tactic(auto)]

#[cfg(test)]
mod conflicts;
#[cfg(test)]
mod index;
#[cfg(test)]
mod logs;
