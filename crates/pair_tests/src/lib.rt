//! Tests of the two logs of a store. They stand apart, since a crate with tests of its own is proved twice.
#![tactic(auto)]

#[cfg(test)]
mod failing;
#[cfg(test)]
mod logs;
#[cfg(test)]
mod trial;
#[cfg(test)]
mod written;
