//! Tests of disks, sources and sinks, in memory and real. They stand apart, since a crate with tests of its own is proved twice.
#![tactic(auto)]

#[cfg(test)]
mod kinds;
#[cfg(test)]
mod links;
#[cfg(test)]
mod memory;
#[cfg(test)]
mod real_files;
#[cfg(test)]
mod room;
#[cfg(test)]
mod streams;
