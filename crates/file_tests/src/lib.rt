//! Tests of disks of real files over a stand-in for the runtime's files, which notes each call, fails on demand and moves one byte
//! a call. They stand apart, since a crate with tests of its own is proved twice.
#![tactic(auto)]

#[cfg(test)]
mod calls;
#[cfg(test)]
mod descriptors;
#[cfg(test)]
mod failures;
#[cfg(test)]
mod notes;
#[cfg(test)]
mod room;
#[cfg(test)]
mod run;
#[cfg(test)]
mod watched;
#[cfg(test)]
mod watched_file;
