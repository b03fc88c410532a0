//! Tests of a store over a disk, by page lines on a disk in memory that fails, stops and crashes. They stand apart, since a crate with tests of its
//! own is proved twice.
#![tactic(auto)]

#[cfg(test)]
mod again;
#[cfg(test)]
mod failing;
#[cfg(test)]
mod lines;
#[cfg(test)]
mod model;
#[cfg(test)]
mod quiet;
#[cfg(test)]
mod reasons;
#[cfg(test)]
mod rows;
#[cfg(test)]
mod sides;
#[cfg(test)]
mod trial;
