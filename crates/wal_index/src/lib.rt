//! The index of two write-ahead logs, in memory: where the last frame of a page stands in each log, and which commit wrote a page first after another.
//!
//! A store asks it for each page that it fetches and for each page that a commit read, so no question walks over the frames of a log.
#![tactic(auto)]

mod commits;
mod frames;
mod index;
mod log;
mod room;

pub use index::WalIndex;
