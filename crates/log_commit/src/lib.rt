//! The frames of a commit, written to the current log of a store: one write for each page, then one sync.
//!
//! At each moment a crash leaves the map before the commit or the one after it; once the sync was done it leaves that one. Nothing here takes memory.
#![tactic(auto)]

mod commit;

pub use commit::{CommitPages, write_commit};
