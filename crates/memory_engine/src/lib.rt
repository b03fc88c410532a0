//! An engine that keeps its page maps in memory, each commit's beside those before it.
#![tactic(auto)]

mod conflict;
mod lay;
mod made;
mod plain;
mod shared_page;

pub use plain::Plain;
