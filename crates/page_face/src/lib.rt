//! The faces between the layers: what a caller sees of pages, of an engine, and of what statements mean.
//!
//! [`Engine`] is a store of page maps with snapshots and commits, [`Pages`] the pages of one map, [`PutPages`] and [`EditPages`]
//! the pages of a transaction that may change them, and [`Means`] what statements do to a page map. What an engine or pages tell
//! stands in a trait without calls ([`EngineTells`], [`PagesTells`]), so that one record says what a call does to all of it.
#![tactic(auto)]

mod engine;
mod engine_tells;
mod means;
mod pages;
mod pages_tells;
mod prepared;
mod read_set;

pub use engine::Engine;
pub use engine_spec::{
    Ckpt, CommitFault, FetchFault, Lock, Logs, Mode, PageImage, Pin, Readers, Receipt, Who,
};
pub use engine_tells::EngineTells;
pub use means::Means;
pub use pages::{EditPages, Pages, PutPages};
pub use pages_tells::PagesTells;
pub use prepared::Prepared;
pub use read_set::ReadSet;
