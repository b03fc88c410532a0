//! What an engine is: the plain types of pins and commits, and the definitions that speak of them.
//!
//! The crate has no code. `src/` holds the types alone, which `page_face` hands on; `specs/` holds the definitions that the
//! contracts of other crates cite (changes, histories, logs, what an engine tells, its events), and `proofs/` laws about them.
#![tactic(auto)]

mod commits;
mod pins;

pub use commits::{Commit, CommitFault, Entry, FetchFault, Mode, PageImage, Receipt, Who};
pub use pins::{Ckpt, Lock, Logs, Pin, Readers};
