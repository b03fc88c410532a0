//! Definitions of how a whole database is walked, place by place, and which fault is the first that the walk meets.
//!
//! `specs/` holds the definitions that the contract of the check cites, and `proofs/` laws on them. The only code is what the check answers, and where
//! a page stands in a tree.
#![tactic(auto)]

mod fault;
mod spot;

pub use fault::{CheckFault, Count};
pub use spot::Spot;
