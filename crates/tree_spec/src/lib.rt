//! Definitions of what b-trees and overflow chains are: which pages they are made of, and what they list.
//!
//! The crate has no code. `specs/` holds the definitions that the contracts of other crates cite, and `proofs/` the two laws on
//! which views that differ rest: a tree is what its own pages show, and pages may be renumbered.
#![tactic(auto)]
