//! Definitions of what a whole database is: the rows of its schema, the trees that they name, and when each of its pages is in one place.
//!
//! The crate has no code. `specs/` holds the definitions that the contracts of other crates cite, and `proofs/` laws on them: there is one
//! way to take a view for a sound database, its trees are apart from one another and from the freelist, and they stay where their pages do.
#![tactic(auto)]
