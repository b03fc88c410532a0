//! Definitions of what a commit makes of a transaction's pages: the numbers that its new pages get, the pointers that change with them, the
//! freelist and page 1 then, and the map that it leaves.
//!
//! The crate has no code. `specs/` holds the definitions that the contracts of other crates cite, and `proofs/` worked cases and laws.
#![tactic(auto)]
