//! Definitions of what the bytes and pages of a database are: big-endian numbers, varints, the database header, page maps,
//! and what it means that two page maps agree.
//!
//! The crate has no code. `specs/` holds the definitions that the contracts of other crates cite, and `proofs/` laws about
//! them.
#![tactic(auto)]
