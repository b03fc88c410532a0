//! Definitions of the files that a crash may have left and that the next opening takes.
//!
//! The crate has no code. `specs/` holds what such files need, and `proofs/` the law that they are opened: no fault of the files
//! bars it.
#![tactic(auto)]
