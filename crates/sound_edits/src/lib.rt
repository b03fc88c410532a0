//! Laws on what edits of one tree leave of a whole database: its other trees stand as before, and each page in use is in one place still.
//!
//! The crate has no code. `specs/` holds what the laws in `proofs/` speak of.
#![tactic(auto)]
