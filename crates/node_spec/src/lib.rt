//! Definitions of what a b-tree page is: its text, its cells, the node that it shows, and the first field that breaks it.
//!
//! The crate has no code. `src/` holds the kinds of pages alone, which `page_form` hands on; `specs/` holds the definitions
//! that the contracts of other crates cite, and `proofs/` laws about them.
#![tactic(auto)]

mod kinds;

pub use kinds::Kind;
