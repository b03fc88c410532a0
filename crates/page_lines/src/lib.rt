//! What page lines say and do: the plain types of acts and answers, what the lines mean as statements ([`Raw`]), and the
//! definitions that speak of them.
//!
//! The crate has no code. `specs/` holds the definitions that the contracts of other crates cite (statements, the world of whole
//! maps and one step of it, the texts of answers, serial order), and `proofs/` laws about them.
#![tactic(auto)]

mod lines;
mod raw;

pub use lines::{Act, Told};
pub use raw::Raw;
