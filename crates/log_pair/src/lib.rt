//! The two logs of a store on any disk: frames are appended to the current one and made to reach the medium, a commit goes over to
//! the other, and pages are read from both.
//!
//! Nothing here takes memory: a frame is laid on the stack, by one function for small pages and one for large ones.
#![tactic(auto)]

mod frame;
mod header;
mod pair;

pub use header::NewHeader;
pub use pair::LogPair;
