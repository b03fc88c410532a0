//! What the two logs of a store allow: which lock a reader takes, whether a page may be copied, whether a commit goes over to the other log,
//! and which commit bars another one.
//!
//! Nothing here takes memory.
#![tactic(auto)]

mod conflict;
mod state;

pub use conflict::{Conflict, least_conflict};
pub use state::{LogState, lock_of, may_copy, may_switch};
