//! Definitions of the states that a database's files pass while it is opened, and of what a crash leaves in each.
//!
//! The crate has no code. `specs/` holds the definitions that the contracts of an opening cite: what an opening finds in the logs,
//! the states from the first sync to both new headers, and what may have become of the files at any moment. `proofs/` holds laws
//! about them: what a crash leaves in each state, and how one state goes on to the next.
#![tactic(auto)]
