//! Definitions of the database with which a store of tables begins, and the law that what was counted before holds of it.
//!
//! The crate has no code. A database is checked as it is recovered, before an opening writes anything; `proofs/` shows that the map with which the
//! store then begins is as sound, with the same counts, and that a new database is sound.
#![tactic(auto)]
