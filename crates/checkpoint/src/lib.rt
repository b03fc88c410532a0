//! One step of a checkpoint: the next page of the log that isn't current is copied into the database, or the database is synced and that log is done.
//!
//! A page is copied by one read of its last frame and one write of the database; nothing is synced until all pages were copied, so what a crash
//! leaves of the database until then is covered by the log. Nothing here takes memory.
#![tactic(auto)]

mod copy;
mod one_step;

pub use one_step::step;
