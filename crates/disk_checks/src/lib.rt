//! Checks of a database's files: from the path of the files to the line that tells what they hold.
//!
//! `specs/Checks.antt` says what such a check comes to: which refusals there are, and what was counted otherwise.
#![tactic(auto)]

mod check;

pub use check::check_on_disk;
