//! Runs of page lines over a database's files: from the path of the files and the bytes of a script to the bytes of the replies.
//!
//! `specs/OnDisk.antt` says what such a run comes to: which refusals there are, and what the lines of a script do to the files otherwise.
#![tactic(auto)]

mod on_disk;

pub use on_disk::{run_on_disk, say_why};
