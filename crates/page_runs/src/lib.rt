//! Runs of page lines: from the bytes of a script in a source to the bytes of the replies in a sink.
//!
//! `specs/Outcome.antt` says what a script writes, and with which status its run ends.
#![tactic(auto)]

mod in_memory;
mod lines;
mod output;
mod pages;
mod reply;
mod sessions;
mod status;

pub use in_memory::{engine_of_zeros, run_in_memory};
pub use output::{say_last, write_all};
pub use pages::run_pages;
pub use reply::told_text;
pub use sessions::Sessions;
pub use status::Status;
