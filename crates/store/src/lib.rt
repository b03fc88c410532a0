//! A store over a disk: commits in two logs that take turns, snapshots, and a checkpoint that never stops a writer.
#![tactic(auto)]

mod bar;
mod ckpt;
mod commit;
mod commits;
mod fetch;
mod halt;
mod kept_pages;
mod lay;
mod open;
mod open_fault;
mod plan;
mod room;
mod solo;
mod store;
mod tables;
mod write;

pub use commits::{Commits, Wrote};
pub use kept_pages::KeptPages;
pub use open_fault::{OpenFault, append_reason};
pub use plan::Plan;
pub use solo::Solo;
pub use store::{Halt, Store};
