//! What lies outside the program, in memory: for tests, and for proofs that a crash leaves what it may leave.
#![tactic(auto)]

mod crash;
mod disk;
mod file;
mod fuse;
mod note;
mod plan;
mod sink;
mod source;
mod store;
mod words;

pub use disk::MemDisk;
pub use plan::{Call, Fail, Made};
pub use sink::MemSink;
pub use source::MemSource;
pub use words::FixedSalts;
