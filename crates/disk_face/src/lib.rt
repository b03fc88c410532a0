//! What lies outside the program, as traits: a disk of three files, a source of input, a sink for output, and random words.
//!
//! Each trait says by ghost members what a value of it means, and its clauses say how a call changes that.
//! Disks, sources and sinks keep a count of faults that never falls. It rises in each call that answers [`Failed`] and in no
//! other, but for a write of a sink that takes nothing.
#![tactic(auto)]

mod disk;
mod random;
mod sink;
mod source;
mod step;
mod tells;
mod text;

pub use disk::{Disk, File};
pub use random::Salts;
pub use sink::Sink;
pub use source::Source;
pub use step::{Piece, Step};
pub use tells::DiskTells;
pub use text::{Bytes, Txt, Word};

/// A call on something outside the program failed. Its count of faults rose in that call.
#[derive(Clone, Copy, Debug, PartialEq, Eq)]
pub struct Failed;
