// What a disk does to its files, as data.
use crate::{Bytes, File};

/// Bytes for a place of a file.
#[derive(Debug, Drop)]
pub struct Piece {
    /// The file.
    pub file: File,
    /// How many bytes of the file lie before the piece.
    pub at: u64,
    /// The bytes.
    pub bytes: Bytes,
}

/// One step of a disk. What reads give and what a crash may leave follows from its steps.
#[derive(Debug, Drop)]
pub enum Step {
    /// The piece was written.
    Wrote(Piece),
    /// A write of the piece was refused, and left these bytes from the piece's place on.
    Refused(Piece, Bytes),
    /// What was written of the file has reached the medium.
    Synced(File),
}
