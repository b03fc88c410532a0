use crate::sum::Sum;

/// What the header of a log of ours tells.
#[derive(Clone, Copy, Debug, PartialEq, Eq)]
pub struct LogHeader {
    /// Whether the log's words are read with the most significant byte first, else with the least.
    pub big: bool,
    /// The size of a page in bytes: a power of two from 512 to 65536.
    pub page_size: u32,
    /// The generation, 1 to 4,000,000,000: odd in log 1, even in log 2. The log of higher generation is the newer one.
    pub generation: u32,
    /// The first salt, which each frame of this header repeats.
    pub salt1: u32,
    /// The second salt, likewise.
    pub salt2: u32,
    /// The checksum over the header, from which that of the first frame goes on.
    pub sum: Sum,
}

/// What a log begins with.
#[derive(Clone, Copy, Debug, PartialEq, Eq)]
pub enum Front {
    /// No whole header with a right magic number and a right checksum. The log has no frames.
    Nothing,
    /// Such a header, of this version, that isn't ours: at offset 4 another version, at 8 no legal page size, or at 12 no
    /// generation of this log, whichever is first.
    Foreign { version: u32, at: u64 },
    /// A header that is ours.
    Ours(LogHeader),
}
