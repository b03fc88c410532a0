// What a reader holds, and what a checkpoint and a look at the logs answer.

/// A read lock: which of the two logs a reader reads a front of, and whether it also reads all of the other one below it.
#[derive(Clone, Copy, Debug, PartialEq, Eq)]
pub enum Lock {
    /// A front of log 1 over the database.
    Part1,
    /// A front of log 1 over all of log 2 over the database.
    Part1Full2,
    /// A front of log 2 over the database.
    Part2,
    /// A front of log 2 over all of log 1 over the database.
    Part2Full1,
}

/// A reader's hold on a snapshot. It keeps the snapshot's pages readable until it is ended.
#[derive(Clone, Copy, Debug, PartialEq, Eq)]
pub struct Pin {
    /// The snapshot: how many commits of this opening it includes.
    pub n: u64,
    /// How many pages the snapshot has.
    pub size: u32,
    /// The read lock that the reader holds.
    pub lock: Lock,
    /// The generation of the log that was current when the pin was taken.
    pub generation: u32,
    /// How many frames of that log belong to the snapshot.
    pub mark: u32,
}

/// How many readers hold each lock. A count that reaches 2^64-1 stays there.
#[derive(Clone, Copy, Debug, PartialEq, Eq)]
pub struct Readers {
    /// Readers that hold [`Lock::Part1`].
    pub part1: u64,
    /// Readers that hold [`Lock::Part1Full2`].
    pub part1_full2: u64,
    /// Readers that hold [`Lock::Part2`].
    pub part2: u64,
    /// Readers that hold [`Lock::Part2Full1`].
    pub part2_full1: u64,
}

/// What one step of a checkpoint did.
#[derive(Clone, Copy, Debug, PartialEq, Eq)]
pub enum Ckpt {
    /// This page was copied from the log into the database.
    Copied(u32),
    /// No page was left to copy, and the log is done.
    Finished,
    /// There is nothing to copy.
    Idle,
    /// So many readers hold what the copying would overwrite.
    Held(u64),
}

/// How the two logs stand.
#[derive(Clone, Copy, Debug, PartialEq, Eq)]
pub struct Logs {
    /// The log that commits are written to: 1 or 2.
    pub current: u8,
    /// How many frames the current log has.
    pub frames: u32,
    /// Whether the other log is in the database already.
    pub done: bool,
}
