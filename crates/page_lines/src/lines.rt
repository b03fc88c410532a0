// Page lines as acts, and what each is answered.
use engine_spec::{Ckpt, Logs, Receipt};

/// What one line of a script asks for. Sessions 1 to 15 act on pages 2 to 16; session 0 looks after the logs.
#[derive(Clone, Copy, Debug, PartialEq, Eq)]
pub enum Act {
    /// Begins a transaction at the newest snapshot.
    Begin {
        /// Who.
        session: u32,
    },
    /// Asks for the first byte of a page.
    Read {
        /// Who.
        session: u32,
        /// The page.
        page: u32,
    },
    /// Sets every byte of a page.
    Write {
        /// Who.
        session: u32,
        /// The page.
        page: u32,
        /// The value of each byte.
        byte: u8,
    },
    /// Commits the transaction.
    Commit {
        /// Who.
        session: u32,
    },
    /// Gives the transaction up.
    Rollback {
        /// Who.
        session: u32,
    },
    /// Takes steps of a checkpoint until one copies no page.
    Copy,
    /// Takes one step of a checkpoint.
    Step,
    /// Asks how the logs stand.
    Logs,
}

/// What an act is answered.
#[derive(Clone, Copy, Debug, PartialEq, Eq)]
pub enum Told {
    /// It is done.
    Ok,
    /// The page's first byte.
    Byte(u8),
    /// The transaction ended well.
    Done(Receipt),
    /// The transaction read this page, which this later commit wrote. It has to roll back.
    Busy {
        /// The least such page.
        page: u32,
        /// The first such commit.
        commit: u64,
    },
    /// The session is in a transaction already.
    InTransaction,
    /// The session is in no transaction.
    NoTransaction,
    /// The session's transaction was refused, and has to roll back first.
    MustRollBack,
    /// The disk failed.
    Disk,
    /// An earlier write or sync of a log failed.
    Stopped {
        /// The log, 1 or 2.
        log: u8,
        /// The offset in it, in bytes.
        at: u64,
    },
    /// The database would be too large.
    Size {
        /// How many pages it would have.
        pages: u64,
    },
    /// What a checkpoint did.
    Ckpt(Ckpt),
    /// How the logs stand.
    Logs(Logs),
}
