// Page lines with what each is answered, in short.
use disk_face::File;
use page_face::{Ckpt, Logs, Receipt};
use page_lines::{Act, Told};

/// A line and its answer. A session comes first, then a page, then a byte; of a commit its number comes last.
#[derive(Clone, Copy)]
pub enum Line {
    Begin(u32),
    /// The byte is the answer.
    Read(u32, u32, u8),
    Write(u32, u32, u8),
    /// A commit that is numbered so.
    Commit(u32, u64),
    /// A commit of a transaction that wrote nothing, and read this snapshot.
    End(u32, u64),
    /// A commit that is refused, since this page was written by this commit.
    Busy(u32, u32, u64),
    /// A commit that is refused, since a disk failed.
    Disk(u32),
    /// A commit that is refused, since a log's write failed: the log, and the place in it.
    Stopped(u32, u8, u64),
    /// A roll-back, and whether there was a transaction.
    Rollback(u32, bool),
    Copy(Ckpt),
    Step(Ckpt),
    /// The current log, its frames, and whether the other one is done.
    Logs(u8, u32, bool),
}

impl Line {
    /// What is asked.
    pub fn act(self) -> Act {
        match self {
            Line::Begin(session) => Act::Begin { session },
            Line::Read(session, page, _) => Act::Read { session, page },
            Line::Write(session, page, byte) => Act::Write {
                session,
                page,
                byte,
            },
            Line::Commit(session, _)
            | Line::End(session, _)
            | Line::Busy(session, _, _)
            | Line::Disk(session)
            | Line::Stopped(session, _, _) => Act::Commit { session },
            Line::Rollback(session, _) => Act::Rollback { session },
            Line::Copy(_) => Act::Copy,
            Line::Step(_) => Act::Step,
            Line::Logs(_, _, _) => Act::Logs,
        }
    }

    /// What it is answered.
    pub fn told(self) -> Told {
        match self {
            Line::Begin(_) | Line::Write(_, _, _) | Line::Rollback(_, true) => Told::Ok,
            Line::Read(_, _, byte) => Told::Byte(byte),
            Line::Commit(_, number) => Told::Done(Receipt::At(number)),
            Line::End(_, snapshot) => Told::Done(Receipt::ReadOnly(snapshot)),
            Line::Busy(_, page, commit) => Told::Busy { page, commit },
            Line::Disk(_) => Told::Disk,
            Line::Stopped(_, log, at) => Told::Stopped { log, at },
            Line::Rollback(_, false) => Told::NoTransaction,
            Line::Copy(answer) | Line::Step(answer) => Told::Ckpt(answer),
            Line::Logs(current, frames, done) => Told::Logs(Logs {
                current,
                frames,
                done,
            }),
        }
    }
}
