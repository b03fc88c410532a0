// A script over pages of 512 bytes and logs of four frames, and what it is answered where no call of the disk fails. Each commit has two frames, of page 1
// and of the page that it wrote, so the third one goes over to log 2. A second COMMIT and a ROLLBACK stand behind each, for where it is refused.

/// What a line asks for. Session 1 writes, session 3 reads, and session 0 looks after the logs.
#[derive(Clone, Copy, Debug)]
pub enum Asked {
    Begin,
    /// A write of one of the three pages that are written, by its place among them.
    Write,
    /// The commit of that write.
    Commit(usize),
    Rollback,
    BeginReader,
    Read,
    EndReader,
    Logs,
    Copy,
    Step,
}

/// A line, what it asks for, and its reply where no call of the disk fails.
pub type Row = (Asked, &'static [u8], &'static [u8]);

pub const ROWS: &[Row] = &[
    (Asked::Begin, b"1: BEGIN", b"1: ok"),
    (Asked::Write, b"1: WRITE 2 7", b"1: ok"),
    (Asked::Commit(0), b"1: COMMIT", b"1: commit 1"),
    (Asked::Commit(0), b"1: COMMIT", b"1: error no transaction"),
    (Asked::Rollback, b"1: ROLLBACK", b"1: error no transaction"),
    (Asked::Begin, b"1: BEGIN", b"1: ok"),
    (Asked::Write, b"1: WRITE 3 8", b"1: ok"),
    (Asked::Commit(1), b"1: COMMIT", b"1: commit 2"),
    (Asked::Commit(1), b"1: COMMIT", b"1: error no transaction"),
    (Asked::Rollback, b"1: ROLLBACK", b"1: error no transaction"),
    (Asked::Logs, b"0: LOGS", b"0: log 1 frames 4 other done"),
    (Asked::BeginReader, b"3: BEGIN", b"3: ok"),
    (Asked::Begin, b"1: BEGIN", b"1: ok"),
    (Asked::Write, b"1: WRITE 4 9", b"1: ok"),
    (Asked::Commit(2), b"1: COMMIT", b"1: commit 3"),
    (Asked::Commit(2), b"1: COMMIT", b"1: error no transaction"),
    (Asked::Rollback, b"1: ROLLBACK", b"1: error no transaction"),
    (Asked::Logs, b"0: LOGS", b"0: log 2 frames 2 other pending"),
    (Asked::Copy, b"0: CHECKPOINT", b"0: held 1"),
    (Asked::Read, b"3: READ 4", b"3: byte 0"),
    (Asked::EndReader, b"3: COMMIT", b"3: read 2"),
    (Asked::Step, b"0: STEP", b"0: copied 1"),
    (Asked::Copy, b"0: CHECKPOINT", b"0: finished"),
    (Asked::Copy, b"0: CHECKPOINT", b"0: idle"),
];

/// The script that reads the three pages when the files are opened again.
pub const READS: &[u8] = b"1: BEGIN\n1: READ 2\n1: READ 3\n1: READ 4\n";
