// How a run ended.
ghost use Rattle.std.specs.Prelude.{◌≡◌};
ghost use Rattle.page_runs.specs.Status.{code_of};

/// How a run of the program ended.
#[derive(Clone, Copy, Debug, PartialEq, Eq)]
pub enum Status {
    /// The script was read to its end; or, where none is read, what was asked for is done.
    Done,
    /// A line isn't in the grammar or past a limit, and the last line written names it.
    ScriptRefused,
    /// The words ask for nothing that there is, and the only line written says so.
    WordsRefused,
    /// The source failed, and the last line written says so.
    SourceFailed,
    /// The sink failed.
    SinkFailed,
    /// The disk failed while the database was opened, and the last line written says so.
    DiskFailed,
    /// The database isn't opened, and the last line written says why.
    DatabaseRefused,
    /// Memory ran out.
    NoMemory,
}

impl Status {
    /// The number that the program ends with.
    pub fn code(self) -> u8
        ensures { result ≡ code_of self }
    {
        match self {
            Status::Done => 0,
            Status::ScriptRefused => 1,
            Status::WordsRefused => 2,
            Status::SourceFailed => 3,
            Status::SinkFailed => 4,
            Status::DiskFailed => 5,
            Status::DatabaseRefused => 6,
            Status::NoMemory => 7,
        }
    }
}
