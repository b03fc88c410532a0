// How a database's files are named.
ghost use Rattle.std.specs.Prelude.{◌≡◌, IfOk};
ghost use Rattle.disk_real.specs.Disk.{names_of, name_of};

use disk_face::File;
use std::alloc::{AllocError, Global};
use std::marker::Model;

/// The path that a database is named by, and the names of its three files and of its journal. They follow from where the
/// path leads.
#[derive(Drop)]
pub(crate) struct Names {
    given: String,
    main: String,
    log1: String,
    log2: String,
    journal: String,
}

impl Model for Names {
    ghost use Rattle.std.specs.Prelude.{string_bytes};
    ghost use Rattle.disk_real.specs.Disk.{NamesState};

    ghost Value = { NamesState };

    ghost view = { λ names. record {
      given = string_bytes names.given;
      main = string_bytes names.main;
      log1 = string_bytes names.log1;
      log2 = string_bytes names.log2;
      journal = string_bytes names.journal;
    } };
}

impl Names {
    /// The names that follow from a path that leads to this place.
    pub(crate) fn of(alloc: Global, path: &str, place: &str) -> Result<Names, AllocError>
        ensures { IfOk result (λ names. names ≡ names_of path.now place.now) }
    {
        Ok(Names {
            given: format!(in alloc; "{path}")?,
            main: format!(in alloc; "{place}")?,
            log1: format!(in alloc; "{place}-wal")?,
            log2: format!(in alloc; "{place}-wal2")?,
            journal: format!(in alloc; "{place}-journal")?,
        })
    }

    /// The name of one of the three files.
    pub(crate) fn file(&self, file: File) -> &str
        ensures { result.now ≡ name_of self.now file }
    {
        match file {
            File::Main => self.main.as_str(),
            File::Log1 => self.log1.as_str(),
            File::Log2 => self.log2.as_str(),
        }
    }

    /// The name of the journal.
    pub(crate) fn journal(&self) -> &str
        ensures { result.now ≡ self.now.journal }
    {
        self.journal.as_str()
    }
}
