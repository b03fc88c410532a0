// The folder that a database's files stand in.
use crate::again::uninterrupted;
use std::fs::OpenFile;
use std::io::ErrorKind;
use std::path::Path;
use std::rt::Files;
use std::{fs, io};

/// Whether a sync of the folder has failed. What it was to confirm may be lost though a later one answers well, so none is
/// made after that.
#[derive(Drop)]
pub(crate) struct Folder {
    is_lost: bool,
}

impl Folder {
    /// No sync of it has failed.
    pub(crate) fn new() -> Folder {
        Folder { is_lost: false }
    }

    /// Has the names in the folder of this file reach the medium.
    pub(crate) fn sync<R: Files>(&mut self, rt: &R, path: &str) -> io::Result<()> {
        if self.is_lost {
            return Err(io::Error::from(ErrorKind::Other));
        }
        let answer = sync_folder(rt, path);
        self.is_lost = answer.is_err();
        answer
    }
}

// A folder that can't be opened can't be synced, and some systems know no sync of a folder. There the names are left to the
// system.
fn sync_folder<R: Files>(rt: &R, path: &str) -> io::Result<()> {
    let Ok(folder) = uninterrupted(|| fs::open(rt, folder_of(path))) else {
        return Ok(());
    };
    match uninterrupted(|| folder.sync_all()) {
        Err(error) if is_unknown(error.kind()) => Ok(()),
        answer => answer,
    }
}

fn is_unknown(kind: ErrorKind) -> bool {
    matches!(kind, ErrorKind::InvalidInput | ErrorKind::Unsupported)
}

fn folder_of(path: &str) -> &str {
    match Path::new(path).parent() {
        Some(folder) if !folder.as_str().is_empty() => folder.as_str(),
        _ => ".",
    }
}
