// A stand-in for the runtime's files: real ones, whose calls are noted, of which one can be made to fail, and which move one
// byte in a call.
use crate::notes::Notes;
use crate::watched_file::WatchedFile;
use std::alloc::Allocator;
use std::fs::{File, Metadata, OpenOptions};
use std::io;
use std::io::ErrorKind;
use std::path::{Path, PathBuf};
use std::rt::Files;

/// The files of a runtime, watched.
#[derive(Drop)]
pub(crate) struct Watched<'a> {
    rt: &'a HostRuntime,
    notes: &'a Notes,
}

impl<'a> Watched<'a> {
    pub(crate) fn new(rt: &'a HostRuntime, notes: &'a Notes) -> Watched<'a> {
        Watched { rt, notes }
    }

    // Has a link to a file `other` stand at the name while the file is opened, and no longer.
    fn open_other(&self, how: &OpenOptions, path: &str) -> io::Result<File> {
        let away = format!(in self.rt.alloc(); "{path}-away")?;
        self.rt.rename(path, away.as_str())?;
        self.rt.symlink("other", path)?;
        let file = how.open(self.rt, path)?;
        self.rt.remove_file(path)?;
        self.rt.rename(away.as_str(), path)?;
        Ok(file)
    }

    fn open(&self, how: &OpenOptions, path: &str) -> io::Result<File> {
        if how.asks_write() && self.notes.swaps(name_of(path)) {
            self.open_other(how, path)
        } else {
            how.open(self.rt, path)
        }
    }
}

// The last part of a path.
fn name_of(path: &str) -> &str {
    match Path::new(path).file_name() {
        Some(name) => name,
        None => path,
    }
}

fn call_of(how: &OpenOptions) -> &'static str {
    if how.asks_create_new() {
        "make"
    } else if how.asks_create() || how.asks_truncate() {
        "create"
    } else if how.asks_write() {
        "update"
    } else {
        "open"
    }
}

fn unsupported<T>() -> io::Result<T> {
    Err(io::Error::from(ErrorKind::Unsupported))
}

impl<'a> Files for Watched<'a> {
    type File = WatchedFile<'a>;

    type Dir = File;

    fn open_file(&self, how: &OpenOptions, path: &str) -> io::Result<WatchedFile<'a>> {
        let name = name_of(path);
        self.notes.note(call_of(how), name)?;
        let file = self.open(how, path)?;
        let name = format!(in self.rt.alloc(); "{name}")?;
        WatchedFile::new(file, name, self.notes, how.asks_write())
    }

    fn open_dir(&self, _path: &str) -> io::Result<File> {
        unsupported()
    }

    fn metadata(&self, path: &str) -> io::Result<Metadata> {
        self.notes.pass("look", name_of(path))?;
        self.rt.metadata(path)
    }

    fn symlink_metadata(&self, path: &str) -> io::Result<Metadata> {
        self.notes.pass("look", name_of(path))?;
        self.rt.symlink_metadata(path)
    }

    fn read_link<B: Allocator>(&self, alloc: B, path: &str) -> io::Result<PathBuf<B>> {
        self.rt.read_link(alloc, path)
    }

    fn copy(&self, _from: &str, _to: &str) -> io::Result<u64> {
        unsupported()
    }

    fn rename(&self, _from: &str, _to: &str) -> io::Result<()> {
        unsupported()
    }

    fn remove_file(&self, _path: &str) -> io::Result<()> {
        unsupported()
    }

    fn create_dir(&self, _path: &str) -> io::Result<()> {
        unsupported()
    }

    fn remove_dir(&self, _path: &str) -> io::Result<()> {
        unsupported()
    }

    fn remove_dir_all<B: Allocator>(&self, _alloc: B, _path: &str) -> io::Result<()> {
        unsupported()
    }
}
