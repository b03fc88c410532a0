// An open file of the stand-in.
use crate::notes::Notes;
use disk_real::LockFile;
use std::fs::{File, Metadata, OpenFile, Permissions};
use std::io;
use std::io::{Read, Seek, SeekFrom, Write};
use std::os::fd::{AsRawFd, RawFd};

/// An open file, watched.
#[derive(Drop)]
pub(crate) struct WatchedFile<'a> {
    file: File,
    name: String,
    notes: &'a Notes,
    descriptor: Descriptor<'a>,
}

/// A descriptor as it would be with some of the standard streams closed.
struct Descriptor<'a> {
    number: RawFd,
    notes: &'a Notes,
}

impl<'a> Drop for Descriptor<'a> {
    fn drop(self) {
        let Descriptor { number, notes } = self;
        notes.give_back(number);
    }
}

impl<'a> WatchedFile<'a> {
    pub(crate) fn new(
        file: File,
        name: String,
        notes: &'a Notes,
        writes: bool,
    ) -> io::Result<WatchedFile<'a>> {
        let number = notes.next_descriptor();
        if writes && number < 3 {
            notes.note("as standard stream", name.as_str())?;
        }
        let descriptor = Descriptor { number, notes };
        Ok(WatchedFile {
            file,
            name,
            notes,
            descriptor,
        })
    }

    fn pass(&self, call: &str) -> io::Result<()> {
        self.notes.pass(call, self.name.as_str())
    }

    fn note(&self, call: &str) -> io::Result<()> {
        self.notes.note(call, self.name.as_str())
    }
}

impl<'a> Read for WatchedFile<'a> {
    fn read(&mut self, buf: &mut [u8]) -> io::Result<usize> {
        self.pass("read")?;
        let mut one = [0];
        match buf {
            [] => Ok(0),
            [first, ..] => {
                let count = self.file.read(&mut one)?;
                *first = one[0];
                Ok(count)
            }
        }
    }
}

impl<'a> Write for WatchedFile<'a> {
    fn write(&mut self, buf: &[u8]) -> io::Result<usize> {
        self.pass("write")?;
        match buf {
            [] => Ok(0),
            [first, ..] => self.file.write(&[*first]),
        }
    }

    fn flush(&mut self) -> io::Result<()> {
        Ok(())
    }
}

impl<'a> Seek for WatchedFile<'a> {
    fn seek(&mut self, to: SeekFrom) -> io::Result<u64> {
        self.pass("seek")?;
        self.file.seek(to)
    }
}

impl<'a> OpenFile for WatchedFile<'a> {
    fn metadata(&self) -> io::Result<Metadata> {
        self.pass("size")?;
        self.file.metadata()
    }

    fn set_len(&self, size: u64) -> io::Result<()> {
        self.note("set length")?;
        self.file.set_len(size)
    }

    fn sync_all(&self) -> io::Result<()> {
        self.note("sync")?;
        self.file.sync_all()
    }

    fn sync_data(&self) -> io::Result<()> {
        self.note("sync data")?;
        self.file.sync_data()
    }

    fn set_permissions(&self, perm: Permissions) -> io::Result<()> {
        self.file.set_permissions(perm)
    }
}

impl<'a> LockFile for WatchedFile<'a> {
    fn lock_alone(&self) -> io::Result<()> {
        self.note("lock")?;
        self.file.lock_alone()
    }
}

impl<'a> AsRawFd for WatchedFile<'a> {
    fn as_raw_fd(&self) -> RawFd {
        self.descriptor.number
    }
}
