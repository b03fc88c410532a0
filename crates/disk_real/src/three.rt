// A database's three files, as the operating system has them.
use crate::file::RealFile;
use crate::folder::Folder;
use crate::lock::LockFile;
use crate::names::Names;
use crate::opening::{make_database, make_log, open_database, open_file};
use crate::standard::Standard;
use disk_face::File;
use std::alloc::Global;
use std::fs::OpenFile;
use std::io;
use std::io::{ErrorKind, Read, Seek, Write};
use std::os::fd::AsRawFd;
use std::rt::Files;

/// The three files and their folder. None is made before it is written, and no log before the database file: so whoever has
/// written anything holds the lock, and each log finds the permissions that it takes. None is opened or made before the
/// descriptors of the standard streams are filled.
#[derive(Drop)]
pub(crate) struct ThreeFiles<F> {
    main: RealFile<F>,
    log1: RealFile<F>,
    log2: RealFile<F>,
    folder: Folder,
    standard: Standard<F>,
}

impl<F> ThreeFiles<F> {
    /// Files that are all missing.
    pub(crate) fn missing(alloc: Global) -> ThreeFiles<F> {
        ThreeFiles {
            main: RealFile::new(None),
            log1: RealFile::new(None),
            log2: RealFile::new(None),
            folder: Folder::new(),
            standard: Standard::new(alloc),
        }
    }

    /// One of the three.
    pub(crate) fn of(&mut self, file: File) -> &mut RealFile<F> {
        match file {
            File::Main => &mut self.main,
            File::Log1 => &mut self.log1,
            File::Log2 => &mut self.log2,
        }
    }
}

impl<F: Read + Write + Seek + OpenFile + LockFile + AsRawFd + Drop> ThreeFiles<F> {
    /// Opens the files that are there and locks the database file. It makes none. Where one can't be opened none is.
    pub(crate) fn open<R: Files<File = F>>(&mut self, rt: &R, names: &Names) -> io::Result<()> {
        self.standard.fill(rt)?;
        let main = open_database(rt, names.file(File::Main))?;
        let log1 = open_file(rt, names.file(File::Log1))?;
        let log2 = open_file(rt, names.file(File::Log2))?;
        self.main = RealFile::new(main);
        self.log1 = RealFile::new(log1);
        self.log2 = RealFile::new(log2);
        Ok(())
    }

    /// Writes the piece. A file that is missing is made first.
    pub(crate) fn write<R: Files<File = F>>(
        &mut self,
        rt: &R,
        names: &Names,
        file: File,
        at: u64,
        piece: &[u8],
    ) -> io::Result<()> {
        if self.of(file).opened().is_none() {
            self.make(rt, names, file)?;
        }
        self.of(file).write(at, piece)
    }

    // Makes the file, and before a log the database file where that is missing too.
    fn make<R: Files<File = F>>(&mut self, rt: &R, names: &Names, file: File) -> io::Result<()> {
        self.standard.fill(rt)?;
        if self.main.opened().is_none() {
            self.main = RealFile::new(Some(make_database(rt, names.file(File::Main))?));
        }
        let made = match (file, self.main.opened()) {
            (File::Main, _) => return Ok(()),
            (_, Some(database)) => make_log(rt, names.file(file), database)?,
            (_, None) => return Err(io::Error::from(ErrorKind::NotFound)),
        };
        *self.of(file) = RealFile::new(Some(made));
        Ok(())
    }

    /// Syncs the file, and the first time its folder as well.
    pub(crate) fn sync<R: Files<File = F>>(
        &mut self,
        rt: &R,
        names: &Names,
        file: File,
    ) -> io::Result<()> {
        let path = names.file(file);
        match file {
            File::Main => self.main.sync(rt, path, &mut self.folder),
            File::Log1 => self.log1.sync(rt, path, &mut self.folder),
            File::Log2 => self.log2.sync(rt, path, &mut self.folder),
        }
    }
}
