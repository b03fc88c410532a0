// One of the three files, as the operating system has it.
use crate::again::uninterrupted;
use crate::folder::Folder;
use std::fs::OpenFile;
use std::io;
use std::io::{ErrorKind, Read, Seek, SeekFrom, Write};
use std::rt::Files;

/// One of the three files. Its name isn't kept here.
#[derive(Drop)]
pub(crate) struct RealFile<F> {
    /// The file, open for reading and writing, or none while it is missing.
    open: Option<F>,
    /// Whether its folder has been synced since it was opened. Before, a loss of power may take the name of a file away that
    /// was made not long ago, also by an earlier program.
    folder_synced: bool,
}

impl<F> RealFile<F> {
    /// The file as it was opened or made, or none where it is missing.
    pub(crate) fn new(open: Option<F>) -> RealFile<F> {
        RealFile {
            open,
            folder_synced: false,
        }
    }

    /// The open file, or none where it is missing.
    pub(crate) fn opened(&self) -> Option<&F> {
        self.open.as_ref()
    }
}

impl<F: Read + Write + Seek + OpenFile + Drop> RealFile<F> {
    /// The file's length. A missing file is empty.
    pub(crate) fn size(&self) -> io::Result<u64> {
        match &self.open {
            Some(file) => Ok(uninterrupted(|| file.metadata())?.len()),
            None => Ok(0),
        }
    }

    /// Fills the buffer, or fails.
    pub(crate) fn read(&mut self, at: u64, buf: &mut [u8]) -> io::Result<()> {
        match &mut self.open {
            Some(file) => {
                uninterrupted(|| file.seek(SeekFrom::Start(at)))?;
                file.read_exact(buf)
            }
            None if buf.is_empty() => Ok(()),
            None => Err(io::Error::from(ErrorKind::UnexpectedEof)),
        }
    }

    /// Writes the piece, all of it, or fails. A missing file takes none.
    pub(crate) fn write(&mut self, at: u64, piece: &[u8]) -> io::Result<()> {
        match &mut self.open {
            Some(file) => {
                uninterrupted(|| file.seek(SeekFrom::Start(at)))?;
                file.write_all(piece)
            }
            None => Err(io::Error::from(ErrorKind::NotFound)),
        }
    }

    /// Syncs the file, and the first time its folder as well. Of a file that is missing there is nothing to sync.
    pub(crate) fn sync<R: Files<File = F>>(
        &mut self,
        rt: &R,
        path: &str,
        folder: &mut Folder,
    ) -> io::Result<()> {
        let Some(file) = &self.open else {
            return Ok(());
        };
        uninterrupted(|| file.sync_all())?;
        if !self.folder_synced {
            folder.sync(rt, path)?;
            self.folder_synced = true;
        }
        Ok(())
    }
}
