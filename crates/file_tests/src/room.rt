// A folder for the files of one test.
use std::io::ErrorKind;
use std::{fs, io};

/// An empty folder of this name.
pub(crate) fn empty_folder(rt: &HostRuntime, folder: &str) -> io::Result<()> {
    remove_folder(rt, folder)?;
    fs::create_dir(rt, folder)
}

/// The folder and what is in it go.
pub(crate) fn remove_folder(rt: &HostRuntime, folder: &str) -> io::Result<()> {
    match fs::remove_dir_all(rt, folder) {
        Err(error) if error.kind() == ErrorKind::NotFound => Ok(()),
        answer => answer,
    }
}

/// Whether the file holds these bytes and no others.
pub(crate) fn holds(rt: &HostRuntime, path: &str, bytes: &[u8]) -> io::Result<bool> {
    let content = fs::read(rt, path)?;
    Ok(content.as_slice() == bytes)
}
