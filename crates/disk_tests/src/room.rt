// A folder for the files of one test, and calls of disks in few words.
use disk_face::{Disk, File};
use disk_real::FileDisk;
use std::fs;
use std::io::ErrorKind;
use std::os::unix::fs::symlink;

/// Whether there is an empty folder of this name now.
pub(crate) fn empties(rt: &HostRuntime, folder: &str) -> bool {
    removes(rt, folder) && makes_folder(rt, folder)
}

/// Whether the folder and what is in it are gone.
pub(crate) fn removes(rt: &HostRuntime, folder: &str) -> bool {
    match fs::remove_dir_all(rt, folder) {
        Ok(()) => true,
        Err(error) => error.kind() == ErrorKind::NotFound,
    }
}

/// Whether a folder was made.
pub(crate) fn makes_folder(rt: &HostRuntime, folder: &str) -> bool {
    fs::create_dir(rt, folder).is_ok()
}

/// Whether a file was made that holds these bytes.
pub(crate) fn makes_file(rt: &HostRuntime, path: &str, bytes: &[u8]) -> bool {
    fs::write(rt, path, bytes).is_ok()
}

/// Whether a symbolic link to that name was made.
pub(crate) fn links(rt: &HostRuntime, target: &str, path: &str) -> bool {
    symlink(rt, target, path).is_ok()
}

/// Whether nothing has this name.
pub(crate) fn is_missing(rt: &HostRuntime, path: &str) -> bool {
    match fs::exists(rt, path) {
        Ok(is_there) => !is_there,
        Err(_) => false,
    }
}

/// Whether the file holds these bytes and no others.
pub(crate) fn holds(rt: &HostRuntime, path: &str, bytes: &[u8]) -> bool {
    match fs::read(rt, path) {
        Ok(content) => content.as_slice() == bytes,
        Err(_) => false,
    }
}

/// Whether a database can be attached by this name.
pub(crate) fn attaches(rt: &HostRuntime, path: &str) -> bool {
    let mut disk = FileDisk::new(rt, rt.alloc());
    disk.attach(path.as_bytes()).is_ok()
}

/// Whether the piece is written to the front of the file.
pub(crate) fn writes(disk: &mut FileDisk<'_, HostRuntime>, file: File, piece: &[u8]) -> bool {
    disk.write_at(file, 0, piece).is_ok()
}
