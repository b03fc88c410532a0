// How a database's files are opened and made.
ghost use Rattle.std.specs.Prelude.{◌≡◌, IfOk, IfSome};
ghost use Rattle.std.specs.Fs.{file_type, IsFile};

use crate::again::uninterrupted;
use crate::lock::LockFile;
use crate::moves::take_from;
use std::fs::{Metadata, OpenFile, OpenOptions, Permissions};
use std::io::ErrorKind;
use std::os::unix::fs::{MetadataExt, OpenOptionsExt, PermissionsExt};
use std::rt::Files;
use std::{fs, io};

// Who may read, write and run a file.
const PERMISSIONS: u32 = 0o777;

/// Opens and locks the database file, if it is there. It fails where [`open_file`] does, and where another one holds it.
pub(crate) fn open_database<R: Files>(rt: &R, path: &str) -> io::Result<Option<R::File>>
where
    R::File: LockFile,
{
    let opened = open_file(rt, path)?;
    if let Some(file) = &opened {
        uninterrupted(|| file.lock_alone())?;
    }
    Ok(opened)
}

/// Makes and locks the database file. It fails where one is there: another one has made it since it was looked for.
pub(crate) fn make_database<R: Files>(rt: &R, path: &str) -> io::Result<R::File>
where
    R::File: LockFile,
{
    let mut how = OpenOptions::new();
    how.read(true).write(true).create_new(true);
    let file = uninterrupted(|| how.open(rt, path))?;
    uninterrupted(|| file.lock_alone())?;
    Ok(file)
}

/// Opens one of the three files, if it is there. It fails where it can't be opened for reading and writing, and where something
/// else than a regular file with one name stands at its name. No way to open says that a link isn't to be followed: so what was
/// opened has to be what stands there.
pub(crate) fn open_file<R: Files>(rt: &R, path: &str) -> io::Result<Option<R::File>> {
    if stands_at(rt, path)?.is_none() {
        return Ok(None);
    }
    let Some(file) = open_there(rt, path)? else {
        return Ok(None);
    };
    let opened = uninterrupted(|| file.metadata())?;
    match stands_at(rt, path)? {
        Some(stands) if is_same(&stands, &opened) => Ok(Some(file)),
        _ => Err(io::Error::from(ErrorKind::InvalidInput)),
    }
}

/// Makes a log with the permissions of the database file, and with its owner and group where this process may set them. It
/// fails where something stands at its name, also a link.
pub(crate) fn make_log<R: Files>(rt: &R, path: &str, database: &R::File) -> io::Result<R::File> {
    let wanted = uninterrupted(|| database.metadata())?;
    let mut how = OpenOptions::new();
    let mode = wanted.mode() & PERMISSIONS;
    how.read(true).write(true).create_new(true).mode(mode);
    let log = uninterrupted(|| how.open(rt, path))?;
    let made = uninterrupted(|| log.metadata())?;
    if made.gid() != wanted.gid() {
        unless_denied(uninterrupted(|| rt.lchown(path, None, Some(wanted.gid()))))?;
    }
    if made.uid() != wanted.uid() {
        unless_denied(uninterrupted(|| rt.lchown(path, Some(wanted.uid()), None)))?;
    }
    // The process's mask narrows what the log is made with.
    if made.mode() & PERMISSIONS != mode {
        uninterrupted(|| log.set_permissions(Permissions::from_mode(mode)))?;
    }
    Ok(log)
}

fn is_same(one: &Metadata, other: &Metadata) -> bool {
    one.dev() == other.dev() && one.ino() == other.ino()
}

fn unless_denied(answer: io::Result<()>) -> io::Result<()> {
    match answer {
        Err(error) if error.kind() == ErrorKind::PermissionDenied => Ok(()),
        answer => answer,
    }
}

fn open_there<R: Files>(rt: &R, path: &str) -> io::Result<Option<R::File>> {
    let mut how = OpenOptions::new();
    how.read(true).write(true);
    match uninterrupted(|| how.open(rt, path)) {
        Ok(file) => Ok(Some(file)),
        Err(error) if error.kind() == ErrorKind::NotFound => Ok(None),
        Err(error) => Err(error),
    }
}

/// What stands at a file's name, if anything does. Whatever isn't a regular file is refused, a link too, wherever it leads. So
/// is a file with another name beside this one: by that name it would have logs of its own, and either set would lack the
/// commits of the other.
fn stands_at<R: Files>(rt: &R, path: &str) -> io::Result<Option<Metadata>>
    ensures { IfOk result (λ found. IfSome found (λ found. IsFile (file_type found))) }
{
    match uninterrupted(|| fs::symlink_metadata(rt, path)) {
        Ok(found) if found.is_file() && found.nlink() <= 1 => Ok(Some(found)),
        Ok(_) => Err(io::Error::from(ErrorKind::InvalidInput)),
        Err(error) if error.kind() == ErrorKind::NotFound => Ok(None),
        Err(error) => Err(error),
    }
}

/// Says whether there is such a file whose first byte isn't 0. It fails where something else than a regular file is there:
/// a read of a pipe would wait.
pub(crate) fn is_hot<R: Files>(rt: &R, path: &str) -> io::Result<bool> {
    match uninterrupted(|| fs::metadata(rt, path)) {
        Ok(found) if found.is_file() => begins_hot(uninterrupted(|| fs::open(rt, path))?),
        Ok(_) => Err(io::Error::from(ErrorKind::InvalidInput)),
        Err(error) if error.kind() == ErrorKind::NotFound => Ok(false),
        Err(error) => Err(error),
    }
}

fn begins_hot<F: io::Read + Drop>(mut file: F) -> io::Result<bool> {
    let mut first = [0];
    let count = take_from(&mut file, &mut first)?;
    Ok(count == 1 && first[0] != 0)
}
