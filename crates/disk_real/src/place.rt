// Where a database lies that is named by a symbolic link.
use crate::again::uninterrupted;
use std::alloc::{AllocError, Global};
use std::io::ErrorKind;
use std::path::Path;
use std::rt::Files;
use std::{fs, io};

// How many links are followed one after another, as many as Linux follows in one name.
const MOST_LINKS: usize = 40;

/// The path itself, or where the link leads that stands there, be there a file or not.
pub(crate) fn place_of<R: Files>(rt: &R, alloc: Global, path: &str) -> io::Result<String> {
    let mut place = format!(in alloc; "{path}")?;
    for _ in 0..MOST_LINKS {
        match target_of(rt, alloc, place.as_str())? {
            Some(target) => place = beside(alloc, place.as_str(), target.as_str())?,
            None => return Ok(place),
        }
    }
    Err(io::Error::from(ErrorKind::FilesystemLoop))
}

/// The text of the link that stands there, if one does.
fn target_of<R: Files>(rt: &R, alloc: Global, place: &str) -> io::Result<Option<String>> {
    match uninterrupted(|| fs::symlink_metadata(rt, place)) {
        Ok(found) if found.is_symlink() => {
            let target = uninterrupted(|| rt.read_link(alloc, place))?;
            Ok(Some(target.into_string()))
        }
        Ok(_) => Ok(None),
        Err(error) if error.kind() == ErrorKind::NotFound => Ok(None),
        Err(error) => Err(error),
    }
}

/// A link's text is a path from the folder that the link stands in.
fn beside(alloc: Global, link: &str, target: &str) -> Result<String, AllocError> {
    let folder = match Path::new(link).parent() {
        Some(folder) => folder,
        None => Path::new(""),
    };
    Ok(folder.join(alloc, target)?.into_string())
}
