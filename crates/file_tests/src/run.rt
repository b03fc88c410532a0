// A run of each call of a disk over watched files, told as one text.
ghost use Rattle.std.specs.Prelude.{◌≡◌, false, is_some};

use crate::notes::{Notes, Went};
use crate::room::empty_folder;
use crate::watched::Watched;
use disk_face::{Disk, File};
use disk_real::FileDisk;
use std::{fs, io};

/// Runs over a database, its first log, no second one and a cold journal, in a folder of this name. The notes then have a letter
/// for each call, with `!` where it failed and `?` where it went well and did another thing:
/// `a` attaches, `j` asks for a hot journal, `s` for the size of the first log, `r` reads it, `w` writes it, `y` and `z` sync it,
/// `m` syncs the database, `n` makes the second log, `k` syncs it. Where `a` fails nothing follows.
pub(crate) fn run(rt: &HostRuntime, folder: &str, notes: &Notes) -> io::Result<()> {
    start(rt, folder)?;
    calls(rt, folder, notes)
}

/// The folder and its files as a run finds them.
pub(crate) fn start(rt: &HostRuntime, folder: &str) -> io::Result<()> {
    empty_folder(rt, folder)?;
    put(rt, folder, "db", b"main")?;
    put(rt, folder, "db-wal", b"abc")?;
    put(rt, folder, "db-journal", b"\0cold")
}

/// Puts a file with these bytes into the folder.
pub(crate) fn put(rt: &HostRuntime, folder: &str, name: &str, bytes: &[u8]) -> io::Result<()> {
    let path = format!(in rt.alloc(); "{folder}/{name}")?;
    fs::write(rt, path.as_str(), bytes)
}

/// The calls of a run, in a folder that has its files.
pub(crate) fn calls(rt: &HostRuntime, folder: &str, notes: &Notes) -> io::Result<()> {
    let path = format!(in rt.alloc(); "{folder}/db")?;
    let files = Watched::new(rt, notes);
    let mut disk = FileDisk::new(&files, rt.alloc());
    all_calls(&mut disk, path.as_str(), notes)
}

fn all_calls(disk: &mut FileDisk<'_, Watched<'_>>, path: &str, notes: &Notes) -> io::Result<()>
    requires { is_some disk.old.named ≡ false }
{
    let is_attached = attach(disk, path);
    notes.answer("a", told(is_attached))?;
    if is_attached {
        reads(disk, notes)?;
        writes(disk, notes)?;
        syncs(disk, notes)?;
        second_log(disk, notes)?;
    }
    Ok(())
}

/// Names the files, and says whether that went well.
pub(crate) fn attach(disk: &mut FileDisk<'_, Watched<'_>>, path: &str) -> bool
    requires { is_some disk.old.named ≡ false }
    ensures { is_some disk.new.named ≡ result }
{
    disk.attach(path.as_bytes()).is_ok()
}

fn told(is_well: bool) -> Went {
    if is_well { Went::Well } else { Went::Failed }
}

fn reads(disk: &mut FileDisk<'_, Watched<'_>>, notes: &Notes) -> io::Result<()> {
    notes.answer("j", hot(disk))?;
    notes.answer("s", sized(disk))?;
    notes.answer("r", read(disk))
}

fn writes(disk: &mut FileDisk<'_, Watched<'_>>, notes: &Notes) -> io::Result<()> {
    let is_written = disk.write_at(File::Log1, 0, b"xyz").is_ok();
    notes.answer("w", told(is_written))
}

fn syncs(disk: &mut FileDisk<'_, Watched<'_>>, notes: &Notes) -> io::Result<()> {
    notes.answer("y", synced(disk, File::Log1))?;
    notes.answer("z", synced(disk, File::Log1))?;
    notes.answer("m", synced(disk, File::Main))
}

fn second_log(disk: &mut FileDisk<'_, Watched<'_>>, notes: &Notes) -> io::Result<()> {
    let is_written = disk.write_at(File::Log2, 0, b"q").is_ok();
    notes.answer("n", told(is_written))?;
    notes.answer("k", synced(disk, File::Log2))
}

fn hot(disk: &mut FileDisk<'_, Watched<'_>>) -> Went {
    match disk.journal() {
        Ok(false) => Went::Well,
        Ok(true) => Went::Wrong,
        Err(_) => Went::Failed,
    }
}

fn sized(disk: &mut FileDisk<'_, Watched<'_>>) -> Went {
    match disk.size(File::Log1) {
        Ok(3) => Went::Well,
        Ok(_) => Went::Wrong,
        Err(_) => Went::Failed,
    }
}

fn read(disk: &mut FileDisk<'_, Watched<'_>>) -> Went {
    let mut bytes = [0; 3];
    match disk.read_at(File::Log1, 0, &mut bytes) {
        Ok(()) if bytes == *b"abc" => Went::Well,
        Ok(()) => Went::Wrong,
        Err(_) => Went::Failed,
    }
}

fn synced(disk: &mut FileDisk<'_, Watched<'_>>, file: File) -> Went {
    told(disk.sync(file).is_ok())
}
