// A disk of real files.
ghost use Rattle.std.specs.Prelude.{◌≡◌, true, false, [], Some, None, is_some, is_ok, IfOk, OnOk, OnErr};
ghost use Rattle.disk_face.specs.Faults.{Counts, one_more};
ghost use Rattle.disk_face.specs.Stays.{OnlyNames, OnlyReads, OnlyWrites};
ghost use Rattle.disk_face.specs.Told.{IsNamed, IsSize, IsRead, IsAnswer, Refuses};
ghost use Rattle.disk_face.specs.Steps.{after};
ghost use Rattle.disk_face.specs.declared.step.Step.TheVariants.{Wrote, Synced};
ghost use Rattle.disk_real.specs.Disk.{AreNamedBy, names_of, path_of, is_lost, with_lost};
ghost use Rattle.disk_real.specs.Untold.{untold};

use crate::fault::counted;
use crate::lock::LockFile;
use crate::lost::Lost;
use crate::names::Names;
use crate::opening::is_hot;
use crate::place::place_of;
use crate::three::ThreeFiles;
use disk_face::{Disk, DiskTells, Failed, File};
use std::alloc::Global;
use std::io::ErrorKind;
use std::marker::Model;
use std::os::fd::AsRawFd;
use std::rt::Files;
use std::{io, str};

/// A database's three files, as the operating system has them. A call fails where one of the operating system's fails, or
/// where there is no memory. A contract sees by which names the files were named, of which files a sync has failed, and how
/// often a call has.
#[derive(Drop)]
pub struct FileDisk<'a, R: Files> {
    rt: &'a R,
    alloc: Global,
    named: Option<Names>,
    files: ThreeFiles<R::File>,
    lost: Lost,
    faults: u64,
}

impl<'a, R: Files> Model for FileDisk<'a, R> {
    ghost use Rattle.disk_real.specs.Disk.{FileDiskState};

    ghost Value = { FileDiskState };

    ghost view = { λ disk. record { named = disk.named; lost = disk.lost; faults = disk.faults } };
}

impl<'a, R: Files> FileDisk<'a, R> {
    /// A disk whose files are still to be named.
    pub fn new(rt: &'a R, alloc: Global) -> FileDisk<'a, R>
        ensures { result ≡ record { named = None; lost = record { main = false; log1 = false; log2 = false }; faults = 0 } }
    {
        FileDisk {
            rt,
            alloc,
            named: None,
            files: ThreeFiles::missing(alloc),
            lost: Lost::none(),
            faults: 0,
        }
    }
}

impl<'a, R: Files> DiskTells for FileDisk<'a, R> {
    ghost told = { λ disk. untold };

    ghost attached = { λ disk. is_some disk.named };

    ghost named = { λ disk. path_of disk.named };

    ghost journal_answer = { λ disk. None };

    ghost faults = { λ disk. disk.faults };

    ghost loans = { λ disk. [] };
}

impl<'a, R: Files> Disk for FileDisk<'a, R>
where
    R::File: LockFile + AsRawFd,
{
    /// Follows a path that is a symbolic link; the logs stand beside the file that it leads to. It fails where a file that is
    /// there can't be opened for reading and writing, is no regular file, or has another name, where another one holds the
    /// database, and where a log's name is a link.
    fn attach(&mut self, path: &[u8]) -> Result<(), Failed>
        requires { is_some self.old.named ≡ false }
        ensures attached { is_some self.new.named ≡ is_ok result }
        ensures names { AreNamedBy path.now self.new.named }
        ensures named { OnOk result (IsNamed (path_of self.new.named) path.now) }
        ensures unnamed { OnErr result (path_of self.new.named ≡ path_of self.old.named) }
        ensures stays { OnlyNames ⟦<FileDisk<'a, R> as DiskTells>⟧ self.old self.new }
        ensures lost { self.new.lost ≡ self.old.lost }
        ensures faults { Counts (is_ok result) self.old.faults self.new.faults }
    {
        let names = counted(&mut self.faults, names_by(self.rt, self.alloc, path))?;
        counted(&mut self.faults, self.files.open(self.rt, &names))?;
        self.named = Some(names);
        Ok(())
    }

    fn journal(&mut self) -> Result<bool, Failed>
        ensures answer { IfOk result (λ hot. IsAnswer None hot) }
        ensures stays { OnlyReads ⟦<FileDisk<'a, R> as DiskTells>⟧ self.old self.new }
        ensures named { self.new.named ≡ self.old.named }
        ensures lost { self.new.lost ≡ self.old.lost }
        ensures faults { Counts (is_ok result) self.old.faults self.new.faults }
    {
        let answer = match &self.named {
            Some(names) => is_hot(self.rt, names.journal()),
            None => Err(not_named()),
        };
        counted(&mut self.faults, answer)
    }

    fn size(&mut self, file: File) -> Result<u64, Failed>
        ensures size { IfOk result (λ size. IsSize untold file size) }
        ensures stays { OnlyReads ⟦<FileDisk<'a, R> as DiskTells>⟧ self.old self.new }
        ensures named { self.new.named ≡ self.old.named }
        ensures lost { self.new.lost ≡ self.old.lost }
        ensures faults { Counts (is_ok result) self.old.faults self.new.faults }
    {
        let answer = self.files.of(file).size();
        counted(&mut self.faults, answer)
    }

    fn read_at(&mut self, file: File, at: u64, buf: &mut [u8]) -> Result<(), Failed>
        ensures bytes { OnOk result (IsRead untold file at buf.new) }
        ensures stays { OnlyReads ⟦<FileDisk<'a, R> as DiskTells>⟧ self.old self.new }
        ensures named { self.new.named ≡ self.old.named }
        ensures lost { self.new.lost ≡ self.old.lost }
        ensures faults { Counts (is_ok result) self.old.faults self.new.faults }
    {
        let answer = self.files.of(file).read(at, buf);
        counted(&mut self.faults, answer)
    }

    fn write_at(&mut self, file: File, at: u64, piece: &[u8]) -> Result<(), Failed>
        ensures written { OnOk result (untold ≡ after (Wrote (record { file = file; at = at; bytes = piece.now })) untold) }
        ensures refused { OnErr result (Refuses (record { file = file; at = at; bytes = piece.now }) untold untold) }
        ensures stays { OnlyWrites ⟦<FileDisk<'a, R> as DiskTells>⟧ self.old self.new }
        ensures named { self.new.named ≡ self.old.named }
        ensures lost { self.new.lost ≡ self.old.lost }
        ensures faults { Counts (is_ok result) self.old.faults self.new.faults }
    {
        let answer = match &self.named {
            Some(names) => self.files.write(self.rt, names, file, at, piece),
            None => Err(not_named()),
        };
        counted(&mut self.faults, answer)
    }

    /// Once a sync of a file has failed, each later one fails and none is made: on many systems a second one answers well
    /// though the bytes never arrived.
    fn sync(&mut self, file: File) -> Result<(), Failed>
        ensures stuck { is_lost self.old.lost file ≡ true → is_ok result ≡ false }
        ensures kept { OnOk result (self.new.lost ≡ self.old.lost) }
        ensures lost { OnErr result (self.new.lost ≡ with_lost self.old.lost file) }
        ensures synced { OnOk result (untold ≡ after (Synced file) untold) }
        ensures unsynced { OnErr result (untold ≡ untold) }
        ensures stays { OnlyWrites ⟦<FileDisk<'a, R> as DiskTells>⟧ self.old self.new }
        ensures named { self.new.named ≡ self.old.named }
        ensures faults { Counts (is_ok result) self.old.faults self.new.faults }
    {
        let answer = match &self.named {
            Some(names) if !self.lost.has(file) => self.files.sync(self.rt, names, file),
            _ => Err(not_named()),
        };
        if answer.is_err() {
            self.lost.add(file);
        }
        counted(&mut self.faults, answer)
    }
}

// No call comes before `attach`.
fn not_named() -> io::Error {
    io::Error::from(ErrorKind::InvalidInput)
}

// The names by a path that is text.
fn names_by<R: Files>(rt: &R, alloc: Global, path: &[u8]) -> io::Result<Names>
    ensures { IfOk result (λ names. names ≡ names_of path.now names.main) }
{
    let Ok(path) = str::from_utf8(path) else {
        return Err(io::Error::from(ErrorKind::InvalidInput));
    };
    let place = place_of(rt, alloc, path)?;
    Ok(Names::of(alloc, path, place.as_str())?)
}
