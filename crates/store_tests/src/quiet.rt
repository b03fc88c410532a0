// A disk in memory that tells contracts nothing of its bytes: what an opening asks of the files would have to be proved of whatever a crash left. It
// keeps what each file held at its last sync, so that a crash can leave old bytes.
//
// A read or write that isn't inside its file fails here, and is no call of the disk beneath: a test sees a failure for which no call was named.
ghost use Rattle.std.specs.Prelude.{◌≡◌, ◌≤◌, ◌+◌, [], None, true, false, is_ok, IfOk};
ghost use Rattle.disk_face.specs.Faults.{Counts};

use disk_face::{Disk, DiskTells, Failed, File};
use disk_mem::{Fail, MemDisk};
use std::alloc::{AllocError, Global};

/// More bytes than a crash leaves unsure in these tests.
const UNSURE: usize = 60_000;

/// The disk, and what each file held at its last sync.
#[derive(Drop)]
pub struct Quiet {
    alloc: Global,
    pub disk: MemDisk,
    main: Vec<u8>,
    log1: Vec<u8>,
    log2: Vec<u8>,
    faults: u64,
}

impl DiskTells for Quiet {
    ghost told = { λ disk. None };

    ghost attached = { λ disk. disk.disk.attached };

    ghost named = { λ disk. None };

    ghost journal_answer = { λ disk. None };

    ghost faults = { λ disk. disk.faults };

    ghost loans = { λ disk. [] };
}

// The answer, whose failure is counted.
fn counted<T>(faults: &mut u64, answer: Result<T, Failed>) -> Result<T, Failed>
    ensures same { result ≡ answer }
    ensures counts { Counts (is_ok answer) faults.old faults.new }
{
    if answer.is_err() {
        *faults = faults.saturating_add(1);
    }
    answer
}

impl Quiet {
    /// A disk whose files are named, with what this one holds.
    pub fn over(alloc: Global, disk: MemDisk) -> Result<Quiet, Failed>
        requires { disk.attached ≡ false }
        ensures { IfOk result (λ quiet. quiet.disk.attached ≡ true) }
    {
        let mut disk = disk;
        disk.attach(b"db")?;
        let mut quiet = Quiet {
            alloc,
            disk,
            main: Vec::new(alloc),
            log1: Vec::new(alloc),
            log2: Vec::new(alloc),
            faults: 0,
        };
        quiet.keep_all()?;
        Ok(quiet)
    }

    // Keeps what each file holds.
    fn keep_all(&mut self) -> Result<(), Failed>
        ensures attached { self.new.disk ≡ self.old.disk }
    {
        self.keep(File::Main)?;
        self.keep(File::Log1)?;
        self.keep(File::Log2)
    }

    /// Three empty files that are named. The call that is named fails.
    pub fn empty(alloc: Global, failing: Option<Fail>) -> Result<Quiet, Failed>
        ensures { IfOk result (λ quiet. quiet.disk.attached ≡ true) }
    {
        let mut named = Vec::new(alloc);
        if let Some(fail) = failing {
            if named.push(fail).is_err() {
                return Err(Failed);
            }
        }
        let disk = MemDisk::new(
            alloc,
            Vec::new(alloc),
            Vec::new(alloc),
            Vec::new(alloc),
            named,
        );
        Quiet::over(alloc, disk)
    }

    /// The disk after a crash, with these bytes where any may be left. Its files are named.
    pub fn crashed(&self, pick: &[u8]) -> Result<Quiet, Failed>
        ensures { IfOk result (λ quiet. quiet.disk.attached ≡ true) }
    {
        match self.disk.crash(pick) {
            Ok(disk) => Quiet::over(self.alloc, disk),
            Err(_) => Err(Failed),
        }
    }

    // Keeps what a file holds.
    fn keep(&mut self, file: File) -> Result<(), Failed>
        ensures attached { self.new.disk ≡ self.old.disk }
        ensures faults { self.new.faults ≡ self.old.faults }
    {
        let Ok(bytes) = self.disk.file(file).to_vec(self.alloc) else {
            return Err(Failed);
        };
        match file {
            File::Main => self.main = bytes,
            File::Log1 => self.log1 = bytes,
            File::Log2 => self.log2 = bytes,
        }
        Ok(())
    }

    // What a crash leaves with this byte wherever it may leave any.
    fn left(&self, byte: u8) -> Result<MemDisk, AllocError> {
        let pick = filled(self.alloc, byte)?;
        self.disk.crash(&pick)
    }

    /// A pick by which a crash leaves old bytes wherever it may leave any, and 0 where there were none.
    pub fn old_bytes(&self) -> Result<Vec<u8>, AllocError> {
        let zeros = self.left(0)?;
        let wild = self.left(255)?;
        self.old_where_unlike(&zeros, &wild)
    }

    // The old bytes of the places at which these two differ.
    fn old_where_unlike(&self, zeros: &MemDisk, wild: &MemDisk) -> Result<Vec<u8>, AllocError> {
        let mut pick = Vec::new(self.alloc);
        add_old(&mut pick, zeros, wild, File::Main, &self.main)?;
        add_old(&mut pick, zeros, wild, File::Log1, &self.log1)?;
        add_old(&mut pick, zeros, wild, File::Log2, &self.log2)?;
        Ok(pick)
    }
}

/// A pick of one byte.
pub fn filled(alloc: Global, byte: u8) -> Result<Vec<u8>, AllocError> {
    vec![in alloc; byte; UNSURE]
}

// Adds those of one file.
fn add_old(
    pick: &mut Vec<u8>,
    zeros: &MemDisk,
    wild: &MemDisk,
    file: File,
    old: &[u8],
) -> Result<(), AllocError> {
    let zeros = zeros.file(file);
    let wild = wild.file(file);
    for place in 0..zeros.len() {
        if wild.get(place) != zeros.get(place) {
            pick.push(old.get(place).copied().unwrap_or(0))?;
        }
    }
    Ok(())
}

// Whether so many bytes from a place on are inside a file of this length.
fn is_inside(length: usize, at: u64, count: usize) -> bool
    ensures { result ≡ true → at + count ≤ length }
{
    let length = length as u64;
    at <= length && count as u64 <= length - at
}

impl Disk for Quiet {
    fn attach(&mut self, path: &[u8]) -> Result<(), Failed> {
        let answer = self.disk.attach(path);
        counted(&mut self.faults, answer)
    }

    fn journal(&mut self) -> Result<bool, Failed> {
        let answer = self.disk.journal();
        counted(&mut self.faults, answer)
    }

    fn size(&mut self, file: File) -> Result<u64, Failed> {
        let answer = self.disk.size(file);
        counted(&mut self.faults, answer)
    }

    fn read_at(&mut self, file: File, at: u64, buf: &mut [u8]) -> Result<(), Failed> {
        let answer = if is_inside(self.disk.file(file).len(), at, buf.len()) {
            self.disk.read_at(file, at, buf)
        } else {
            Err(Failed)
        };
        counted(&mut self.faults, answer)
    }

    fn write_at(&mut self, file: File, at: u64, piece: &[u8]) -> Result<(), Failed> {
        let answer = if is_inside(self.disk.file(file).len(), at, 0) {
            self.disk.write_at(file, at, piece)
        } else {
            Err(Failed)
        };
        counted(&mut self.faults, answer)
    }

    fn sync(&mut self, file: File) -> Result<(), Failed> {
        let answer = match self.disk.sync(file) {
            Ok(()) => self.keep(file),
            Err(Failed) => Err(Failed),
        };
        counted(&mut self.faults, answer)
    }
}
