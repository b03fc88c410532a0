// A database's files on a disk in memory, and calls on them. Each call is made only where its contract lets it.
ghost use Rattle.std.specs.Prelude.{◌≡◌, true, false, IfOk, IsTrue};
ghost use Rattle.disk_face.specs.Steps.{reads};
ghost use Rattle.page_spec.specs.Header.{is_page_size};
ghost use Rattle.recover.specs.Seeing.{IsWholeSeen, IsSeen};

use crate::files::{Named, runs_of};
use disk_face::{Disk, Failed, File};
use disk_mem::{FixedSalts, MemDisk};
use recover::{LookFault, Seen, Setup, StoreKind, look, settle};
use std::alloc::{AllocError, Global};
use wal_frames::ScanFault;

/// Bytes as pieces: some bytes and then so many of one byte, one piece after another.
pub type Runs = &'static [(&'static [u8], usize, u8)];

/// What is seen of a database: nothing is there yet; its pages, their size, how many bytes of each are in use and the pages that page 1
/// names; byte 100 of page 1.
pub type Told = (bool, [u32; 4], u8);

/// The size of a new database's pages.
const NEW_SIZE: u32 = 512;

/// The words that new headers get, in turn.
const WORDS: [u32; 3] = [101, 102, 103];

/// The bytes of a file.
pub fn bytes_of(alloc: Global, named: Named) -> Result<Vec<u8>, AllocError> {
    let mut bytes = Vec::new(alloc);
    for (front, count, byte) in runs_of(named) {
        bytes.extend_from_slice(front)?;
        bytes.resize(bytes.len().saturating_add(*count), *byte)?;
    }
    Ok(bytes)
}

/// A disk with these files, which are still to be named.
pub fn disk_of(alloc: Global, main: Vec<u8>, one: Named, two: Named) -> Result<MemDisk, AllocError>
    ensures { IfOk result (λ disk. disk.attached ≡ false) }
{
    let one = bytes_of(alloc, one)?;
    let two = bytes_of(alloc, two)?;
    Ok(MemDisk::new(alloc, main, one, two, Vec::new(alloc)))
}

fn told_of(seen: &Seen) -> Told
    requires { IsWholeSeen seen.now }
{
    let sizes = [seen.pages(), seen.page_size(), seen.usable(), seen.named()];
    (seen.is_new(), sizes, seen.byte())
}

/// What a look sees of the files, where a new database gets pages of this size.
pub fn looks(alloc: Global, disk: &mut MemDisk, page_size: u32) -> Result<Told, LookFault>
    requires attached { disk.old.attached ≡ true }
    requires page_size { IsTrue (is_page_size page_size) }
{
    let setup = Setup {
        kind: StoreKind::Pages,
        page_size,
        limit: 1,
    };
    match look(alloc, disk, &setup) {
        Ok(seen) => Ok(told_of(&seen)),
        Err(fault) => Err(fault),
    }
}

/// Settles what was seen, and tells the generation of log 1; 0 where page 1 names another size than was recovered.
fn settles(alloc: Global, disk: &mut MemDisk, seen: Seen, setup: &Setup) -> Result<u32, LookFault>
    requires attached { disk.old.attached ≡ true }
    requires page_size { IsTrue (is_page_size setup.now.page_size) }
    requires whole { IsWholeSeen seen }
    requires new_size { seen.is_new ≡ true → seen.page_size ≡ setup.now.page_size }
    requires seen { IsSeen setup.now.page_size (reads disk.old.told) seen }
{
    if !seen.is_new() && seen.named() != seen.pages() {
        return Ok(0);
    }
    let Ok(words) = WORDS.to_vec(alloc) else {
        return Err(LookFault::Memory);
    };
    let mut salts = FixedSalts::new(words);
    match settle(alloc, disk, &mut salts, seen, setup) {
        Ok(pair) => Ok(pair.generation()),
        Err(ScanFault::Disk) => Err(LookFault::Disk),
        Err(ScanFault::Memory) => Err(LookFault::Memory),
    }
}

/// Looks at the files and settles them, and tells the generation of log 1.
#[tactic(auto, unfolding(page_spec::specs::Header::is_page_size))]
pub fn opens(alloc: Global, disk: &mut MemDisk, kind: StoreKind) -> Result<u32, LookFault>
    requires { disk.old.attached ≡ true }
{
    let setup = Setup {
        kind,
        page_size: NEW_SIZE,
        limit: 1,
    };
    match look(alloc, disk, &setup) {
        Ok(seen) => settles(alloc, disk, seen, &setup),
        Err(fault) => Err(fault),
    }
}

/// The same of files that are still to be named.
pub fn opens_first(alloc: Global, disk: &mut MemDisk, kind: StoreKind) -> Result<u32, LookFault>
    requires { disk.old.attached ≡ false }
{
    match disk.attach(b"db") {
        Ok(()) => opens(alloc, disk, kind),
        Err(Failed) => Err(LookFault::Disk),
    }
}

/// Whether a file holds these bytes.
pub fn holds(alloc: Global, disk: &MemDisk, file: File, named: Named) -> Result<bool, AllocError> {
    let bytes = bytes_of(alloc, named)?;
    Ok(disk.file(file) == bytes.as_slice())
}
