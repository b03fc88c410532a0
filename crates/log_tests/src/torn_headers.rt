// A log's header from before an opening, written over and synced away, and the next one on its way: what is accepted of the images.
// A plain program in another language summed headers and frame.
ghost use Rattle.std.specs.Prelude.{◌≡◌, false};

use crash_witness::outlasts;
use disk_face::{Bytes, Disk, Failed, File, Piece};
use disk_mem::MemDisk;
use std::alloc::{AllocError, Global};
use std::test;
use wal_frames::{Accepted, Front, ScanFault, accepted};

/// Headers of log 2, of generation 2, 4 and 6.
const OLD: [u8; 32] = *b"\x37\x7f\x06\x83\x05\x8b\x63\x48\x00\x00\x02\x00\x00\x00\x00\x02\
\x00\x00\x00\x01\x00\x00\x00\x05\x26\x1d\x4e\x6a\xd7\xb1\x2a\x8a";

const SECOND: [u8; 32] = *b"\x37\x7f\x06\x83\x05\x8b\x63\x48\x00\x00\x02\x00\x00\x00\x00\x04\
\x00\x00\x00\x02\x00\x00\x00\x06\x26\x1d\x4e\x6d\xd7\xb1\x2a\x90";

const NEXT: [u8; 32] = *b"\x37\x7f\x06\x83\x05\x8b\x63\x48\x00\x00\x02\x00\x00\x00\x00\x06\
\x00\x00\x00\x03\x00\x00\x00\x07\x26\x1d\x4e\x70\xd7\xb1\x2a\x96";

/// The first bytes of a frame of page 2 under the oldest header, which ends a commit of 2 pages. Its page is filled with 8.
const HEAD: [u8; 24] =
    *b"\x00\x00\x00\x02\x00\x00\x00\x02\x00\x00\x00\x01\x00\x00\x00\x05\x3b\x0c\xf9\xf0\xc0\xc3\x3b\x42";

/// A log with this header, and the frame behind it.
fn log_with(alloc: Global, header: &[u8]) -> Result<Vec<u8>, AllocError> {
    let mut log = header.to_vec(alloc)?;
    log.extend_from_slice(&HEAD)?;
    log.extend_from_slice(&[8; 512])?;
    Ok(log)
}

/// A disk whose log 2 was left with the oldest header, got the second one, synced, and is getting the next one.
fn between_headers(alloc: Global) -> Result<MemDisk, Failed> {
    let Ok(log) = log_with(alloc, &OLD) else {
        return Err(Failed);
    };
    let none = Vec::new(alloc);
    let mut disk = MemDisk::new(alloc, none, Vec::new(alloc), log, Vec::new(alloc));
    disk.attach(b"db")?;
    disk.write_at(File::Log2, 0, &SECOND)?;
    disk.sync(File::Log2)?;
    disk.write_at(File::Log2, 0, &NEXT)?;
    Ok(disk)
}

/// What is accepted of log 2 of a disk whose files are still to be named.
fn accept(alloc: Global, mut disk: MemDisk) -> Result<Accepted, ScanFault>
    requires { disk.attached ≡ false }
{
    if disk.attach(b"db").is_err() {
        return Err(ScanFault::Disk);
    }
    accepted(alloc, &mut disk, 2)
}

/// The generation that is found after a crash with this pick, 0 where no header is, and how many pages.
fn after_crash(alloc: Global, pick: &[u8]) -> Result<(u32, usize), ScanFault> {
    let Ok(disk) = between_headers(alloc) else {
        return Err(ScanFault::Disk);
    };
    let Ok(left) = disk.crash(pick) else {
        return Err(ScanFault::Memory);
    };
    Ok(told(&accept(alloc, left)?))
}

fn told(found: &Accepted) -> (u32, usize) {
    match found.front {
        Front::Ours(header) => (header.generation, found.pages.len()),
        _ => (0, found.pages.len()),
    }
}

/// Whether a piece of log 2 is known after the sync of the second header.
fn is_known(alloc: Global, at: u64, bytes: &[u8]) -> Result<bool, AllocError> {
    let piece = Piece {
        file: File::Log2,
        at,
        bytes: Bytes::of(alloc, bytes)?,
    };
    let held = log_with(alloc, &SECOND)?;
    Ok(outlasts(&piece, File::Log2, held.as_slice()))
}

#[test]
fn the_image_with_the_oldest_header_is_refused(rt: HostRuntime) -> Result<(), test::Fail> {
    // Its range is unsure, and its frame lies behind it.
    assert_eq!(rt; after_crash(rt.alloc(), &OLD)?, (2, 1));
    // But it isn't known any more.
    assert!(rt; !is_known(rt.alloc(), 0, &OLD)?);
    Ok(())
}

#[test]
fn the_image_with_the_true_bytes_is_not(rt: HostRuntime) -> Result<(), test::Fail> {
    assert_eq!(rt; after_crash(rt.alloc(), &SECOND)?, (4, 0));
    assert!(rt; is_known(rt.alloc(), 0, &SECOND)?);
    assert!(rt; is_known(rt.alloc(), 32, &HEAD)?, "what lies behind it");
    Ok(())
}

#[test]
fn the_next_header_is_there_or_torn(rt: HostRuntime) -> Result<(), test::Fail> {
    assert_eq!(rt; after_crash(rt.alloc(), &NEXT)?, (6, 0));
    assert_eq!(rt; after_crash(rt.alloc(), &OLD[..16])?, (0, 0));
    Ok(())
}

// The first header of an empty log was written, and of its bytes an image may have the first few alone.
#[test]
fn an_image_may_end_inside_the_header(rt: HostRuntime) -> Result<(), test::Fail> {
    let alloc = rt.alloc();
    let none = Vec::new(alloc);
    let image = NEXT[..20].to_vec(alloc)?;
    let disk = MemDisk::new(alloc, none, Vec::new(alloc), image, Vec::new(alloc));
    assert_eq!(rt; told(&accept(alloc, disk)?), (0, 0));
    Ok(())
}
