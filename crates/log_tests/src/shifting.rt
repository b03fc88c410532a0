// A disk that fails: its log gets shorter while it is read, or was never as long as it said. What is accepted of it is legal, or the
// failure is told.
ghost use Rattle.std.specs.Prelude.{◌≡◌, [], None, true, false};
ghost use Rattle.disk_face.specs.Faults.{Counts, one_more};

use crate::log_scan::{four_frames, has_frames};
use disk_face::{Disk, DiskTells, Failed, File};
use std::alloc::{AllocError, Global};
use std::test;
use wal_frames::{Accepted, Front, ScanFault, accepted};

/// A disk each of whose files holds these bytes, says another length, and loses bytes after so many reads. It tells nothing.
#[derive(Drop)]
struct Shifting {
    bytes: Vec<u8>,
    said: u64,
    /// How many reads come before the file is cut, and how many bytes it has then.
    reads: u32,
    left: usize,
    is_attached: bool,
    faults: u64,
}

impl DiskTells for Shifting {
    ghost told = { λ disk. None };

    ghost attached = { λ disk. disk.is_attached };

    ghost named = { λ disk. None };

    ghost journal_answer = { λ disk. None };

    ghost faults = { λ disk. disk.faults };

    ghost loans = { λ disk. [] };
}

// A fault more.
fn failed(faults: &mut u64) -> Failed
    ensures { Counts false faults.old faults.new }
{
    *faults = faults.saturating_add(1);
    Failed
}

impl Shifting {
    // One read more. The file may be shorter now.
    fn turn(&mut self)
        ensures faults { self.new.faults ≡ self.old.faults }
        ensures attached { self.new.is_attached ≡ self.old.is_attached }
    {
        if self.reads == 0 {
            self.bytes.truncate(self.left);
        } else {
            self.reads -= 1;
        }
    }
}

impl Disk for Shifting {
    fn attach(&mut self, _path: &[u8]) -> Result<(), Failed> {
        self.is_attached = true;
        Ok(())
    }

    fn journal(&mut self) -> Result<bool, Failed> {
        Ok(false)
    }

    fn size(&mut self, _file: File) -> Result<u64, Failed> {
        Ok(self.said)
    }

    fn read_at(&mut self, _file: File, at: u64, buf: &mut [u8]) -> Result<(), Failed> {
        self.turn();
        if fill(self.bytes.as_slice(), at, buf) {
            Ok(())
        } else {
            Err(failed(&mut self.faults))
        }
    }

    fn write_at(&mut self, _file: File, _at: u64, _piece: &[u8]) -> Result<(), Failed> {
        Err(failed(&mut self.faults))
    }

    fn sync(&mut self, _file: File) -> Result<(), Failed> {
        Err(failed(&mut self.faults))
    }
}

/// Fills the buffer from a place on, or says that there are too few bytes.
fn fill(held: &[u8], at: u64, buf: &mut [u8]) -> bool {
    let len = held.len() as u64;
    if at > len || buf.len() as u64 > len - at {
        return false;
    }
    let from = at as usize;
    buf.copy_from_slice(&held[from..from + buf.len()]);
    true
}

/// How long the log is said to be, how long it is, after how many reads it is cut, how long it is then, and how many of its four
/// frames are accepted: none where the disk's failure is told.
type Case = (u64, usize, u32, usize, Option<usize>);

const CASES: [Case; 12] = [
    (2176, 2176, 5, 0, Some(4)),
    (1640, 2176, 9, 0, Some(2)),
    (1639, 2176, 9, 0, Some(2)),
    (32, 2176, 9, 0, Some(0)),
    (2176, 1640, 9, 0, None),
    (2176, 31, 9, 0, None),
    (2176, 0, 9, 0, None),
    (u64::MAX, 2176, 9, 0, None),
    (2176, 2176, 0, 0, None),
    (2176, 2176, 1, 32, None),
    (2176, 2176, 3, 1104, None),
    (2176, 2176, 4, 2175, None),
];

#[test]
fn a_log_whose_length_changes_is_told_or_legal(rt: HostRuntime) -> Result<(), test::Fail> {
    for case in &CASES {
        assert!(rt;
            is_as_told(rt.alloc(), case)?,
            "{} {} {}",
            case.0,
            case.1,
            case.2
        );
    }
    Ok(())
}

fn is_as_told(alloc: Global, case: &Case) -> Result<bool, AllocError> {
    let (said, length, reads, left, count) = *case;
    let mut bytes = four_frames(alloc)?;
    bytes.truncate(length);
    let disk = Shifting {
        bytes,
        said,
        reads,
        left,
        is_attached: false,
        faults: 0,
    };
    Ok(match (accept(alloc, disk), count) {
        (Ok(found), Some(count)) => has_frames(&found, count),
        (Err(ScanFault::Disk), None) => true,
        _ => false,
    })
}

fn accept(alloc: Global, mut disk: Shifting) -> Result<Accepted, ScanFault>
    requires { disk.is_attached ≡ false }
{
    match disk.attach(b"db") {
        Ok(()) => accepted(alloc, &mut disk, 1),
        Err(Failed) => Err(ScanFault::Disk),
    }
}

#[test]
fn a_log_that_says_that_it_is_too_short_is_nothing(rt: HostRuntime) -> Result<(), test::Fail> {
    let disk = Shifting {
        bytes: four_frames(rt.alloc())?,
        said: 31,
        reads: 9,
        left: 0,
        is_attached: false,
        faults: 0,
    };
    let found = accept(rt.alloc(), disk)?;
    assert_eq!(rt; found.front, Front::Nothing);
    assert_eq!(rt; found.pages.len(), 0);
    Ok(())
}
