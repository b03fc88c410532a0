// Logs and what is accepted of them. A plain program in another language summed their headers and frames.
ghost use Rattle.std.specs.Prelude.{◌≡◌, ◌⊎◌};

use disk_face::{Disk, File};
use disk_mem::{Call, Fail, MemDisk};
use std::alloc::{AllocError, Global};
use std::test;
use wal_frames::{Accepted, Front, LogHeader, ScanFault, Sum, accepted};

/// A header of log 1, of generation 1, for pages of 512 bytes.
const HEADER: [u8; 32] = *b"\x37\x7f\x06\x83\x05\x8b\x63\x48\x00\x00\x02\x00\x00\x00\x00\x01\
\x00\x00\x00\x01\x00\x00\x00\x05\x26\x1d\x4e\x69\xd7\xb1\x2a\x88";

/// Frames after that header: of each its first 24 bytes, and the byte that fills its page. The second and the fourth end a commit.
const FRAMES: &[u8; 100] =
    b"\x00\x00\x00\x01\x00\x00\x00\x00\x00\x00\x00\x01\x00\x00\x00\x05\xb2\x89\x77\x73\x8f\xc1\x9d\x78\x07\
\x00\x00\x00\x02\x00\x00\x00\x02\x00\x00\x00\x01\x00\x00\x00\x05\xd0\xf2\x0d\x24\x0b\xa5\x9e\x7f\x08\
\x00\x00\x00\x03\x00\x00\x00\x00\x00\x00\x00\x01\x00\x00\x00\x05\x49\x62\x5d\x30\xb9\x29\x72\x3e\x09\
\x00\x00\x00\x01\x00\x00\x00\x03\x00\x00\x00\x01\x00\x00\x00\x05\x8b\xef\x02\xcd\xc7\x3a\xc8\x47\x0a";

/// The first two of those, and two that go on after them with right checksums, of which the first has page number 0.
const UNNUMBERED: &[u8; 100] =
    b"\x00\x00\x00\x01\x00\x00\x00\x00\x00\x00\x00\x01\x00\x00\x00\x05\xb2\x89\x77\x73\x8f\xc1\x9d\x78\x07\
\x00\x00\x00\x02\x00\x00\x00\x02\x00\x00\x00\x01\x00\x00\x00\x05\xd0\xf2\x0d\x24\x0b\xa5\x9e\x7f\x08\
\x00\x00\x00\x00\x00\x00\x00\x00\x00\x00\x00\x01\x00\x00\x00\x05\x69\x5e\xfc\x8a\xcc\x88\x91\x49\x09\
\x00\x00\x00\x01\x00\x00\x00\x03\x00\x00\x00\x01\x00\x00\x00\x05\xae\x7f\x7b\x6e\x07\x8d\xba\xe0\x0a";

/// A header of generation 3 with other salts, and a frame after it that ends a commit of 4 pages. Behind that are frames of
/// generation 1.
const LATER_HEADER: [u8; 32] = *b"\x37\x7f\x06\x83\x05\x8b\x63\x48\x00\x00\x02\x00\x00\x00\x00\x03\
\x00\x00\x00\x02\x00\x00\x00\x07\x26\x1d\x4e\x6c\xd7\xb1\x2a\x8f";

const LATER_FRAMES: &[u8; 75] =
    b"\x00\x00\x00\x09\x00\x00\x00\x04\x00\x00\x00\x02\x00\x00\x00\x07\xd3\xdc\xe5\xed\x30\xc1\xff\x46\x06\
\x00\x00\x00\x02\x00\x00\x00\x02\x00\x00\x00\x01\x00\x00\x00\x05\xd0\xf2\x0d\x24\x0b\xa5\x9e\x7f\x08\
\x00\x00\x00\x01\x00\x00\x00\x03\x00\x00\x00\x01\x00\x00\x00\x05\x8b\xef\x02\xcd\xc7\x3a\xc8\x47\x0a";

/// A header of log 2, whose words are summed with the least significant byte first, and a frame after it that ends a commit of
/// 6 pages.
const EVEN_HEADER: [u8; 32] = *b"\x37\x7f\x06\x82\x05\x8b\x63\x48\x00\x00\x02\x00\x00\x00\x00\x02\
\x00\x00\x00\x01\x00\x00\x00\x05\x66\x4f\x1d\x22\x84\x2b\xb0\xd1";

const EVEN_FRAMES: &[u8; 25] =
    b"\x00\x00\x00\x04\x00\x00\x00\x06\x00\x00\x00\x01\x00\x00\x00\x05\xfc\xa3\x44\xc0\x13\xa6\xf5\x45\x05";

/// A header for pages of 65,536 bytes, and the first bytes of a frame after it that ends a commit of 3 pages.
const WIDE_HEADER: [u8; 32] = *b"\x37\x7f\x06\x83\x05\x8b\x63\x48\x00\x01\x00\x00\x00\x00\x00\x01\
\x00\x00\x00\x01\x00\x00\x00\x05\x26\x1f\x4a\x69\xd7\xb4\x24\x88";

const WIDE_HEAD: [u8; 24] =
    *b"\x00\x00\x00\x03\x00\x00\x00\x03\x00\x00\x00\x01\x00\x00\x00\x05\x5f\x09\x4b\x71\x3d\xba\xc7\x00";

/// The sums after the header and after two and four frames.
const START: Sum = Sum {
    s0: 639454825,
    s1: 3618712200,
};

const AFTER_TWO: Sum = Sum {
    s0: 3505524004,
    s1: 195403391,
};

const AFTER_FOUR: Sum = Sum {
    s0: 2347696845,
    s1: 3342518343,
};

const AFTER_LATER: Sum = Sum {
    s0: 3554469357,
    s1: 818020166,
};

const AFTER_EVEN: Sum = Sum {
    s0: 4238558400,
    s1: 329708869,
};

/// A log of a header and of frames, each told by 25 bytes.
fn log_of(alloc: Global, header: &[u8], frames: &[u8]) -> Result<Vec<u8>, AllocError> {
    let mut log = header.to_vec(alloc)?;
    for frame in frames.chunks_exact(25) {
        let (head, fill) = frame.split_at(24);
        log.extend_from_slice(head)?;
        log.resize(log.len() + 512, fill[0])?;
    }
    Ok(log)
}

/// The log of the four frames.
pub(crate) fn four_frames(alloc: Global) -> Result<Vec<u8>, AllocError> {
    log_of(alloc, &HEADER, FRAMES)
}

/// What is accepted of these bytes as log 1 or log 2.
fn accept(alloc: Global, bytes: Vec<u8>, log: u8) -> Result<Accepted, ScanFault>
    requires { (log ≡ 1) ⊎ (log ≡ 2) }
{
    let none = Vec::new(alloc);
    let main = Vec::new(alloc);
    let failing = Vec::new(alloc);
    let mut disk = if log == 1 {
        MemDisk::new(alloc, main, bytes, none, failing)
    } else {
        MemDisk::new(alloc, main, none, bytes, failing)
    };
    if disk.attach(b"db").is_err() {
        return Err(ScanFault::Disk);
    }
    accepted(alloc, &mut disk, log)
}

/// Whether so many of the four frames were found: none, two or all.
pub(crate) fn has_frames(found: &Accepted, count: usize) -> bool {
    let (size, sum) = match count {
        0 => (0, START),
        2 => (2, AFTER_TWO),
        _ => (3, AFTER_FOUR),
    };
    found.pages.as_slice() == &[1u32, 2, 3, 1][..count.min(4)]
        && found.size == size
        && found.sum == sum
}

#[test]
fn the_frames_up_to_the_last_commit_are_accepted(rt: HostRuntime) -> Result<(), test::Fail> {
    let ours = Front::Ours(LogHeader {
        big: true,
        page_size: 512,
        generation: 1,
        salt1: 1,
        salt2: 5,
        sum: START,
    });
    // How many bytes the log has, and how many of its frames are accepted.
    let cases = [
        (32, 0),
        (1103, 0),
        (1104, 2),
        (1640, 2),
        (2175, 2),
        (2176, 4),
    ];
    for (size, count) in cases {
        let mut log = four_frames(rt.alloc())?;
        log.truncate(size);
        let found = accept(rt.alloc(), log, 1)?;
        assert_eq!(rt; found.front, ours, "at {size}");
        assert!(rt; has_frames(&found, count), "at {size}");
    }
    Ok(())
}

#[test]
fn a_log_without_a_whole_header_is_nothing(rt: HostRuntime) -> Result<(), test::Fail> {
    for size in [0, 31] {
        let mut log = four_frames(rt.alloc())?;
        log.truncate(size);
        let found = accept(rt.alloc(), log, 1)?;
        assert_eq!(rt; found.front, Front::Nothing);
        assert_eq!(rt; found.pages.len(), 0);
        assert_eq!(rt; found.size, 0);
        assert_eq!(rt; found.sum, Sum { s0: 0, s1: 0 });
    }
    Ok(())
}

#[test]
fn a_frame_that_is_torn_ends_the_log(rt: HostRuntime) -> Result<(), test::Fail> {
    // The last byte of each number of a frame, and the first and the last byte of its page.
    let fields = [3, 7, 11, 15, 19, 23, 24, 535];
    for field in fields {
        assert!(rt;
            ends_where_torn(rt.alloc(), 32 + field, 0)?,
            "first at {field}"
        );
        assert!(rt;
            ends_where_torn(rt.alloc(), 568 + field, 0)?,
            "second at {field}"
        );
        assert!(rt;
            ends_where_torn(rt.alloc(), 1104 + field, 2)?,
            "third at {field}"
        );
        assert!(rt;
            ends_where_torn(rt.alloc(), 1640 + field, 2)?,
            "last at {field}"
        );
    }
    Ok(())
}

/// Whether so many frames are accepted where a byte of a frame is another one.
fn ends_where_torn(alloc: Global, at: usize, count: usize) -> Result<bool, ScanFault> {
    let Ok(mut log) = four_frames(alloc) else {
        return Err(ScanFault::Memory);
    };
    match log.get_mut(at) {
        Some(byte) => *byte = 0xee,
        None => return Ok(false),
    }
    Ok(has_frames(&accept(alloc, log, 1)?, count))
}

#[test]
fn frames_are_those_of_the_header(rt: HostRuntime) -> Result<(), test::Fail> {
    let alloc = rt.alloc();
    let log = log_of(alloc, &HEADER, UNNUMBERED)?;
    assert!(rt;
        finds(alloc, log, 1, &[1, 2], 2, AFTER_TWO)?,
        "page number 0 ends the log"
    );
    let log = log_of(alloc, &LATER_HEADER, LATER_FRAMES)?;
    assert!(rt;
        finds(alloc, log, 1, &[9], 4, AFTER_LATER)?,
        "another generation's"
    );
    let log = log_of(alloc, &EVEN_HEADER, EVEN_FRAMES)?;
    assert!(rt; finds(alloc, log, 2, &[4], 6, AFTER_EVEN)?, "log 2");
    Ok(())
}

/// Whether these pages are found in a log, this size and this sum.
fn finds(
    alloc: Global,
    bytes: Vec<u8>,
    log: u8,
    pages: &[u32],
    size: u32,
    sum: Sum,
) -> Result<bool, ScanFault>
    requires { (log ≡ 1) ⊎ (log ≡ 2) }
{
    let found = accept(alloc, bytes, log)?;
    Ok(found.pages.as_slice() == pages && found.size == size && found.sum == sum)
}

#[test]
fn the_largest_pages_are_read(rt: HostRuntime) -> Result<(), test::Fail> {
    let mut log = WIDE_HEADER.to_vec(rt.alloc())?;
    log.extend_from_slice(&WIDE_HEAD)?;
    for _ in 0..128 {
        log.extend_from_slice(&[7; 512])?;
    }
    let found = accept(rt.alloc(), log, 1)?;
    assert_eq!(rt; found.pages.as_slice(), [3u32].as_slice());
    assert_eq!(rt; found.size, 3);
    assert_eq!(rt;
        found.sum,
        Sum {
            s0: 1594444657,
            s1: 1035650816
        }
    );
    Ok(())
}

/// A signed header, and where and by which version it is foreign in log 1.
struct ForeignHeader {
    bytes: [u8; 32],
    version: u32,
    at: u64,
}

const FOREIGN: [ForeignHeader; 7] = [
    // Generation 2.
    ForeignHeader {
        bytes: EVEN_HEADER,
        version: 93021000,
        at: 12,
    },
    // Version 3007000.
    ForeignHeader {
        bytes: *b"\x37\x7f\x06\x83\x00\x2d\xe2\x18\x00\x00\x02\x00\x00\x00\x00\x01\
\x00\x00\x00\x01\x00\x00\x00\x05\x16\x04\xca\xd9\xbc\xdd\xa4\x98",
        version: 3007000,
        at: 4,
    },
    // That version, page size 1000 and generation 2.
    ForeignHeader {
        bytes: *b"\x37\x7f\x06\x83\x00\x2d\xe2\x18\x00\x00\x03\xe8\x00\x00\x00\x02\
\x00\x00\x00\x01\x00\x00\x00\x05\x16\x04\xce\xaa\xbc\xdd\xaa\x52",
        version: 3007000,
        at: 4,
    },
    // Page size 1000.
    ForeignHeader {
        bytes: *b"\x37\x7f\x06\x83\x05\x8b\x63\x48\x00\x00\x03\xe8\x00\x00\x00\x01\
\x00\x00\x00\x01\x00\x00\x00\x05\x26\x1d\x52\x39\xd7\xb1\x30\x40",
        version: 93021000,
        at: 8,
    },
    // Page size 131,072 and generation 2.
    ForeignHeader {
        bytes: *b"\x37\x7f\x06\x83\x05\x8b\x63\x48\x00\x02\x00\x00\x00\x00\x00\x02\
\x00\x00\x00\x01\x00\x00\x00\x05\x26\x21\x4a\x6a\xd7\xb7\x24\x8a",
        version: 93021000,
        at: 8,
    },
    // Generation 0.
    ForeignHeader {
        bytes: *b"\x37\x7f\x06\x83\x05\x8b\x63\x48\x00\x00\x02\x00\x00\x00\x00\x00\
\x00\x00\x00\x01\x00\x00\x00\x05\x26\x1d\x4e\x68\xd7\xb1\x2a\x86",
        version: 93021000,
        at: 12,
    },
    // Generation 4,000,000,001.
    ForeignHeader {
        bytes: *b"\x37\x7f\x06\x83\x05\x8b\x63\x48\x00\x00\x02\x00\xee\x6b\x28\x01\
\x00\x00\x00\x01\x00\x00\x00\x05\x14\x88\x76\x69\xb4\x87\x7a\x88",
        version: 93021000,
        at: 12,
    },
];

#[test]
fn a_log_with_a_foreign_header_has_no_frames(rt: HostRuntime) -> Result<(), test::Fail> {
    for header in &FOREIGN {
        let found = accept(rt.alloc(), header.bytes.to_vec(rt.alloc())?, 1)?;
        let front = Front::Foreign {
            version: header.version,
            at: header.at,
        };
        assert_eq!(rt; found.front, front);
        assert_eq!(rt; found.pages.len(), 0);
        assert_eq!(rt; found.size, 0);
        assert_eq!(rt; found.sum, Sum { s0: 0, s1: 0 });
    }
    Ok(())
}

/// What is accepted of the four frames on a disk with a call that fails, and that stops after so many calls.
fn accept_failing(alloc: Global, fail: Fail, calls: u64) -> Result<Accepted, ScanFault> {
    let Ok(log) = four_frames(alloc) else {
        return Err(ScanFault::Memory);
    };
    let mut failing = Vec::new(alloc);
    if failing.push(fail).is_err() {
        return Err(ScanFault::Memory);
    }
    let mut disk = MemDisk::new(alloc, Vec::new(alloc), log, Vec::new(alloc), failing);
    if disk.attach(b"db").is_err() {
        return Err(ScanFault::Disk);
    }
    disk.stop_after(calls);
    accepted(alloc, &mut disk, 1)
}

#[test]
fn a_call_that_fails_is_told(rt: HostRuntime) -> Result<(), test::Fail> {
    // A scan asks for the size, and reads the header and each of the four frames by one call.
    let cases = [
        (File::Log1, Call::Size, 1, 6, false),
        (File::Log1, Call::Read, 1, 6, false),
        (File::Log1, Call::Read, 2, 6, false),
        (File::Log1, Call::Read, 5, 6, false),
        (File::Log1, Call::Read, 6, 5, false),
        (File::Log1, Call::Read, 6, 6, true),
        (File::Log2, Call::Read, 1, 6, true),
    ];
    for (file, call, nth, calls, passes) in cases {
        match accept_failing(rt.alloc(), Fail { file, call, nth }, calls) {
            Ok(found) => assert!(rt; passes && has_frames(&found, 4), "{call:?} {nth}"),
            Err(ScanFault::Disk) if !passes => {}
            Err(_) => return Err(test::Fail::from("refused")),
        }
    }
    Ok(())
}
