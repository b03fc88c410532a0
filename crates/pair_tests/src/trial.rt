// Two logs on a disk in memory. Each call is made only where its contract lets it.
ghost use Rattle.std.specs.Prelude.{◌≡◌, ◌⊎◌, true, false, IfOk};
ghost use Rattle.wal_frames.specs.Front.{IsLegalFront};
ghost use Rattle.wal_frames.specs.declared.header.Front.TheVariants.{Ours};

use disk_face::{Disk, Failed, File};
use disk_mem::{Fail, MemDisk};
use log_pair::LogPair;
use std::alloc::{AllocError, Global};
use wal_frames::{Front, LogHeader, accepted, read_log_header};

/// The most frames of a log in these tests.
const MOST: u32 = 1000;

/// A disk whose files are named, and the two logs on it.
#[derive(Drop)]
pub struct Trial {
    pub disk: MemDisk,
    pub pair: LogPair,
    ghost attached: { disk.attached ≡ true },
}

/// The header at the front of a log.
fn header_of(bytes: &[u8], log: u8) -> Result<LogHeader, Failed>
    requires { (log ≡ 1) ⊎ (log ≡ 2) }
    ensures { IfOk result (λ header. IsLegalFront log (Ours header)) }
{
    match read_log_header(bytes, log) {
        Front::Ours(header) => Ok(header),
        _ => Err(Failed),
    }
}

fn disk_with(
    alloc: Global,
    one: &[u8],
    two: &[u8],
    failing: Option<Fail>,
) -> Result<MemDisk, AllocError>
    ensures { IfOk result (λ disk. disk.attached ≡ false) }
{
    let mut named = Vec::new(alloc);
    if let Some(fail) = failing {
        named.push(fail)?;
    }
    let one = one.to_vec(alloc)?;
    let two = two.to_vec(alloc)?;
    Ok(MemDisk::new(alloc, Vec::new(alloc), one, two, named))
}

impl Trial {
    /// Two logs that have these headers alone. The call that is named fails.
    pub fn new(
        alloc: Global,
        current: u8,
        one: &[u8],
        two: &[u8],
        failing: Option<Fail>,
    ) -> Result<Trial, Failed>
        requires { (current ≡ 1) ⊎ (current ≡ 2) }
    {
        let first = header_of(one, 1)?;
        let second = header_of(two, 2)?;
        let Ok(mut disk) = disk_with(alloc, one, two, failing) else {
            return Err(Failed);
        };
        disk.attach(b"db")?;
        if second.page_size != first.page_size {
            return Err(Failed);
        }
        let pair = LogPair::new(current, first, second);
        Ok(Trial { disk, pair })
    }

    /// Appends a page.
    pub fn append(&mut self, page: u32, bytes: &[u8], size: u32) -> Result<(), Failed> {
        let log = self.pair.current();
        let file = if log == 1 { File::Log1 } else { File::Log2 };
        let length = self.disk.file(file).len() as u64;
        if page == 0
            || bytes.len() != self.pair.page_size() as usize
            || self.pair.frames(log) >= MOST
            || self.pair.appended() >= MOST
            || length < self.pair.next_place()
        {
            return Err(Failed);
        }
        self.pair.append(&mut self.disk, page, bytes, size)
    }

    pub fn seal(&mut self) -> Result<(), Failed> {
        if self.pair.appended() == 0 {
            return Err(Failed);
        }
        self.pair.seal(&mut self.disk)
    }

    pub fn switch(&mut self, salt2: u32) -> Result<(), Failed> {
        if self.pair.appended() != 0 || self.pair.generation() >= 4_000_000_000 {
            return Err(Failed);
        }
        self.pair.switch(&mut self.disk, salt2)
    }

    /// Reads the page of a frame.
    pub fn read(&mut self, log: u8, frame: u32, page: &mut [u8]) -> Result<(), Failed>
        requires { (log ≡ 1) ⊎ (log ≡ 2) }
    {
        let file = if log == 1 { File::Log1 } else { File::Log2 };
        let length = self.disk.file(file).len() as u64;
        if frame == 0 || frame > self.pair.frames(log) || page.len() != 512 {
            return Err(Failed);
        }
        let before = 32 + u64::from(frame - 1) * 536;
        if self.pair.page_size() != 512 || before > length || length - before < 536 {
            return Err(Failed);
        }
        self.pair.read_frame(&mut self.disk, log, frame, page)
    }

    /// Whether a file holds these bytes.
    pub fn holds(&self, file: File, bytes: &[u8]) -> bool {
        self.disk.file(file) == bytes
    }

    /// Whether two frames of these pages are accepted of log 1, and the database has this size.
    pub fn accepts(&mut self, alloc: Global, pages: [u32; 2], size: u32) -> Result<bool, Failed> {
        match accepted(alloc, &mut self.disk, 1) {
            Ok(found) => Ok(found.pages.as_slice() == pages.as_slice() && found.size == size),
            Err(_) => Err(Failed),
        }
    }
}
