// What is accepted of a log on a disk: its header and its frames are read once, from the front on.
//
// While frames are read, `pages` has the numbers of all of them, and `kept`, `kept_size` and `kept_sum` are what is known behind the
// last one that ended a commit.
ghost use Rattle.std.specs.Prelude.{◌≡◌, ◌≢◌, ◌⊎◌, ◌+◌, ◌≤◌, ℕ, true, length, Err, IfOk, IfSome, IfErr, OnOk, [], ◌∷◌, ◌++◌, IsTrue, ◌↔◌};
ghost use Rattle.disk_face.specs.Faults.{Counts};
ghost use Rattle.disk_face.specs.Files.{content};
ghost use Rattle.disk_face.specs.Stays.{OnlyReads};
ghost use Rattle.disk_face.specs.Steps.{reads};
ghost use Rattle.disk_face.specs.Told.{IsSize};
ghost use Rattle.page_spec.specs.Header.{is_page_size};
ghost use Rattle.log_spec.specs.LogHeader.{header_size};
ghost use Rattle.wal_frames.specs.Front.{words_of, front_of, IsLegalFront, HasRoom};
ghost use Rattle.wal_frames.specs.Scan.{FitsHead, TellsOf, NextOf};
ghost use Rattle.wal_frames.specs.Found.{FindsFrames, FindsAccepted, IsLegal, log_file, is_disk_well};

use crate::found::{Accepted, ScanFault};
use crate::header::{Front, LogHeader};
use crate::read::{HEADER_SIZE, read_log_header};
use crate::sum::{Sum, sum_step};
use be_fields::get_u32;
use disk_face::{Disk, Failed, File};
use std::alloc::Global;

/// How many bytes stand before the page in a frame.
const HEAD_SIZE: usize = 24;

/// How many bytes a frame has at most, with the largest page.
const LONGEST_FRAME: usize = HEAD_SIZE + 65536;

/// What a valid frame tells.
#[derive(Clone, Copy)]
struct FrameTold {
    /// The number of the page that it holds.
    page: u32,
    /// The size of the database in pages after the commit that it ends, 0 where it ends none.
    size: u32,
    /// The checksum after it.
    sum: Sum,
}

/// Whether the header of a frame has a page number, the salts of the log's header, and this checksum.
fn fits_head(head: &[u8], header: &LogHeader, after: Sum) -> bool
    requires { 24 ≤ length head.now }
    ensures { IsTrue result ↔ FitsHead head.now header.now (words_of after) }
{
    get_u32(head, 0) != 0
        && get_u32(head, 8) == header.salt1
        && get_u32(head, 12) == header.salt2
        && get_u32(head, 16) == after.s0
        && get_u32(head, 20) == after.s1
}

/// How many bytes each frame of a log has.
#[tactic(auto, unfolding(page_spec::specs::Header::is_page_size))]
fn frame_size(header: &LogHeader) -> usize
    requires { IsTrue (is_page_size header.now.page_size) }
    ensures value { result ≡ 24 + header.now.page_size }
    ensures within { result ≤ LONGEST_FRAME }
{
    HEAD_SIZE + header.page_size as usize
}

/// What the bytes of a frame tell, where the frames before it left this checksum. None where they are no valid frame.
fn tell_frame(frame: &[u8], header: &LogHeader, sum: Sum) -> Option<FrameTold>
    requires legal { IsTrue (is_page_size header.now.page_size) }
    requires whole { length frame.now ≡ 24 + header.now.page_size }
    ensures { TellsOf header.now (words_of sum) frame.now result }
{
    let front_sum = sum_step(sum, header.big, &frame[..8]);
    let after = sum_step(front_sum, header.big, &frame[HEAD_SIZE..]);
    if fits_head(frame, header, after) {
        Some(FrameTold {
            page: get_u32(frame, 0),
            size: get_u32(frame, 4),
            sum: after,
        })
    } else {
        None
    }
}

/// Reads the next frame into the buffer, and says what it tells. None where the file has no room for one there, or the frame
/// isn't valid.
fn next_frame<D: Disk>(
    disk: &mut D,
    file: File,
    size: u64,
    at: u64,
    header: &LogHeader,
    sum: Sum,
    frame: &mut [u8],
) -> Result<Option<FrameTold>, ScanFault>
    requires attached { D.attached disk.old ≡ true }
    requires legal { IsTrue (is_page_size header.now.page_size) }
    requires sized { IsSize (D.told disk.old) file size }
    requires within { at ≤ size }
    requires whole { length frame.old ≡ 24 + header.now.page_size }
    ensures frame { IfOk result (λ found. IfSome (D.told disk.old)
        (λ told. NextOf header.now (words_of sum) (content (reads told) file) at found)) }
    ensures room { IfOk result (λ found. IfSome found (λ frame. at + (24 + header.now.page_size) ≤ size)) }
    ensures numbered { IfOk result (λ found. IfSome found (λ frame. frame.page ≢ 0)) }
    ensures disk_only { result ≡ Err ScanFault.Memory → ⊥ }
    ensures stays { OnlyReads D.DiskTells disk.old disk.new }
    ensures faults { Counts (is_disk_well result) (D.faults disk.old) (D.faults disk.new) }
{
    if size - at < frame.len() as u64 {
        return Ok(None);
    }
    match disk.read_at(file, at, frame) {
        Ok(()) => Ok(tell_frame(frame, header, sum)),
        Err(Failed) => Err(ScanFault::Disk),
    }
}

/// Appends a page number.
fn add_page(pages: &mut Vec<u32>, page: u32) -> Result<(), ScanFault>
    ensures ok { OnOk result (pages.new.items ≡ pages.old.items ++ page ∷ []) }
    ensures memory { IfErr result (λ fault. fault ≡ ScanFault.Memory) }
{
    match pages.push(page) {
        Ok(()) => Ok(()),
        Err(_) => Err(ScanFault::Memory),
    }
}

/// Finds the frames after a header of ours that are accepted. Each is read once, by one call, into one buffer.
fn scan<D: Disk>(
    alloc: Global,
    disk: &mut D,
    file: File,
    size: u64,
    header: &LogHeader,
) -> Result<Accepted, ScanFault>
    requires attached { D.attached disk.old ≡ true }
    requires legal { IsTrue (is_page_size header.now.page_size) }
    requires sized { IsSize (D.told disk.old) file size }
    requires long { header_size ≤ size }
    ensures front { IfOk result (λ found. found.front ≡ Front.Ours header.now) }
    ensures found { IfOk result (λ found. IfSome (D.told disk.old)
        (λ told. FindsFrames header.now (content (reads told) file) found)) }
    ensures legal { (log : ℕ) → IsLegalFront log (Front.Ours header.now) → IfOk result (λ found. IsLegal log found) }
    ensures stays { OnlyReads D.DiskTells disk.old disk.new }
    ensures faults { Counts (is_disk_well result) (D.faults disk.old) (D.faults disk.new) }
{
    let mut room = [0u8; LONGEST_FRAME];
    let frame_size = frame_size(header);
    let buffer = &mut room[..frame_size];
    let mut pages = Vec::new(alloc);
    let mut kept = 0;
    let mut kept_size = 0;
    let mut kept_sum = header.sum;
    let mut at = HEADER_SIZE as u64;
    let mut sum = header.sum;
    while let Some(frame) = next_frame(disk, file, size, at, header, sum, buffer)? {
        add_page(&mut pages, frame.page)?;
        at += frame_size as u64;
        sum = frame.sum;
        if frame.size != 0 {
            kept = pages.len();
            kept_size = frame.size;
            kept_sum = sum;
        }
    }
    pages.truncate(kept);
    Ok(Accepted {
        front: Front::Ours(*header),
        pages,
        size: kept_size,
        sum: kept_sum,
    })
}

/// What a log on a disk begins with.
fn read_front<D: Disk>(disk: &mut D, file: File, size: u64, log: u8) -> Result<Front, ScanFault>
    requires which { (log ≡ 1) ⊎ (log ≡ 2) }
    requires attached { D.attached disk.old ≡ true }
    requires sized { IsSize (D.told disk.old) file size }
    ensures front { IfOk result (λ front. IfSome (D.told disk.old) (λ told. front ≡ front_of log (content (reads told) file))) }
    ensures legal { IfOk result (λ front. IsLegalFront log front) }
    ensures room { IfOk result (λ front. HasRoom front size) }
    ensures disk_only { IfErr result (λ fault. fault ≡ ScanFault.Disk) }
    ensures stays { OnlyReads D.DiskTells disk.old disk.new }
    ensures faults { Counts (is_disk_well result) (D.faults disk.old) (D.faults disk.new) }
{
    if size < HEADER_SIZE as u64 {
        return Ok(Front::Nothing);
    }
    let mut bytes = [0u8; HEADER_SIZE];
    match disk.read_at(file, 0, &mut bytes) {
        Ok(()) => Ok(read_log_header(&bytes, log)),
        Err(Failed) => Err(ScanFault::Disk),
    }
}

/// Finds what is accepted of log 1 or log 2: its header, if that is ours, and the longest list of valid frames after it that
/// ends in a commit frame.
///
/// The log is read once: its header by one call, and each frame by one call, so in pieces of at most 65,560 bytes. Nothing is
/// written. Memory is taken for page numbers alone.
pub fn accepted<D: Disk>(alloc: Global, disk: &mut D, log: u8) -> Result<Accepted, ScanFault>
    requires which { (log ≡ 1) ⊎ (log ≡ 2) }
    requires attached { D.attached disk.old ≡ true }
    ensures found { IfOk result (λ found. IfSome (D.told disk.old)
        (λ told. FindsAccepted log (content (reads told) (log_file log)) found)) }
    ensures legal { IfOk result (λ found. IsLegal log found) }
    ensures stays { OnlyReads D.DiskTells disk.old disk.new }
    ensures faults { Counts (is_disk_well result) (D.faults disk.old) (D.faults disk.new) }
{
    let file = log_file(log);
    let Ok(size) = disk.size(file) else {
        return Err(ScanFault::Disk);
    };
    let front = read_front(disk, file, size, log)?;
    match front {
        Front::Ours(header) => scan(alloc, disk, file, size, &header),
        other => Ok(Accepted {
            front: other,
            pages: Vec::new(alloc),
            size: 0,
            sum: Sum { s0: 0, s1: 0 },
        }),
    }
}

/// The file of log 1 or log 2.
fn log_file(log: u8) -> File
    ensures { result ≡ log_file log }
{
    if log == 1 { File::Log1 } else { File::Log2 }
}
