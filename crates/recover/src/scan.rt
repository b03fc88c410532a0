// What is read of a database's files, before they are judged: both logs, how long Main is, and the first bytes of page 1.
//
// Page 1 is read where its last frame stands, and from Main only where no log has one.
ghost use Rattle.std.specs.Prelude.{◌≡◌, ◌⊎◌, ◌≤◌, true, length, IfOk, IfErr, IfSome, is_ok, OnOk, slice_index};
ghost use Rattle.disk_face.specs.Faults.{Counts};
ghost use Rattle.disk_face.specs.Files.{content};
ghost use Rattle.disk_face.specs.Stays.{OnlyReads};
ghost use Rattle.disk_face.specs.Steps.{reads};
ghost use Rattle.disk_face.specs.Told.{IsSize, IsInside, IsRead};
ghost use Rattle.db_header.specs.Header.{refusal, IsTold};
ghost use Rattle.wal_frames.specs.Found.{FindsAccepted, IsLegal, log_file};
ghost use Rattle.recover.specs.Looking.{TellsFirst, AreRead, IsLegalLook, IsOutsideFault, IsHeaderFault, is_disk_fine, size_counts, bytes_at, first_size_at, FitsFirst, IsFirstFault, AreLegal, AreScanned, IsPage1, place_in, is_new_read};

use crate::place::{Place, read_place};
use crate::places::first_place;
use crate::seen::LookFault;
use be_fields::get_u32;
use db_header::{Header, HeaderFault, read_header};
use disk_face::{Disk, Failed, File};
use std::alloc::Global;
use wal_frames::{Accepted, ScanFault, accepted};

/// What the first bytes of page 1 tell.
#[derive(Clone, Copy, Debug)]
pub(crate) struct First {
    /// Its header.
    pub(crate) header: Header,
    /// The size in pages that the header names counts.
    pub(crate) counts: bool,
    /// The byte behind the header.
    pub(crate) byte: u8,
}

/// What was read of the files.
#[derive(Debug, Drop)]
pub(crate) struct Looked {
    /// What is accepted of log 1.
    pub(crate) one: Accepted,
    /// What is accepted of log 2.
    pub(crate) two: Accepted,
    /// How many bytes Main has.
    pub(crate) main: u64,
    /// What page 1 tells; None where nothing is there yet.
    pub(crate) page1: Option<First>,
}

/// The most frames of a log that is looked at. A longer log, which this program never writes, counts as want of memory.
const MOST_FRAMES: usize = 4_294_967_295;

/// How many bytes of page 1 are read: those of its header, and the byte behind it.
const FIRST_SIZE: usize = 101;

/// What is accepted of a log.
fn scan_log<D: Disk>(alloc: Global, disk: &mut D, log: u8) -> Result<Accepted, LookFault>
    requires which { (log ≡ 1) ⊎ (log ≡ 2) }
    requires attached { D.attached disk.old ≡ true }
    ensures found { IfOk result (λ found. IfSome (D.told disk.old) (λ told. FindsAccepted log (content (reads told) (log_file log)) found)) }
    ensures legal { IfOk result (λ found. IsLegal log found) }
    ensures few { IfOk result (λ found. length found.pages.items ≤ 4294967295) }
    ensures fault { IfErr result IsOutsideFault }
    ensures stays { OnlyReads D.DiskTells disk.old disk.new }
    ensures faults { Counts (is_disk_fine result) (D.faults disk.old) (D.faults disk.new) }
{
    match accepted(alloc, disk, log) {
        Ok(found) => {
            if found.pages.len() > MOST_FRAMES {
                return Err(LookFault::Memory);
            }
            Ok(found)
        }
        Err(ScanFault::Disk) => Err(LookFault::Disk),
        Err(ScanFault::Memory) => Err(LookFault::Memory),
    }
}

/// Whether the size in pages that the header names counts.
#[tactic(auto, unfolding(page_spec::specs::Header::fields_of))]
fn size_counts(first: &[u8]) -> bool
    requires { 100 ≤ length first.now }
    ensures { result ≡ size_counts first.now }
{
    get_u32(first, 28) > 0 && get_u32(first, 24) == get_u32(first, 92)
}

/// The byte behind the header, 0 where there is none.
fn byte_behind(first: &[u8]) -> u8
    ensures { result ≡ slice_index first.now 100 }
{
    if first.len() > 100 { first[100] } else { 0 }
}

/// What the first bytes of page 1 tell, where Main has so many bytes.
fn tell_first(first: &[u8], main: u64) -> Result<First, HeaderFault>
    ensures told { IfOk result (λ told. TellsFirst first.now main told) }
    ensures legal { IfOk result (λ told. IsTold told.header) }
    ensures refused { IfErr result (λ fault. refusal first.now main ≡ Some fault) }
{
    match read_header(first, main) {
        Ok(header) => Ok(First {
            header,
            counts: size_counts(first),
            byte: byte_behind(first),
        }),
        Err(fault) => Err(fault),
    }
}

/// How many bytes of page 1 are read: those of its header and one more, or as many as there are.
fn first_size(place: Place, main: u64) -> usize
    ensures { result ≡ first_size_at main place }
{
    match place {
        Place::InMain => {
            if main < FIRST_SIZE as u64 {
                main as usize
            } else {
                FIRST_SIZE
            }
        }
        Place::InLog { .. } => FIRST_SIZE,
    }
}

/// Reads the first bytes of page 1 into the buffer, which has room for just these, and says what they tell.
fn tell_place<D: Disk>(
    disk: &mut D,
    place: Place,
    main: u64,
    bytes: &mut [u8],
) -> Result<First, LookFault>
    requires attached { D.attached disk.old ≡ true }
    requires sized { IsSize (D.told disk.old) File.Main main }
    requires fits { IfSome (D.told disk.old) (λ told. FitsFirst (reads told) place) }
    requires room { length bytes.old ≡ first_size_at main place }
    ensures told { IfOk result (λ first. IfSome (D.told disk.old) (λ told. TellsFirst (bytes_at (reads told) place) main first)) }
    ensures legal { IfOk result (λ first. IsTold first.header) }
    ensures refused { IfErr result (λ why. IsFirstFault (D.told disk.old) place main why) }
    ensures stays { OnlyReads D.DiskTells disk.old disk.new }
    ensures faults { Counts (is_disk_fine result) (D.faults disk.old) (D.faults disk.new) }
{
    match read_place(disk, place, 1, bytes) {
        Ok(()) => match tell_first(bytes, main) {
            Ok(first) => Ok(first),
            Err(fault) => Err(LookFault::Header(fault)),
        },
        Err(Failed) => Err(LookFault::Disk),
    }
}

/// Reads the first bytes of page 1, and says what they tell.
fn read_first<D: Disk>(disk: &mut D, place: Place, main: u64) -> Result<First, LookFault>
    requires attached { D.attached disk.old ≡ true }
    requires sized { IsSize (D.told disk.old) File.Main main }
    requires fits { IfSome (D.told disk.old) (λ told. FitsFirst (reads told) place) }
    ensures told { IfOk result (λ first. IfSome (D.told disk.old) (λ told. TellsFirst (bytes_at (reads told) place) main first)) }
    ensures legal { IfOk result (λ first. IsTold first.header) }
    ensures refused { IfErr result (λ why. IsFirstFault (D.told disk.old) place main why) }
    ensures stays { OnlyReads D.DiskTells disk.old disk.new }
    ensures faults { Counts (is_disk_fine result) (D.faults disk.old) (D.faults disk.new) }
{
    let mut room = [0u8; FIRST_SIZE];
    let count = first_size(place, main);
    tell_place(disk, place, main, &mut room[..count])
}

/// Nothing is there yet: Main is empty, and no log has an accepted frame.
fn is_new(one: &Accepted, two: &Accepted, main: u64) -> bool
    ensures { result ≡ is_new_read one.now two.now main }
{
    main == 0 && one.pages.is_empty() && two.pages.is_empty()
}

/// Reads the first bytes of page 1, unless nothing is there yet.
fn read_page1<D: Disk>(
    disk: &mut D,
    one: &Accepted,
    two: &Accepted,
    main: u64,
) -> Result<Option<First>, LookFault>
    requires attached { D.attached disk.old ≡ true }
    requires logs { AreLegal one.now two.now }
    requires scanned { IfSome (D.told disk.old) (λ told. AreScanned (reads told) one.now two.now) }
    requires sized { IsSize (D.told disk.old) File.Main main }
    ensures told { IfOk result (λ page1. IfSome (D.told disk.old) (λ told. IsPage1 (reads told) (place_in one.now two.now 1) page1)) }
    ensures legal { IfOk result (λ page1. IfSome page1 (λ first. IsTold first.header)) }
    ensures refused { IfErr result (λ why. IsHeaderFault (D.told disk.old) why) }
    ensures stays { OnlyReads D.DiskTells disk.old disk.new }
    ensures faults { Counts (is_disk_fine result) (D.faults disk.old) (D.faults disk.new) }
{
    if is_new(one, two, main) {
        return Ok(None);
    }
    match read_first(disk, first_place(one, two), main) {
        Ok(first) => Ok(Some(first)),
        Err(fault) => Err(fault),
    }
}

/// What is accepted of both logs, log 1 first.
fn scan_logs<D: Disk>(alloc: Global, disk: &mut D) -> Result<(Accepted, Accepted), LookFault>
    requires { D.attached disk.old ≡ true }
    ensures scanned { IfOk result (λ logs. IfSome (D.told disk.old) (λ told. AreScanned (reads told) logs.0 logs.1)) }
    ensures legal { IfOk result (λ logs. AreLegal logs.0 logs.1) }
    ensures fault { IfErr result IsOutsideFault }
    ensures stays { OnlyReads D.DiskTells disk.old disk.new }
    ensures faults { Counts (is_disk_fine result) (D.faults disk.old) (D.faults disk.new) }
{
    match scan_log(alloc, disk, 1) {
        Ok(one) => match scan_log(alloc, disk, 2) {
            Ok(two) => Ok((one, two)),
            Err(fault) => Err(fault),
        },
        Err(fault) => Err(fault),
    }
}

/// Reads what an opening looks at, but for the journal: both logs, Main's length, and the first bytes of page 1.
pub(crate) fn read_files<D: Disk>(alloc: Global, disk: &mut D) -> Result<Looked, LookFault>
    requires { D.attached disk.old ≡ true }
    ensures read { IfOk result (λ looked. IfSome (D.told disk.old) (λ told. AreRead (reads told) looked)) }
    ensures legal { IfOk result (λ looked. IsLegalLook looked) }
    ensures refused { IfErr result (λ why. IsHeaderFault (D.told disk.old) why) }
    ensures stays { OnlyReads D.DiskTells disk.old disk.new }
    ensures faults { Counts (is_disk_fine result) (D.faults disk.old) (D.faults disk.new) }
{
    match scan_logs(alloc, disk) {
        Ok((one, two)) => {
            let Ok(main) = disk.size(File::Main) else {
                return Err(LookFault::Disk);
            };
            match read_page1(disk, &one, &two, main) {
                Ok(page1) => Ok(Looked {
                    one,
                    two,
                    main,
                    page1,
                }),
                Err(fault) => Err(fault),
            }
        }
        Err(fault) => Err(fault),
    }
}
