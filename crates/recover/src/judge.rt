// Why files are refused before their pages are looked for. Of causes that stand together the first is told, so the journal is asked
// only where nothing before it bars the opening.
ghost use Rattle.std.specs.Prelude.{false, ◌≡◌, ◌<◌, ◌^◌, true, Some, None, IfErr, IfSome, OnOk};
ghost use Rattle.disk_face.specs.Faults.{Counts};
ghost use Rattle.disk_face.specs.Stays.{OnlyReads};
ghost use Rattle.recover.specs.Seeing.{of_legacy, of_size, foreign_fault, last_written};
ghost use Rattle.recover.specs.Looking.{wal_read, size_read, founds_read, room_read, logs_read, IsJudged, judged, is_disk_fine};

use crate::places::generation_of;
use crate::scan::{First, Looked};
use crate::seen::LookFault;
use disk_face::{Disk, Failed, File};
use wal_frames::{Accepted, Front};

/// The version of a log of SQLite's own.
const LEGACY_VERSION: u32 = 3_007_000;

/// The last generation of a log.
const LAST_GENERATION: u64 = 4_000_000_000;

/// Log 1 is one of SQLite's own.
fn legacy_fault(front: &Front) -> Option<LookFault>
    ensures { result ≡ of_legacy front.now }
{
    match *front {
        Front::Foreign { version, at: _ } => {
            if version == LEGACY_VERSION {
                Some(LookFault::WalMode)
            } else {
                None
            }
        }
        Front::Nothing => None,
        Front::Ours(_) => None,
    }
}

/// The database is in SQLite's own log mode.
fn wal_fault(page1: &Option<First>, front: &Front) -> Option<LookFault>
    ensures { result ≡ wal_read page1.now front.now }
{
    match *page1 {
        Some(first) => {
            if first.header.versions.0 == 2 && first.header.versions.1 == 2 {
                legacy_fault(front)
            } else {
                None
            }
        }
        None => None,
    }
}

/// A log's header is signed and not ours.
fn foreign_fault(front: &Front, file: File) -> Option<LookFault>
    ensures { result ≡ foreign_fault front.now file }
{
    match *front {
        Front::Foreign { version: _, at } => Some(LookFault::ForeignLog { file, at }),
        Front::Nothing => None,
        Front::Ours(_) => None,
    }
}

/// A log has another page size than page 1 names.
fn other_size(front: &Front, page_size: u32, file: File) -> Option<LookFault>
    ensures { result ≡ of_size front.now page_size file }
{
    match *front {
        Front::Ours(header) => {
            if header.page_size == page_size {
                None
            } else {
                Some(LookFault::ForeignLog { file, at: 8 })
            }
        }
        Front::Nothing => None,
        Front::Foreign { .. } => None,
    }
}

/// A log with accepted frames has another page size than page 1 names.
fn size_fault(page1: &Option<First>, found: &Accepted, file: File) -> Option<LookFault>
    ensures { result ≡ size_read page1.now found.now.front found.now.pages.items file }
{
    match *page1 {
        Some(first) => {
            if found.pages.is_empty() {
                None
            } else {
                other_size(&found.front, first.header.page_size, file)
            }
        }
        None => None,
    }
}

/// An opening makes a commit of its own: the database is new, or its versions aren't this program's.
fn founds(page1: &Option<First>) -> bool
    ensures { result ≡ founds_read page1.now }
{
    match *page1 {
        Some(first) => !(first.header.versions.0 == 3 && first.header.versions.1 == 3),
        None => true,
    }
}

/// The last generation that an opening writes, where this is the greatest one.
fn last_written(founds: bool, newest: u64) -> u64
    requires { newest < 2 ^ 32 }
    ensures { result ≡ last_written founds newest }
{
    let then = if founds {
        newest + 3 - newest % 2
    } else {
        newest
    };
    then + 2 + then % 2 + 1
}

/// No generation is left for the headers that an opening writes.
fn room_fault(page1: &Option<First>, one: &Front, two: &Front) -> Option<LookFault>
    ensures { result ≡ room_read page1.now one.now two.now }
{
    let first = generation_of(one);
    let second = generation_of(two);
    let newest = u64::from(first.max(second));
    if last_written(founds(page1), newest) <= LAST_GENERATION {
        return None;
    }
    let file = if first < second {
        File::Log2
    } else {
        File::Log1
    };
    Some(LookFault::ForeignLog { file, at: 12 })
}

/// What the logs begin with bars an opening.
fn logs_fault(looked: &Looked) -> Option<LookFault>
    ensures { result ≡ logs_read looked.now }
{
    if let Some(fault) = foreign_fault(&looked.one.front, File::Log1) {
        return Some(fault);
    }
    if let Some(fault) = foreign_fault(&looked.two.front, File::Log2) {
        return Some(fault);
    }
    if let Some(fault) = size_fault(&looked.page1, &looked.one, File::Log1) {
        return Some(fault);
    }
    if let Some(fault) = size_fault(&looked.page1, &looked.two, File::Log2) {
        return Some(fault);
    }
    room_fault(&looked.page1, &looked.one.front, &looked.two.front)
}

/// Judges what was read, but for pages that aren't there. The journal is asked in its place.
pub(crate) fn judge<D: Disk>(disk: &mut D, looked: &Looked) -> Result<(), LookFault>
    requires { D.attached disk.old ≡ true }
    ensures passed { OnOk result (IfSome (D.journal_answer disk.old) (λ hot. judged looked.now hot ≡ None)) }
    ensures fine { OnOk result (judged looked.now false ≡ None) }
    ensures logs { OnOk result (logs_read looked.now ≡ None) }
    ensures refused { IfErr result (λ why. IsJudged looked.now (D.journal_answer disk.old) why) }
    ensures stays { OnlyReads D.DiskTells disk.old disk.new }
    ensures faults { Counts (is_disk_fine result) (D.faults disk.old) (D.faults disk.new) }
{
    if let Some(fault) = wal_fault(&looked.page1, &looked.one.front) {
        return Err(fault);
    }
    match disk.journal() {
        Ok(hot) => {
            if hot {
                return Err(LookFault::HotJournal);
            }
        }
        Err(Failed) => return Err(LookFault::Disk),
    }
    match logs_fault(looked) {
        Some(fault) => Err(fault),
        None => Ok(()),
    }
}
