// What an opening writes, from its first sync to its last.
ghost use Rattle.std.specs.Prelude.{◌≡◌, ◌+◌, ◌≤◌, ◌<◌, true, false, is_ok, [], length, Err, IfOk, IfErr, IfSome, IsTrue};
ghost use Rattle.disk_face.specs.Faults.{Counts};
ghost use Rattle.disk_face.specs.Stays.{OnlyWrites};
ghost use Rattle.disk_face.specs.Steps.{reads};
ghost use Rattle.page_spec.specs.Header.{is_page_size};
ghost use Rattle.log_spec.specs.LogHeader.{log_fields};
ghost use Rattle.wal_frames.specs.Found.{is_disk_well};
ghost use Rattle.crash_spec.specs.Marks.{IsLog, other_of};
ghost use Rattle.crash_spec.specs.Opening.{Since};
ghost use Rattle.crash_spec.specs.Passes.{Passes, WhereDone};
ghost use Rattle.log_pair.specs.Pair.{current_header};
ghost use Rattle.opening_spec.specs.Found.{FoundLog, OpeningView, IsFirst, IsNextHeader, found_log};
ghost use Rattle.opening_spec.specs.States.{IsSyncing, IsSettled, LeavesOpening, header1_of, header2_of};
ghost use Rattle.recover.specs.Places.{FitPlaces, AreSeen};
ghost use Rattle.recover.specs.Ready.{IsNewPair, IsViewOf, LeavesSettling, ReadyWith, first_map};
ghost use Rattle.recover.specs.Seeing.{IsSeen, IsWholeSeen, generation_opened, generation_seen};

use crate::begin::{settle_migrated, settle_new, settle_ours};
use crate::header::{NewHeaders, reset_logs};
use crate::pages::lay_down;
use crate::place::Place;
use crate::seen::Seen;
use crate::setup::{Setup, StoreKind};
use crate::sync::sync_logs;
use disk_face::{Disk, Failed, Salts};
use log_pair::LogPair;
use std::alloc::Global;
use wal_frames::ScanFault;

/// Has the logs reach the medium, writes what they hold to Main, and gives both their new headers.
///
/// After `Failed` the files are somewhere on this way: the next opening recovers the same map.
pub(crate) fn settle_files<D: Disk>(
    disk: &mut D,
    places: &[Place],
    some_frames: bool,
    headers: &NewHeaders,
    buf: &mut [u8],
) -> Result<(), Failed>
    requires attached { D.attached disk.old ≡ true }
    requires small { length buf.old ≤ 65536 }
    requires few { length places.now < 4294967295 }
    requires fits { IfSome (D.told disk.old) (λ told. FitPlaces (reads told) (length buf.old) places.now) }
    requires first { IsLog headers.now.first }
    requires other { headers.now.second ≡ other_of headers.now.first }
    ensures moments { (view : OpeningView) (one two : FoundLog) → Since view.opening.start (IsSyncing view one two []) (D.told disk.old) → length buf.old ≡ view.size
        → (some_frames ≡ false → (one.frames ≡ []) × (two.frames ≡ [])) → (some_frames ≡ true → IfSome (D.told disk.old) (λ told. AreSeen view one two places.now (reads told)))
        → IfSome (D.told disk.old) (λ told. IsFirst (reads told) headers.now.first one two) → view.own ≡ true
        → IsNextHeader headers.now.first (found_log headers.now.first one two) headers.now.here.bytes
        → IsNextHeader (other_of headers.now.first) (found_log (other_of headers.now.first) one two) headers.now.there.bytes
        → Passes view.opening (LeavesOpening view) (WhereDone (is_ok result) (IsSettled view (header1_of headers.now.first (log_fields headers.now.here.bytes) (log_fields headers.now.there.bytes)) (header2_of headers.now.first (log_fields headers.now.here.bytes) (log_fields headers.now.there.bytes)))) (D.told disk.old) (D.told disk.new) }
    ensures stays { OnlyWrites D.DiskTells disk.old disk.new }
    ensures faults { Counts (is_ok result) (D.faults disk.old) (D.faults disk.new) }
{
    match sync_logs(disk) {
        Ok(()) => match lay_down(disk, places, some_frames, buf) {
            Ok(()) => match reset_logs(
                disk,
                headers.first,
                &headers.here,
                headers.second,
                &headers.there,
            ) {
                Ok(()) => Ok(()),
                Err(Failed) => Err(Failed),
            },
            Err(Failed) => Err(Failed),
        },
        Err(Failed) => Err(Failed),
    }
}

// A buffer of so many bytes.
fn page_buffer(alloc: Global, size: usize) -> Result<Vec<u8>, ScanFault>
    ensures room { IfOk result (λ buf. length buf.items ≡ size) }
    ensures cause { IfErr result (λ fault. fault ≡ ScanFault.Memory) }
{
    match vec![in alloc; 0; size] {
        Ok(buf) => Ok(buf),
        Err(_) => Err(ScanFault::Memory),
    }
}

/// Does all writes of an opening, with a buffer of one page.
fn settle_seen<D: Disk, W: Salts>(
    disk: &mut D,
    salts: &mut W,
    seen: &Seen,
    kind: StoreKind,
    buf: &mut [u8],
) -> Result<LogPair, Failed>
    requires attached { D.attached disk.old ≡ true }
    requires room { length buf.old ≡ seen.now.page_size }
    requires whole { IsWholeSeen seen.now }
    requires seen { IfSome (D.told disk.old) (λ told. IsSeen (length buf.old) (reads told) seen.now) }
    requires named { seen.now.is_new ≡ false → seen.now.named ≡ length seen.now.places }
    ensures pair { IfOk result (IsNewPair seen.now.page_size) }
    ensures generation { IfOk result (λ pair. (current_header pair).generation ≡ generation_seen seen.now) }
    ensures moments { (view : OpeningView) (one two : FoundLog) → Since view.opening.start (IsSyncing view one two []) (D.told disk.old)
        → IfSome (D.told disk.old) (λ told. IsViewOf seen.now (reads told) view one two)
        → Passes view.opening (LeavesSettling view (first_map kind seen.now view.size view.map)) (ReadyWith result view (first_map kind seen.now view.size view.map)) (D.told disk.old) (D.told disk.new) }
    ensures stays { OnlyWrites D.DiskTells disk.old disk.new }
    ensures faults { Counts (is_ok result) (D.faults disk.old) (D.faults disk.new) }
    ensures loans { W.loans salts.new ≡ W.loans salts.old }
{
    if seen.is_new {
        settle_new(disk, salts, kind, &seen.one, &seen.two, buf)
    } else if seen.is_ours {
        settle_ours(
            disk,
            salts,
            &seen.one,
            &seen.two,
            &seen.places,
            seen.some_frames,
            buf,
        )
    } else {
        settle_migrated(
            disk,
            salts,
            &seen.one,
            &seen.two,
            &seen.places,
            seen.some_frames,
            buf,
        )
    }
}

/// Does all writes of an opening, after which a store may begin: the logs and what they hold reach the medium; a new database gets its
/// pages, and one whose versions aren't this program's gets these; and both logs get new headers. Log 1 is the current one then, and
/// neither log has a frame.
///
/// Log 2's header has the least even generation from two more than the greatest one of a header of ours on, and log 1's the one after it.
/// Where new pages or versions were written, the greatest one is that of the header behind which they were committed: the least odd one
/// from two more than the greatest one before it on.
///
/// It needs what was seen of this disk as it is, the same setup, and that page 1 names the recovered size. Memory is taken before the
/// first write, for one page; after `Memory` the disk is as before. After `Disk` the count of faults rose, and the files are somewhere on
/// the way.
pub fn settle<D: Disk, W: Salts>(
    alloc: Global,
    disk: &mut D,
    salts: &mut W,
    seen: Seen,
    setup: &Setup,
) -> Result<LogPair, ScanFault>
    requires attached { D.attached disk.old ≡ true }
    requires page_size { IsTrue (is_page_size setup.now.page_size) }
    requires whole { IsWholeSeen seen }
    requires new_size { seen.is_new ≡ true → seen.page_size ≡ setup.now.page_size }
    requires seen { IfSome (D.told disk.old) (λ told. IsSeen setup.now.page_size (reads told) seen) }
    requires named { seen.is_new ≡ false → seen.named ≡ length seen.places }
    ensures pair { IfOk result (IsNewPair seen.page_size) }
    ensures generation { IfOk result (λ pair. IfSome (D.told disk.old) (λ told. (current_header pair).generation ≡ generation_opened (reads told))) }
    ensures moments { (view : OpeningView) (one two : FoundLog) → Since view.opening.start (IsSyncing view one two []) (D.told disk.old)
        → IfSome (D.told disk.old) (λ told. IsViewOf seen (reads told) view one two)
        → Passes view.opening (LeavesSettling view (first_map setup.now.kind seen view.size view.map)) (ReadyWith result view (first_map setup.now.kind seen view.size view.map)) (D.told disk.old) (D.told disk.new) }
    ensures memory { result ≡ Err ScanFault.Memory → D.told disk.new ≡ D.told disk.old }
    ensures stays { OnlyWrites D.DiskTells disk.old disk.new }
    ensures faults { Counts (is_disk_well result) (D.faults disk.old) (D.faults disk.new) }
    ensures loans { W.loans salts.new ≡ W.loans salts.old }
{
    match page_buffer(alloc, seen.page_size as usize) {
        Ok(mut buf) => match settle_seen(disk, salts, &seen, setup.kind, &mut buf) {
            Ok(pair) => Ok(pair),
            Err(Failed) => Err(ScanFault::Disk),
        },
        Err(fault) => Err(fault),
    }
}
