// The writes of an opening, from the first sync to the last: for a database that is there, and for a new one.
ghost use Rattle.std.specs.Prelude.{◌≡◌, ◌+◌, ◌*◌, ◌%◌, ◌^◌, ◌≤◌, ◌<◌, true, false, is_ok, [], length, max, IfOk, IfSome, IsTrue};
ghost use Rattle.disk_face.specs.Faults.{Counts};
ghost use Rattle.disk_face.specs.Stays.{OnlyWrites};
ghost use Rattle.disk_face.specs.Steps.{reads};
ghost use Rattle.disk_face.specs.Told.{IsInside};
ghost use Rattle.disk_face.specs.declared.disk.File.TheVariants.{Main, Log1, Log2};
ghost use Rattle.log_spec.specs.LogHeader.{log_fields, last_generation};
ghost use Rattle.page_spec.specs.Header.{is_page_size};
ghost use Rattle.wal_frames.specs.Front.{fields_for, IsLegalFront};
ghost use Rattle.wal_frames.specs.declared.header.Front.TheVariants.{Ours};
ghost use Rattle.crash_spec.specs.Opening.{Since};
ghost use Rattle.crash_spec.specs.Passes.{Passes, WhereDone};
ghost use Rattle.log_pair.specs.Pair.{current_header};
ghost use Rattle.opening_spec.specs.Found.{FoundLog, OpeningView, IsFirst, IsNextHeader, next_log};
ghost use Rattle.opening_spec.specs.States.{IsSyncing, IsSettled, LeavesOpening};
ghost use Rattle.recover.specs.Headers.{last_salt, generation_in, first_of};
ghost use Rattle.recover.specs.NewPages.{new_pages, migrated};
ghost use Rattle.recover.specs.Places.{FitPlaces, AreSeen};
ghost use Rattle.recover.specs.Ready.{IsNewPair, LeavesSettling, ReadyWith, store_view};
ghost use Rattle.recover.specs.Seeing.{next_odd, last_written, newest_of};

use crate::founding::{found_migrated, found_new};
use crate::header::{NewHeaders, first_headers, next_headers, reset_logs};
use crate::pages::lay_down;
use crate::place::Place;
use crate::settling::settle_files;
use crate::setup::StoreKind;
use crate::sync::sync_logs;
use disk_face::{Disk, Failed, File, Salts};
use log_pair::{LogPair, NewHeader};
use wal_frames::Front;

/// Has the logs reach the medium, makes a new database, whose first commit goes behind this header of log 1, and gives both logs their
/// new headers, log 2 first.
///
/// After `Failed` the files are somewhere on this way: the next opening recovers nothing, or the new database.
fn begin_new<D: Disk>(
    disk: &mut D,
    kind: StoreKind,
    header: &NewHeader,
    headers: &NewHeaders,
    buf: &mut [u8],
) -> Result<(), Failed>
    requires attached { D.attached disk.old ≡ true }
    requires one { IsLegalFront 1 (Ours header.now.header) }
    requires two { IsLegalFront 2 (Ours headers.now.two) }
    requires same_size { headers.now.two.page_size ≡ header.now.header.page_size }
    requires fields { log_fields header.now.bytes ≡ fields_for header.now.header }
    requires page_size { length buf.old ≡ header.now.header.page_size }
    requires room { (108 ≤ length buf.old) × (length buf.old ≤ 65536) }
    ensures moments { (view : OpeningView) (one two : FoundLog) → Since view.opening.start (IsSyncing view one two []) (D.told disk.old) → length buf.old ≡ view.size
        → one.frames ≡ [] → two.frames ≡ [] → IfSome (D.told disk.old) (λ told. (reads told).main ≡ [])
        → IsNextHeader Log1 one header.now.bytes → IsNextHeader Log2 two headers.now.here.bytes → IsNextHeader Log1 (next_log one) headers.now.there.bytes
        → Passes view.opening (LeavesSettling view (new_pages kind view.size)) (WhereDone (is_ok result) (IsSettled (store_view view (new_pages kind view.size)) (log_fields headers.now.there.bytes) (log_fields headers.now.here.bytes))) (D.told disk.old) (D.told disk.new) }
    ensures stays { OnlyWrites D.DiskTells disk.old disk.new }
    ensures faults { Counts (is_ok result) (D.faults disk.old) (D.faults disk.new) }
{
    match sync_logs(disk) {
        Ok(()) => match found_new(disk, kind, header, headers.two, buf) {
            Ok(()) => {
                match reset_logs(disk, File::Log2, &headers.here, File::Log1, &headers.there) {
                    Ok(()) => Ok(()),
                    Err(Failed) => Err(Failed),
                }
            }
            Err(Failed) => Err(Failed),
        },
        Err(Failed) => Err(Failed),
    }
}

/// Does all writes of the opening of a new database, whose logs begin with these fronts.
pub(crate) fn settle_new<D: Disk, W: Salts>(
    disk: &mut D,
    salts: &mut W,
    kind: StoreKind,
    one: &Front,
    two: &Front,
    buf: &mut [u8],
) -> Result<LogPair, Failed>
    requires attached { D.attached disk.old ≡ true }
    requires page_size { IsTrue (is_page_size (length buf.old)) }
    requires size { (512 ≤ length buf.old) × (length buf.old ≤ 65536) }
    requires generations { next_odd (max (generation_in one.now) (generation_in two.now)) + 4 ≤ last_generation }
    ensures pair { IfOk result (IsNewPair (length buf.old)) }
    ensures generation { IfOk result (λ pair. (current_header pair).generation ≡ last_written true (newest_of one.now two.now)) }
    ensures moments { (view : OpeningView) (has1 has2 : FoundLog) → Since view.opening.start (IsSyncing view has1 has2 []) (D.told disk.old) → length buf.old ≡ view.size
        → has1.frames ≡ [] → has2.frames ≡ [] → IfSome (D.told disk.old) (λ told. (reads told).main ≡ [])
        → has1.salt ≡ last_salt one.now % 2 ^ 32 → has2.salt ≡ last_salt two.now % 2 ^ 32 → has1.most ≡ 0 → has2.most ≡ 0
        → Passes view.opening (LeavesSettling view (new_pages kind view.size)) (ReadyWith result view (new_pages kind view.size)) (D.told disk.old) (D.told disk.new) }
    ensures stays { OnlyWrites D.DiskTells disk.old disk.new }
    ensures faults { Counts (is_ok result) (D.faults disk.old) (D.faults disk.new) }
    ensures loans { W.loans salts.new ≡ W.loans salts.old }
{
    let headers = first_headers(salts, one, two, buf.len() as u32);
    match begin_new(disk, kind, &headers.commit, &headers.after, buf) {
        Ok(()) => Ok(LogPair::new(1, headers.after.one, headers.after.two)),
        Err(Failed) => Err(Failed),
    }
}

/// Does all writes of the opening of a database whose versions are this program's, and whose logs begin with these fronts.
pub(crate) fn settle_ours<D: Disk, W: Salts>(
    disk: &mut D,
    salts: &mut W,
    one: &Front,
    two: &Front,
    places: &[Place],
    some_frames: bool,
    buf: &mut [u8],
) -> Result<LogPair, Failed>
    requires attached { D.attached disk.old ≡ true }
    requires page_size { IsTrue (is_page_size (length buf.old)) }
    requires size { (512 ≤ length buf.old) × (length buf.old ≤ 65536) }
    requires generations { max (generation_in one.now) (generation_in two.now) + 4 ≤ last_generation }
    requires few { length places.now < 4294967295 }
    requires fits { IfSome (D.told disk.old) (λ told. FitPlaces (reads told) (length buf.old) places.now) }
    ensures pair { IfOk result (IsNewPair (length buf.old)) }
    ensures generation { IfOk result (λ pair. (current_header pair).generation ≡ last_written false (newest_of one.now two.now)) }
    ensures moments { (view : OpeningView) (has1 has2 : FoundLog) → Since view.opening.start (IsSyncing view has1 has2 []) (D.told disk.old) → length buf.old ≡ view.size
        → (some_frames ≡ false → (has1.frames ≡ []) × (has2.frames ≡ [])) → (some_frames ≡ true → IfSome (D.told disk.old) (λ told. AreSeen view has1 has2 places.now (reads told)))
        → IfSome (D.told disk.old) (λ told. IsFirst (reads told) (first_of one.now two.now) has1 has2) → 1 ≤ length view.map → view.own ≡ true
        → has1.salt ≡ last_salt one.now % 2 ^ 32 → has2.salt ≡ last_salt two.now % 2 ^ 32 → has1.most ≡ 0 → has2.most ≡ 0
        → Passes view.opening (LeavesOpening view) (ReadyWith result view view.map) (D.told disk.old) (D.told disk.new) }
    ensures stays { OnlyWrites D.DiskTells disk.old disk.new }
    ensures faults { Counts (is_ok result) (D.faults disk.old) (D.faults disk.new) }
    ensures loans { W.loans salts.new ≡ W.loans salts.old }
{
    let headers = next_headers(salts, one, two, buf.len() as u32);
    match settle_files(disk, places, some_frames, &headers, buf) {
        Ok(()) => Ok(LogPair::new(1, headers.one, headers.two)),
        Err(Failed) => Err(Failed),
    }
}

/// Has the logs reach the medium, writes what they hold to Main, gives page 1 this program's versions by a commit behind this header of
/// log 1, and gives both logs their new headers, log 2 first.
///
/// After `Failed` the files are somewhere on this way: the next opening recovers the same map, or the one with these versions.
fn begin_migrated<D: Disk>(
    disk: &mut D,
    places: &[Place],
    some_frames: bool,
    header: &NewHeader,
    headers: &NewHeaders,
    buf: &mut [u8],
) -> Result<(), Failed>
    requires attached { D.attached disk.old ≡ true }
    requires one { IsLegalFront 1 (Ours header.now.header) }
    requires two { IsLegalFront 2 (Ours headers.now.two) }
    requires same_size { headers.now.two.page_size ≡ header.now.header.page_size }
    requires fields { log_fields header.now.bytes ≡ fields_for header.now.header }
    requires page_size { length buf.old ≡ header.now.header.page_size }
    requires room { (108 ≤ length buf.old) × (length buf.old ≤ 65536) }
    requires few { length places.now < 4294967295 }
    requires some { IfSome (D.told disk.old) (λ told. 1 ≤ length places.now) }
    requires fits { IfSome (D.told disk.old) (λ told. FitPlaces (reads told) (length buf.old) places.now) }
    requires whole { some_frames ≡ false → IsInside (D.told disk.old) Main (length places.now * length buf.old) 0 }
    ensures moments { (view : OpeningView) (one two : FoundLog) → Since view.opening.start (IsSyncing view one two []) (D.told disk.old) → length buf.old ≡ view.size
        → two.frames ≡ [] → (some_frames ≡ false → one.frames ≡ []) → IfSome (D.told disk.old) (λ told. AreSeen view one two places.now (reads told))
        → IsNextHeader Log1 one header.now.bytes → IsNextHeader Log2 two headers.now.here.bytes → IsNextHeader Log1 (next_log one) headers.now.there.bytes
        → Passes view.opening (LeavesSettling view (migrated view.map)) (WhereDone (is_ok result) (IsSettled (store_view view (migrated view.map)) (log_fields headers.now.there.bytes) (log_fields headers.now.here.bytes))) (D.told disk.old) (D.told disk.new) }
    ensures stays { OnlyWrites D.DiskTells disk.old disk.new }
    ensures faults { Counts (is_ok result) (D.faults disk.old) (D.faults disk.new) }
{
    match sync_logs(disk) {
        Ok(()) => match lay_down(disk, places, some_frames, buf) {
            Ok(()) => {
                // A database that is there has page 1.
                let size = (places.len() as u32).max(1);
                match found_migrated(disk, size, header, headers.two, buf) {
                    Ok(()) => {
                        match reset_logs(
                            disk,
                            File::Log2,
                            &headers.here,
                            File::Log1,
                            &headers.there,
                        ) {
                            Ok(()) => Ok(()),
                            Err(Failed) => Err(Failed),
                        }
                    }
                    Err(Failed) => Err(Failed),
                }
            }
            Err(Failed) => Err(Failed),
        },
        Err(Failed) => Err(Failed),
    }
}

/// Does all writes of the opening of a database whose versions aren't this program's, and whose logs begin with these fronts.
pub(crate) fn settle_migrated<D: Disk, W: Salts>(
    disk: &mut D,
    salts: &mut W,
    one: &Front,
    two: &Front,
    places: &[Place],
    some_frames: bool,
    buf: &mut [u8],
) -> Result<LogPair, Failed>
    requires attached { D.attached disk.old ≡ true }
    requires page_size { IsTrue (is_page_size (length buf.old)) }
    requires size { (512 ≤ length buf.old) × (length buf.old ≤ 65536) }
    requires generations { next_odd (max (generation_in one.now) (generation_in two.now)) + 4 ≤ last_generation }
    requires few { length places.now < 4294967295 }
    requires some { IfSome (D.told disk.old) (λ told. 1 ≤ length places.now) }
    requires fits { IfSome (D.told disk.old) (λ told. FitPlaces (reads told) (length buf.old) places.now) }
    requires whole { some_frames ≡ false → IsInside (D.told disk.old) Main (length places.now * length buf.old) 0 }
    ensures pair { IfOk result (IsNewPair (length buf.old)) }
    ensures generation { IfOk result (λ pair. (current_header pair).generation ≡ last_written true (newest_of one.now two.now)) }
    ensures moments { (view : OpeningView) (has1 has2 : FoundLog) → Since view.opening.start (IsSyncing view has1 has2 []) (D.told disk.old) → length buf.old ≡ view.size
        → has2.frames ≡ [] → (some_frames ≡ false → has1.frames ≡ []) → IfSome (D.told disk.old) (λ told. AreSeen view has1 has2 places.now (reads told))
        → 1 ≤ length view.map → has1.salt ≡ last_salt one.now % 2 ^ 32 → has2.salt ≡ last_salt two.now % 2 ^ 32 → has1.most ≡ 0 → has2.most ≡ 0
        → Passes view.opening (LeavesSettling view (migrated view.map)) (ReadyWith result view (migrated view.map)) (D.told disk.old) (D.told disk.new) }
    ensures stays { OnlyWrites D.DiskTells disk.old disk.new }
    ensures faults { Counts (is_ok result) (D.faults disk.old) (D.faults disk.new) }
    ensures loans { W.loans salts.new ≡ W.loans salts.old }
{
    let headers = first_headers(salts, one, two, buf.len() as u32);
    match begin_migrated(
        disk,
        places,
        some_frames,
        &headers.commit,
        &headers.after,
        buf,
    ) {
        Ok(()) => Ok(LogPair::new(1, headers.after.one, headers.after.two)),
        Err(Failed) => Err(Failed),
    }
}
