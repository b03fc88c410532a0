// What the logs hold is written to Main.
//
// A page that no log holds stays as it is, so that a page is written only where a crash can't take its other copy: while it is torn
// the log still has it.
ghost use Rattle.std.specs.Prelude.{◌≡◌, ℕ, ◌+◌, ◌-◌, ◌*◌, ◌≤◌, ◌<◌, true, false, is_ok, List, [], length, Contains, None, OnOk, IfSome};
ghost use Rattle.disk_face.specs.Faults.{Counts};
ghost use Rattle.disk_face.specs.Stays.{OnlyWrites};
ghost use Rattle.disk_face.specs.Steps.{reads, after};
ghost use Rattle.disk_face.specs.Told.{IsInside};
ghost use Rattle.disk_face.specs.declared.disk.File.{File as Files};
ghost use Rattle.disk_face.specs.declared.disk.File.TheVariants.{Main};
ghost use Rattle.disk_face.specs.declared.step.Step.TheVariants.{Wrote};
ghost use Rattle.crash_spec.specs.Opening.{Since};
ghost use Rattle.crash_spec.specs.Marks.{IsLog};
ghost use Rattle.crash_spec.specs.Passes.{Passes, ByAnswer};
ghost use Rattle.opening_spec.specs.Found.{FoundLog, OpeningView, IsFirst, pages_held, page_in};
ghost use Rattle.opening_spec.specs.States.{AreSynced, IsWriting, IsLaidDown, IsResetting, LeavesMap, page_piece};
ghost use Rattle.recover.specs.Places.{FitsPlace, FitPlaces, IsPlaceOf, ArePlacesOf, AreSeen, OnlyMain};

use crate::place::Place;
use disk_face::{Disk, Failed, File};

/// Writes a page of Main with the bytes that it has in the recovered map. Nothing is synced.
pub(crate) fn write_page<D: Disk>(disk: &mut D, number: u32, bytes: &[u8]) -> Result<(), Failed>
    requires attached { D.attached disk.old ≡ true }
    requires number { 1 ≤ number }
    requires small { length bytes.now ≤ 65536 }
    requires reached { IsInside (D.told disk.old) Main ((number - 1) * length bytes.now) 0 }
    ensures moments { (view : OpeningView) (one two : FoundLog) → Since view.opening.start (IsWriting view one two number) (D.told disk.old) → length bytes.now ≡ view.size
        → IfSome (D.told disk.old) (λ told. Contains (pages_held one two) number × (bytes.now ≡ page_in view.size (reads told) one two number) × (number ≤ length view.map))
        → Passes view.opening (LeavesMap view) (ByAnswer (is_ok result) (IsWriting view one two (number + 1)) (AreSynced view one two)) (D.told disk.old) (D.told disk.new) }
    ensures written { OnOk result (D.told disk.new ≡ after (Wrote (page_piece number (length bytes.now) bytes.now)) (D.told disk.old)) }
    ensures stays { OnlyWrites D.DiskTells disk.old disk.new }
    ensures faults { Counts (is_ok result) (D.faults disk.old) (D.faults disk.new) }
{
    let at = (u64::from(number) - 1) * bytes.len() as u64;
    match disk.write_at(File::Main, at, bytes) {
        Ok(()) => Ok(()),
        Err(Failed) => Err(Failed),
    }
}

/// Writes a page to Main that stands at this place of a log.
fn copy_page<D: Disk>(
    disk: &mut D,
    file: File,
    at: u64,
    number: u32,
    buf: &mut [u8],
) -> Result<(), Failed>
    requires attached { D.attached disk.old ≡ true }
    requires number { 1 ≤ number }
    requires small { length buf.old ≤ 65536 }
    requires reached { IsInside (D.told disk.old) Main ((number - 1) * length buf.old) 0 }
    requires fits { IfSome (D.told disk.old) (λ told. FitsPlace (reads told) (length buf.old) number (Place.InLog file at)) }
    ensures moments { (view : OpeningView) (one two : FoundLog) → Since view.opening.start (IsWriting view one two number) (D.told disk.old) → length buf.old ≡ view.size
        → IfSome (D.told disk.old) (λ told. IsPlaceOf view one two (reads told) number (Place.InLog file at) × (number ≤ length view.map))
        → Passes view.opening (LeavesMap view) (ByAnswer (is_ok result) (IsWriting view one two (number + 1)) (AreSynced view one two)) (D.told disk.old) (D.told disk.new) }
    ensures only { OnOk result (OnlyMain (D.told disk.old) (D.told disk.new)) }
    ensures reached { OnOk result (IsInside (D.told disk.new) Main (number * length buf.old) 0) }
    ensures stays { OnlyWrites D.DiskTells disk.old disk.new }
    ensures faults { Counts (is_ok result) (D.faults disk.old) (D.faults disk.new) }
{
    match disk.read_at(file, at, buf) {
        Ok(()) => match write_page(disk, number, buf) {
            Ok(()) => Ok(()),
            Err(Failed) => Err(Failed),
        },
        Err(Failed) => Err(Failed),
    }
}

/// Writes a page to Main, where a log holds it.
fn settle_page<D: Disk>(
    disk: &mut D,
    place: Place,
    number: u32,
    buf: &mut [u8],
) -> Result<(), Failed>
    requires attached { D.attached disk.old ≡ true }
    requires number { 1 ≤ number }
    requires small { length buf.old ≤ 65536 }
    requires reached { IsInside (D.told disk.old) Main ((number - 1) * length buf.old) 0 }
    requires fits { IfSome (D.told disk.old) (λ told. FitsPlace (reads told) (length buf.old) number place) }
    ensures moments { (view : OpeningView) (one two : FoundLog) → Since view.opening.start (IsWriting view one two number) (D.told disk.old) → length buf.old ≡ view.size
        → IfSome (D.told disk.old) (λ told. IsPlaceOf view one two (reads told) number place × (number ≤ length view.map))
        → Passes view.opening (LeavesMap view) (ByAnswer (is_ok result) (IsWriting view one two (number + 1)) (AreSynced view one two)) (D.told disk.old) (D.told disk.new) }
    ensures only { OnOk result (OnlyMain (D.told disk.old) (D.told disk.new)) }
    ensures reached { OnOk result (IsInside (D.told disk.new) Main (number * length buf.old) 0) }
    ensures stays { OnlyWrites D.DiskTells disk.old disk.new }
    ensures faults { Counts (is_ok result) (D.faults disk.old) (D.faults disk.new) }
{
    match place {
        Place::InMain => Ok(()),
        Place::InLog { file, at } => copy_page(disk, file, at, number, buf),
    }
}

/// Writes all pages to Main that a log holds, in rising order. Nothing is synced.
fn write_pages<D: Disk>(disk: &mut D, places: &[Place], buf: &mut [u8]) -> Result<(), Failed>
    requires attached { D.attached disk.old ≡ true }
    requires small { length buf.old ≤ 65536 }
    requires few { length places.now < 4294967295 }
    requires fits { IfSome (D.told disk.old) (λ told. FitPlaces (reads told) (length buf.old) places.now) }
    ensures moments { (view : OpeningView) (one two : FoundLog) → Since view.opening.start (IsWriting view one two 1) (D.told disk.old) → length buf.old ≡ view.size
        → IfSome (D.told disk.old) (λ told. ArePlacesOf view one two (reads told) places.now × (length places.now ≤ length view.map))
        → Passes view.opening (LeavesMap view) (ByAnswer (is_ok result) (IsWriting view one two (length places.now + 1)) (AreSynced view one two)) (D.told disk.old) (D.told disk.new) }
    ensures only { OnOk result (OnlyMain (D.told disk.old) (D.told disk.new)) }
    ensures reached { OnOk result (IsInside (D.told disk.new) Main (length places.now * length buf.old) 0) }
    ensures stays { OnlyWrites D.DiskTells disk.old disk.new }
    ensures faults { Counts (is_ok result) (D.faults disk.old) (D.faults disk.new) }
{
    let mut index = 0;
    while index < places.len() {
        match settle_page(disk, places[index], index as u32 + 1, buf) {
            Ok(()) => index += 1,
            Err(Failed) => return Err(Failed),
        }
    }
    Ok(())
}

/// Has the pages that were written reach the medium.
pub(crate) fn sync_main<D: Disk>(disk: &mut D) -> Result<(), Failed>
    requires attached { D.attached disk.old ≡ true }
    ensures moments { (view : OpeningView) (one two : FoundLog) (next : ℕ) → Since view.opening.start (IsWriting view one two next) (D.told disk.old)
        → Passes view.opening (LeavesMap view) (ByAnswer (is_ok result) (IsLaidDown view one two next) (AreSynced view one two)) (D.told disk.old) (D.told disk.new) }
    ensures only { OnOk result (OnlyMain (D.told disk.old) (D.told disk.new)) }
    ensures stays { OnlyWrites D.DiskTells disk.old disk.new }
    ensures faults { Counts (is_ok result) (D.faults disk.old) (D.faults disk.new) }
{
    match disk.sync(File::Main) {
        Ok(()) => Ok(()),
        Err(Failed) => Err(Failed),
    }
}

/// Writes what the logs hold to Main, and has it reach the medium. After `Failed` the logs still have all of it.
fn write_main<D: Disk>(disk: &mut D, places: &[Place], buf: &mut [u8]) -> Result<(), Failed>
    requires attached { D.attached disk.old ≡ true }
    requires small { length buf.old ≤ 65536 }
    requires few { length places.now < 4294967295 }
    requires fits { IfSome (D.told disk.old) (λ told. FitPlaces (reads told) (length buf.old) places.now) }
    ensures moments { (view : OpeningView) (one two : FoundLog) → Since view.opening.start (AreSynced view one two) (D.told disk.old) → length buf.old ≡ view.size
        → IfSome (D.told disk.old) (λ told. AreSeen view one two places.now (reads told))
        → Passes view.opening (LeavesMap view) (ByAnswer (is_ok result) (IsLaidDown view one two (length view.map + 1)) (AreSynced view one two)) (D.told disk.old) (D.told disk.new) }
    ensures only { OnOk result (OnlyMain (D.told disk.old) (D.told disk.new)) }
    ensures reached { OnOk result (IsInside (D.told disk.new) Main (length places.now * length buf.old) 0) }
    ensures stays { OnlyWrites D.DiskTells disk.old disk.new }
    ensures faults { Counts (is_ok result) (D.faults disk.old) (D.faults disk.new) }
{
    match write_pages(disk, places, buf) {
        Ok(()) => match sync_main(disk) {
            Ok(()) => Ok(()),
            Err(Failed) => Err(Failed),
        },
        Err(Failed) => Err(Failed),
    }
}

/// Writes what the logs hold to Main, where one of them has an accepted frame. Then Main alone is the recovered map, and a log may
/// be begun anew.
pub(crate) fn lay_down<D: Disk>(
    disk: &mut D,
    places: &[Place],
    some_frames: bool,
    buf: &mut [u8],
) -> Result<(), Failed>
    requires attached { D.attached disk.old ≡ true }
    requires small { length buf.old ≤ 65536 }
    requires few { length places.now < 4294967295 }
    requires fits { IfSome (D.told disk.old) (λ told. FitPlaces (reads told) (length buf.old) places.now) }
    ensures moments { (view : OpeningView) (one two : FoundLog) (first : Files) → Since view.opening.start (AreSynced view one two) (D.told disk.old) → length buf.old ≡ view.size
        → (some_frames ≡ false → (one.frames ≡ []) × (two.frames ≡ [])) → (some_frames ≡ true → IfSome (D.told disk.old) (λ told. AreSeen view one two places.now (reads told)))
        → IsLog first → IfSome (D.told disk.old) (λ told. IsFirst (reads told) first one two)
        → Passes view.opening (LeavesMap view) (ByAnswer (is_ok result) (IsResetting view first one two None) (AreSynced view one two)) (D.told disk.old) (D.told disk.new) }
    ensures only { OnOk result (OnlyMain (D.told disk.old) (D.told disk.new)) }
    ensures reached { OnOk result ((some_frames ≡ false → IsInside (D.told disk.old) Main (length places.now * length buf.old) 0) → IsInside (D.told disk.new) Main (length places.now * length buf.old) 0) }
    ensures stays { OnlyWrites D.DiskTells disk.old disk.new }
    ensures faults { Counts (is_ok result) (D.faults disk.old) (D.faults disk.new) }
{
    if !some_frames {
        return Ok(());
    }
    match write_main(disk, places, buf) {
        Ok(()) => Ok(()),
        Err(Failed) => Err(Failed),
    }
}
