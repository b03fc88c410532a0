// A page of a log is copied into the database, and the database is synced.
ghost use Rattle.std.specs.Prelude.{◌≡◌, ◌⊎◌, ◌-◌, ◌*◌, ◌+◌, ◌≤◌, true, List, length, is_ok, OnOk, OnErr, Contains};
ghost use Rattle.disk_face.specs.Faults.{Counts};
ghost use Rattle.disk_face.specs.Stays.{OnlyWrites};
ghost use Rattle.disk_face.specs.Told.{IsInside, IsRead};
ghost use Rattle.disk_face.specs.Steps.{after};
ghost use Rattle.disk_face.specs.declared.disk.File.TheVariants.{Main};
ghost use Rattle.disk_face.specs.declared.step.Step.TheVariants.{Synced};
ghost use Rattle.log_spec.specs.Accept.{Frame, page_numbers};
ghost use Rattle.log_spec.specs.Frames.{frame_head_size, frame_place, frame_size};
ghost use Rattle.crash_spec.specs.Opening.{Opening, Since};
ghost use Rattle.crash_spec.specs.Store.{StoreView, Holds, KeepsStore};
ghost use Rattle.wal_frames.specs.Found.{log_file};
ghost use Rattle.log_pair.specs.Pair.{log_of};
ghost use Rattle.log_pair.specs.Appending.{HasFrames, IsPageOf};
ghost use Rattle.checkpoint.specs.Steps.{WritesPage};

use disk_face::{Disk, Failed, File};
use log_pair::LogPair;

/// Copies the page of a log's frame into the database, where it is the page with this number. Nothing is synced.
///
/// After `Failed` the count of faults rose, and of the database at most that page changed.
pub(crate) fn copy_page<D: Disk>(
    disk: &mut D,
    pair: &LogPair,
    log: u8,
    frame: u32,
    page: u32,
    buf: &mut [u8],
) -> Result<(), Failed>
    requires attached { D.attached disk.old ≡ true }
    requires which { (log ≡ 1) ⊎ (log ≡ 2) }
    requires frame { (1 ≤ frame) × (frame ≤ (log_of pair.now log).frames) }
    requires page { 1 ≤ page }
    requires room { length buf.old ≡ (log_of pair.now log).header.page_size }
    requires inside { IsInside (D.told disk.old) (log_file log) (frame_place (log_of pair.now log).header (frame - 1)) (frame_size (log_of pair.now log).header) }
    requires reached { IsInside (D.told disk.old) Main ((page - 1) * length buf.old) 0 }
    ensures bytes { OnOk result (IsRead (D.told disk.old) (log_file log) (frame_place (log_of pair.now log).header (frame - 1) + frame_head_size) buf.new) }
    ensures copied { (frames : List Frame) → frame ≤ length frames → HasFrames (D.told disk.old) (log_file log) (log_of pair.now log).header frames
        → OnOk result (IsPageOf (D.told disk.old) frames frame buf.new) }
    ensures writes { WritesPage (is_ok result) page (length buf.old) buf.new (D.told disk.old) (D.told disk.new) }
    ensures moments { (opening : Opening) (view : StoreView) → Since opening.start (Holds opening view) (D.told disk.old) → view.size ≡ length buf.old
        → Contains (page_numbers view.other) page → KeepsStore opening view (D.told disk.old) (D.told disk.new) }
    ensures size { length buf.new ≡ length buf.old }
    ensures stays { OnlyWrites D.DiskTells disk.old disk.new }
    ensures faults { Counts (is_ok result) (D.faults disk.old) (D.faults disk.new) }
{
    let at = u64::from(page - 1) * u64::from(pair.page_size());
    match pair.read_frame(disk, log, frame, buf) {
        Ok(()) => disk.write_at(File::Main, at, buf),
        Err(Failed) => Err(Failed),
    }
}

/// Has all that was copied reach the medium. After `Failed` the count of faults rose.
pub(crate) fn sync_main<D: Disk>(disk: &mut D) -> Result<(), Failed>
    requires attached { D.attached disk.old ≡ true }
    ensures synced { OnOk result (D.told disk.new ≡ after (Synced Main) (D.told disk.old)) }
    ensures unsynced { OnErr result (D.told disk.new ≡ D.told disk.old) }
    ensures moments { (opening : Opening) (view : StoreView) → Since opening.start (Holds opening view) (D.told disk.old)
        → KeepsStore opening view (D.told disk.old) (D.told disk.new) }
    ensures stays { OnlyWrites D.DiskTells disk.old disk.new }
    ensures faults { Counts (is_ok result) (D.faults disk.old) (D.faults disk.new) }
{
    disk.sync(File::Main)
}
