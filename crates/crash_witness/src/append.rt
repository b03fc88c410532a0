// One frame that ends a commit is appended to a log and reaches the medium.
ghost use Rattle.std.specs.Prelude.{◌≡◌, true, List, [], ◌∷◌, is_ok};
ghost use Rattle.disk_face.specs.Faults.{Counts};
ghost use Rattle.disk_face.specs.Stays.{OnlyWrites};
ghost use Rattle.disk_face.specs.Told.{IsInside};
ghost use Rattle.log_spec.specs.LogHeader.{LogFields};
ghost use Rattle.log_spec.specs.Accept.{Frame};
ghost use Rattle.crash_spec.specs.Opening.{Opening, Since};
ghost use Rattle.crash_spec.specs.Passes.{Passes, ByAnswer};
ghost use Rattle.crash_spec.specs.Logs.{LeavesFrames};
ghost use Rattle.crash_witness.specs.Append.{MayAppend, IsAppended, IsPending};

use disk_face::{Disk, Failed, File};

/// Writes a frame at this place of a log, and has it reach the medium.
///
/// Where the log was on the medium with some frames, and this is a valid frame at the place behind them that ends a commit, a
/// crash at any moment leaves a log of which these frames are accepted, or these and the new one. After `Ok` it is there with all
/// of them; after `Failed` the new one is still on its way.
pub fn append_frame<D: Disk>(disk: &mut D, log: File, at: u64, frame: &[u8]) -> Result<(), Failed>
    requires attached { D.attached disk.old ≡ true }
    requires start { IsInside (D.told disk.old) log at 0 }
    ensures moments { (opening : Opening) (header : LogFields) (frames : List Frame)
        → Since opening.start (MayAppend opening log header frames at frame.now) (D.told disk.old)
        → Passes opening (LeavesFrames opening log frames (frame.now ∷ []))
        (ByAnswer (is_ok result) (IsAppended opening log header frames frame.now) (IsPending opening log header frames frame.now))
        (D.told disk.old) (D.told disk.new) }
    ensures stays { OnlyWrites D.DiskTells disk.old disk.new }
    ensures faults { Counts (is_ok result) (D.faults disk.old) (D.faults disk.new) }
{
    match disk.write_at(log, at, frame) {
        Ok(()) => disk.sync(log),
        Err(Failed) => Err(Failed),
    }
}
