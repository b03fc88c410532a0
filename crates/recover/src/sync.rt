// The logs reach the medium before anything is written.
ghost use Rattle.std.specs.Prelude.{◌≡◌, true, is_ok, if◌then◌else◌, List, [], ◌∷◌, OnOk};
ghost use Rattle.disk_face.specs.Faults.{Counts};
ghost use Rattle.disk_face.specs.Stays.{OnlyWrites};
ghost use Rattle.disk_face.specs.declared.disk.File.{File as Files};
ghost use Rattle.crash_spec.specs.Opening.{Since};
ghost use Rattle.crash_spec.specs.Passes.{Passes, WhereDone};
ghost use Rattle.opening_spec.specs.Found.{FoundLog, OpeningView};
ghost use Rattle.opening_spec.specs.States.{IsSyncing, AreSynced, LeavesOpening};
ghost use Rattle.recover.specs.Places.{SameReads};

use disk_face::{Disk, Failed, File};

/// Has a log that isn't empty reach the medium.
fn sync_log<D: Disk>(disk: &mut D, log: File) -> Result<(), Failed>
    requires { D.attached disk.old ≡ true }
    ensures moments { (view : OpeningView) (one two : FoundLog) (synced : List Files) → Since view.opening.start (IsSyncing view one two synced) (D.told disk.old)
        → Passes view.opening (LeavesOpening view) (IsSyncing view one two (if is_ok result then log ∷ synced else synced)) (D.told disk.old) (D.told disk.new) }
    ensures reads { OnOk result (SameReads (D.told disk.old) (D.told disk.new)) }
    ensures stays { OnlyWrites D.DiskTells disk.old disk.new }
    ensures faults { Counts (is_ok result) (D.faults disk.old) (D.faults disk.new) }
{
    match disk.size(log) {
        Ok(size) => {
            if size == 0 {
                return Ok(());
            }
            match disk.sync(log) {
                Ok(()) => Ok(()),
                Err(Failed) => Err(Failed),
            }
        }
        Err(Failed) => Err(Failed),
    }
}

/// Has both logs reach the medium, log 1 first. After `Failed` one of them may not have.
pub(crate) fn sync_logs<D: Disk>(disk: &mut D) -> Result<(), Failed>
    requires { D.attached disk.old ≡ true }
    ensures moments { (view : OpeningView) (one two : FoundLog) → Since view.opening.start (IsSyncing view one two []) (D.told disk.old)
        → Passes view.opening (LeavesOpening view) (WhereDone (is_ok result) (AreSynced view one two)) (D.told disk.old) (D.told disk.new) }
    ensures reads { OnOk result (SameReads (D.told disk.old) (D.told disk.new)) }
    ensures stays { OnlyWrites D.DiskTells disk.old disk.new }
    ensures faults { Counts (is_ok result) (D.faults disk.old) (D.faults disk.new) }
{
    match sync_log(disk, File::Log1) {
        Ok(()) => match sync_log(disk, File::Log2) {
            Ok(()) => Ok(()),
            Err(Failed) => Err(Failed),
        },
        Err(Failed) => Err(Failed),
    }
}
