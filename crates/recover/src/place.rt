// Where the pages of the recovered map stand, and how one is read there.
ghost use Rattle.std.specs.Prelude.{◌≡◌, ◌≤◌, true, is_ok, length, OnOk};
ghost use Rattle.disk_face.specs.Faults.{Counts};
ghost use Rattle.disk_face.specs.Stays.{OnlyReads};
ghost use Rattle.disk_face.specs.Told.{IsInside, IsRead};
ghost use Rattle.recover.specs.Looking.{file_of, start_at};

use disk_face::{Disk, Failed, File};

/// Where a page of the recovered map stands whole.
#[derive(Clone, Copy, Debug)]
pub(crate) enum Place {
    /// No log holds it: Main has it.
    InMain,
    /// A log holds it, and its bytes begin at this place of that log.
    InLog { file: File, at: u64 },
}

/// Fills the buffer with bytes of the page of this number from where it stands on. Pages of Main are as long as the buffer.
pub(crate) fn read_place<D: Disk>(
    disk: &mut D,
    place: Place,
    number: u32,
    bytes: &mut [u8],
) -> Result<(), Failed>
    requires attached { D.attached disk.old ≡ true }
    requires number { 1 ≤ number }
    requires small { length bytes.old ≤ 65536 }
    requires inside { IsInside (D.told disk.old) (file_of place) (start_at (length bytes.old) number place) (length bytes.old) }
    ensures bytes { OnOk result (IsRead (D.told disk.old) (file_of place) (start_at (length bytes.old) number place) bytes.new) }
    ensures stays { OnlyReads D.DiskTells disk.old disk.new }
    ensures faults { Counts (is_ok result) (D.faults disk.old) (D.faults disk.new) }
{
    let (file, at) = match place {
        Place::InMain => (File::Main, (u64::from(number) - 1) * bytes.len() as u64),
        Place::InLog { file, at } => (file, at),
    };
    match disk.read_at(file, at, bytes) {
        Ok(()) => Ok(()),
        Err(Failed) => Err(Failed),
    }
}
