// A database's three files, and the calls on a disk that has them.
ghost use Rattle.std.specs.Prelude.{◌≡◌, ◌≤◌, true, false, length, is_ok, IfOk, OnOk, OnErr};
ghost use Rattle.disk_face.specs.Faults.{Counts};
ghost use Rattle.disk_face.specs.Stays.{OnlyNames, OnlyReads, OnlyWrites};
ghost use Rattle.disk_face.specs.Steps.{after};
ghost use Rattle.disk_face.specs.Told.{IsNamed, IsSize, IsInside, IsRead, IsAnswer, Refuses};
ghost use Rattle.disk_face.specs.declared.step.Step.TheVariants.{Wrote, Synced};

use crate::{DiskTells, Failed};

/// One of the three files of a database.
#[derive(Clone, Copy, Debug, PartialEq, Eq)]
pub enum File {
    /// The database itself.
    Main,
    /// The first write-ahead log, named with `-wal`.
    Log1,
    /// The second write-ahead log, named with `-wal2`.
    Log2,
}

/// The disk with a database's three files. Lengths and places are in bytes.
///
/// A call answers [`Failed`] exactly where it counts a fault: one that answers well leaves the count as it was.
pub trait Disk: DiskTells {
    /// Names the three files: the path, the path with `-wal`, and the path with `-wal2`. A file that isn't there is empty.
    /// After `Failed` the files are still to be named.
    fn attach(&mut self, path: &[u8]) -> Result<(), Failed>
        requires { Self.attached self.old ≡ false }
        ensures attached { Self.attached self.new ≡ is_ok result }
        ensures named { OnOk result (IsNamed (Self.named self.new) path.now) }
        ensures unnamed { OnErr result (Self.named self.new ≡ Self.named self.old) }
        ensures stays { OnlyNames Self.DiskTells self.old self.new }
        ensures faults { Counts (is_ok result) (Self.faults self.old) (Self.faults self.new) };

    /// Says whether the path with `-journal` names a file that isn't empty and whose first byte isn't 0.
    fn journal(&mut self) -> Result<bool, Failed>
        requires { Self.attached self.old ≡ true }
        ensures answer { IfOk result (λ hot. IsAnswer (Self.journal_answer self.old) hot) }
        ensures stays { OnlyReads Self.DiskTells self.old self.new }
        ensures faults { Counts (is_ok result) (Self.faults self.old) (Self.faults self.new) };

    /// The file's length.
    fn size(&mut self, file: File) -> Result<u64, Failed>
        requires { Self.attached self.old ≡ true }
        ensures size { IfOk result (λ size. IsSize (Self.told self.old) file size) }
        ensures stays { OnlyReads Self.DiskTells self.old self.new }
        ensures faults { Counts (is_ok result) (Self.faults self.old) (Self.faults self.new) };

    /// Fills the whole buffer with the file's bytes from `at` on. After `Failed` the buffer has any bytes.
    fn read_at(&mut self, file: File, at: u64, buf: &mut [u8]) -> Result<(), Failed>
        requires attached { Self.attached self.old ≡ true }
        requires inside { IsInside (Self.told self.old) file at (length buf.old) }
        ensures bytes { OnOk result (IsRead (Self.told self.old) file at buf.new) }
        ensures stays { OnlyReads Self.DiskTells self.old self.new }
        ensures faults { Counts (is_ok result) (Self.faults self.old) (Self.faults self.new) };

    /// Writes the piece at `at`, which may make the file longer. After `Failed` the range has any bytes, and the file is as
    /// long as before or ends inside the range.
    fn write_at(&mut self, file: File, at: u64, piece: &[u8]) -> Result<(), Failed>
        requires attached { Self.attached self.old ≡ true }
        requires start { IsInside (Self.told self.old) file at 0 }
        ensures written { OnOk result (Self.told self.new ≡ after (Wrote (record { file = file; at = at; bytes = piece.now })) (Self.told self.old)) }
        ensures refused { OnErr result (Refuses (record { file = file; at = at; bytes = piece.now }) (Self.told self.old) (Self.told self.new)) }
        ensures stays { OnlyWrites Self.DiskTells self.old self.new }
        ensures faults { Counts (is_ok result) (Self.faults self.old) (Self.faults self.new) };

    /// Has what was written of the file reach the medium. After `Failed` it may not have.
    fn sync(&mut self, file: File) -> Result<(), Failed>
        requires { Self.attached self.old ≡ true }
        ensures synced { OnOk result (Self.told self.new ≡ after (Synced file) (Self.told self.old)) }
        ensures unsynced { OnErr result (Self.told self.new ≡ Self.told self.old) }
        ensures stays { OnlyWrites Self.DiskTells self.old self.new }
        ensures faults { Counts (is_ok result) (Self.faults self.old) (Self.faults self.new) };
}

impl<D: Disk> Disk for &mut D {
    fn attach(&mut self, path: &[u8]) -> Result<(), Failed> {
        (**self).attach(path)
    }

    fn journal(&mut self) -> Result<bool, Failed> {
        (**self).journal()
    }

    fn size(&mut self, file: File) -> Result<u64, Failed> {
        (**self).size(file)
    }

    fn read_at(&mut self, file: File, at: u64, buf: &mut [u8]) -> Result<(), Failed> {
        (**self).read_at(file, at, buf)
    }

    fn write_at(&mut self, file: File, at: u64, piece: &[u8]) -> Result<(), Failed> {
        (**self).write_at(file, at, piece)
    }

    fn sync(&mut self, file: File) -> Result<(), Failed> {
        (**self).sync(file)
    }
}
