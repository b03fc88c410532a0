// The header of a log that is begun anew, and how it reaches the medium.
ghost use Rattle.std.specs.Prelude.{◌≡◌, true, is_ok};
ghost use Rattle.disk_face.specs.Faults.{Counts};
ghost use Rattle.disk_face.specs.Stays.{OnlyWrites};
ghost use Rattle.log_pair.specs.Header.{IsSigned};
ghost use Rattle.log_pair.specs.Switch.{WritesAndSyncs, front_piece};

use be_fields::get_u32;
use disk_face::{Disk, Failed, File};
use wal_frames::{LogHeader, Sum, write_log_header};

/// A header that a log is to begin with, and its bytes.
#[derive(Drop)]
pub struct NewHeader {
    /// What the bytes tell, with their own checksum.
    pub header: LogHeader,
    /// The bytes.
    pub bytes: [u8; 32],
}

impl NewHeader {
    /// The header with its own checksum, in place of the one that it has.
    pub fn sign(header: &LogHeader) -> NewHeader
        requires { header.now.big ≡ true }
        ensures header { result.header ≡ record header.now { sum = result.header.sum } }
        ensures signed { IsSigned result }
    {
        let bytes = write_log_header(header);
        let sum = Sum {
            s0: get_u32(&bytes, 24),
            s1: get_u32(&bytes, 28),
        };
        NewHeader {
            header: LogHeader { sum, ..*header },
            bytes,
        }
    }

    /// Writes the header to the front of a log by one write, and has it reach the medium. After `Failed` the front may be torn, or it
    /// isn't on the medium.
    pub fn write<D: Disk>(&self, disk: &mut D, log: File) -> Result<(), Failed>
        requires { D.attached disk.old ≡ true }
        ensures steps { WritesAndSyncs (is_ok result) (front_piece log self.now.bytes) (D.told disk.old) (D.told disk.new) }
        ensures stays { OnlyWrites D.DiskTells disk.old disk.new }
        ensures faults { Counts (is_ok result) (D.faults disk.old) (D.faults disk.new) }
    {
        match disk.write_at(log, 0, &self.bytes) {
            Ok(()) => disk.sync(log),
            Err(Failed) => Err(Failed),
        }
    }
}
