// One file in memory, which keeps what it held at first.
ghost use Rattle.std.specs.Prelude.{◌≡◌, ◌≤◌, length, OnOk, OnErr};
ghost use Rattle.disk_face.specs.Files.{overwritten};

use std::alloc::AllocError;
use std::marker::Model;

/// A file, and what it held at first. The two are one until the first write.
#[derive(Debug, Drop)]
pub(crate) struct MemFile {
    first: Vec<u8>,
    changed: Option<Vec<u8>>,
}

impl Model for MemFile {
    ghost use Rattle.disk_mem.specs.File.{FileState};
    ghost use Rattle.disk_mem.specs.Changed.{held};

    ghost Value = { FileState };

    ghost view = { λ file. record { first = file.first.items; bytes = held file.first file.changed } };
}

impl MemFile {
    pub(crate) fn new(bytes: Vec<u8>) -> MemFile
        ensures { result ≡ record { first = bytes.items; bytes = bytes.items } }
    {
        MemFile {
            first: bytes,
            changed: None,
        }
    }

    pub(crate) fn bytes(&self) -> &[u8]
        ensures { result.now ≡ self.now.bytes }
    {
        match &self.changed {
            Some(changed) => changed.as_slice(),
            None => self.first.as_slice(),
        }
    }

    /// Puts the piece at this place. Without memory the file stays as it is.
    pub(crate) fn put(&mut self, at: usize, piece: &[u8]) -> Result<(), AllocError>
        requires { at ≤ length self.old.bytes }
        ensures done { OnOk result (self.new ≡ record self.old { bytes = overwritten at piece.now self.old.bytes }) }
        ensures refused { OnErr result (self.new ≡ self.old) }
    {
        let mut bytes = match self.changed.take() {
            Some(bytes) => bytes,
            None => self.first.to_vec(*self.first.allocator())?,
        };
        let outcome = overwrite(&mut bytes, at, piece);
        self.changed = Some(bytes);
        outcome
    }
}

fn overwrite(bytes: &mut Vec<u8>, at: usize, piece: &[u8]) -> Result<(), AllocError>
    requires { at ≤ length bytes.old.items }
    ensures done { OnOk result (bytes.new.items ≡ overwritten at piece.now bytes.old.items) }
    ensures refused { OnErr result (bytes.new.items ≡ bytes.old.items) }
{
    let inside = piece.len().min(bytes.len() - at);
    bytes.extend_from_slice(&piece[inside..])?;
    bytes[at..at + inside].copy_from_slice(&piece[..inside]);
    Ok(())
}
