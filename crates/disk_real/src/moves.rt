// What one call moves from a reader and to a writer.
ghost use Rattle.std.specs.Prelude.{◌≡◌, ◌≤◌, length, IfOk};
ghost use Rattle.std.specs.Io.KnownBytes.{ReadConsumes, WriteAppends};

use std::io;
use std::io::{ErrorKind, Read, Write};

/// Takes bytes from a reader to the front of the buffer by one read, and says how many. A read that was interrupted is made
/// again. 0 into a buffer that isn't empty is the reader's end. After an error the reader has the bytes that it had.
#[tactic(auto, using(crate::proofs::Moved::keeps_refl, crate::proofs::Moved::keeps_keeps, crate::proofs::Moved::keeps_consumes))]
pub fn take_from<S: Read>(reader: &mut S, buf: &mut [u8]) -> io::Result<usize>
    ensures within { IfOk result (λ count. count ≤ length buf.old) }
    ensures moved { ReadConsumes (S.remaining reader.old) (S.remaining reader.new) result buf.new }
{
    for _ in 0..u64::MAX {
        match reader.read(buf) {
            Err(error) if error.kind() == ErrorKind::Interrupted => {}
            answer => return answer,
        }
    }
    Err(io::Error::from(ErrorKind::Interrupted))
}

/// Puts bytes of the front of the piece to a writer by one write, and says how many. A write that was interrupted is made
/// again. A writer that takes nothing of a piece that isn't empty has failed. After an error it has the bytes that it had.
#[tactic(auto, using(crate::proofs::Moved::keeps_refl, crate::proofs::Moved::keeps_keeps, crate::proofs::Moved::keeps_appends, crate::proofs::Moved::nothing_appended))]
pub fn put_to<W: Write>(writer: &mut W, piece: &[u8]) -> io::Result<usize>
    ensures within { IfOk result (λ count. count ≤ length piece.now) }
    ensures some { IfOk result (λ count. count ≡ 0 → length piece.now ≡ 0) }
    ensures moved { WriteAppends (W.contents writer.old) (W.contents writer.new) result piece.now }
{
    for _ in 0..u64::MAX {
        match writer.write(piece) {
            Err(error) if error.kind() == ErrorKind::Interrupted => {}
            Ok(0) if !piece.is_empty() => return Err(io::Error::from(ErrorKind::WriteZero)),
            answer => return answer,
        }
    }
    Err(io::Error::from(ErrorKind::Interrupted))
}
