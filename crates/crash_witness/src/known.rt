// Whether a piece is still known: a plain program of the definition, of one piece at one sync.
ghost use Rattle.std.specs.Prelude.{◌≡◌, drop};
ghost use Rattle.disk_face.specs.Files.{Files, content};
ghost use Rattle.disk_face.specs.Image.{same_file};
ghost use Rattle.crash_spec.specs.Known.{outlasts};

use disk_face::{File, Piece};

/// Whether a piece that is known goes on to be known once a file was synced: it does, unless it is one of that file and doesn't
/// stand there any more. `held` is what the piece's own file holds.
pub fn outlasts(piece: &Piece, synced: File, held: &[u8]) -> bool
    ensures { (files : Files) → content files piece.now.file ≡ held.now → result ≡ outlasts synced files piece.now }
{
    !is_same(piece.file, synced) || rest_of(held, piece.at).starts_with(piece.bytes.bytes())
}

fn is_same(one: File, other: File) -> bool
    ensures { result ≡ same_file one other }
{
    one == other
}

/// The bytes from a place on, none where it lies behind their end.
fn rest_of(held: &[u8], at: u64) -> &[u8]
    ensures { result.now ≡ drop at held.now }
{
    if at < held.len() as u64 {
        &held[at as usize..]
    } else {
        &[]
    }
}
