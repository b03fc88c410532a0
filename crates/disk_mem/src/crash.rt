// What a crash leaves of one file.
ghost use Rattle.std.specs.Prelude.{◌≡◌, ℕ, ◌≤◌, ◌<◌, ◌+◌, List, [], ◌∷◌, false, true, length, reverse, replicate, drop, cond, nat_le, nat_lt, ◌&&◌, ◌||◌, slice_index_or};
ghost use Rattle.disk_face.specs.Image.{Range, range_of, same_file, unsure};
ghost use Rattle.disk_mem.specs.Crash.{places, picked, unpicked};

use disk_face::{File, Piece, Step};

/// Marks the places of a file that a crash after these steps, the oldest first, may leave with any bytes.
pub(crate) fn mark(steps: &[Step], file: File, marks: &mut [bool])
    ensures { marks.new ≡ places (unsure [] (reverse steps.now)) file (length marks.old) }
{
    clear(marks);
    for step in steps {
        mark_step(step, file, marks);
    }
}

fn mark_step(step: &Step, file: File, marks: &mut [bool])
    ensures { (ranges : List Range) → marks.old ≡ places ranges file (length marks.old)
        → marks.new ≡ places (unsure ranges (step.now ∷ [])) file (length marks.old) }
{
    match step {
        Step::Wrote(piece) => mark_piece(piece, file, marks),
        Step::Refused(piece, _) => mark_piece(piece, file, marks),
        Step::Synced(synced) => {
            if is_same(*synced, file) {
                clear(marks);
            }
        }
    }
}

fn mark_piece(piece: &Piece, file: File, marks: &mut [bool])
    ensures { (ranges : List Range) → marks.old ≡ places ranges file (length marks.old)
        → marks.new ≡ places (range_of piece.now ∷ ranges) file (length marks.old) }
{
    if is_same(piece.file, file) {
        mark_range(piece.at as usize, piece.bytes.bytes().len(), marks);
    }
}

fn is_same(one: File, other: File) -> bool
    ensures { result ≡ same_file one other }
{
    one == other
}

fn mark_range(from: usize, count: usize, marks: &mut [bool])
    ensures { (place : ℕ) → place < length marks.old
        → slice_index_or marks.new place false ≡ (nat_le from place && nat_lt place (from + count) || slice_index_or marks.old place false) }
{
    let end = marks.len().min(from.saturating_add(count));
    for place in from..end {
        marks[place] = true;
    }
}

fn clear(marks: &mut [bool])
    ensures { marks.new ≡ replicate (length marks.old) false }
{
    for place in 0..marks.len() {
        marks[place] = false;
    }
}

/// Puts the bytes that were picked into the marked places, in turn, as long as there are any. Gives those that are left.
pub(crate) fn scatter<'a>(marks: &[bool], pick: &'a [u8], bytes: &mut [u8]) -> &'a [u8]
    requires { length marks.now ≡ length bytes.old }
    ensures picked { bytes.new ≡ picked marks.now bytes.old pick.now }
    ensures left { result.now ≡ unpicked marks.now pick.now }
{
    let mut rest = pick;
    for place in 0..bytes.len() {
        let (byte, after) = choose(marks[place], bytes[place], rest);
        bytes[place] = byte;
        rest = after;
    }
    rest
}

/// The byte for a place, and the picked bytes that are left after it.
fn choose(mark: bool, byte: u8, pick: &[u8]) -> (u8, &[u8])
    ensures byte { result.0 ≡ cond mark (slice_index_or pick.now 0 byte) byte }
    ensures left { result.1.now ≡ cond mark (drop 1 pick.now) pick.now }
{
    match pick {
        [first, rest @ ..] if mark => (*first, rest),
        _ => (byte, pick),
    }
}
