// Page 1 as a commit lays it. The rows are worked by hand from SQLite's "Database File Format", "The Database Header": the change counter at 24
// and its copy at 92 are one more, the size stands at 28, and all other bytes are those of the newest map's page 1 (10) or of the image (176).
use crate::images::images_of;
use engine_spec::Mode;
use laying::lay_first;
use std::alloc::{AllocError, Global};
use std::test::Fail;

// Bytes as runs: how many there are of which byte, one run after another.
type Runs = &'static [(usize, u8)];

// A page 1 of 512 bytes that are 10, but for the change counter, is laid with images that are filled with 176, for a map of 7 pages.
struct Row {
    mode: Mode,
    tail: bool,
    pages: &'static [u32],
    counter: [u8; 4],
    laid: Runs,
}

const ROWS: [Row; 6] = [
    // the counter wraps
    Row {
        mode: Mode::Plain,
        tail: true,
        pages: &[3, 1, 2],
        counter: [255, 255, 255, 255],
        laid: &[
            (24, 10),
            (4, 0),
            (3, 0),
            (1, 7),
            (28, 176),
            (32, 10),
            (4, 0),
            (4, 10),
            (412, 176),
        ],
    },
    // only the schema fields are the transaction's
    Row {
        mode: Mode::Plain,
        tail: false,
        pages: &[3, 1, 2],
        counter: [0, 0, 0, 255],
        laid: &[
            (24, 10),
            (2, 0),
            (1, 1),
            (1, 0),
            (3, 0),
            (1, 7),
            (28, 176),
            (32, 10),
            (2, 0),
            (1, 1),
            (1, 0),
            (416, 10),
        ],
    },
    // only what follows the header is
    Row {
        mode: Mode::Concurrent,
        tail: true,
        pages: &[1],
        counter: [0, 0, 0, 0],
        laid: &[
            (24, 10),
            (3, 0),
            (1, 1),
            (3, 0),
            (1, 7),
            (60, 10),
            (3, 0),
            (1, 1),
            (4, 10),
            (412, 176),
        ],
    },
    // nothing is
    Row {
        mode: Mode::Concurrent,
        tail: false,
        pages: &[1, 5],
        counter: [0, 0, 0, 0],
        laid: &[
            (24, 10),
            (3, 0),
            (1, 1),
            (3, 0),
            (1, 7),
            (60, 10),
            (3, 0),
            (1, 1),
            (416, 10),
        ],
    },
    // page 1 isn't among the images
    Row {
        mode: Mode::Plain,
        tail: true,
        pages: &[2, 4],
        counter: [127, 255, 255, 255],
        laid: &[
            (24, 10),
            (1, 128),
            (3, 0),
            (3, 0),
            (1, 7),
            (60, 10),
            (1, 128),
            (3, 0),
            (416, 10),
        ],
    },
    Row {
        mode: Mode::Concurrent,
        tail: false,
        pages: &[],
        counter: [1, 2, 3, 4],
        laid: &[
            (24, 10),
            (1, 1),
            (1, 2),
            (1, 3),
            (1, 5),
            (3, 0),
            (1, 7),
            (60, 10),
            (1, 1),
            (1, 2),
            (1, 3),
            (1, 5),
            (416, 10),
        ],
    },
];

// Whether the bytes are these runs.
fn are_runs(bytes: &[u8], runs: &[(usize, u8)]) -> bool {
    let mut rest = bytes;
    for (count, byte) in runs {
        if *count > rest.len() {
            return false;
        }
        let (front, behind) = rest.split_at(*count);
        for one in front {
            if *one != *byte {
                return false;
            }
        }
        rest = behind;
    }
    rest.is_empty()
}

// Whether page 1 is laid as the row says.
#[tactic(auto, using(crate::proofs::Fitting::are_different))]
fn is_laid(alloc: Global, row: &Row) -> Result<bool, AllocError> {
    let images = images_of(alloc, row.pages, 176)?;
    let mut first = [10u8; 512];
    first[24..28].copy_from_slice(&row.counter);
    lay_first(row.mode, row.tail, images.as_slice(), 7, &mut first);
    Ok(are_runs(&first, row.laid))
}

#[test]
fn first_pages(rt: HostRuntime) -> Result<(), Fail> {
    for row in &ROWS {
        assert!(rt; is_laid(rt.alloc(), row)?);
    }
    Ok(())
}
