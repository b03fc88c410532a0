// Texts that are built from one piece again and again: the depth of 100, and 2,000 columns.
use crate::note::Note;
use crate::rows::{Kind, is_told};
use std::alloc::{AllocError, Global};
use std::process::Abort;
use std::test::Fail;

/// A front, a piece so many times, a middle, and another piece as many times.
#[derive(Clone, Copy)]
struct Pieces<'a> {
    front: &'a [u8],
    open: &'a [u8],
    times: u32,
    middle: &'a [u8],
    close: &'a [u8],
}

impl Pieces<'_> {
    fn text(&self, alloc: Global) -> Result<Vec<u8>, AllocError> {
        let mut note = Note::new(alloc);
        note.put(self.front);
        note.times(self.open, self.times);
        note.put(self.middle);
        note.times(self.close, self.times);
        note.whole()
    }
}

/// The second is told of the first.
fn is(
    rt: &impl Abort,
    alloc: Global,
    kind: Kind,
    text: &Pieces<'_>,
    expected: &Pieces<'_>,
) -> Result<(), AllocError> {
    let text = text.text(alloc)?;
    let expected = expected.text(alloc)?;
    is_told(rt, alloc, kind, text.as_slice(), expected.as_slice())
}

fn nested<'a>(
    front: &'a [u8],
    open: &'a [u8],
    times: u32,
    middle: &'a [u8],
    close: &'a [u8],
) -> Pieces<'a> {
    Pieces {
        front,
        open,
        times,
        middle,
        close,
    }
}

fn plain(text: &[u8]) -> Pieces<'_> {
    nested(text, b"", 0, b"", b"")
}

#[test]
fn a_hundred_levels_are_taken_and_no_more(rt: HostRuntime) -> Result<(), Fail> {
    let rows = [
        (
            nested(b"SELECT ", b"(", 100, b"1", b")"),
            plain(b"select 1"),
        ),
        (
            nested(b"SELECT ", b"(", 101, b"1", b")"),
            plain(b"syntax 107"),
        ),
        (
            nested(b"SELECT ", b"NOT ", 100, b"a", b""),
            nested(b"select ", b"(!", 100, b"a", b")"),
        ),
        (
            nested(b"SELECT ", b"NOT ", 101, b"a", b""),
            plain(b"syntax 407"),
        ),
        (
            nested(b"SELECT a", b"+1", 100, b"", b""),
            nested(b"select ", b"(", 100, b"a", b"+1)"),
        ),
        (
            nested(b"SELECT a", b"+1", 101, b"", b""),
            plain(b"syntax 208"),
        ),
        (
            nested(b"SELECT ", b"-", 101, b"1", b""),
            plain(b"syntax 108"),
        ),
    ];
    for (text, expected) in rows {
        is(&rt, rt.alloc(), Kind::Statement, &text, &expected)?;
    }
    Ok(())
}

/// In a hundred brackets: which tokens go on, though they would go one level deeper.
#[test]
fn within_a_hundred_levels(rt: HostRuntime) -> Result<(), Fail> {
    let rows: [(&[u8], &[u8]); 7] = [
        (b"1", b"syntax 108"),
        (b"-9223372036854775808", b"syntax 127"),
        (b"-1", b"syntax 108"),
        (b"COUNT(*)", b"syntax 115"),
        (b"COUNT(a)", b"syntax 113"),
        (b"SUM(a)", b"syntax 107"),
        (b"NOT a", b"syntax 107"),
    ];
    for (middle, expected) in rows {
        let text = nested(b"SELECT ", b"(", 100, middle, b"");
        is(&rt, rt.alloc(), Kind::Statement, &text, &plain(expected))?;
    }
    Ok(())
}

#[test]
fn a_table_has_up_to_2000_columns(rt: HostRuntime) -> Result<(), Fail> {
    let rows = [
        (
            Kind::Statement,
            nested(b"CREATE TABLE t(a", b",a", 1999, b")", b""),
            nested(b"table t", b" a:b", 2000, b"", b""),
        ),
        (
            Kind::Statement,
            nested(b"CREATE TABLE t(a", b",a", 2000, b")", b""),
            plain(b"syntax 4014"),
        ),
        (
            Kind::Object,
            nested(b"CREATE TABLE t(a INT", b",a INT", 1999, b")", b""),
            nested(b"usable", b" a:i", 2000, b"", b""),
        ),
        (
            Kind::Object,
            nested(b"CREATE TABLE t(a INT", b",a INT", 2000, b")", b""),
            plain(b"syntax 12014"),
        ),
    ];
    for (kind, text, expected) in rows {
        is(&rt, rt.alloc(), kind, &text, &expected)?;
    }
    Ok(())
}
