// Tables of texts as one text, so that a test is one call: each row is `text{what is told of it}` and a line's end. Neither bracket stands
// in a text or in what is told.
use crate::note::Note;
use sql_lexemes::lexemes_of;
use sql_parse::{parse, parse_create};
use sql_text::tokens;
use std::alloc::{AllocError, Global};
use std::process::Abort;

/// No text of the tables is longer.
const MOST_BYTES: usize = 1_000_000;

/// What is told of the texts.
#[derive(Clone, Copy)]
pub enum Kind {
    Tokens,
    Lexemes,
    Statement,
    /// What it says as the text of a file's object.
    Object,
}

fn told(alloc: Global, kind: Kind, text: &[u8]) -> Result<Vec<u8>, AllocError> {
    let mut note = Note::new(alloc);
    if text.len() > MOST_BYTES {
        return Err(AllocError);
    }
    match kind {
        Kind::Tokens => note.tokens(tokens(alloc, text)),
        Kind::Lexemes => note.lexemes(alloc, lexemes_of(alloc, text)),
        Kind::Statement => note.read(parse(alloc, text)),
        Kind::Object => note.read_object(parse_create(alloc, text)),
    }
    note.whole()
}

/// That is what is told of the text.
pub fn is_told(
    rt: &impl Abort,
    alloc: Global,
    kind: Kind,
    text: &[u8],
    expected: &[u8],
) -> Result<(), AllocError> {
    let found = told(alloc, kind, text)?;
    assert_eq!(rt; found.as_slice(), expected);
    Ok(())
}

/// A row without its last bracket, behind the line's end of the row before it; what stands behind the last row is that line's end alone.
fn row_is_told(rt: &impl Abort, alloc: Global, kind: Kind, row: &[u8]) -> Result<(), AllocError> {
    let line = row.strip_prefix(b"\n").unwrap_or(row);
    let mut parts = line.split(|byte| *byte == b'{');
    match (parts.next(), parts.next()) {
        (Some(text), Some(expected)) => is_told(rt, alloc, kind, text, expected),
        _ => {
            assert_eq!(rt; row, b"\n".as_slice());
            Ok(())
        }
    }
}

/// What each row says is told of its text.
pub fn all_told(
    rt: &impl Abort,
    alloc: Global,
    kind: Kind,
    table: &[u8],
) -> Result<(), AllocError> {
    for row in table.split(|byte| *byte == b'}') {
        row_is_told(rt, alloc, kind, row)?;
    }
    Ok(())
}
