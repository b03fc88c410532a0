// The lines of a script, and how one is read.
ghost use Rattle.std.specs.Prelude.{◌≡◌, ◌≤◌, IfSome, IfNone};
ghost use Rattle.script.specs.Line.{Spells};
ghost use Rattle.script.specs.Reading.{line_of, page_line_of, numbered_line_of, log_line_of, act_by, read_of, write_of, is_text, is_page};

use crate::number::{number_at, rest_after};

/// What a line of a script says.
#[derive(Clone, Copy, Debug, PartialEq, Eq)]
pub enum Line {
    /// Nothing: the line is empty or a comment.
    Empty,
    /// An act of a session on pages.
    Page(Act2),
    /// `0: CHECKPOINT`: copies what the other log has to copy, step by step.
    Copy,
    /// `0: STEP`: one step of a checkpoint.
    Step,
    /// `0: LOGS`: asks how the logs stand.
    Logs,
}

/// An act of a session on pages. The first number is the session, from 1 to 15, and a page is from 2 to 16.
#[derive(Clone, Copy, Debug, PartialEq, Eq)]
pub enum Act2 {
    /// Begins a transaction.
    Begin(u32),
    /// Reads a page.
    Read(u32, u32),
    /// Writes a byte all over a page.
    Write(u32, u32, u8),
    /// Commits the transaction.
    Commit(u32),
    /// Rolls the transaction back.
    Rollback(u32),
}

/// What the lines of a script may be.
#[derive(Clone, Copy, Debug, PartialEq, Eq)]
pub enum Form {
    /// Acts on pages.
    Pages,
}

/// What this line says, given without its end. None exactly where it isn't a line of the form.
pub fn read_line(bytes: &[u8], form: Form) -> Option<Line>
    ensures meaning { result ≡ line_of form bytes.now }
    ensures spelled { IfSome result (λ line. Spells form line bytes.now) }
    ensures refused { IfNone result ((line : Line) → Spells form line bytes.now → ⊥) }
{
    match form {
        Form::Pages => page_line(bytes),
    }
}

#[tactic(auto, unfolding(crate::specs::Reading::page_line_of))]
fn page_line(bytes: &[u8]) -> Option<Line>
    ensures { result ≡ page_line_of bytes.now }
{
    match bytes {
        [] => Some(Line::Empty),
        [b'#', ..] => {
            if is_text(bytes) {
                Some(Line::Empty)
            } else {
                None
            }
        }
        _ => numbered_line(bytes),
    }
}

/// Whether the bytes are UTF-8 without a zero byte.
#[tactic(auto, unfolding(crate::specs::Reading::is_text))]
fn is_text(bytes: &[u8]) -> bool
    ensures { result ≡ is_text bytes.now }
{
    !bytes.contains(&0) && std::str::from_utf8(bytes).is_ok()
}

#[tactic(auto, unfolding(crate::specs::Reading::numbered_line_of, crate::specs::Reading::line_words))]
fn numbered_line(bytes: &[u8]) -> Option<Line>
    ensures { result ≡ numbered_line_of bytes.now }
{
    let (number, rest) = number_at(bytes)?;
    let words = rest_after(b": ", rest)?;
    if number == 0 {
        log_line(words)
    } else if number <= 15 {
        act(number, words).map(Line::Page)
    } else {
        None
    }
}

#[tactic(auto, unfolding(crate::specs::Reading::log_line_of))]
fn log_line(words: &[u8]) -> Option<Line>
    ensures { result ≡ log_line_of words.now }
{
    if words == b"CHECKPOINT".as_slice() {
        Some(Line::Copy)
    } else if words == b"STEP".as_slice() {
        Some(Line::Step)
    } else if words == b"LOGS".as_slice() {
        Some(Line::Logs)
    } else {
        None
    }
}

#[tactic(auto, unfolding(crate::specs::Reading::act_by))]
fn act(session: u32, words: &[u8]) -> Option<Act2>
    ensures { result ≡ act_by session words.now }
{
    if words == b"BEGIN".as_slice() {
        Some(Act2::Begin(session))
    } else if words == b"COMMIT".as_slice() {
        Some(Act2::Commit(session))
    } else if words == b"ROLLBACK".as_slice() {
        Some(Act2::Rollback(session))
    } else if let Some(rest) = rest_after(b"READ ", words) {
        read(session, rest)
    } else if let Some(rest) = rest_after(b"WRITE ", words) {
        write(session, rest)
    } else {
        None
    }
}

/// Whether a line may name this page.
fn is_page(page: u32) -> bool
    ensures { result ≡ is_page page }
{
    2 <= page && page <= 16
}

#[tactic(auto, unfolding(crate::specs::Reading::read_of))]
fn read(session: u32, words: &[u8]) -> Option<Act2>
    ensures { result ≡ read_of session words.now }
{
    let (page, rest) = number_at(words)?;
    if rest.is_empty() && is_page(page) {
        Some(Act2::Read(session, page))
    } else {
        None
    }
}

#[tactic(auto, unfolding(crate::specs::Reading::write_of, crate::specs::Reading::written_of))]
fn write(session: u32, words: &[u8]) -> Option<Act2>
    ensures { result ≡ write_of session words.now }
{
    let (page, rest) = number_at(words)?;
    let (byte, rest) = number_at(rest_after(b" ", rest)?)?;
    if rest.is_empty() && is_page(page) {
        Some(Act2::Write(session, page, byte as u8))
    } else {
        None
    }
}
