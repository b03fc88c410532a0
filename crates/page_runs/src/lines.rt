// Lines out of a source, through one buffer: the line that was given last, then what is still to be given, then room.
//
//     0 <= line <= next <= end <= BUFFER
//     buffer[line..next]  the line that was given last, until the reader looks for another one
//     buffer[next..end]   what the source gave beyond it
//     passed              how many bytes of the script were given, never more than the limit
ghost use Rattle.std.specs.Prelude.{◌≡◌, ℕ, ◌+◌, ◌-◌, ◌<◌, ◌≤◌, [], length, take, drop, if◌then◌else◌, Contains, is_ok, IfOk, IfSome, IfNone, OnErr};
ghost use Rattle.disk_face.specs.Faults.{Counts};
ghost use Rattle.disk_face.specs.Source.{Takes};
ghost use Rattle.script.specs.Raw.{HasNoEnd, is_within, script_limit};
ghost use Rattle.page_runs.specs.Reading.{Reading, IsEnd, given, script_left, WhereTold, Advances, buffer_limit};

use disk_face::{Failed, Source};
use memchr::memchr;
use script::line_text;
use std::alloc::{AllocError, Global};
use std::marker::Model;

/// The most bytes of a line's text.
pub const LINE_LIMIT: usize = 65_536;

/// The most bytes of a script.
pub const SCRIPT_LIMIT: usize = 16_777_216;

/// How many bytes a reader holds at most. A buffer that is full without an LF holds a line that is too long, whatever its end is:
/// at most two of its bytes, a CR and the LF, don't count to its text.
const BUFFER: usize = LINE_LIMIT + 3;

/// What comes next in a script.
#[derive(Clone, Copy, Debug, PartialEq, Eq)]
pub enum Next {
    /// A line. The reader holds it until it looks for another one.
    Line,
    /// The script is at its end.
    End,
    /// A line whose text is too long, or whose end lies past the most bytes of a script.
    Refused,
}

/// Reads a script line by line. It takes the memory for its one buffer when it is made, and none after that.
#[derive(Drop)]
pub struct LineReader {
    buffer: Vec<u8>,
    /// Where the line that was given last begins.
    line: usize,
    /// Where it ends, and what is still to be given begins.
    next: usize,
    /// Where that ends.
    end: usize,
    /// How many bytes of the script were given.
    passed: usize,
}

impl Model for LineReader {
    ghost use Rattle.std.specs.Prelude.{◌≤◌, ◌≡◌, slice_range, vec_len};
    ghost use Rattle.page_runs.specs.Reading.{Reading, buffer_limit};
    ghost use Rattle.script.specs.Raw.{script_limit};

    ghost Value = { Reading };

    ghost view = { λ reader. record {
      line = slice_range reader.buffer.items reader.line reader.next;
      pending = slice_range reader.buffer.items reader.next reader.end;
      passed = reader.passed;
    } };

    ghost invariant = { λ reader. (vec_len reader.buffer ≡ buffer_limit) × (reader.line ≤ reader.next) × (reader.next ≤ reader.end)
        × (reader.end ≤ buffer_limit) × (reader.passed ≤ script_limit) };
}

impl LineReader {
    /// A reader at the beginning of a script. The error is want of memory.
    pub fn new(alloc: Global) -> Result<LineReader, AllocError>
        ensures { IfOk result (λ reader. (reader.line ≡ []) × (reader.pending ≡ []) × (reader.passed ≡ 0)) }
    {
        let buffer = vec![in alloc; 0; BUFFER]?;
        Ok(LineReader {
            buffer,
            line: 0,
            next: 0,
            end: 0,
            passed: 0,
        })
    }

    /// The line that was given last, with its end.
    pub fn line(&self) -> &[u8]
        ensures { result.now ≡ self.now.line }
    {
        &self.buffer[self.line..self.next]
    }

    /// Looks for the next line. It takes from the source only where it holds no whole line. After `Failed` what is left of the
    /// script is as before, and the reader holds no whole line.
    pub fn advance<S: Source>(&mut self, src: &mut S) -> Result<Next, Failed>
        ensures next { IfOk result (λ next. WhereTold (script_left self.old (S.left src.old)) (script_left self.new (S.left src.new))
            (Advances next self.old self.new)) }
        ensures progress { IfOk result (λ next. next ≡ Next.Line → (self.old.passed < self.new.passed) × (self.new.passed ≤ script_limit)) }
        ensures failed { OnErr result (script_left self.new (S.left src.new) ≡ script_left self.old (S.left src.old)) }
        ensures unended { OnErr result (HasNoEnd self.new.pending) }
        ensures whole { Contains self.old.pending 10 → src.new ≡ src.old }
        ensures faults { Counts (is_ok result) (S.faults src.old) (S.faults src.new) }
        ensures loans { S.loans src.new ≡ S.loans src.old }
    {
        let mut scanned = 0;
        'look: loop {
            if let Some(count) = self.line_end(scanned) {
                return Ok(self.give(count));
            }
            scanned = self.held();
            if scanned == BUFFER {
                return Ok(Next::Refused);
            }
            if self.refill(src)? == 0 {
                return Ok(if scanned == 0 {
                    Next::End
                } else {
                    self.give(scanned)
                });
            }
        }
    }

    /// How many bytes are still to be given.
    fn held(&self) -> usize
        ensures count { result ≡ length self.now.pending }
        ensures room { result ≤ buffer_limit }
    {
        self.end - self.next
    }

    /// Where the first line in what is still to be given ends, in which so many bytes were looked at before.
    fn line_end(&self, scanned: usize) -> Option<usize>
        requires within { scanned ≤ length self.now.pending }
        requires looked { HasNoEnd (take scanned self.now.pending) }
        ensures found { IfSome result (IsEnd self.now.pending) }
        ensures none { IfNone result (HasNoEnd self.now.pending) }
    {
        let rest = &self.buffer[self.next + scanned..self.end];
        match memchr(b'\n', rest) {
            Some(at) => Some(scanned + at + 1),
            None => None,
        }
    }

    /// Gives a line of so many bytes, if it is within the limits.
    fn give(&mut self, count: usize) -> Next
        requires { count ≤ length self.old.pending }
        ensures next { result ≡ given self.old.passed (take count self.old.pending) }
        ensures line { self.new.line ≡ take count self.old.pending }
        ensures pending { self.new.pending ≡ drop count self.old.pending }
        ensures passed { self.new.passed ≡ (if is_within self.old.passed (take count self.old.pending) then self.old.passed + count else self.old.passed) }
        ensures limit { self.new.passed ≤ script_limit }
    {
        self.line = self.next;
        self.next += count;
        if !is_within(self.passed, &self.buffer[self.line..self.next]) {
            return Next::Refused;
        }
        self.passed += count;
        Next::Line
    }

    /// Takes more of the script, and says how many bytes.
    fn refill<S: Source>(&mut self, src: &mut S) -> Result<usize, Failed>
        requires { length self.old.pending < buffer_limit }
        ensures kept { take (length self.old.pending) self.new.pending ≡ self.old.pending }
        ensures passed { self.new.passed ≡ self.old.passed }
        ensures count { IfOk result (λ count. length self.new.pending ≡ length self.old.pending + count) }
        ensures taken { IfOk result (λ count. Takes (S.left src.old) (buffer_limit - length self.old.pending)
            (drop (length self.old.pending) self.new.pending) (S.left src.new)) }
        ensures refused { OnErr result ((self.new.pending ≡ self.old.pending) × (S.left src.new ≡ S.left src.old)) }
        ensures faults { Counts (is_ok result) (S.faults src.old) (S.faults src.new) }
        ensures loans { S.loans src.new ≡ S.loans src.old }
    {
        self.buffer.copy_within(self.next..self.end, 0);
        self.end -= self.next;
        self.next = 0;
        self.line = 0;
        let count = take_after(src, &mut self.buffer, self.end)?;
        self.end += count;
        Ok(count)
    }
}

/// Whether a line, with its end, is within the limits, where so many bytes of the script stand before it.
fn is_within(passed: usize, raw: &[u8]) -> bool
    requires { passed ≤ script_limit }
    ensures { result ≡ is_within passed raw.now }
{
    line_text(raw).len() <= LINE_LIMIT && passed + raw.len() <= SCRIPT_LIMIT
}

/// Takes bytes into the buffer behind its first ones, and says how many.
fn take_after<S: Source>(src: &mut S, buffer: &mut [u8], kept: usize) -> Result<usize, Failed>
    requires { kept ≤ length buffer.old }
    ensures kept { take kept buffer.new ≡ take kept buffer.old }
    ensures within { IfOk result (λ count. kept + count ≤ length buffer.old) }
    ensures taken { IfOk result (λ count. Takes (S.left src.old) (length buffer.old - kept) (take count (drop kept buffer.new)) (S.left src.new)) }
    ensures refused { OnErr result (S.left src.new ≡ S.left src.old) }
    ensures faults { Counts (is_ok result) (S.faults src.old) (S.faults src.new) }
    ensures loans { S.loans src.new ≡ S.loans src.old }
{
    src.take(&mut buffer[kept..])
}
