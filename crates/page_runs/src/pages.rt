// A run of page lines over an engine. One line, its run and its reply come before the next line is taken.
ghost use Rattle.std.specs.Prelude.{◌≡◌, ◌⊎◌, [], ◌∷◌, IfSome, OnOk, OnErr};
ghost use Rattle.page_face.specs.Calls.{KeepsOpenings};
ghost use Rattle.page_lines.specs.Reply.{session_of};
ghost use Rattle.page_lines.specs.Range.{IsInRange};
ghost use Rattle.page_runs.specs.declared.status.Status.TheVariants as status;
ghost use Rattle.page_runs.specs.Outcome.{act_in, acts_in, page_act, refused_text, RunEnds, SaysLast};
ghost use Rattle.page_runs.specs.Reply.{AnswersAct, AnswersActs, CountsReply, LeavesActs};
ghost use Rattle.page_runs.specs.Sessions.{AnsweredOver};

use crate::lines::{LineReader, Next};
use crate::output::{say_last, write_all};
use crate::reply::{refused_line, told_text};
use crate::{Sessions, Status};
use disk_face::{Failed, Sink, Source};
use page_face::Engine;
use page_lines::{Act, Raw};
use script::{Act2, Form, Line, line_text, read_line};
use std::alloc::Global;

/// Why a line was not answered.
#[derive(Clone, Copy, Debug, PartialEq, Eq)]
enum Unanswered {
    /// The sink failed.
    Sink,
    /// Memory ran out.
    Memory,
}

/// Runs the lines that the source gives, each of which is answered before the next one is taken.
/// It begins with no session, and leaves open what the lines left open.
pub fn run_pages<E: Engine<Raw>, S: Source, K: Sink>(
    alloc: Global,
    sessions: &mut Sessions<E>,
    src: &mut S,
    out: &mut K,
) -> Status
    requires none { sessions.old.seats ≡ [] }
    ensures run { RunEnds S.Source K.Sink (AnsweredOver E.EngineTells sessions.old.engine sessions.new.engine) result src.old out.old src.new out.new }
    ensures opened { KeepsOpenings E.EngineTells sessions.old.engine sessions.new.engine }
    ensures loans { (S.loans src.new ≡ S.loans src.old) × (K.loans out.new ≡ K.loans out.old)
        × (E.loans sessions.new.engine ≡ E.loans sessions.old.engine) }
{
    let Ok(mut lines) = LineReader::new(alloc) else {
        return Status::NoMemory;
    };
    let mut text = Vec::new(alloc);
    let mut number: u64 = 1;
    'lines: loop {
        match lines.advance(src) {
            Ok(Next::Line) => {}
            Ok(Next::End) => return Status::Done,
            Ok(Next::Refused) => return say_refused(number, &mut text, out),
            Err(Failed) => return say_last(out, b"source failed\n", Status::SourceFailed),
        }
        let Some(line) = read_line(line_text(lines.line()), Form::Pages) else {
            return say_refused(number, &mut text, out);
        };
        match run_line(sessions, line, &mut text, out) {
            Ok(()) => number += 1,
            Err(Unanswered::Sink) => return Status::SinkFailed,
            Err(Unanswered::Memory) => return Status::NoMemory,
        }
    }
}

/// Does what the line asks for, if it asks for something, and writes the reply, whose text is made in this buffer.
/// After an error a front of the reply is written.
fn run_line<E: Engine<Raw>, K: Sink>(
    sessions: &mut Sessions<E>,
    line: Line,
    text: &mut Vec<u8>,
    out: &mut K,
) -> Result<(), Unanswered>
    requires range { IfSome (act_in line) IsInRange }
    ensures ok { OnOk result (AnswersActs E.EngineTells sessions.old (acts_in line) sessions.new (K.written out.old) (K.written out.new)) }
    ensures err { OnErr result (LeavesActs E.EngineTells sessions.old (acts_in line) sessions.new (K.written out.old) (K.written out.new)) }
    ensures opened { KeepsOpenings E.EngineTells sessions.old.engine sessions.new.engine }
    ensures faults { CountsReply result (K.faults out.old) (K.faults out.new) }
    ensures loans { (K.loans out.new ≡ K.loans out.old) × (E.loans sessions.new.engine ≡ E.loans sessions.old.engine) }
{
    match act_in(line) {
        Some(act) => answer(sessions, act, text, out),
        None => Ok(()),
    }
}

/// The act that a line asks for, if it asks for one.
fn act_in(line: Line) -> Option<Act>
    ensures { result ≡ act_in line }
{
    match line {
        Line::Empty => None,
        Line::Page(said) => Some(page_act(said)),
        Line::Copy => Some(Act::Copy),
        Line::Step => Some(Act::Step),
        Line::Logs => Some(Act::Logs),
    }
}

fn page_act(said: Act2) -> Act
    ensures { result ≡ page_act said }
{
    match said {
        Act2::Begin(session) => Act::Begin { session },
        Act2::Read(session, page) => Act::Read { session, page },
        Act2::Write(session, page, byte) => Act::Write {
            session,
            page,
            byte,
        },
        Act2::Commit(session) => Act::Commit { session },
        Act2::Rollback(session) => Act::Rollback { session },
    }
}

fn session_of(act: Act) -> u32
    ensures { result ≡ session_of act }
{
    match act {
        Act::Begin { session }
        | Act::Read { session, .. }
        | Act::Write { session, .. }
        | Act::Commit { session }
        | Act::Rollback { session } => session,
        Act::Copy | Act::Step | Act::Logs => 0,
    }
}

/// Does what the act asks for, and writes the reply, whose text is made in this buffer.
/// After an error a front of the reply is written.
fn answer<E: Engine<Raw>, K: Sink>(
    sessions: &mut Sessions<E>,
    act: Act,
    text: &mut Vec<u8>,
    out: &mut K,
) -> Result<(), Unanswered>
    requires range { IsInRange act }
    ensures ok { OnOk result (AnswersAct E.EngineTells sessions.old act sessions.new (K.written out.old) (K.written out.new)) }
    ensures err { OnErr result (LeavesActs E.EngineTells sessions.old (act ∷ []) sessions.new (K.written out.old) (K.written out.new)) }
    ensures opened { KeepsOpenings E.EngineTells sessions.old.engine sessions.new.engine }
    ensures faults { CountsReply result (K.faults out.old) (K.faults out.new) }
    ensures loans { (K.loans out.new ≡ K.loans out.old) × (E.loans sessions.new.engine ≡ E.loans sessions.old.engine) }
{
    let Ok(told) = sessions.act(act) else {
        return Err(Unanswered::Memory);
    };
    text.clear();
    let Ok(()) = told_text(session_of(act), &told, text) else {
        return Err(Unanswered::Memory);
    };
    match write_all(out, text) {
        Ok(()) => Ok(()),
        Err(Failed) => Err(Unanswered::Sink),
    }
}

/// Writes the last line of a run that refused its line of this number.
fn say_refused<K: Sink>(number: u64, text: &mut Vec<u8>, out: &mut K) -> Status
    ensures said { SaysLast K.Sink (refused_text number) status.ScriptRefused result out.old out.new
        ⊎ ((result ≡ status.NoMemory) × (out.new ≡ out.old)) }
    ensures loans { K.loans out.new ≡ K.loans out.old }
{
    text.clear();
    match refused_line(number, text) {
        Ok(()) => say_last(out, text, Status::ScriptRefused),
        Err(_) => Status::NoMemory,
    }
}
