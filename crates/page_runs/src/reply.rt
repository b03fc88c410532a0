// The text of a reply.
ghost use Rattle.std.specs.Prelude.{◌≡◌, ◌++◌, take, codes, if◌then◌else◌, decimal, vec_len, OnOk, OnErr};
ghost use Rattle.page_lines.specs.Reply.{receipt_text, checkpoint_text, logs_text, answer_text, reply_text};
ghost use Rattle.page_runs.specs.Outcome.{refused_text};

use engine_spec::{Ckpt, Logs, Receipt};
use page_lines::Told;
use std::alloc::AllocError;

/// Appends the line that tells a session this, its LF included. Session 0 looks after the logs.
/// The error is want of memory, and leaves the text as it was.
pub fn told_text(session: u32, told: &Told, to: &mut Vec<u8>) -> Result<(), AllocError>
    ensures ok { OnOk result (to.new.items ≡ to.old.items ++ reply_text session told.now) }
    ensures err { OnErr result (to.new.items ≡ to.old.items) }
{
    let before = to.len();
    let appended = append_line(session, told, to);
    if appended.is_err() {
        to.truncate(before);
    }
    appended
}

/// Appends the last line of a run that refused its line of this number, its LF included.
/// The error is want of memory, and leaves a front of the line behind what was there.
pub fn refused_line(number: u64, to: &mut Vec<u8>) -> Result<(), AllocError>
    ensures ok { OnOk result (to.new.items ≡ to.old.items ++ refused_text number) }
    ensures err { OnErr result (take (vec_len to.old) to.new.items ≡ to.old.items) }
{
    append_counted(b"script refused at line ", number, to)?;
    to.extend_from_slice(b"\n")
}

// Each of the functions below may leave a part of its text behind after an error, and nothing else changed.

fn append_line(session: u32, told: &Told, to: &mut Vec<u8>) -> Result<(), AllocError>
    ensures ok { OnOk result (to.new.items ≡ to.old.items ++ reply_text session told.now) }
    ensures err { OnErr result (take (vec_len to.old) to.new.items ≡ to.old.items) }
{
    append_number(u64::from(session), to)?;
    to.extend_from_slice(b": ")?;
    append_answer(told, to)?;
    to.extend_from_slice(b"\n")
}

fn append_answer(told: &Told, to: &mut Vec<u8>) -> Result<(), AllocError>
    ensures ok { OnOk result (to.new.items ≡ to.old.items ++ answer_text told.now) }
    ensures err { OnErr result (take (vec_len to.old) to.new.items ≡ to.old.items) }
{
    match told {
        Told::Ok => to.extend_from_slice(b"ok"),
        Told::Byte(byte) => append_counted(b"byte ", u64::from(*byte), to),
        Told::Done(receipt) => append_receipt(receipt, to),
        Told::Busy { page, commit } => {
            append_counted(b"error busy snapshot page ", u64::from(*page), to)?;
            append_counted(b" commit ", *commit, to)
        }
        Told::InTransaction => to.extend_from_slice(b"error in transaction"),
        Told::NoTransaction => to.extend_from_slice(b"error no transaction"),
        Told::MustRollBack => to.extend_from_slice(b"error must roll back"),
        Told::Disk => to.extend_from_slice(b"error disk"),
        Told::Stopped { log, at } => {
            append_counted(b"error stopped log ", u64::from(*log), to)?;
            append_counted(b" at ", *at, to)
        }
        Told::Size { pages } => append_counted(b"error size ", *pages, to),
        Told::Ckpt(answer) => append_checkpoint(answer, to),
        Told::Logs(logs) => append_logs(logs, to),
    }
}

fn append_receipt(receipt: &Receipt, to: &mut Vec<u8>) -> Result<(), AllocError>
    ensures ok { OnOk result (to.new.items ≡ to.old.items ++ receipt_text receipt.now) }
    ensures err { OnErr result (take (vec_len to.old) to.new.items ≡ to.old.items) }
{
    match receipt {
        Receipt::At(number) => append_counted(b"commit ", *number, to),
        Receipt::ReadOnly(number) => append_counted(b"read ", *number, to),
    }
}

fn append_checkpoint(answer: &Ckpt, to: &mut Vec<u8>) -> Result<(), AllocError>
    ensures ok { OnOk result (to.new.items ≡ to.old.items ++ checkpoint_text answer.now) }
    ensures err { OnErr result (take (vec_len to.old) to.new.items ≡ to.old.items) }
{
    match answer {
        Ckpt::Copied(page) => append_counted(b"copied ", u64::from(*page), to),
        Ckpt::Finished => to.extend_from_slice(b"finished"),
        Ckpt::Idle => to.extend_from_slice(b"idle"),
        Ckpt::Held(count) => append_counted(b"held ", *count, to),
    }
}

fn append_logs(logs: &Logs, to: &mut Vec<u8>) -> Result<(), AllocError>
    ensures ok { OnOk result (to.new.items ≡ to.old.items ++ logs_text logs.now) }
    ensures err { OnErr result (take (vec_len to.old) to.new.items ≡ to.old.items) }
{
    append_counted(b"log ", u64::from(logs.current), to)?;
    append_counted(b" frames ", u64::from(logs.frames), to)?;
    to.extend_from_slice(other_text(logs.done))
}

fn other_text(done: bool) -> &'static [u8]
    ensures { result.now ≡ (if done then codes " other done" else codes " other pending") }
{
    if done {
        b" other done"
    } else {
        b" other pending"
    }
}

/// A word, its blank included, and a number.
fn append_counted(word: &[u8], number: u64, to: &mut Vec<u8>) -> Result<(), AllocError>
    ensures ok { OnOk result (to.new.items ≡ to.old.items ++ (word.now ++ decimal number)) }
    ensures err { OnErr result (take (vec_len to.old) to.new.items ≡ to.old.items) }
{
    to.extend_from_slice(word)?;
    append_number(number, to)
}

fn append_number(number: u64, to: &mut Vec<u8>) -> Result<(), AllocError>
    ensures ok { OnOk result (to.new.items ≡ to.old.items ++ decimal number) }
    ensures err { OnErr result (to.new.items ≡ to.old.items) }
{
    let mut digits = itoa::Buffer::new();
    to.extend_from_slice(digits.format(number).as_bytes())
}
