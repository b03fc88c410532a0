// Writing whole pieces to a sink. What was written of a piece is always a front of it.
ghost use Rattle.std.specs.Prelude.{◌≡◌, ℕ, ◌≤◌, length, take, is_ok, OnOk, OnErr};
ghost use Rattle.disk_face.specs.Faults.{Counts};
ghost use Rattle.disk_face.specs.Sink.{Puts};
ghost use Rattle.page_runs.specs.Outcome.{SaysLast};

use crate::Status;
use disk_face::{Failed, Sink};

/// Writes all of the piece. After `Failed`, which comes only where the sink failed, a front of it is written.
pub fn write_all<K: Sink>(out: &mut K, piece: &[u8]) -> Result<(), Failed>
    ensures ok { OnOk result (Puts (K.written out.old) piece.now (K.written out.new)) }
    ensures err { OnErr result ((count : ℕ) × (count ≤ length piece.now) × Puts (K.written out.old) (take count piece.now) (K.written out.new)) }
    ensures faults { Counts (is_ok result) (K.faults out.old) (K.faults out.new) }
    ensures loans { K.loans out.new ≡ K.loans out.old }
{
    let mut done = 0;
    while done < piece.len() {
        let count = out.put(&piece[done..])?;
        if count == 0 {
            return Err(Failed);
        }
        done += count;
    }
    Ok(())
}

/// Writes the last line of a run, whose status is then the one given, or `SinkFailed` where the sink failed.
pub fn say_last<K: Sink>(out: &mut K, line: &[u8], saying: Status) -> Status
    ensures said { SaysLast K.Sink line.now saying result out.old out.new }
    ensures loans { K.loans out.new ≡ K.loans out.old }
{
    match write_all(out, line) {
        Ok(()) => saying,
        Err(Failed) => Status::SinkFailed,
    }
}
