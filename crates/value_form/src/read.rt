// Reading a record in one pass over its header. Each value is taken as its serial type is met, as long as its bytes are there
// and no float came before it. The header is read to its end even then, since a fault of the header is told before any other.
ghost use Rattle.std.specs.Prelude.{◌≡◌, ◌^◌, ◌<◌, ◌≤◌, ◌≢◌, ◌+◌, ◌++◌, ◌∷◌, [], ◌⊎◌, List, ℕ, length, take, drop, true, false, IfOk, IfErr, OnOk, IfSome, MatchOption};
ghost use Rattle.page_spec.specs.Varint.{varint_size, varint_number};
ghost use Rattle.value_form.specs.declared.value.Value.{Value as SqlValue};
ghost use Rattle.value_form.specs.Record.{has_header, begins_with_type, HasTypes, IsRecord, IsRefused, IsShort, HasFloat, IsOrMemory};
ghost use Rattle.value_form.specs.Reading.{IsTakenOf, IsLeft};

use crate::serial::{FLOAT, body_size, read_value};
use crate::{RecordFault, Row};
use be_fields::get_varint;
use std::alloc::{AllocError, Global};

/// Reads the record that fewer than 2^32 bytes begin with. Bytes after its values are ignored.
///
/// The faults are those of [`RecordFault`], in their order. Nothing but a text's or a blob's bytes and the row itself is
/// allocated. The form is that of SQLite's page "Database File Format" under "Record Format".
pub fn read_record(alloc: Global, bytes: &[u8]) -> Result<Row, RecordFault>
    requires { length bytes.now < 2 ^ 32 }
    ensures read { IfOk result (IsRecord bytes.now) }
    ensures refused { IfErr result (λ fault. (fault ≡ RecordFault.Memory) ⊎ IsRefused bytes.now fault) }
    ensures each_row { (row : List SqlValue) → IsRecord bytes.now row → IsOrMemory result (Ok row) }
    ensures each_fault { (fault : RecordFault) → IsRefused bytes.now fault → IsOrMemory result (Err fault) }
{
    read_header(alloc, bytes)
}

/// Reads the record, whose header decides what follows.
fn read_header(alloc: Global, bytes: &[u8]) -> Result<Row, RecordFault>
    requires { length bytes.now < 2 ^ 32 }
    ensures read { IfOk result (IsRecord bytes.now) }
    ensures refused { IfErr result (λ fault. (fault ≡ RecordFault.Memory) ⊎ IsRefused bytes.now fault) }
{
    let Some((first, size)) = header_size(bytes) else {
        return Err(RecordFault::BadHeader { at: 0 });
    };
    let (header, bodies) = bytes.split_at(size);
    let mut taken = Taken::new(alloc);
    let mut at = first;
    while at < size {
        let Some((serial, len)) = serial_type(&header[at..]) else {
            return Err(RecordFault::BadHeader { at });
        };
        taken.take(alloc, serial, bodies)?;
        at += len;
    }
    taken.into_row(bodies)
}

/// How many bytes the varint of the header's size has, and the header. None where the header doesn't end where it says.
#[tactic(auto, unfolding(crate::specs::Record::has_header))]
fn header_size(bytes: &[u8]) -> Option<(usize, usize)>
    ensures value { MatchOption result (has_header bytes.now ≡ false)
        (λ found. (has_header bytes.now ≡ true) × (found.0 ≡ varint_size bytes.now) × (found.1 ≡ varint_number bytes.now)) }
    ensures within { IfSome result (λ found. (found.0 ≤ found.1) × (found.1 ≤ length bytes.now)) }
{
    let (size, first) = get_varint(bytes)?;
    if first as u64 <= size && size <= bytes.len() as u64 {
        Some((first, size as usize))
    } else {
        None
    }
}

/// The serial type at the front, and how many bytes spell it. None where it doesn't end or isn't allowed.
#[tactic(auto, unfolding(crate::specs::Record::begins_with_type))]
fn serial_type(header: &[u8]) -> Option<(u64, usize)>
    ensures value { MatchOption result (begins_with_type header.now ≡ false)
        (λ found. (begins_with_type header.now ≡ true) × (found.0 ≡ varint_number header.now) × (found.1 ≡ varint_size header.now)) }
    ensures allowed { IfSome result (λ found. (found.0 ≢ 10) × (found.0 ≢ 11)) }
    ensures within { IfSome result (λ found. (0 < found.1) × (found.1 ≤ length header.now)) }
{
    let (serial, len) = get_varint(header)?;
    if serial == 10 || serial == 11 {
        None
    } else {
        Some((serial, len))
    }
}

/// What the serial types so far gave.
#[derive(Drop)]
struct Taken {
    /// The values, up to the first float or the first that lacks bytes.
    row: Row,
    /// How many bytes all values have, or 2^64-1 where these are more.
    need: u64,
    /// The column of the first float, if it came before any value that lacks bytes.
    float: Option<u32>,
}

impl Taken {
    fn new(alloc: Global) -> Taken
        ensures taken { (bodies : List ℕ) → IsTakenOf result [] bodies }
        ensures empty { result.row ≡ [] }
    {
        Taken {
            row: Row::new(alloc),
            need: 0,
            float: None,
        }
    }

    /// Takes the value of one more serial type. The error is want of memory.
    fn take(&mut self, alloc: Global, serial: u64, bodies: &[u8]) -> Result<(), AllocError>
        requires room { length self.old.row < 2 ^ 32 }
        requires bodies { length bodies.now < 2 ^ 32 }
        requires no_ten { serial ≢ 10 }
        requires no_eleven { serial ≢ 11 }
        ensures taken { OnOk result ((types : List ℕ) → IsTakenOf self.old types bodies.now → IsTakenOf self.new (types ++ serial ∷ []) bodies.now) }
        ensures grows { OnOk result (length self.new.row ≤ length self.old.row + 1) }
    {
        let from = self.need;
        self.need = from.saturating_add(body_size(serial));
        if self.need > bodies.len() as u64 || self.float.is_some() {
            return Ok(());
        }
        if serial == FLOAT {
            self.float = Some(self.row.values().len() as u32);
            return Ok(());
        }
        let body = &bodies[from as usize..self.need as usize];
        self.row.push(read_value(alloc, serial, body)?)
    }

    /// The row, or the fault, once all serial types are taken.
    fn into_row(self, bodies: &[u8]) -> Result<Row, RecordFault>
        ensures row { IfOk result (λ row. (self.need ≤ length bodies.now) × (self.float ≡ None) × (row ≡ self.row)) }
        ensures fault { IfErr result (IsLeft self bodies.now) }
    {
        if self.need > bodies.len() as u64 {
            return Err(RecordFault::Short { need: self.need });
        }
        match self.float {
            Some(column) => Err(RecordFault::Float { column }),
            None => Ok(self.row),
        }
    }
}
