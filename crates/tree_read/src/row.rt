// The row of a cell, read with the chain that its payload's end is in.
ghost use Rattle.std.specs.Prelude.{◌≡◌, ◌⊎◌, ℕ, true, false, ◌^◌, ◌<◌, ◌≤◌, length, IfOk, IfErr, OnOk};
ghost use Rattle.engine_spec.specs.declared.commits.FetchFault.TheVariants as fault;
ghost use Rattle.page_face.specs.Pages.{ReadsAtMost};
ghost use Rattle.node_spec.specs.Cells.{NodeCell};
ghost use Rattle.page_form.specs.Reading.{TellsCell};
ghost use Rattle.tree_read.specs.Payloads.{HasReadPayload, HasReadRow, IsCopied, IsRecordCause};

use crate::node::is_outside;
use overflow::read_chain_with;
use page_face::{FetchFault, Pages};
use page_form::{Cell, Kind};
use std::alloc::{AllocError, Global};
use value_form::{RecordFault, Row, read_record};

// Reads the row of a cell that stands in the buffer, which has the bytes of its page. The buffer is used for the chain then.
//
// `Corrupt` names the page where the payload is no record without a float, has 2^32 bytes or more, or has a chain that begins out of range; else the
// page of the chain that names one out of range.
pub(crate) fn read_row<P: Pages>(
    alloc: Global,
    pages: &mut P,
    page: u32,
    kind: Kind,
    cell: &Cell,
    buf: &mut [u8],
) -> Result<Row, FetchFault>
    requires ready { P.ready pages.old }
    requires room { length buf.old ≡ P.page_size pages.old }
    requires small { P.usable pages.old ≤ 65536 }
    requires cell { (node : NodeCell) × TellsCell (P.usable pages.old) kind buf.old cell.now node }
    ensures row { (node : NodeCell) → TellsCell (P.usable pages.old) kind buf.old cell.now node
        → HasReadRow P.PagesTells pages.old node page result pages.new }
    ensures reading { ReadsAtMost P.PagesTells pages.old pages.new }
{
    match local_of(alloc, cell, kind, buf) {
        Ok(bytes) => row_of(alloc, pages, page, cell, bytes, buf),
        Err(why) => Err(why),
    }
}

/// The row of a cell from the bytes that it stores, with a buffer of one page for the chain. `Corrupt` is that of [`find_row`](crate::find_row).
pub fn row_of<P: Pages>(
    alloc: Global,
    pages: &mut P,
    page: u32,
    cell: &Cell,
    bytes: Vec<u8>,
    room: &mut [u8],
) -> Result<Row, FetchFault>
    requires ready { P.ready pages.old }
    requires room { length room.old ≡ P.page_size pages.old }
    requires copied { (node : NodeCell) × IsCopied cell.now node bytes.items }
    ensures row { (node : NodeCell) → IsCopied cell.now node bytes.items → HasReadRow P.PagesTells pages.old node page result pages.new }
    ensures reading { ReadsAtMost P.PagesTells pages.old pages.new }
    ensures room { length room.new ≡ length room.old }
{
    let mut bytes = bytes;
    match read_rest(pages, page, cell, room, &mut bytes) {
        Ok(()) => (),
        Err(why) => return Err(why),
    }
    match read_record(alloc, bytes.as_slice()) {
        Ok(row) => Ok(row),
        Err(why) => Err(record_fault(why, page)),
    }
}

// Why the row of a page isn't read.
fn record_fault(why: RecordFault, page: u32) -> FetchFault
    ensures { IsRecordCause why page result }
{
    match why {
        RecordFault::BadHeader { .. } | RecordFault::Short { .. } | RecordFault::Float { .. } => {
            FetchFault::Corrupt { page }
        }
        RecordFault::Memory => FetchFault::Memory,
    }
}

// Appends the rest of the payload of a cell to the bytes that it stores, fewer than 2^32 in all.
fn read_rest<P: Pages>(
    pages: &mut P,
    page: u32,
    cell: &Cell,
    room: &mut [u8],
    to: &mut Vec<u8>,
) -> Result<(), FetchFault>
    requires ready { P.ready pages.old }
    requires room { length room.old ≡ P.page_size pages.old }
    requires copied { (node : NodeCell) × IsCopied cell.now node to.old.items }
    ensures payload { (node : NodeCell) → IsCopied cell.now node to.old.items
        → HasReadPayload P.PagesTells pages.old node page result to.new.items pages.new }
    ensures small { OnOk result (length to.new.items < 2 ^ 32) }
    ensures reading { ReadsAtMost P.PagesTells pages.old pages.new }
    ensures room { length room.new ≡ length room.old }
{
    if cell.payload > u64::from(u32::MAX) {
        return Err(FetchFault::Corrupt { page });
    }
    let left = cell.payload.saturating_sub(cell.local as u64);
    if begins_outside(cell.overflow, left, pages.last()) {
        return Err(FetchFault::Corrupt { page });
    }
    match read_chain_with(pages, cell.overflow, left, room, to) {
        Ok(()) => Ok(()),
        Err(why) => Err(why),
    }
}

// Whether a chain of so many bytes begins out of range.
fn begins_outside(first: u32, size: u64, last: u32) -> bool
    ensures outside { result ≡ true → (0 < size) × ((first < 2) ⊎ (last < first)) }
    ensures inside { result ≡ false → 0 < size → (2 ≤ first) × (first ≤ last) }
{
    size > 0 && is_outside(first, last)
}

/// The bytes that a cell of a page stores of its payload.
pub fn local_of(alloc: Global, cell: &Cell, kind: Kind, page: &[u8]) -> Result<Vec<u8>, FetchFault>
    requires { (usable : ℕ) × ((node : NodeCell) × TellsCell usable kind page.now cell.now node) }
    ensures copied { IfOk result (λ bytes. (usable : ℕ) (node : NodeCell) → usable ≤ 65536 → TellsCell usable kind page.now cell.now node
        → IsCopied cell.now node bytes.items) }
    ensures cause { IfErr result (λ why. why ≡ fault.Memory) }
{
    let mut bytes = Vec::new(alloc);
    match bytes.extend_from_slice(cell.local_bytes(kind, page)) {
        Ok(()) => Ok(bytes),
        Err(_) => Err(FetchFault::Memory),
    }
}
