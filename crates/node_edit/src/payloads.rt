// Cells of leaves, made of a key and a payload.
ghost use Rattle.std.specs.Prelude.{◌≡◌, ◌≤◌, ◌++◌, ℕ, List, IfOk, OnOk};
ghost use Rattle.node_edit.specs.Payloads.{Ends, IsLeafCell, KeyFits, keys_text};

use be_fields::put_varint;
use disk_face::Bytes;
use page_form::{local_size, spills};
use std::alloc::{AllocError, Global};

/// The most bytes of the two varints in front of a payload.
const MOST_KEYS: usize = 18;

/// The cell of a row's record, which has a rowid, or of an index's entry, which has none.
///
/// It stores as much of the payload as a leaf's cell does on a page of which so many bytes are in use, and behind it, where that isn't all, the number
/// of the first page of the chain that has the rest. The error is want of memory.
pub fn leaf_cell(
    alloc: Global,
    u: usize,
    rowid: Option<i64>,
    payload: &[u8],
    first: u32,
) -> Result<Bytes, AllocError>
    requires usable { (480 ≤ u) × (u ≤ 65536) }
    ensures { IfOk result (λ text. IsLeafCell u rowid payload.now first text) }
{
    let size = payload.len() as u64;
    let table = rowid.is_some();
    let local = local_size(table, u, size);
    let mut text = Vec::with_capacity(alloc, MOST_KEYS + local + 4)?;
    put_keys(&mut text, size, rowid)?;
    text.extend_from_slice(&payload[..local])?;
    put_end(&mut text, spills(table, u, size), first)?;
    Ok(Bytes::from_vec(text))
}

// Appends the number of the page with which a chain begins, if there is one.
#[tactic(auto, unfolding(page_spec::specs::Bytes::u32_at))]
fn put_end(text: &mut Vec<u8>, large: bool, first: u32) -> Result<(), AllocError>
    ensures { OnOk result ((tail : List ℕ) × Ends large first tail × (text.new.items ≡ text.old.items ++ tail)) }
{
    if large {
        text.extend_from_slice(first.to_be_bytes().as_slice())
    } else {
        Ok(())
    }
}

// Appends the size of a payload, and the rowid if there is one.
fn put_keys(text: &mut Vec<u8>, size: u64, rowid: Option<i64>) -> Result<(), AllocError>
    ensures put { OnOk result (text.new.items ≡ text.old.items ++ keys_text size rowid) }
    ensures fits { OnOk result (KeyFits rowid) }
{
    put_varint(text, size)?;
    match rowid {
        Some(rowid) => put_varint(text, rowid.cast_unsigned()),
        None => Ok(()),
    }
}
