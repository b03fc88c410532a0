// Cells read: how long one is, and what it holds.
ghost use Rattle.std.specs.Prelude.{◌≡◌, ℕ, List, ◌+◌, ◌<◌, ◌≤◌, length, MatchOption, if◌then◌else◌, true};
ghost use Rattle.page_spec.specs.Bytes.{u32_at};
ghost use Rattle.node_spec.specs.Kinds.{is_leaf};
ghost use Rattle.node_spec.specs.Cells.{NodeCell, cell_in, keys_size, payload_in, rowid_in, cell_size};
ghost use Rattle.node_spec.specs.Faults.{rest_at};
ghost use Rattle.node_spec.specs.Nodes.{Node};
ghost use Rattle.page_form.specs.Reading.{IsReadPage, TellsCell, IsCellOf, CellStands};

use crate::kinds::{is_leaf, is_table, left_size};
use crate::page::Page;
use crate::sizes::{local_size, spills, stored_size};
use be_fields::{get_u32, get_varint};
use node_spec::Kind;

/// A cell takes at least so many bytes, since a freeblock does.
const LEAST_CELL: usize = 4;

/// A cell of a page. A field that the cell hasn't is 0.
#[derive(Clone, Copy, Debug, PartialEq, Eq)]
pub struct Cell {
    /// Its offset in the page, in bytes.
    pub start: usize,
    /// How many bytes it takes, at least 4.
    pub len: usize,
    /// The page number of its left child.
    pub left: u32,
    /// Its rowid.
    pub rowid: i64,
    /// How many bytes its payload has.
    pub payload: u64,
    /// How many of them it stores.
    pub local: usize,
    /// The page number of the first overflow page.
    pub overflow: u32,
}

impl Cell {
    /// The bytes of the payload that the cell stores, in the page of this kind that it was read from.
    pub fn local_bytes<'a>(&self, kind: Kind, bytes: &'a [u8]) -> &'a [u8]
        requires told { (usable : ℕ) × ((cell : NodeCell) × TellsCell usable kind bytes.now self.now cell) }
        ensures { (usable : ℕ) (cell : NodeCell) → TellsCell usable kind bytes.now self.now cell → result.now ≡ cell.local }
    {
        let behind = self.start + left_size(kind);
        let end = self.start + self.len;
        let Some(keys) = read_keys(&bytes[behind..end], kind) else {
            unreachable!()
        };
        let at = behind + keys.size;
        &bytes[at..at + self.local]
    }
}

// The varints of a cell, and how many bytes they take.
#[derive(Clone, Copy)]
struct Keys {
    payload: u64,
    rowid: u64,
    size: usize,
}

// Reads the varints at the front of bytes that stand behind a left child. None comes exactly where the bytes end first.
#[tactic(auto, unfolding(node_spec::specs::Cells::keys_size, node_spec::specs::Cells::payload_in, node_spec::specs::Cells::rowid_in))]
fn read_keys(from: &[u8], kind: Kind) -> Option<Keys>
    ensures { MatchOption result (length from.now < keys_size kind from.now)
        (λ keys. (keys.payload ≡ payload_in kind from.now) × (keys.rowid ≡ rowid_in kind from.now)
        × (keys.size ≡ keys_size kind from.now) × (keys.size ≤ length from.now)) }
{
    let (number, size) = get_varint(from)?;
    match kind {
        Kind::TableInner => Some(Keys {
            payload: 0,
            rowid: number,
            size,
        }),
        Kind::TableLeaf => {
            let (rowid, more) = get_varint(&from[size..])?;
            Some(Keys {
                payload: number,
                rowid,
                size: size + more,
            })
        }
        Kind::IndexInner | Kind::IndexLeaf => Some(Keys {
            payload: number,
            rowid: 0,
            size,
        }),
    }
}

/// How many bytes the cell at a place takes, if it ends inside the `u` usable bytes.
pub fn cell_len(bytes: &[u8], u: usize, kind: Kind, start: u16) -> Option<usize>
    requires { (480 ≤ u) × (u ≤ 65536) × (u ≤ length bytes.now) }
    ensures { MatchOption result (u < start + cell_size kind u (rest_at u bytes.now start))
        (λ len. (len ≡ cell_size kind u (rest_at u bytes.now start)) × (start + len ≤ u)) }
{
    let start = usize::from(start);
    let left = left_size(kind);
    if start + left > u {
        return None;
    }
    let Some(keys) = read_keys(&bytes[start + left..u], kind) else {
        return None;
    };
    let len = left + keys.size + stored_size(is_table(kind), u, keys.payload);
    let len = len.max(LEAST_CELL);
    if start + len > u { None } else { Some(len) }
}

// The left child of the cell at a place.
fn left_child(bytes: &[u8], kind: Kind, start: usize) -> u32
    requires { start + 4 ≤ length bytes.now }
    ensures { result ≡ (if is_leaf kind then 0 else u32_at bytes.now start) }
{
    if is_leaf(kind) {
        0
    } else {
        get_u32(bytes, start)
    }
}

// The number of an overflow page at a place, where the payload is too large.
fn overflow_page(bytes: &[u8], at: usize, spilled: bool) -> u32
    requires { spilled ≡ true → at + 4 ≤ length bytes.now }
    ensures { result ≡ (if spilled then u32_at bytes.now at else 0) }
{
    if spilled { get_u32(bytes, at) } else { 0 }
}

// The cell at a place.
fn cell_from(bytes: &[u8], u: usize, kind: Kind, start: usize) -> Cell
    requires stands { (text : List ℕ) × CellStands u kind bytes.now text start }
    ensures { (text : List ℕ) → CellStands u kind bytes.now text start → TellsCell u kind bytes.now result (cell_in kind u text) }
{
    let table = is_table(kind);
    let behind = start + left_size(kind);
    let Some(keys) = read_keys(&bytes[behind..u], kind) else {
        unreachable!()
    };
    let local = local_size(table, u, keys.payload);
    let end = behind + keys.size + stored_size(table, u, keys.payload);
    let spilled = spills(table, u, keys.payload);
    Cell {
        start,
        len: (end - start).max(LEAST_CELL),
        left: left_child(bytes, kind, start),
        rowid: keys.rowid.cast_signed(),
        payload: keys.payload,
        local,
        overflow: overflow_page(bytes, behind + keys.size + local, spilled),
    }
}

/// Cell `k` of a page that [`read_page`](crate::read_page) gave for these bytes.
pub fn read_cell(page: &Page, bytes: &[u8], u: usize, k: usize) -> Cell
    requires read { (node : Node) × IsReadPage u bytes.now page.now node × (k < length node.cells) }
    ensures { (node : Node) → IsReadPage u bytes.now page.now node → IsCellOf u bytes.now result node k }
{
    cell_from(bytes, u, page.kind, usize::from(page.cells[k]))
}
