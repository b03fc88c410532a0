// Pages edited and read back.
ghost use Rattle.std.specs.Prelude.{◌≡◌, ℕ, ◌<◌, ◌≤◌, length, true, IfOk};
ghost use Rattle.page_form.specs.Reading.{Tells};
ghost use Rattle.node_spec.specs.Nodes.{Node};

use crate::cells::is_cell;
use page_edit::{NoRoom, pack, put_cell, take_cell};
use page_form::{Cell, Kind, Page, PageFault, read_cell, read_page};
use std::alloc::Global;
use std::process::Abort;

/// What a page is besides its bytes: how many of them are usable, and whether it is page 1.
#[derive(Clone, Copy)]
pub struct Shape {
    pub usable: usize,
    pub first: bool,
}

fn is_shape(shape: Shape, bytes: &[u8]) -> bool
    ensures { result ≡ true → (480 ≤ shape.usable) × (shape.usable ≤ 65536) × (shape.usable ≤ length bytes.now) }
{
    shape.usable >= 480 && shape.usable <= 65536 && shape.usable <= bytes.len()
}

/// Reads a page.
pub fn read(rt: &impl Abort, alloc: Global, shape: Shape, bytes: &[u8]) -> Result<Page, PageFault>
    ensures { IfOk result (λ page. (node : Node) × Tells shape.usable shape.first bytes.now page node
        × (480 ≤ shape.usable) × (shape.usable ≤ 65536) × (shape.usable ≤ length bytes.now)) }
{
    assert!(rt; is_shape(shape, bytes));
    read_page(alloc, bytes, shape.usable, shape.first)
}

/// Puts a cell in, and tells why it was refused.
pub fn put(
    rt: &impl Abort,
    alloc: Global,
    shape: Shape,
    bytes: &mut [u8],
    k: usize,
    cell: &[u8],
) -> Result<Option<NoRoom>, PageFault> {
    let page = read(rt, alloc, shape, bytes)?;
    assert!(rt; is_cell(page.kind, shape.usable, cell));
    assert!(rt; k <= page.cells.len());
    Ok(put_cell(bytes, shape.usable, shape.first, k, cell).err())
}

/// Takes cell `k` out.
pub fn take(
    rt: &impl Abort,
    alloc: Global,
    shape: Shape,
    bytes: &mut [u8],
    k: usize,
) -> Result<(), PageFault> {
    let page = read(rt, alloc, shape, bytes)?;
    assert!(rt; k < page.cells.len());
    take_cell(bytes, shape.usable, shape.first, k);
    Ok(())
}

/// Packs the page.
pub fn packed(
    rt: &impl Abort,
    alloc: Global,
    shape: Shape,
    bytes: &mut [u8],
) -> Result<(), PageFault> {
    let _page = read(rt, alloc, shape, bytes)?;
    pack(bytes, shape.usable, shape.first);
    Ok(())
}

/// Cell `k` of a page that was read.
pub fn cell_of(rt: &impl Abort, shape: Shape, page: &Page, bytes: &[u8], k: usize) -> Cell
    requires { (node : Node) × Tells shape.usable shape.first bytes.now page.now node }
{
    assert!(rt; k < page.cells.len());
    read_cell(page, bytes, shape.usable, k)
}

/// Cell `k` of a leaf of a table is just this one, whose rowid has one byte and whose payload is stored whole.
pub fn check_cell(rt: &impl Abort, shape: Shape, page: &Page, bytes: &[u8], k: usize, cell: &[u8])
    requires { (node : Node) × Tells shape.usable shape.first bytes.now page.now node }
{
    assert!(rt; k < page.cells.len());
    let told = read_cell(page, bytes, shape.usable, k);
    let head = if told.local < 128 { 2 } else { 3 };
    assert!(rt; cell.len() >= head);
    assert_eq!(rt; told.rowid, i64::from(cell[head - 1]));
    assert_eq!(rt; told.payload, told.local as u64);
    assert_eq!(rt; told.overflow, 0);
    assert_eq!(rt; told.left, 0);
    assert_eq!(rt; told.len, cell.len().max(4));
    assert_eq!(rt; told.local_bytes(page.kind, bytes), &cell[head..]);
}

/// A leaf of a table has just these cells, and so many free bytes.
pub fn check(
    rt: &impl Abort,
    alloc: Global,
    shape: Shape,
    bytes: &[u8],
    cells: &[&[u8]],
    free: usize,
) -> Result<(), PageFault> {
    let page = read(rt, alloc, shape, bytes)?;
    assert_eq!(rt; page.kind, Kind::TableLeaf);
    assert_eq!(rt; page.right, 0);
    assert_eq!(rt; page.free, free);
    assert_eq!(rt; page.cells.len(), cells.len());
    for k in 0..cells.len() {
        check_cell(rt, shape, &page, bytes, k, cells[k]);
    }
    Ok(())
}
