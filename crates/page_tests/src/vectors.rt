// Pages that stock SQLite wrote are read as it says that they are.
ghost use Rattle.std.specs.Prelude.{◌≡◌, ℕ, ◌≤◌, length};
ghost use Rattle.node_spec.specs.Nodes.{Node};
ghost use Rattle.page_form.specs.Reading.{IsReadPage};

use crate::stock;
use page_form::{Cell, Kind, Page, PageFault, read_cell, read_page};
use std::alloc::Global;
use std::process::Abort;

/// A page that SQLite wrote, and what it says of it.
pub struct Stock {
    /// How many bytes are usable.
    pub usable: usize,
    /// Whether it is page 1.
    pub first: bool,
    /// Its kind.
    pub kind: Kind,
    /// The count of its cells.
    pub cells: usize,
    /// The right child.
    pub right: u32,
    /// How many bytes are free.
    pub free: usize,
    /// A checksum over all fields of all cells.
    pub sum: u32,
    /// The bytes in hexadecimal; a zero byte is followed by how many zeros stand there, in 2 bytes.
    pub text: &'static [u8],
}

fn digit(c: u8) -> u8
    ensures { result ≤ 15 }
{
    match c {
        b'0'..=b'9' => c - b'0',
        b'a'..=b'f' => c - b'a' + 10,
        _ => 0,
    }
}

// The byte that two digits spell.
fn byte_at(text: &[u8], at: usize) -> u8 {
    if at < text.len() && text.len() - at >= 2 {
        digit(text[at]) * 16 + digit(text[at + 1])
    } else {
        0
    }
}

// Writes the bytes of a text into a page of zeros.
fn expand(text: &[u8], page: &mut [u8]) {
    let mut at = 0;
    let mut to = 0usize;
    for _ in 0..text.len() {
        if at >= text.len() {
            return;
        }
        let byte = byte_at(text, at);
        if byte == 0 {
            let zeros = usize::from(byte_at(text, at + 2)) * 256
                + usize::from(byte_at(text, at + 4));
            to = to.saturating_add(zeros);
            at += 6;
        } else {
            if to < page.len() {
                page[to] = byte;
            }
            to = to.saturating_add(1);
            at += 2;
        }
    }
}

fn mix(total: u32, number: u64) -> u32 {
    total
        .wrapping_mul(31)
        .wrapping_add((number % (1 << 32)) as u32)
}

// The checksum goes on over one cell.
fn sum_of(total: u32, cell: &Cell, stored: &[u8]) -> u32 {
    let mut sum = mix(total, u64::from(cell.left));
    sum = mix(sum, cell.rowid.cast_unsigned());
    sum = mix(sum, cell.payload);
    sum = mix(sum, cell.local as u64);
    sum = mix(sum, u64::from(cell.overflow));
    sum = mix(sum, cell.len as u64);
    for byte in stored {
        sum = mix(sum, u64::from(*byte));
    }
    sum
}

fn sum_page(page: &Page, bytes: &[u8], u: usize) -> u32
    requires { (node : Node) × IsReadPage u bytes.now page.now node }
{
    let mut sum = 0;
    for k in 0..page.cells.len() {
        let cell = read_cell(page, bytes, u, k);
        sum = sum_of(sum, &cell, cell.local_bytes(page.kind, bytes));
    }
    sum
}

fn check_page(rt: &impl Abort, alloc: Global, bytes: &[u8], stock: &Stock) -> Result<(), PageFault>
    requires { length bytes.now ≡ 65536 }
{
    let u = stock.usable;
    assert!(rt; u >= 480 && u <= 65536);
    let page = read_page(alloc, bytes, u, stock.first)?;
    assert_eq!(rt; page.kind, stock.kind);
    assert_eq!(rt; page.cells.len(), stock.cells);
    assert_eq!(rt; page.right, stock.right);
    assert_eq!(rt; page.free, stock.free);
    assert_eq!(rt; sum_page(&page, bytes, u), stock.sum);
    Ok(())
}

fn check(rt: &impl Abort, alloc: Global, stock: &Stock) -> Result<(), PageFault> {
    let mut page = [0u8; 65536];
    expand(stock.text, &mut page);
    check_page(rt, alloc, &page, stock)
}

#[test]
fn stock_pages_of_512_bytes_are_read(rt: HostRuntime) -> Result<(), PageFault> {
    check(&rt, rt.alloc(), &stock::PAGE_1)?;
    check(&rt, rt.alloc(), &stock::PAGE_2)?;
    check(&rt, rt.alloc(), &stock::PAGE_3)?;
    check(&rt, rt.alloc(), &stock::PAGE_4)?;
    check(&rt, rt.alloc(), &stock::PAGE_5)?;
    check(&rt, rt.alloc(), &stock::PAGE_6)?;
    check(&rt, rt.alloc(), &stock::PAGE_7)?;
    check(&rt, rt.alloc(), &stock::PAGE_8)?;
    check(&rt, rt.alloc(), &stock::PAGE_9)?;
    check(&rt, rt.alloc(), &stock::PAGE_10)?;
    check(&rt, rt.alloc(), &stock::PAGE_11)?;
    check(&rt, rt.alloc(), &stock::PAGE_12)?;
    check(&rt, rt.alloc(), &stock::PAGE_13)?;
    Ok(())
}

#[test]
fn stock_pages_of_512_bytes_less_32_are_read(rt: HostRuntime) -> Result<(), PageFault> {
    check(&rt, rt.alloc(), &stock::PAGE_14)?;
    check(&rt, rt.alloc(), &stock::PAGE_15)?;
    check(&rt, rt.alloc(), &stock::PAGE_16)?;
    check(&rt, rt.alloc(), &stock::PAGE_17)?;
    check(&rt, rt.alloc(), &stock::PAGE_18)?;
    check(&rt, rt.alloc(), &stock::PAGE_19)?;
    check(&rt, rt.alloc(), &stock::PAGE_20)?;
    check(&rt, rt.alloc(), &stock::PAGE_21)?;
    check(&rt, rt.alloc(), &stock::PAGE_22)?;
    check(&rt, rt.alloc(), &stock::PAGE_23)?;
    check(&rt, rt.alloc(), &stock::PAGE_24)?;
    check(&rt, rt.alloc(), &stock::PAGE_25)?;
    check(&rt, rt.alloc(), &stock::PAGE_26)?;
    Ok(())
}

#[test]
fn stock_pages_of_more_bytes_are_read(rt: HostRuntime) -> Result<(), PageFault> {
    check(&rt, rt.alloc(), &stock::PAGE_27)?;
    check(&rt, rt.alloc(), &stock::PAGE_28)?;
    check(&rt, rt.alloc(), &stock::PAGE_29)?;
    check(&rt, rt.alloc(), &stock::PAGE_30)?;
    check(&rt, rt.alloc(), &stock::PAGE_31)?;
    check(&rt, rt.alloc(), &stock::PAGE_32)?;
    check(&rt, rt.alloc(), &stock::PAGE_33)?;
    check(&rt, rt.alloc(), &stock::PAGE_34)?;
    check(&rt, rt.alloc(), &stock::PAGE_35)?;
    check(&rt, rt.alloc(), &stock::PAGE_36)?;
    check(&rt, rt.alloc(), &stock::PAGE_37)?;
    check(&rt, rt.alloc(), &stock::PAGE_38)?;
    check(&rt, rt.alloc(), &stock::PAGE_39)?;
    check(&rt, rt.alloc(), &stock::PAGE_40)?;
    check(&rt, rt.alloc(), &stock::PAGE_41)?;
    check(&rt, rt.alloc(), &stock::PAGE_42)?;
    check(&rt, rt.alloc(), &stock::PAGE_43)?;
    check(&rt, rt.alloc(), &stock::PAGE_44)?;
    check(&rt, rt.alloc(), &stock::PAGE_45)?;
    Ok(())
}
