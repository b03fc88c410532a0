// A page worn by puts and takes from a fixed seed, against a plain list of cells: now and then the page is read, and has just the
// cells of the list.
ghost use Rattle.std.specs.Prelude.{◌≤◌};

use crate::pages::{Shape, check_cell, put, read, take};
use page_edit::{NoRoom, start_page};
use page_form::{Kind, PageFault};
use std::alloc::Global;
use std::process::Abort;
use std::test::Fail;

// The longest cell here: two varints of one byte, and a payload of 127 bytes.
const LONGEST: usize = 129;

// The header of a leaf, and what each cell takes besides its bytes.
const HEADER: usize = 8;

const POINTER: usize = 2;

// A cell of a leaf of a table: its rowid and the size of its payload, both below 128, and the payload's first byte, from which on
// they rise.
#[derive(Clone, Copy)]
struct Small {
    rowid: u8,
    size: u8,
    first: u8,
}

impl Small {
    // Writes the bytes of the cell, and tells how many they are.
    fn write(&self, room: &mut [u8; 129]) -> usize
        ensures { (2 ≤ result) × (result ≤ 129) }
    {
        let size = usize::from(self.size % 128);
        room[0] = self.size % 128;
        room[1] = self.rowid % 128;
        let mut byte = self.first;
        for place in room[2..2 + size].iter_mut() {
            *place = byte;
            byte = byte.wrapping_add(1);
        }
        2 + size
    }

    // How many bytes of its page it takes, with its pointer.
    fn taken(&self) -> usize
        ensures { result ≤ 131 }
    {
        (2 + usize::from(self.size % 128)).max(4) + POINTER
    }
}

// Numbers from a seed: Knuth's linear congruential generator of 64 bits, of which the high half is used.
#[derive(Drop)]
struct Dice {
    state: u64,
}

impl Dice {
    fn next(&mut self) -> usize {
        self.state = self
            .state
            .wrapping_mul(6364136223846793005)
            .wrapping_add(1442695040888963407);
        (self.state >> 32) as usize
    }

    fn cell(&mut self) -> Small {
        let number = self.next();
        Small {
            rowid: (number % 128) as u8,
            size: (number / 128 % 128) as u8,
            first: (number / 16384 % 256) as u8,
        }
    }
}

// How many bytes a page of so many bytes with these cells leaves free.
fn free_of(size: usize, cells: &[Small]) -> usize {
    let mut free = size.saturating_sub(HEADER);
    for cell in cells {
        free = free.saturating_sub(cell.taken());
    }
    free
}

// The page has just the cells of the list.
fn check_all(
    rt: &impl Abort,
    alloc: Global,
    shape: Shape,
    bytes: &[u8],
    cells: &[Small],
) -> Result<(), PageFault> {
    let page = read(rt, alloc, shape, bytes)?;
    assert_eq!(rt; page.kind, Kind::TableLeaf);
    assert_eq!(rt; page.free, free_of(shape.usable, cells));
    assert_eq!(rt; page.cells.len(), cells.len());
    for k in 0..cells.len() {
        let mut room = [0u8; LONGEST];
        let size = cells[k].write(&mut room);
        check_cell(rt, shape, &page, bytes, k, &room[..size]);
    }
    Ok(())
}

// Puts a cell in at any place, on the page and in the list, and tells whether there was room.
fn put_one(
    rt: &impl Abort,
    alloc: Global,
    shape: Shape,
    bytes: &mut [u8],
    cells: &mut Vec<Small>,
    dice: &mut Dice,
) -> Result<bool, Fail> {
    assert!(rt; cells.len() < 65536);
    let cell = dice.cell();
    let k = dice.next() % (cells.len() + 1);
    let free = free_of(shape.usable, cells);
    let need = cell.taken();
    let mut room = [0u8; LONGEST];
    let size = cell.write(&mut room);
    let refused = put(rt, alloc, shape, bytes, k, &room[..size])?;
    if free < need {
        assert_eq!(rt; refused, Some(NoRoom { need, free }));
        return Ok(false);
    }
    assert_eq!(rt; refused, None);
    cells.insert(k, cell)?;
    Ok(true)
}

// Takes a cell out of the page and of the list.
fn take_one(
    rt: &impl Abort,
    alloc: Global,
    shape: Shape,
    bytes: &mut [u8],
    cells: &mut Vec<Small>,
    k: usize,
) -> Result<(), Fail> {
    assert!(rt; k < cells.len());
    take(rt, alloc, shape, bytes, k)?;
    cells.remove(k);
    Ok(())
}

// One put or, once in four times, one take. It tells whether there was room.
fn step(
    rt: &impl Abort,
    alloc: Global,
    shape: Shape,
    bytes: &mut [u8],
    cells: &mut Vec<Small>,
    dice: &mut Dice,
) -> Result<bool, Fail> {
    if cells.is_empty() || dice.next() % 4 > 0 {
        return put_one(rt, alloc, shape, bytes, cells, dice);
    }
    let k = dice.next() % cells.len();
    take_one(rt, alloc, shape, bytes, cells, k)?;
    Ok(true)
}

// So many steps.
fn steps(
    rt: &impl Abort,
    alloc: Global,
    shape: Shape,
    bytes: &mut [u8],
    cells: &mut Vec<Small>,
    dice: &mut Dice,
    count: usize,
) -> Result<bool, Fail> {
    let mut full = false;
    for _ in 0..count {
        full |= !step(rt, alloc, shape, bytes, cells, dice)?;
    }
    Ok(full)
}

// Wears a page that some cells are too many for, and looks at it so many times, each time after so many steps.
fn wear(
    rt: &impl Abort,
    alloc: Global,
    bytes: &mut [u8],
    looks: usize,
    between: usize,
) -> Result<(), Fail> {
    let shape = Shape {
        usable: bytes.len(),
        first: false,
    };
    assert!(rt; shape.usable >= 480 && shape.usable <= 65536);
    start_page(bytes, shape.usable, false, Kind::TableLeaf, 0);
    let mut cells = Vec::new(alloc);
    let mut dice = Dice { state: 13 };
    let mut full = false;
    for _ in 0..looks {
        full |= steps(rt, alloc, shape, bytes, &mut cells, &mut dice, between)?;
        check_all(rt, alloc, shape, bytes, &cells)?;
    }
    assert!(rt; full);
    Ok(())
}

#[test]
fn a_page_of_512_bytes_is_worn(rt: HostRuntime) -> Result<(), Fail> {
    let mut page = [0x55u8; 512];
    wear(&rt, rt.alloc(), &mut page, 4000, 1)
}

#[test]
fn a_page_of_4096_bytes_is_worn(rt: HostRuntime) -> Result<(), Fail> {
    let mut page = [0x55u8; 4096];
    wear(&rt, rt.alloc(), &mut page, 800, 5)
}

// About 900 cells fill the page, so most of the steps are puts at any place of a page that isn't full.
#[test]
fn a_page_of_65536_bytes_is_worn(rt: HostRuntime) -> Result<(), Fail> {
    let mut page = [0x55u8; 65536];
    wear(&rt, rt.alloc(), &mut page, 40, 100)
}
