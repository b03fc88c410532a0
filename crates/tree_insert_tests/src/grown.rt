// What trees list once they have grown.
use crate::database::{INDEX_LEAF, LEAF, engine};
use crate::trees::{has, lists, puts};
use memory_engine::Plain;
use overlay::{Live, Overlay};
use page_face::{EditPages, Engine, EngineTells, Mode, Pages, PutPages};
use page_lines::Raw;
use std::alloc::{AllocError, Global};
use std::test::Fail;

/// A tree: its root, whether it is a table's, the numbers in the order in which they are put in, and as they rise.
#[derive(Clone, Copy)]
struct Tree<'a> {
    root: u32,
    table: bool,
    numbers: &'a [i64],
    sorted: &'a [i64],
}

const SMALL: &[Tree] = &[
    // No cell is there yet.
    Tree {
        root: 1,
        table: true,
        numbers: &[],
        sorted: &[],
    },
    Tree {
        root: 2,
        table: false,
        numbers: &[],
        sorted: &[],
    },
    // The first row has a cell of 453 bytes, and page 1 has room for one of 402.
    Tree {
        root: 1,
        table: true,
        numbers: &[22],
        sorted: &[22],
    },
    Tree {
        root: 1,
        table: true,
        numbers: &[22, 1, 54, 23],
        sorted: &[1, 22, 23, 54],
    },
    // Both ends of 64 bits.
    Tree {
        root: 2,
        table: true,
        numbers: &[0, i64::MAX, i64::MIN, -1, i64::MIN + 1, i64::MAX - 1, 1],
        sorted: &[i64::MIN, i64::MIN + 1, -1, 0, 1, i64::MAX - 1, i64::MAX],
    },
];

/// Makes page 2 a root without a cell.
fn begins<P: EditPages>(pages: &mut P, table: bool) -> bool
    requires { P.ready pages.old }
    ensures { P.ready pages.new }
{
    let mut page = [0; 512];
    page[..8].copy_from_slice(if table { &LEAF } else { &INDEX_LEAF });
    pages.page_size() == 512 && pages.fresh() == Ok(2) && pages.put(2, &page) == Ok(())
}

fn grows<P: EditPages>(alloc: Global, pages: &mut P, tree: Tree) -> bool
    requires { P.ready pages.old }
{
    let Tree {
        root,
        table,
        numbers,
        sorted,
    } = tree;
    (root == 1 || begins(pages, table))
        && puts(alloc, pages, root, table, numbers)
        && lists(alloc, pages, root, table, sorted)
        && has(alloc, pages, root, table, numbers)
        && lists(alloc, pages, root, table, sorted)
}

fn is_right(alloc: Global, tree: Tree) -> bool {
    let Ok(mut engine) = engine(alloc) else {
        return false;
    };
    let pin = engine.begin();
    let Ok(mut overlay) = Overlay::new(alloc, &pin, Mode::Concurrent) else {
        return false;
    };
    let mut live = Live {
        overlay: &mut overlay,
        engine: &mut engine,
        pin: &pin,
    };
    grows(alloc, &mut live, tree)
}

/// The numbers from 1 to 500, each some steps behind the one before, round and round.
fn numbers_by(alloc: Global, step: i64) -> Result<Vec<i64>, AllocError> {
    let mut numbers = Vec::new(alloc);
    let mut number: i64 = 0;
    for _ in 0..500_u32 {
        numbers.push(number.wrapping_add(1))?;
        number = number.wrapping_add(step) % 500;
    }
    Ok(numbers)
}

#[test]
fn small_trees(rt: HostRuntime) {
    for at in 0..SMALL.len() {
        assert!(rt; is_right(rt.alloc(), SMALL[at]));
    }
}

/// How 500 numbers are put into a tree: its root, whether it is a table's, and the steps from number to number.
type Order = (u32, bool, i64);

const LARGE: &[Order] = &[
    (2, true, 1),
    (2, true, 499),
    (2, true, 171),
    (1, true, 171),
    (1, true, 499),
    (2, false, 1),
    (2, false, 171),
];

fn is_large_right(alloc: Global, order: Order) -> bool {
    let (root, table, step) = order;
    match (numbers_by(alloc, step), numbers_by(alloc, 1)) {
        (Ok(numbers), Ok(sorted)) => is_right(
            alloc,
            Tree {
                root,
                table,
                numbers: numbers.as_slice(),
                sorted: sorted.as_slice(),
            },
        ),
        (Ok(_), Err(_)) | (Err(_), Ok(_) | Err(_)) => false,
    }
}

#[test]
fn large_trees(rt: HostRuntime) {
    for at in 0..LARGE.len() {
        assert!(rt; is_large_right(rt.alloc(), LARGE[at]));
    }
}
