// A level of a cursor's path.
ghost use Rattle.std.specs.Prelude.{◌≡◌, true, false};
ghost use Rattle.tree_scan.specs.Coming.{IsSpent};

use page_form::Page;

// A page with its bytes, and the place of what comes next on it: the cell of that place, or what is under the child before it. On a leaf, which has
// no children, it is always the cell; on an interior page of a table, whose cells list nothing, always the child.
#[derive(Drop)]
pub(crate) struct Level {
    pub(crate) page: u32,
    pub(crate) node: Page,
    pub(crate) bytes: Vec<u8>,
    pub(crate) place: usize,
    pub(crate) at_cell: bool,
}

// Whether nothing is left of a level: there is a child more than there are cells.
pub(crate) fn is_spent(level: &Level) -> bool
    ensures spent { result ≡ true → IsSpent level.now }
    ensures some { result ≡ false → IsSpent level.now → ⊥ }
{
    let count = level.node.cells.len();
    if level.at_cell {
        level.place >= count
    } else {
        level.place > count
    }
}
