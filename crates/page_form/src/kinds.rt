// Kinds of pages: the flag of each, and where its header and its cell pointers stand.
ghost use Rattle.std.specs.Prelude.{◌≡◌, ◌≤◌};
ghost use Rattle.node_spec.specs.Kinds.{flag_of, kind_of, is_leaf, is_table, header_at, header_size, pointers_at};
ghost use Rattle.node_spec.specs.Cells.{left_size};

use node_spec::Kind;

/// The kind of page that a flag names, None where it names none.
#[tactic(auto, unfolding(node_spec::specs::Kinds::kind_of))]
pub fn kind_of(flag: u8) -> Option<Kind>
    ensures { result ≡ kind_of flag }
{
    match flag {
        2 => Some(Kind::IndexInner),
        5 => Some(Kind::TableInner),
        10 => Some(Kind::IndexLeaf),
        13 => Some(Kind::TableLeaf),
        _ => None,
    }
}

/// The flag of a kind, which is the first byte of the page's header.
pub fn flag_of(kind: Kind) -> u8
    ensures { result ≡ flag_of kind }
{
    match kind {
        Kind::IndexInner => 2,
        Kind::TableInner => 5,
        Kind::IndexLeaf => 10,
        Kind::TableLeaf => 13,
    }
}

/// Whether no page is below a page of this kind.
pub fn is_leaf(kind: Kind) -> bool
    ensures { result ≡ is_leaf kind }
{
    match kind {
        Kind::IndexInner | Kind::TableInner => false,
        Kind::IndexLeaf | Kind::TableLeaf => true,
    }
}

/// Whether a page of this kind is one of a table.
pub fn is_table(kind: Kind) -> bool
    ensures { result ≡ is_table kind }
{
    match kind {
        Kind::IndexInner | Kind::IndexLeaf => false,
        Kind::TableInner | Kind::TableLeaf => true,
    }
}

/// The offset in bytes of a page's header: on page 1 it stands behind the database header.
pub fn header_at(first: bool) -> usize
    ensures at { result ≡ header_at first }
    ensures most { result ≤ 100 }
{
    if first { 100 } else { 0 }
}

/// How many bytes the header of a page has.
pub fn header_size(kind: Kind) -> usize
    ensures size { result ≡ header_size kind }
    ensures least { 8 ≤ result }
    ensures most { result ≤ 12 }
{
    match kind {
        Kind::IndexInner | Kind::TableInner => 12,
        Kind::IndexLeaf | Kind::TableLeaf => 8,
    }
}

/// The offset in bytes of a page's first cell pointer.
pub fn pointers_at(first: bool, kind: Kind) -> usize
    ensures at { result ≡ pointers_at first kind }
    ensures most { result ≤ 112 }
{
    header_at(first) + header_size(kind)
}

/// How many bytes the left child takes in a cell.
pub(crate) fn left_size(kind: Kind) -> usize
    ensures size { result ≡ left_size kind }
    ensures most { result ≤ 4 }
{
    match kind {
        Kind::IndexInner | Kind::TableInner => 4,
        Kind::IndexLeaf | Kind::TableLeaf => 0,
    }
}
