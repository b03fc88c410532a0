// Neighbours joined in one page.
ghost use Rattle.std.specs.Prelude.{◌≡◌, ◌≢◌, ◌⊎◌, ℕ, Bool, ◌≤◌, ◌&&◌, true, false, [], ◌∷◌, length, All, Contains, IfOk, IfErr, Some};
ghost use Rattle.page_face.specs.Pages.{Editing, ReadsAtMost};
ghost use Rattle.node_spec.specs.Kinds.{is_leaf, is_table};
ghost use Rattle.node_spec.specs.Cells.{IsOneCell, cell_in};
ghost use Rattle.node_spec.specs.Nodes.{Node, node_of};
ghost use Rattle.tree_spec.specs.Layout.{times};
ghost use Rattle.engine_spec.specs.declared.commits.FetchFault.TheVariants as fault;
ghost use Rattle.node_edit.specs.Keys.{kind_above};
ghost use Rattle.tree_edit.specs.Roots.{inner_kind};
ghost use Rattle.tree_edit.specs.Joining.{JoinsOrLacks, BarsJoining, HaveNodes, HoldsHead, SpellBetween, ShowsJoined, LacksRoomFor};
ghost use Rattle.tree_edit.specs.Settling.{HoldsNone};

use crate::lay::{fetch_node, store};
use disk_face::Bytes;
use node_edit::{cell_down, take_over};
use page_face::{EditPages, FetchFault};
use page_form::{Kind, flag_of, is_table};
use std::alloc::Global;
use tree_read::{page_buffer, usable_of};

/// What is told of the left one of two neighbours: its kind, which is the right one's too, and its right child, 0 on a leaf.
#[derive(Clone, Copy)]
pub(crate) struct Left {
    pub kind: Kind,
    pub right: u32,
}

/// Joins two neighbours in the right one's page, and gives up the left one. Either may have no cell.
///
/// The cell is the one above that leads to the left page. The answer is false, and nothing was put, where the two don't fit into one page. `Corrupt` names
/// a page that shows no node of such a tree, or the right one where the two aren't of one kind. Two buffers of a page are taken.
pub fn join_pages<P: EditPages>(
    alloc: Global,
    pages: &mut P,
    table: bool,
    left: u32,
    right: u32,
    cell: &Bytes,
) -> Result<bool, FetchFault>
    requires ready { P.ready pages.old }
    requires left { (2 ≤ left) × (left ≤ P.last_page pages.old) }
    requires right { (2 ≤ right) × (right ≤ P.last_page pages.old) }
    requires apart { left ≢ right }
    requires cell { IsOneCell (inner_kind table) (P.usable pages.old) cell.now }
    ensures joined { IfOk result (JoinsOrLacks P.PagesTells pages.old left right (left ∷ []) (cell_in (inner_kind table) (P.usable pages.old) cell.now) pages.new) }
    ensures cause { IfErr result (BarsJoining P.PagesTells pages.old table left right pages.new) }
    ensures last { P.last_page pages.new ≡ P.last_page pages.old }
    ensures edits { Editing P.PagesTells pages.old pages.new }
{
    let joined = match join_left(alloc, pages, table, left, right, cell) {
        Ok(joined) => joined,
        Err(why) => return Err(why),
    };
    if !joined {
        return Ok(false);
    }
    match pages.give_up(left) {
        Ok(()) => Ok(true),
        Err(why) => Err(why),
    }
}

/// The same, but the left page isn't given up yet: an edit whose later calls make pages gives up all that it lost at its end, since a page that was given
/// up may be the next one that is made.
pub fn join_left<P: EditPages>(
    alloc: Global,
    pages: &mut P,
    table: bool,
    left: u32,
    right: u32,
    cell: &Bytes,
) -> Result<bool, FetchFault>
    requires ready { P.ready pages.old }
    requires left { (2 ≤ left) × (left ≤ P.last_page pages.old) }
    requires right { (2 ≤ right) × (right ≤ P.last_page pages.old) }
    requires cell { IsOneCell (inner_kind table) (P.usable pages.old) cell.now }
    ensures joined { IfOk result (JoinsOrLacks P.PagesTells pages.old left right [] (cell_in (inner_kind table) (P.usable pages.old) cell.now) pages.new) }
    ensures read { IfOk result (λ joined. joined ≡ false → (n : ℕ) → Contains (P.reads pages.new) n → Contains (P.reads pages.old) n ⊎ (1 ≤ times (left ∷ (right ∷ [])) n)) }
    ensures cause { IfErr result (BarsJoining P.PagesTells pages.old table left right pages.new) }
    ensures last { P.last_page pages.new ≡ P.last_page pages.old }
    ensures edits { Editing P.PagesTells pages.old pages.new }
{
    let mut one = match page_buffer(alloc, pages.page_size()) {
        Ok(one) => one,
        Err(why) => return Err(why),
    };
    let mut two = match page_buffer(alloc, pages.page_size()) {
        Ok(two) => two,
        Err(why) => return Err(why),
    };
    join_in(
        alloc,
        pages,
        table,
        left,
        right,
        cell,
        one.as_mut_slice(),
        two.as_mut_slice(),
    )
}

// The same, with buffers.
fn join_in<P: EditPages>(
    alloc: Global,
    pages: &mut P,
    table: bool,
    left: u32,
    right: u32,
    cell: &Bytes,
    one: &mut [u8],
    two: &mut [u8],
) -> Result<bool, FetchFault>
    requires ready { P.ready pages.old }
    requires left { (2 ≤ left) × (left ≤ P.last_page pages.old) }
    requires right { (2 ≤ right) × (right ≤ P.last_page pages.old) }
    requires cell { IsOneCell (inner_kind table) (P.usable pages.old) cell.now }
    requires room { (length one.old ≡ P.page_size pages.old) × (length two.old ≡ P.page_size pages.old) }
    ensures joined { IfOk result (JoinsOrLacks P.PagesTells pages.old left right [] (cell_in (inner_kind table) (P.usable pages.old) cell.now) pages.new) }
    ensures read { IfOk result (λ joined. joined ≡ false → (n : ℕ) → Contains (P.reads pages.new) n → Contains (P.reads pages.old) n ⊎ (1 ≤ times (left ∷ (right ∷ [])) n)) }
    ensures cause { IfErr result (BarsJoining P.PagesTells pages.old table left right pages.new) }
    ensures last { P.last_page pages.new ≡ P.last_page pages.old }
    ensures edits { Editing P.PagesTells pages.old pages.new }
{
    let told = match fetch_beside(alloc, pages, table, left, right, one, two) {
        Ok(told) => told,
        Err(why) => return Err(why),
    };
    let fits = match bring_over(alloc, usable_of(pages), told, cell, one, two) {
        Ok(fits) => fits,
        Err(why) => return Err(why),
    };
    if !fits {
        return Ok(false);
    }
    match store(alloc, pages, right, two) {
        Ok(()) => Ok(true),
        Err(why) => Err(why),
    }
}

// Whether two kinds are the same.
fn is_same(one: Kind, two: Kind) -> bool
    ensures same { result ≡ true → two ≡ one }
    ensures apart { result ≡ false → two ≡ one → ⊥ }
{
    flag_of(one) == flag_of(two)
}

/// Reads two neighbours of a tree into buffers.
pub(crate) fn fetch_beside<P: EditPages>(
    alloc: Global,
    pages: &mut P,
    table: bool,
    left: u32,
    right: u32,
    one: &mut [u8],
    two: &mut [u8],
) -> Result<Left, FetchFault>
    requires ready { P.ready pages.old }
    requires left { (2 ≤ left) × (left ≤ P.last_page pages.old) }
    requires right { (2 ≤ right) × (right ≤ P.last_page pages.old) }
    requires room { (length one.old ≡ P.page_size pages.old) × (length two.old ≡ P.page_size pages.old) }
    ensures nodes { IfOk result (λ told. HaveNodes P.PagesTells pages.old table left right one.new two.new told pages.new) }
    ensures cause { IfErr result (BarsJoining P.PagesTells pages.old table left right pages.new) }
    ensures read { (n : ℕ) → Contains (P.reads pages.new) n → Contains (P.reads pages.old) n ⊎ (1 ≤ times (left ∷ (right ∷ [])) n) }
    ensures reading { ReadsAtMost P.PagesTells pages.old pages.new }
    ensures room { (length one.new ≡ length one.old) × (length two.new ≡ length two.old) }
{
    let told = match fetch_head(alloc, pages, left, one) {
        Ok(told) => told,
        Err(why) => return Err(why),
    };
    if is_table(told.kind) != table {
        return Err(FetchFault::Corrupt { page: left });
    }
    let other = match fetch_head(alloc, pages, right, two) {
        Ok(other) => other,
        Err(why) => return Err(why),
    };
    if !is_same(told.kind, other.kind) {
        return Err(FetchFault::Corrupt { page: right });
    }
    Ok(told)
}

// Reads a page other than page 1 into a buffer, and tells its kind and right child.
fn fetch_head<P: EditPages>(
    alloc: Global,
    pages: &mut P,
    page: u32,
    buf: &mut [u8],
) -> Result<Left, FetchFault>
    requires ready { P.ready pages.old }
    requires page { (2 ≤ page) × (page ≤ P.last_page pages.old) }
    requires room { length buf.old ≡ P.page_size pages.old }
    ensures head { IfOk result (λ told. HoldsHead P.PagesTells pages.old page buf.new told pages.new) }
    ensures cause { IfErr result (HoldsNone P.PagesTells pages.old page pages.new) }
    ensures read { (n : ℕ) → Contains (P.reads pages.new) n → Contains (P.reads pages.old) n ⊎ (1 ≤ times (page ∷ []) n) }
    ensures reading { ReadsAtMost P.PagesTells pages.old pages.new }
    ensures room { length buf.new ≡ length buf.old }
{
    match fetch_node(alloc, pages, page, buf) {
        Ok(node) => Ok(Left {
            kind: node.kind,
            right: node.right,
        }),
        Err(why) => Err(why),
    }
}

// Whether a page of a kind is a leaf of a table.
fn is_rows(kind: Kind) -> bool
    ensures { result ≡ (is_leaf kind && is_table kind) }
{
    match kind {
        Kind::TableLeaf => true,
        Kind::IndexInner | Kind::TableInner | Kind::IndexLeaf => false,
    }
}

/// The cells that come between two neighbours, as texts.
pub(crate) fn cells_between(
    alloc: Global,
    told: Left,
    cell: &Bytes,
) -> Result<Vec<Bytes>, FetchFault>
    requires cell { (usable : ℕ) × IsOneCell (kind_above told.kind) usable cell.now }
    ensures between { IfOk result (λ texts. (usable : ℕ) → IsOneCell (kind_above told.kind) usable cell.now
        → SpellBetween (is_leaf told.kind && is_table told.kind) told.kind usable cell.now told.right texts.items) }
    ensures cause { IfErr result (λ why. why ≡ fault.Memory) }
{
    let mut texts = Vec::new(alloc);
    if is_rows(told.kind) {
        return Ok(texts);
    }
    let text = match cell_down(alloc, told.kind, cell, told.right) {
        Ok(text) => text,
        Err(_) => return Err(FetchFault::Memory),
    };
    match texts.push(text) {
        Ok(()) => Ok(texts),
        Err(_) => Err(FetchFault::Memory),
    }
}

// The bytes of the right one take over what the left one shows, with the cell between them, where it fits.
fn bring_over(
    alloc: Global,
    u: usize,
    told: Left,
    cell: &Bytes,
    left: &[u8],
    right: &mut [u8],
) -> Result<bool, FetchFault>
    requires nodes { (one two : Node) × (node_of u false left.now ≡ Some one) × (node_of u false right.old ≡ Some two) × (two.kind ≡ one.kind)
        × (told.kind ≡ one.kind) × (told.right ≡ one.right) }
    requires cell { IsOneCell (kind_above told.kind) u cell.now }
    ensures joined { IfOk result (λ fits. fits ≡ true → (one two : Node) → node_of u false left.now ≡ Some one → node_of u false right.old ≡ Some two
        → ShowsJoined u right.new one (cell_in (kind_above told.kind) u cell.now) two) }
    ensures lacks { IfOk result (λ fits. fits ≡ false → (one two : Node) → node_of u false left.now ≡ Some one → node_of u false right.old ≡ Some two
        → LacksRoomFor u one two (cell_in (kind_above told.kind) u cell.now)) }
    ensures cause { IfErr result (λ why. why ≡ fault.Memory) }
    ensures length { length right.new ≡ length right.old }
{
    let between = match cells_between(alloc, told, cell) {
        Ok(between) => between,
        Err(why) => return Err(why),
    };
    let fits = take_over(left, between.as_slice(), right, u);
    Ok(fits)
}
