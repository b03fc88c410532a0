// Roots that grow by a level, and that lose one.
ghost use Rattle.std.specs.Prelude.{◌≡◌, ◌⊎◌, ℕ, Bool, ◌+◌, ◌<◌, ◌≤◌, ◌==◌, [], ◌∷◌, length, All, Contains, OnOk, IfOk, IfErr, Some, true, false};
ghost use Rattle.page_spec.specs.View.{View};
ghost use Rattle.page_face.specs.Pages.{Editing, ReadsAtMost, IsFromOutside};
ghost use Rattle.node_spec.specs.Cells.{IsOneCell};
ghost use Rattle.node_spec.specs.Nodes.{Node, node_of};
ghost use Rattle.tree_spec.specs.Layout.{times};
ghost use Rattle.overflow.specs.Following.{shown_over};
ghost use Rattle.overflow.specs.Writing.{BarsWriting};
ghost use Rattle.node_edit.specs.Runs.{spelled_by};
ghost use Rattle.tree_edit.specs.Editing.{EditsPages, making, storing};
ghost use Rattle.tree_edit.specs.Roots.{inner_kind, RaisesRoot, ShowsNoRoot, LowersRoot, LacksRoom};
ghost use Rattle.tree_edit.specs.Settling.{HoldsNone};

use crate::lay::{fetch_node, make_page, store};
use disk_face::Bytes;
use node_edit::{copy_node, start_inner};
use page_face::{EditPages, FetchFault};
use page_form::Kind;
use std::alloc::Global;
use tree_read::{page_buffer, read_node, usable_of};

/// Copies a root's node to a page of its own, whose number is the answer, and lets the root lead to that one and to new siblings.
///
/// The siblings' cells are those that [`settle`](crate::settle()) answered; page 1 may have none. `Corrupt` comes as of
/// [`fresh`](EditPages::fresh), or names the root, which then shows no root of such a tree. On page 1 three buffers of a page are taken, else one.
pub fn raise_root<P: EditPages>(
    alloc: Global,
    pages: &mut P,
    table: bool,
    root: u32,
    news: &[Bytes],
) -> Result<u32, FetchFault>
    requires ready { P.ready pages.old }
    requires root { (1 ≤ root) × (root ≤ P.last_page pages.old) }
    requires few { length news.now ≤ 2 }
    requires cells { All (IsOneCell (inner_kind table) (P.usable pages.old)) news.now }
    ensures range { IfOk result (λ child. (2 ≤ child) × (child ≤ P.last_page pages.new)) }
    ensures raised { IfOk result (λ child. (world : View) → P.tells pages.new world → P.neat pages.old world → (P.free pages.old world root → ⊥)
        → RaisesRoot P.PagesTells pages.old table root child news.now pages.new world) }
    ensures stopped { IfErr result (λ why. BarsWriting P.PagesTells pages.old why pages.new ⊎ ShowsNoRoot P.PagesTells pages.old table root why pages.new) }
    ensures edits { Editing P.PagesTells pages.old pages.new }
{
    let mut bytes = match page_buffer(alloc, pages.page_size()) {
        Ok(bytes) => bytes,
        Err(why) => return Err(why),
    };
    raise_in(alloc, pages, table, root, news, bytes.as_mut_slice())
}

// The same, with a buffer.
fn raise_in<P: EditPages>(
    alloc: Global,
    pages: &mut P,
    table: bool,
    root: u32,
    news: &[Bytes],
    bytes: &mut [u8],
) -> Result<u32, FetchFault>
    requires ready { P.ready pages.old }
    requires root { (1 ≤ root) × (root ≤ P.last_page pages.old) }
    requires room { length bytes.old ≡ P.page_size pages.old }
    requires few { length news.now ≤ 2 }
    requires cells { All (IsOneCell (inner_kind table) (P.usable pages.old)) news.now }
    ensures range { IfOk result (λ child. (2 ≤ child) × (child ≤ P.last_page pages.new)) }
    ensures raised { IfOk result (λ child. (world : View) → P.tells pages.new world → P.neat pages.old world → (P.free pages.old world root → ⊥)
        → RaisesRoot P.PagesTells pages.old table root child news.now pages.new world) }
    ensures stopped { IfErr result (λ why. BarsWriting P.PagesTells pages.old why pages.new ⊎ ShowsNoRoot P.PagesTells pages.old table root why pages.new) }
    ensures edits { Editing P.PagesTells pages.old pages.new }
{
    match read_node(alloc, pages, table, root, 0, bytes) {
        Ok(_) => (),
        Err(why) => return Err(why),
    }
    let child = match make_child(alloc, pages, root, bytes) {
        Ok(child) => child,
        Err(why) => return Err(why),
    };
    lead_to(pages, table, root, news, child, bytes);
    match store(alloc, pages, root, bytes) {
        Ok(()) => Ok(child),
        Err(why) => Err(why),
    }
}

// The kind of a tree's interior pages.
fn kind_inside(table: bool) -> Kind
    ensures { result ≡ inner_kind table }
{
    if table {
        Kind::TableInner
    } else {
        Kind::IndexInner
    }
}

// Makes bytes those of an interior page that leads to siblings and to a child.
fn lead_to<P: EditPages>(
    pages: &P,
    table: bool,
    root: u32,
    news: &[Bytes],
    child: u32,
    bytes: &mut [u8],
)
    requires ready { P.ready pages.now }
    requires room { length bytes.old ≡ P.page_size pages.now }
    requires few { length news.now ≤ 2 }
    requires cells { All (IsOneCell (inner_kind table) (P.usable pages.now)) news.now }
    ensures shows { node_of (P.usable pages.now) (root == 1) bytes.new ≡ Some (record { kind = inner_kind table; cells = spelled_by (inner_kind table) (P.usable pages.now) news.now; right = child }) }
    ensures room { length bytes.new ≡ length bytes.old }
{
    let kind = kind_inside(table);
    start_inner(bytes, usable_of(pages), root == 1, kind, news, child);
}

// Makes a page that shows what the bytes of a root show.
fn make_child<P: EditPages>(
    alloc: Global,
    pages: &mut P,
    root: u32,
    bytes: &[u8],
) -> Result<u32, FetchFault>
    requires ready { P.ready pages.old }
    requires whole { length bytes.now ≡ P.page_size pages.old }
    requires shown { (node : Node) × (node_of (P.usable pages.old) (root == 1) bytes.now ≡ Some node) }
    ensures range { IfOk result (λ page. (2 ≤ page) × (page ≤ P.last_page pages.new)) }
    ensures made { IfOk result (λ page. (world : View) → P.tells pages.new world → P.neat pages.old world
        → EditsPages P.PagesTells (making (page ∷ [])) pages.old pages.new world) }
    ensures shows { IfOk result (λ page. (world : View) → P.tells pages.new world → (node : Node) → node_of (P.usable pages.old) (root == 1) bytes.now ≡ Some node
        → (shown_over P.PagesTells pages.new world).node page ≡ Some node) }
    ensures stopped { IfErr result (λ why. BarsWriting P.PagesTells pages.old why pages.new) }
    ensures edits { Editing P.PagesTells pages.old pages.new }
{
    if root != 1 {
        return make_page(pages, bytes);
    }
    let mut down = match page_buffer(alloc, pages.page_size()) {
        Ok(down) => down,
        Err(why) => return Err(why),
    };
    make_copy(pages, bytes, down.as_mut_slice())
}

// The same of page 1, which has less room than others.
fn make_copy<P: EditPages>(pages: &mut P, bytes: &[u8], down: &mut [u8]) -> Result<u32, FetchFault>
    requires ready { P.ready pages.old }
    requires whole { (length bytes.now ≡ P.page_size pages.old) × (length down.old ≡ P.page_size pages.old) }
    requires shown { (node : Node) × (node_of (P.usable pages.old) true bytes.now ≡ Some node) }
    ensures range { IfOk result (λ page. (2 ≤ page) × (page ≤ P.last_page pages.new)) }
    ensures made { IfOk result (λ page. (world : View) → P.tells pages.new world → P.neat pages.old world
        → EditsPages P.PagesTells (making (page ∷ [])) pages.old pages.new world) }
    ensures shows { IfOk result (λ page. (world : View) → P.tells pages.new world → (node : Node) → node_of (P.usable pages.old) true bytes.now ≡ Some node
        → (shown_over P.PagesTells pages.new world).node page ≡ Some node) }
    ensures stopped { IfErr result (λ why. BarsWriting P.PagesTells pages.old why pages.new) }
    ensures edits { Editing P.PagesTells pages.old pages.new }
{
    if !copy_node(bytes, true, down, false, usable_of(pages)) {
        unreachable!()
    }
    make_page(pages, down)
}

/// Lets a root show what its only child shows, which then is no page of the tree any more and isn't given up yet.
///
/// The answer is false, and nothing was put, where the root is page 1 and the child's node doesn't fit there. `Corrupt` names the child, which then is no
/// page's text.
pub fn lower_root<P: EditPages>(
    alloc: Global,
    pages: &mut P,
    root: u32,
    child: u32,
) -> Result<bool, FetchFault>
    requires ready { P.ready pages.old }
    requires root { (1 ≤ root) × (root ≤ P.last_page pages.old) }
    requires child { (2 ≤ child) × (child ≤ P.last_page pages.old) }
    ensures lowered { IfOk result (LowersRoot P.PagesTells pages.old root child pages.new) }
    ensures read { IfOk result (λ lowered. lowered ≡ false → (n : ℕ) → Contains (P.reads pages.new) n → Contains (P.reads pages.old) n ⊎ (1 ≤ times (child ∷ []) n)) }
    ensures cause { IfErr result (HoldsNone P.PagesTells pages.old child pages.new) }
    ensures last { P.last_page pages.new ≡ P.last_page pages.old }
    ensures edits { Editing P.PagesTells pages.old pages.new }
{
    let mut bytes = match page_buffer(alloc, pages.page_size()) {
        Ok(bytes) => bytes,
        Err(why) => return Err(why),
    };
    lower_in(alloc, pages, root, child, bytes.as_mut_slice())
}

// The same, with a buffer.
fn lower_in<P: EditPages>(
    alloc: Global,
    pages: &mut P,
    root: u32,
    child: u32,
    copy: &mut [u8],
) -> Result<bool, FetchFault>
    requires ready { P.ready pages.old }
    requires root { (1 ≤ root) × (root ≤ P.last_page pages.old) }
    requires child { (2 ≤ child) × (child ≤ P.last_page pages.old) }
    requires room { length copy.old ≡ P.page_size pages.old }
    ensures lowered { IfOk result (LowersRoot P.PagesTells pages.old root child pages.new) }
    ensures read { IfOk result (λ lowered. lowered ≡ false → (n : ℕ) → Contains (P.reads pages.new) n → Contains (P.reads pages.old) n ⊎ (1 ≤ times (child ∷ []) n)) }
    ensures cause { IfErr result (HoldsNone P.PagesTells pages.old child pages.new) }
    ensures last { P.last_page pages.new ≡ P.last_page pages.old }
    ensures edits { Editing P.PagesTells pages.old pages.new }
{
    match fetch_node(alloc, pages, child, copy) {
        Ok(_) => (),
        Err(why) => return Err(why),
    }
    if root == 1 {
        return match lower_first(alloc, pages, copy) {
            Ok(fits) => Ok(fits),
            Err(why) => Err(why),
        };
    }
    match store(alloc, pages, root, copy) {
        Ok(()) => Ok(true),
        Err(why) => Err(why),
    }
}

// Lets page 1 show what the bytes of another page show, where it fits.
fn lower_first<P: EditPages>(alloc: Global, pages: &mut P, bytes: &[u8]) -> Result<bool, FetchFault>
    requires ready { P.ready pages.old }
    requires last { 1 ≤ P.last_page pages.old }
    requires whole { length bytes.now ≡ P.page_size pages.old }
    requires shown { (node : Node) × (node_of (P.usable pages.old) false bytes.now ≡ Some node) }
    ensures stored { IfOk result (λ fits. fits ≡ true → (world : View) → P.tells pages.new world → P.neat pages.old world → (P.free pages.old world 1 → ⊥)
        → EditsPages P.PagesTells (storing 1 []) pages.old pages.new world) }
    ensures shows { IfOk result (λ fits. fits ≡ true → (world : View) → P.tells pages.new world → (node : Node) → node_of (P.usable pages.old) false bytes.now ≡ Some node
        → (shown_over P.PagesTells pages.new world).node 1 ≡ Some node) }
    ensures lacks { IfOk result (λ fits. fits ≡ false → ReadsAtMost P.PagesTells pages.old pages.new
        × ((node : Node) → node_of (P.usable pages.old) false bytes.now ≡ Some node → LacksRoom (P.usable pages.old) node)) }
    ensures unread { IfOk result (λ fits. fits ≡ false → P.reads pages.new ≡ P.reads pages.old) }
    ensures cause { IfErr result (λ why. IsFromOutside (P.faults pages.old) (P.faults pages.new) why) }
    ensures last { P.last_page pages.new ≡ P.last_page pages.old }
    ensures edits { Editing P.PagesTells pages.old pages.new }
{
    let mut up = match page_buffer(alloc, pages.page_size()) {
        Ok(up) => up,
        Err(why) => return Err(why),
    };
    store_first(alloc, pages, bytes, up.as_mut_slice())
}

// The same, with a buffer.
fn store_first<P: EditPages>(
    alloc: Global,
    pages: &mut P,
    bytes: &[u8],
    up: &mut [u8],
) -> Result<bool, FetchFault>
    requires ready { P.ready pages.old }
    requires last { 1 ≤ P.last_page pages.old }
    requires whole { (length bytes.now ≡ P.page_size pages.old) × (length up.old ≡ P.page_size pages.old) }
    requires shown { (node : Node) × (node_of (P.usable pages.old) false bytes.now ≡ Some node) }
    ensures stored { IfOk result (λ fits. fits ≡ true → (world : View) → P.tells pages.new world → P.neat pages.old world → (P.free pages.old world 1 → ⊥)
        → EditsPages P.PagesTells (storing 1 []) pages.old pages.new world) }
    ensures shows { IfOk result (λ fits. fits ≡ true → (world : View) → P.tells pages.new world → (node : Node) → node_of (P.usable pages.old) false bytes.now ≡ Some node
        → (shown_over P.PagesTells pages.new world).node 1 ≡ Some node) }
    ensures lacks { IfOk result (λ fits. fits ≡ false → ReadsAtMost P.PagesTells pages.old pages.new
        × ((node : Node) → node_of (P.usable pages.old) false bytes.now ≡ Some node → LacksRoom (P.usable pages.old) node)) }
    ensures unread { IfOk result (λ fits. fits ≡ false → P.reads pages.new ≡ P.reads pages.old) }
    ensures cause { IfErr result (λ why. IsFromOutside (P.faults pages.old) (P.faults pages.new) why) }
    ensures last { P.last_page pages.new ≡ P.last_page pages.old }
    ensures edits { Editing P.PagesTells pages.old pages.new }
{
    if !copy_node(bytes, false, up, true, usable_of(pages)) {
        return Ok(false);
    }
    match store(alloc, pages, 1, up) {
        Ok(()) => Ok(true),
        Err(why) => Err(why),
    }
}
