// The path of a cursor, gone up and down.
ghost use Rattle.std.specs.Prelude.{◌≡◌, ℕ, suc, ◌≤◌, ◌<◌, true, false, List, [], ◌∷◌, ◌++◌, length, OnOk, IfOk, IfErr, OnErr};
ghost use Rattle.engine_spec.specs.declared.commits.FetchFault.TheVariants as fault;
ghost use Rattle.tree_spec.specs.Layout.{Each};
ghost use Rattle.page_face.specs.Pages.{ReadsAtMost};
ghost use Rattle.tree_scan.specs.Bounded.{of_table};
ghost use Rattle.tree_scan.specs.Coming.{IsSpent, gone_below, gone_past};
ghost use Rattle.tree_scan.specs.Placing.{HasLevel, BarsLevel};
ghost use Rattle.tree_scan.specs.Reads.{HasWalked, HasStarted};
ghost use Rattle.tree_scan.specs.Scanning.{AreLevels, KeepsComing, IsBarred, BreaksDown, BreaksStart, FailsStart};
ghost use Rattle.tree_scan.specs.Seeking.{KeepsSought, StartsAt};
ghost use Rattle.tree_scan.specs.declared.level.Level.{Level};

use crate::bounds::{Bounds, is_of_table};
use crate::buffers::Buffers;
use crate::level::{Level, is_spent};
use crate::seek::first_place;
use page_face::{FetchFault, Pages};
use page_form::is_leaf;
use std::alloc::AllocError;
use tree_read::{child_before, is_outside, read_node, usable_of};

// Goes up past the levels of which nothing is left.
pub(crate) fn go_up(levels: &mut Vec<Level>, spare: &mut Buffers)
    ensures passed { (passed : List Level) × ((levels.old.items ≡ levels.new.items ++ passed) × Each IsSpent passed) }
    ensures left { (above : List Level) (top : Level) → levels.new.items ≡ above ++ top ∷ [] → IsSpent top → ⊥ }
{
    'ups: while top_spent(levels) {
        drop_top(levels, spare);
    }
}

// Whether there is a last level and nothing is left of it.
fn top_spent(levels: &Vec<Level>) -> bool
    ensures spent { result ≡ true → (above : List Level) × ((top : Level) × ((levels.now.items ≡ above ++ top ∷ []) × IsSpent top)) }
    ensures some { result ≡ false → (above : List Level) (top : Level) → levels.now.items ≡ above ++ top ∷ [] → IsSpent top → ⊥ }
{
    let count = levels.len();
    if count == 0 {
        return false;
    }
    is_spent(&levels[count - 1])
}

// Drops the last level and keeps its buffer.
fn drop_top(levels: &mut Vec<Level>, spare: &mut Buffers)
    ensures { (above : List Level) (top : Level) → levels.old.items ≡ above ++ top ∷ [] → levels.new.items ≡ above }
{
    let Some(top) = levels.pop() else {
        return;
    };
    spare.keep(top.bytes);
}

// Adds a level below the last one, which goes on to what is behind its child.
pub(crate) fn attach(levels: &mut Vec<Level>, level: Level, table: bool) -> Result<(), FetchFault>
    requires { (above : List Level) × ((top : Level) × ((levels.old.items ≡ above ++ top ∷ []) × (top.place < 9223372036854775808))) }
    ensures ok { OnOk result ((above : List Level) (top : Level) → levels.old.items ≡ above ++ top ∷ []
        → levels.new.items ≡ above ++ gone_below table top ∷ level ∷ []) }
    ensures cause { IfErr result (λ why. why ≡ fault.Memory) }
    ensures kept { OnErr result (levels.new.items ≡ levels.old.items) }
{
    match levels.push(level) {
        Ok(()) => (),
        Err(_) => return Err(FetchFault::Memory),
    }
    let at = levels.len() - 2;
    go_below(&mut levels[at], table);
    Ok(())
}

// A level goes on to what is behind its child: in an index that is the cell there, in a table the next child.
fn go_below(level: &mut Level, table: bool)
    requires { level.old.place < 9223372036854775808 }
    ensures { level.new ≡ gone_below table level.old }
{
    if table {
        level.place += 1;
        return;
    }
    level.at_cell = true;
}

// The last level goes on past its cell.
pub(crate) fn step_on(levels: &mut Vec<Level>)
    requires { (above : List Level) × ((top : Level) × ((levels.old.items ≡ above ++ top ∷ []) × (top.place < 9223372036854775808))) }
    ensures { (above : List Level) (top : Level) → levels.old.items ≡ above ++ top ∷ [] → levels.new.items ≡ above ++ gone_past top ∷ [] }
{
    let at = levels.len() - 1;
    go_past(&mut levels[at]);
}

// A level goes on past its cell.
fn go_past(level: &mut Level)
    requires { level.old.place < 9223372036854775808 }
    ensures { level.new ≡ gone_past level.old }
{
    level.place += 1;
    level.at_cell = is_leaf(level.node.kind);
}

// Goes down along the children that come next to where a cell comes next. It is there then; where the low bound is sought it is that of its place.
pub(crate) fn go_down<P: Pages>(
    pages: &mut P,
    levels: &mut Vec<Level>,
    spare: &mut Buffers,
    bounds: &Bounds,
    seek: bool,
) -> Result<(), FetchFault>
    requires ready { P.ready pages.old }
    requires levels { AreLevels (of_table bounds.now) P.PagesTells pages.old levels.old.items }
    requires left { (above : List Level) (top : Level) → levels.old.items ≡ above ++ top ∷ [] → top.at_cell ≡ false → IsSpent top → ⊥ }
    ensures levels { AreLevels (of_table bounds.now) P.PagesTells pages.new levels.new.items }
    ensures coming { seek ≡ false → KeepsComing (of_table bounds.now) P.PagesTells pages.old levels.old.items levels.new.items pages.new }
    ensures sought { seek ≡ true → KeepsSought P.PagesTells pages.old bounds.now levels.old.items levels.new.items pages.new }
    ensures left { seek ≡ false → ((above : List Level) (top : Level) → levels.old.items ≡ above ++ top ∷ [] → IsSpent top → ⊥)
        → (above : List Level) (top : Level) → levels.new.items ≡ above ++ top ∷ [] → IsSpent top → ⊥ }
    ensures walked { HasWalked seek bounds.now P.PagesTells pages.old levels.old.items levels.new.items result pages.new }
    ensures cell { OnOk result ((above : List Level) (top : Level) → levels.new.items ≡ above ++ top ∷ [] → top.at_cell ≡ true) }
    ensures barred { IfErr result (IsBarred P.PagesTells pages.old pages.new
        (λ shown. BreaksDown (P.usable pages.old) (P.last_page pages.old) shown seek bounds.now levels.new.items)) }
    ensures reading { ReadsAtMost P.PagesTells pages.old pages.new }
{
    'downs: loop {
        if is_at_cell(levels) {
            return Ok(());
        }
        match enter(pages, levels, spare, bounds, seek) {
            Ok(()) => (),
            Err(why) => return Err(why),
        }
    }
}

// Whether there is no level, or a cell of the last comes next.
fn is_at_cell(levels: &Vec<Level>) -> bool
    ensures cell { result ≡ true → (above : List Level) (top : Level) → levels.now.items ≡ above ++ top ∷ [] → top.at_cell ≡ true }
    ensures child { result ≡ false → (above : List Level) × ((top : Level) × ((levels.now.items ≡ above ++ top ∷ []) × (top.at_cell ≡ false))) }
{
    let count = levels.len();
    if count == 0 {
        return true;
    }
    levels[count - 1].at_cell
}

// Goes down to the child that comes next.
fn enter<P: Pages>(
    pages: &mut P,
    levels: &mut Vec<Level>,
    spare: &mut Buffers,
    bounds: &Bounds,
    seek: bool,
) -> Result<(), FetchFault>
    requires ready { P.ready pages.old }
    requires levels { AreLevels (of_table bounds.now) P.PagesTells pages.old levels.old.items }
    requires inner { (above : List Level) × ((top : Level) × ((levels.old.items ≡ above ++ top ∷ []) × ((top.at_cell ≡ false) × (IsSpent top → ⊥)))) }
    ensures levels { AreLevels (of_table bounds.now) P.PagesTells pages.new levels.new.items }
    ensures coming { seek ≡ false → KeepsComing (of_table bounds.now) P.PagesTells pages.old levels.old.items levels.new.items pages.new }
    ensures sought { seek ≡ true → KeepsSought P.PagesTells pages.old bounds.now levels.old.items levels.new.items pages.new }
    ensures left { OnOk result (seek ≡ false → (above : List Level) (top : Level) → levels.new.items ≡ above ++ top ∷ [] → IsSpent top → ⊥) }
    ensures inner { OnOk result ((above : List Level) (top : Level) → levels.new.items ≡ above ++ top ∷ [] → top.at_cell ≡ false → IsSpent top → ⊥) }
    ensures more { OnOk result (length levels.new.items ≡ suc (length levels.old.items)) }
    ensures kept { OnErr result (levels.new.items ≡ levels.old.items) }
    ensures walked { HasWalked seek bounds.now P.PagesTells pages.old levels.old.items levels.new.items result pages.new }
    ensures barred { IfErr result (IsBarred P.PagesTells pages.old pages.new
        (λ shown. BreaksDown (P.usable pages.old) (P.last_page pages.old) shown seek bounds.now levels.old.items)) }
    ensures reading { ReadsAtMost P.PagesTells pages.old pages.new }
{
    let usable = usable_of(pages);
    let depth = levels.len();
    let top = &levels[depth - 1];
    let child = child_before(&top.node, top.bytes.as_slice(), usable, top.place);
    if is_outside(child, pages.last()) {
        return Err(FetchFault::Corrupt { page: top.page });
    }
    let level = match read_level(pages, child, depth as u32, spare, bounds, seek) {
        Ok(level) => level,
        Err(why) => return Err(why),
    };
    match attach(levels, level, is_of_table(bounds)) {
        Ok(()) => Ok(()),
        Err(why) => Err(why),
    }
}

// Reads the page that stands so many levels below the root, and stands at the low bound's place if it is sought, else before all that is under it.
pub(crate) fn read_level<P: Pages>(
    pages: &mut P,
    page: u32,
    depth: u32,
    spare: &mut Buffers,
    bounds: &Bounds,
    seek: bool,
) -> Result<Level, FetchFault>
    requires ready { P.ready pages.old }
    requires page { (1 ≤ page) × (page ≤ P.last_page pages.old) }
    ensures level { IfOk result (λ level. HasLevel P.PagesTells pages.old seek bounds.now page depth level pages.new) }
    ensures barred { IfErr result (λ why. BarsLevel P.PagesTells pages.old seek bounds.now page depth why pages.new) }
    ensures reading { ReadsAtMost P.PagesTells pages.old pages.new }
{
    let mut bytes = match spare.take(pages.page_size()) {
        Ok(bytes) => bytes,
        Err(why) => return Err(why),
    };
    let table = is_of_table(bounds);
    let node = match read_node(spare.alloc, pages, table, page, depth, bytes.as_mut_slice()) {
        Ok(node) => node,
        Err(why) => return Err(why),
    };
    let at_cell = is_leaf(node.kind);
    let mut level = Level {
        page,
        node,
        bytes,
        place: 0,
        at_cell,
    };
    match first_place(pages, &level, spare, bounds, seek) {
        Ok(place) => {
            level.place = place;
            Ok(level)
        }
        Err(why) => Err(why),
    }
}

// Reads the root, and goes down to the place of the low bound, or to the first cell.
pub(crate) fn first_path<P: Pages>(
    pages: &mut P,
    root: u32,
    levels: &mut Vec<Level>,
    spare: &mut Buffers,
    bounds: &Bounds,
) -> Result<(), FetchFault>
    requires ready { P.ready pages.old }
    requires root { (1 ≤ root) × (root ≤ P.last_page pages.old) }
    requires none { levels.old.items ≡ [] }
    ensures levels { AreLevels (of_table bounds.now) P.PagesTells pages.new levels.new.items }
    ensures starts { OnOk result (StartsAt P.PagesTells pages.old bounds.now root levels.new.items pages.new) }
    ensures started { HasStarted bounds.now P.PagesTells pages.old root levels.new.items result pages.new }
    ensures barred { IfErr result (IsBarred P.PagesTells pages.old pages.new
        (λ shown. BreaksStart (P.usable pages.old) (P.last_page pages.old) shown bounds.now root levels.new.items)) }
    ensures sound { IfErr result (λ why. FailsStart P.PagesTells pages.old bounds.now root why pages.new) }
    ensures reading { ReadsAtMost P.PagesTells pages.old pages.new }
{
    let level = match read_level(pages, root, 0, spare, bounds, true) {
        Ok(level) => level,
        Err(why) => return Err(why),
    };
    match levels.push(level) {
        Ok(()) => (),
        Err(_) => return Err(FetchFault::Memory),
    }
    match go_down(pages, levels, spare, bounds, true) {
        Ok(()) => Ok(()),
        Err(why) => Err(why),
    }
}
