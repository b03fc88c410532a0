// A page more for a transaction: out of the freelist, or numbered behind the last one.
//
// Page 1 has the number of the first trunk at 32 and the count of free pages at 36. A plain transaction that takes a page puts its own copy
// of page 1 first, then takes the page, and last sets both fields in that copy, for which no memory is needed any more: so after each error all
// pages are as before. That isn't a change of page 1 from byte 100 on.
ghost use Rattle.std.specs.Prelude.{◌≡◌, ℕ, ◌+◌, ◌*◌, ◌^◌, ◌<◌, ◌≤◌, true, false, length, OnOk, IfErr};
ghost use Rattle.page_spec.specs.Bytes.{u32_at};
ghost use Rattle.page_spec.specs.Header.{database_limit};
ghost use Rattle.page_spec.specs.View.{View};
ghost use Rattle.page_face.specs.PageCalls.{HasMade};
ghost use Rattle.page_face.specs.Pages.{IsFromOutside};
ghost use Rattle.engine_spec.specs.declared.commits.FetchFault.TheVariants as fault;
ghost use Rattle.engine_spec.specs.declared.commits.Mode.TheVariants as mode;
ghost use Rattle.overlay.specs.Overlay.{over_change, first_in_overlay};
ghost use Rattle.overlay.specs.FreeNumbers.{greatest_page, count_field, SparesOver};
ghost use Rattle.overlay.specs.Live.{MayBeRead, IsOfPin};
ghost use Rattle.overlay.specs.Making.{ReadiesPages};
ghost use Rattle.overlay.specs.Named.{IsNamedIn};

use crate::live::Live;
use crate::own::OwnPages;
use crate::taking::take_own;
use be_fields::get_u32;
use freelist::Free;
use page_face::{Engine, FetchFault, Means, Mode, Pages, PagesTells};

/// Where page 1 has the number of the first trunk of the freelist.
pub(crate) const TRUNK: usize = 32;

/// Where page 1 has the count of free pages.
pub(crate) const COUNT: usize = 36;

/// Gives a page out: of a plain transaction's freelist where that has one, else behind the last page.
pub(crate) fn make_page<'a, 'b, 'c, M: Means, E: Engine<M>>(
    live: &mut Live<'a, 'b, 'c, M, E>,
) -> Result<u32, FetchFault>
    requires { IsOfPin E.EngineTells live.old.engine.now live.old.pin.now live.old.overlay.now }
    ensures { HasMade ⟦<Live<'a, 'b, 'c, M, E> as PagesTells>⟧ live.old result live.new }
{
    match live.overlay.mode() {
        Mode::Plain => make_plain(live),
        Mode::Concurrent => add_last(live),
    }
}

// Gives a page out of the freelist that page 1 names, or behind the last page where that has none.
fn make_plain<'a, 'b, 'c, M: Means, E: Engine<M>>(
    live: &mut Live<'a, 'b, 'c, M, E>,
) -> Result<u32, FetchFault>
    requires ready { IsOfPin E.EngineTells live.old.engine.now live.old.pin.now live.old.overlay.now }
    requires plain { live.old.overlay.now.change.mode ≡ mode.Plain }
    ensures { HasMade ⟦<Live<'a, 'b, 'c, M, E> as PagesTells>⟧ live.old result live.new }
{
    let mut first = match live.overlay.buffer(live.engine.page_size()) {
        Ok(first) => first,
        Err(_) => return Err(FetchFault::Memory),
    };
    match read_first(live, &mut first) {
        Ok(()) => (),
        Err(why) => return Err(why),
    }
    if get_u32(&first, COUNT) == 0 {
        return add_last(live);
    }
    take_page(live, first)
}

// Fills the buffer with page 1, which a plain transaction has read.
fn read_first<'a, 'b, 'c, M: Means, E: Engine<M>>(
    live: &mut Live<'a, 'b, 'c, M, E>,
    first: &mut [u8],
) -> Result<(), FetchFault>
    requires ready { IsOfPin E.EngineTells live.old.engine.now live.old.pin.now live.old.overlay.now }
    requires plain { live.old.overlay.now.change.mode ≡ mode.Plain }
    requires room { length first.old ≡ (E.state live.old.engine.now).page_size }
    ensures ready { ReadiesPages ⟦<Live<'a, 'b, 'c, M, E> as PagesTells>⟧ live.old live.new }
    ensures plain { live.new.overlay.now.change.mode ≡ mode.Plain }
    ensures shows { OnOk result ((world : View) → MayBeRead (E.map_at live.new.engine.now live.new.pin.now) live.new.overlay.now.reads world
        → first.new ≡ over_change live.new.overlay.now.change world 1) }
    ensures cause { IfErr result (λ why. IsFromOutside (E.state live.old.engine.now).faults (E.state live.new.engine.now).faults why) }
    ensures room { length first.new ≡ length first.old }
{
    let _last = live.overlay.last();
    match live.fetch(1, first) {
        Ok(()) => Ok(()),
        Err(why) => Err(why),
    }
}

// Takes a page of the freelist that page 1 names, whose bytes are handed in; it has a page.
fn take_page<'a, 'b, 'c, M: Means, E: Engine<M>>(
    live: &mut Live<'a, 'b, 'c, M, E>,
    first: Vec<u8>,
) -> Result<u32, FetchFault>
    requires ready { IsOfPin E.EngineTells live.old.engine.now live.old.pin.now live.old.overlay.now }
    requires plain { live.old.overlay.now.change.mode ≡ mode.Plain }
    requires whole { length first.items ≡ (E.state live.old.engine.now).page_size }
    requires some { 0 < u32_at first.items count_field }
    requires shows { (world : View) → MayBeRead (E.map_at live.old.engine.now live.old.pin.now) live.old.overlay.now.reads world
        → first.items ≡ over_change live.old.overlay.now.change world 1 }
    ensures { HasMade ⟦<Live<'a, 'b, 'c, M, E> as PagesTells>⟧ live.old result live.new }
{
    let free = Free {
        trunk: get_u32(&first, TRUNK),
        count: get_u32(&first, COUNT),
    };
    if is_outside(free.trunk, live.overlay.last()) {
        return Err(FetchFault::Corrupt { page: 1 });
    }
    match put_first(live, &first) {
        Ok(()) => (),
        Err(why) => return Err(why),
    }
    take_named(live, first, free)
}

// Whether a number isn't that of a page from 2 to the last one.
fn is_outside(number: u32, last: u32) -> bool
    ensures outside { result ≡ true → (2 ≤ number) × (number ≤ last) → ⊥ }
    ensures inside { result ≡ false → (2 ≤ number) × (number ≤ last) }
{
    number < 2 || number > last
}

// Puts page 1's own copy as it is.
fn put_first<'a, 'b, 'c, M: Means, E: Engine<M>>(
    live: &mut Live<'a, 'b, 'c, M, E>,
    first: &[u8],
) -> Result<(), FetchFault>
    requires ready { IsOfPin E.EngineTells live.old.engine.now live.old.pin.now live.old.overlay.now }
    requires plain { live.old.overlay.now.change.mode ≡ mode.Plain }
    requires whole { length first.now ≡ (E.state live.old.engine.now).page_size }
    requires some { 0 < u32_at first.now count_field }
    requires shows { (world : View) → MayBeRead (E.map_at live.old.engine.now live.old.pin.now) live.old.overlay.now.reads world
        → first.now ≡ over_change live.old.overlay.now.change world 1 }
    ensures ready { ReadiesPages ⟦<Live<'a, 'b, 'c, M, E> as PagesTells>⟧ live.old live.new }
    ensures put { OnOk result (live.new.overlay.now ≡ first_in_overlay live.old.overlay.now first.now) }
    ensures cause { IfErr result (λ why. why ≡ fault.Memory) }
    ensures engine { live.new.engine.now ≡ live.old.engine.now }
    ensures pin { live.new.pin.now ≡ live.old.pin.now }
    ensures base { 1 ≤ live.old.overlay.now.change.base }
{
    match live.overlay.put_first(first) {
        Ok(()) => Ok(()),
        Err(_) => Err(FetchFault::Memory),
    }
}

// Takes a page of the freelist that page 1's own copy names, which was put since the mark.
fn take_named<'a, 'b, 'c, M: Means, E: Engine<M>>(
    live: &mut Live<'a, 'b, 'c, M, E>,
    first: Vec<u8>,
    free: Free,
) -> Result<u32, FetchFault>
    requires ready { IsOfPin E.EngineTells live.old.engine.now live.old.pin.now live.old.overlay.now }
    requires plain { live.old.overlay.now.change.mode ≡ mode.Plain }
    requires named { IsNamedIn live.old.overlay.now first.items free }
    ensures { HasMade ⟦<Live<'a, 'b, 'c, M, E> as PagesTells>⟧ live.old result live.new }
{
    let mut own = OwnPages {
        overlay: live.overlay,
        engine: live.engine,
        pin: live.pin,
    };
    match take_own(&mut own, first, free) {
        Ok(page) => Ok(page),
        Err(why) => Err(why),
    }
}

// Numbers a page behind the last one, where the freelist has no page to spare.
fn add_last<'a, 'b, 'c, M: Means, E: Engine<M>>(
    live: &mut Live<'a, 'b, 'c, M, E>,
) -> Result<u32, FetchFault>
    requires ready { IsOfPin E.EngineTells live.old.engine.now live.old.pin.now live.old.overlay.now }
    requires none { (world : View) → MayBeRead (E.map_at live.old.engine.now live.old.pin.now) live.old.overlay.now.reads world
        → SparesOver live.old.overlay.now.change world → ⊥ }
    ensures { HasMade ⟦<Live<'a, 'b, 'c, M, E> as PagesTells>⟧ live.old result live.new }
{
    let size = live.engine.page_size();
    let pages = u64::from(live.overlay.last()) + 1;
    if is_over(pages, size) {
        return Err(FetchFault::Size { pages });
    }
    match live.overlay.add_page(size) {
        Ok(page) => Ok(page),
        Err(_) => Err(FetchFault::Memory),
    }
}

// The most bytes that a database has.
const MOST_BYTES: u64 = 1 << 30;

// Whether so many pages are more than a database has.
fn is_over(pages: u64, page_size: usize) -> bool
    requires few { pages ≤ 2 ^ 32 }
    requires least { 512 ≤ page_size }
    requires small { page_size ≤ 65536 }
    ensures over { result ≡ true → database_limit < pages * page_size }
    ensures within { result ≡ false → pages * page_size ≤ database_limit }
    ensures few { result ≡ false → pages ≤ greatest_page }
{
    pages * page_size as u64 > MOST_BYTES
}
