// What a transaction keeps of the pages of its snapshot.
//
// The images of changed pages and of new ones and the set of pages that were given up are each kept as they are and as they were at a
// mark (`images`, `freed`): an undo drops what came since, and a keep moves it down into room that was taken when it came.
ghost use Rattle.std.specs.Prelude.{◌≡◌, ◌+◌, ◌^◌, ◌<◌, ◌≤◌, [], true, false, replicate, is_some, IsSome, IfOk, IfSome, OnOk, OnErr, MatchOption, Option};
ghost use Rattle.overlay.specs.Overlay.{first_reads};

use crate::freed::FreedPages;
use crate::images::Images;
use disk_face::{Bytes, Txt};
use page_face::{Mode, Pin, Prepared, ReadSet};
use sqlite_items::Items;
use std::alloc::{AllocError, Global};
use std::marker::{Model, PhantomData};

/// What an overlay was at its mark, beside the layers of its parts.
#[derive(Clone, Copy, Debug)]
pub struct Mark {
    /// How many pages were new.
    pub made: u32,
    /// Whether page 1 had been changed from byte 100 on.
    pub tail: bool,
}

/// A transaction's private cache: which pages of its snapshot it read, and the pages that it changed, made and gave up.
///
/// A statement may be undone: a mark is set before it, and then either all that it changed is taken back, or it is kept. What it read
/// stays read.
#[derive(Drop)]
pub struct Overlay<M> {
    alloc: Global,
    mode: Mode,
    snap: u64,
    base: u32,
    reads: ReadSet,
    changed: Images,
    fresh: Images,
    made: u32,
    freed: FreedPages,
    tail: bool,
    mark: Option<Mark>,
    wrote: bool,
    of: PhantomData<M>,
}

impl<M> Model for Overlay<M> {
    ghost use Rattle.std.specs.Option.{option_map};
    ghost use Rattle.overlay.specs.Overlay.{OverlayState};
    ghost use Rattle.overlay.specs.Parts.{change_now, change_at, AreParts};

    ghost Value = { OverlayState };

    ghost view = { λ o. record {
      snap = o.snap;
      reads = o.reads;
      change = change_now o.mode o.base o.changed o.fresh o.freed o.tail;
      marked = option_map (change_at o.mode o.base o.changed o.fresh o.freed) o.mark;
      since = o.changed.since;
      wrote = o.wrote;
    } };

    ghost invariant = { λ o. AreParts o.mode o.base o.changed o.fresh o.freed o.tail o.mark o.made o.reads };
}

// The pages that a transaction has read from the start. The error is want of memory.
fn reads_of(alloc: Global, mode: Mode) -> Result<ReadSet, AllocError>
    ensures { IfOk result (λ reads. reads ≡ first_reads mode) }
{
    let mut reads = ReadSet::new(alloc);
    match mode {
        Mode::Plain => reads.add(1)?,
        Mode::Concurrent => {}
    }
    Ok(reads)
}

impl<M> Overlay<M> {
    ghost use Rattle.overlay.specs.Overlay.{overlay_begun, no_change, overlay_in, IsOverlayKept};

    /// Begins a transaction on the pin's snapshot: it has changed nothing, and read nothing, but that a plain one has read page 1. The
    /// error is want of memory.
    pub fn new(alloc: Global, pin: &Pin, mode: Mode) -> Result<Overlay<M>, AllocError>
        ensures { IfOk result (λ overlay. overlay ≡ overlay_begun pin.now mode) }
    {
        let reads = reads_of(alloc, mode)?;
        Ok(Overlay::unchanged(alloc, mode, pin.n, pin.size, reads))
    }

    // A transaction that has read these pages, and changed nothing.
    fn unchanged(alloc: Global, mode: Mode, snap: u64, base: u32, reads: ReadSet) -> Overlay<M>
        requires { reads ≡ first_reads mode }
        ensures { result ≡ record { snap = snap; reads = first_reads mode; change = no_change mode base; marked = Option.None; since = []; wrote = false } }
    {
        Overlay {
            alloc,
            mode,
            snap,
            base,
            reads,
            changed: Images::new(alloc),
            fresh: Images::new(alloc),
            made: 0,
            freed: FreedPages::new(alloc),
            tail: false,
            mark: None,
            wrote: false,
            of: PhantomData,
        }
    }

    /// Opens a mark at what is changed now; none is open. The error is want of memory, and leaves the overlay as it was.
    pub fn mark(&mut self) -> Result<(), AllocError>
        requires { self.old.marked ≡ Option.None }
        ensures ok { OnOk result (self.new ≡ record self.old { marked = Option.Some self.old.change; since = [] }) }
        ensures err { OnErr result (self.new ≡ self.old) }
    {
        self.changed.mark();
        self.fresh.mark();
        self.freed.mark();
        self.mark = Some(Mark {
            made: self.made,
            tail: self.tail,
        });
        Ok(())
    }

    /// Takes the changed, new and freed pages back to the open mark, and closes it. What was read stays read. It takes no memory.
    pub fn undo(&mut self)
        requires { IsSome self.old.marked }
        ensures { IfSome self.old.marked (λ change. self.new ≡ record self.old { change = change; marked = Option.None; since = [] }) }
    {
        if let Some(mark) = self.mark {
            self.changed.undo();
            self.fresh.undo();
            self.freed.undo();
            self.made = mark.made;
            self.tail = mark.tail;
            self.mark = None;
        }
    }

    /// Keeps what was changed since the open mark, and closes it. It takes no memory.
    pub fn keep(&mut self)
        requires { IsSome self.old.marked }
        ensures { self.new ≡ record self.old { marked = Option.None; since = [] } }
    {
        self.changed.mark();
        self.fresh.mark();
        self.freed.mark();
        self.mark = None;
    }

    /// Whether an accepted statement changed anything.
    pub fn wrote(&self) -> bool
        ensures { result ≡ self.now.wrote }
    {
        self.wrote
    }

    /// Says whether an accepted statement changed anything.
    pub fn set_wrote(&mut self, wrote: bool)
        ensures { self.new ≡ record self.old { wrote = wrote } }
    {
        self.wrote = wrote;
    }

    /// Makes it ready to be committed, with the texts of its accepted statements. An open mark is forgotten. It takes no memory.
    pub fn freeze(self, said: Items<Txt>) -> Prepared<M>
        ensures overlay { overlay_in result ≡ record self { marked = Option.None; since = [] } }
        ensures said { result.said ≡ said }
        ensures kept { IsOverlayKept (overlay_in result) }
    {
        let Overlay {
            alloc: _,
            mode,
            snap,
            base,
            reads,
            changed,
            fresh,
            made: _,
            freed,
            tail,
            mark: _,
            wrote,
            of,
        } = self;
        Prepared {
            mode,
            snap,
            base,
            reads,
            changed: changed.into_items(),
            fresh: fresh.into_items(),
            freed: freed.into_items(),
            tail,
            wrote,
            said,
            of,
        }
    }

    /// What a transaction was before it was made ready, and the texts of its accepted statements. No mark is open. It takes no memory.
    pub fn thaw(alloc: Global, prepared: Prepared<M>) -> (Overlay<M>, Items<Txt>)
        requires { IsOverlayKept (overlay_in prepared) }
        ensures { result ≡ (overlay_in prepared, prepared.said) }
    {
        let Prepared {
            mode,
            snap,
            base,
            reads,
            changed,
            fresh,
            freed,
            tail,
            wrote,
            said,
            of,
        } = prepared;
        let made = fresh.len() as u32;
        (
            Overlay {
                alloc,
                mode,
                snap,
                base,
                reads,
                changed: Images::of(alloc, changed),
                fresh: Images::of(alloc, fresh),
                made,
                freed: FreedPages::of(alloc, freed),
                tail,
                mark: None,
                wrote,
                of,
            },
            said,
        )
    }
}

impl<M> Overlay<M> {
    ghost use Rattle.engine_spec.specs.PageSet.{with_page};
    ghost use Rattle.engine_spec.specs.Change.{image_of};
    ghost use Rattle.overlay.specs.Overlay.{last_page, own_image, put_in_overlay, first_in_overlay, with_new, with_freed_page, IsOverlayKept};

    /// Where it takes its memory from.
    pub fn alloc(&self) -> Global {
        self.alloc
    }

    /// How the transaction was begun.
    pub fn mode(&self) -> Mode
        ensures value { result ≡ self.now.change.mode }
        ensures kept { IsOverlayKept self.now }
    {
        self.mode
    }

    /// The number of the last page: those of the snapshot come first, and then the new ones.
    pub fn last(&self) -> u32
        ensures value { result ≡ last_page self.now.change }
        ensures kept { IsOverlayKept self.now }
    {
        self.base + self.made
    }

    /// The bytes of a page that was changed or made.
    pub fn own(&self, page: u32) -> Option<&[u8]>
        ensures bytes { MatchOption result (own_image self.now.change page ≡ Option.None) (λ bytes. own_image self.now.change page ≡ Option.Some bytes.now) }
        ensures kept { IsOverlayKept self.now }
    {
        if page > self.base {
            self.fresh.find(page)
        } else {
            self.changed.find(page)
        }
    }

    /// Notes that a page of the snapshot was read. The error is want of memory, and leaves the overlay as it was.
    pub fn note(&mut self, page: u32) -> Result<(), AllocError>
        ensures ok { OnOk result (self.new ≡ record self.old { reads = with_page self.old.reads page }) }
        ensures err { OnErr result (self.new ≡ self.old) }
    {
        self.reads.add(page)
    }

    /// Puts bytes in the place of a page. The error is want of memory, and leaves the overlay as it was.
    pub fn put(&mut self, page: u32, bytes: &[u8]) -> Result<(), AllocError>
        requires { (1 ≤ page) × (page ≤ last_page self.old.change) }
        ensures ok { OnOk result (self.new ≡ put_in_overlay self.old page bytes.now) }
        ensures err { OnErr result (self.new ≡ self.old) }
        ensures last { last_page self.new.change ≡ last_page self.old.change }
    {
        let copy = Bytes::of(self.alloc, bytes)?;
        if page > self.base {
            return self.fresh.put(page, copy);
        }
        self.changed.put(page, copy)?;
        self.tail = self.tail || page == 1;
        Ok(())
    }

    /// Puts page 1 as it is but for its freelist fields. The error is want of memory, and leaves the overlay as it was.
    pub fn put_first(&mut self, bytes: &[u8]) -> Result<(), AllocError>
        requires { 1 ≤ self.old.change.base }
        ensures ok { OnOk result (self.new ≡ first_in_overlay self.old bytes.now) }
        ensures err { OnErr result (self.new ≡ self.old) }
    {
        let copy = Bytes::of(self.alloc, bytes)?;
        self.changed.put(1, copy)
    }

    /// Puts page 1 again, which was put since the mark, as it is but for its freelist fields. It takes no memory.
    pub fn replace_first(&mut self, bytes: Bytes)
        requires base { 1 ≤ self.old.change.base }
        requires there { is_some (image_of self.old.since 1) ≡ true }
        ensures { self.new ≡ first_in_overlay self.old bytes }
    {
        self.changed.replace(1, bytes);
    }

    /// A buffer of so many zero bytes.
    pub fn buffer(&self, size: usize) -> Result<Vec<u8>, AllocError>
        ensures { IfOk result (λ bytes. bytes.items ≡ replicate size 0) }
    {
        vec![in self.alloc; 0; size]
    }

    /// Numbers a new page of so many zero bytes, behind the last one. The error is want of memory, and leaves the overlay as it was.
    pub fn add_page(&mut self, size: usize) -> Result<u32, AllocError>
        requires { last_page self.old.change + 1 < 2 ^ 32 }
        ensures page { IfOk result (λ page. page ≡ last_page self.old.change + 1) }
        ensures last { IfOk result (λ page. last_page self.new.change ≡ page) }
        ensures ok { OnOk result (self.new ≡ record self.old { change = with_new self.old.change size }) }
        ensures err { OnErr result (self.new ≡ self.old) }
    {
        let page = self.last() + 1;
        let zeros = zeros(self.alloc, size)?;
        self.fresh.put(page, zeros)?;
        self.made += 1;
        Ok(page)
    }

    /// Notes that a page was given up. The error is want of memory, and leaves the overlay as it was.
    pub fn give_up(&mut self, page: u32) -> Result<(), AllocError>
        requires { (2 ≤ page) × (page ≤ last_page self.old.change) }
        ensures ok { OnOk result (self.new ≡ record self.old { change = with_freed_page self.old.change page }) }
        ensures err { OnErr result (self.new ≡ self.old) }
    {
        self.freed.add(page)
    }
}

// So many zero bytes. The error is want of memory.
fn zeros(alloc: Global, size: usize) -> Result<Bytes, AllocError>
    ensures { IfOk result (λ bytes. bytes ≡ replicate size 0) }
{
    let bytes = vec![in alloc; 0; size]?;
    Ok(Bytes::from_vec(bytes))
}
