// A view of an engine in memory to which others commit inside the owner's calls. What is expected is worked by hand from the faces.
ghost use Rattle.std.specs.Prelude.{◌≡◌, ◌≤◌, ◌∷◌, [], length, All, IfOk};
ghost use Rattle.engine_spec.specs.State.{EngineState};
ghost use Rattle.page_face.specs.Prepared.{IsFit};
ghost use Rattle.witnesses.specs.Shared.{SharedLive};

use disk_face::{Bytes, Failed};
use engine_spec::PageImage;
use memory_engine::Plain;
use page_face::{
    Ckpt, CommitFault, Engine, Logs, Means, Mode, Pin, Prepared, ReadSet, Receipt, Who,
};
use sqlite_items::Items;
use std::alloc::{AllocError, Global};
use std::marker::{Model, PhantomData};
use witnesses::Shared;

/// Statements of which nothing is asked: each map is sound, and they lead from each map to each.
struct AnyStatements;

impl Means for AnyStatements {
    ghost sound = { λ first pages. Unit {0} };

    ghost leads = { λ first before said after. Unit {0} };

    ghost rests = { λ first pages sound. tt };

    ghost joins = { λ first before between after some others one two. tt };
}

/// A view without a pin.
#[derive(Drop)]
struct Free {
    shared: Shared<AnyStatements>,
}

impl Model for Free {
    ghost Value = { Unit {0} };

    ghost view = { λ free. tt };

    ghost invariant = { λ free. SharedLive free.shared [] };
}

/// A view with one pin.
#[derive(Drop)]
struct Held {
    shared: Shared<AnyStatements>,
    pin: Pin,
}

impl Model for Held {
    ghost Value = { Unit {0} };

    ghost view = { λ held. tt };

    ghost invariant = { λ held. SharedLive held.shared (held.pin ∷ []) };
}

/// Pages 1 to 3 of 512 bytes each, which 0, 22 and 33 fill.
fn base(alloc: Global) -> Result<Vec<Bytes>, AllocError>
    ensures count { IfOk result (λ pages. length pages.items ≡ 3) }
    ensures whole { IfOk result (λ pages. All (λ page. length page ≡ 512) pages.items) }
{
    let mut pages = Vec::new(alloc);
    pages.push(Bytes::of(alloc, &[0; 512])?)?;
    pages.push(Bytes::of(alloc, &[22; 512])?)?;
    pages.push(Bytes::of(alloc, &[33; 512])?)?;
    Ok(pages)
}

/// A new view over these pages.
fn new_view(alloc: Global) -> Result<Free, AllocError> {
    let pages = base(alloc)?;
    let plain = Plain::new(alloc, pages)?;
    Ok(Free {
        shared: Shared::new(alloc, plain),
    })
}

/// A transaction of a pin that read one page and fills another.
fn prepared(
    alloc: Global,
    pin: Pin,
    read: u32,
    page: u32,
    byte: u8,
) -> Result<Prepared<AnyStatements>, AllocError>
    requires { (1 ≤ page) × (page ≤ pin.size) }
    ensures { IfOk result (λ prepared. (state : EngineState) → state.page_size ≡ 512 → IsFit state pin prepared) }
{
    let mut reads = ReadSet::new(alloc);
    reads.add(read)?;
    let bytes = Bytes::of(alloc, &[byte; 512])?;
    let mut changed = Items::new(alloc);
    changed.push(PageImage { page, bytes })?;
    Ok(Prepared {
        mode: Mode::Concurrent,
        snap: pin.n,
        base: pin.size,
        reads,
        changed,
        fresh: Items::new(alloc),
        freed: Items::new(alloc),
        tail: false,
        wrote: true,
        said: Items::new(alloc),
        of: PhantomData,
    })
}

/// Whether a transaction is as it was made.
fn is_as_made(handed: &Prepared<AnyStatements>, read: u32, page: u32, byte: u8) -> bool {
    handed.wrote
        && handed.reads.pages() == [read].as_slice()
        && handed.changed.len() == 1
        && handed.changed.as_slice()[0].page == page
        && is_filled(handed.changed.as_slice()[0].bytes.bytes(), byte)
}

fn is_filled(bytes: &[u8], byte: u8) -> bool {
    bytes.iter().all(|one| *one == byte)
}

impl Free {
    /// Begins; nothing where the view bars it.
    fn begin(self) -> Option<Held> {
        let mut shared = self.shared;
        if shared.is_barred() {
            return None;
        }
        let pin = shared.begin();
        Some(Held { shared, pin })
    }
}

impl Held {
    /// The byte that fills a page of the pin's map; none where the map has no such page, or no one byte fills it.
    fn read(&mut self, page: u32) -> Option<u8> {
        if page < 1 || page > self.pin.size || self.shared.page_size() != 512 {
            return None;
        }
        let mut bytes = [0; 512];
        match self.shared.fetch(&self.pin, page, &mut bytes) {
            Ok(()) if is_filled(&bytes, bytes[0]) => Some(bytes[0]),
            _ => None,
        }
    }

    /// Commits a transaction that read one page and fills another. None where the map has no such page, where there is no memory, or where a refusal
    /// doesn't hand the transaction back as it was.
    fn commit(
        &mut self,
        alloc: Global,
        read: u32,
        page: u32,
        byte: u8,
    ) -> Option<Result<Receipt, CommitFault>> {
        if page < 1 || page > self.pin.size || self.shared.page_size() != 512 {
            return None;
        }
        let Ok(made) = prepared(alloc, self.pin, read, page, byte) else {
            return None;
        };
        let who = Who {
            session: 1,
            ordinal: 1,
        };
        match self.shared.commit(&self.pin, made, who) {
            Ok(receipt) => Some(Ok(receipt)),
            Err((fault, handed)) if is_as_made(&handed, read, page, byte) => Some(Err(fault)),
            Err(_) => None,
        }
    }

    /// Hands such a transaction of the same snapshot over to others, and keeps the pin. False where the map has no such page, or there is no memory.
    fn hand_over(&mut self, alloc: Global, read: u32, page: u32, byte: u8) -> bool {
        if page < 1 || page > self.pin.size || self.shared.page_size() != 512 {
            return false;
        }
        let Ok(made) = prepared(alloc, self.pin, read, page, byte) else {
            return false;
        };
        let who = Who {
            session: 2,
            ordinal: 1,
        };
        self.shared.hand_over(self.pin, made, who);
        true
    }

    fn step(&mut self) -> Result<Ckpt, Failed> {
        self.shared.ckpt()
    }

    fn logs(&mut self) -> Logs {
        self.shared.logs()
    }

    /// Gives the pin back.
    fn end(self) -> Free {
        let mut shared = self.shared;
        shared.end(self.pin);
        Free { shared }
    }
}

/// Whether the pin is of this map, and has three pages, of which these bytes fill pages 2 and 3.
fn shows(held: &mut Held, n: u64, second: u8, third: u8) -> bool {
    held.pin.n == n
        && held.pin.size == 3
        && held.read(2) == Some(second)
        && held.read(3) == Some(third)
}

/// Whether the transaction that begins next, once this one is over, is of this map with these pages.
fn shows_next(held: Held, n: u64, second: u8, third: u8) -> bool {
    match held.end().begin() {
        Some(mut next) => shows(&mut next, n, second, third),
        None => false,
    }
}

/// A transaction that has just begun on a new view.
fn begun(alloc: Global) -> Option<Held> {
    match new_view(alloc) {
        Ok(view) => view.begin(),
        Err(_) => None,
    }
}

fn begins_at_its_base(alloc: Global) -> bool {
    match begun(alloc) {
        Some(mut held) => {
            held.read(1) == Some(0) && shows(&mut held, 0, 22, 33) && has_nothing_to_copy(&mut held)
        }
        None => false,
    }
}

fn has_nothing_to_copy(held: &mut Held) -> bool {
    let logs = Logs {
        current: 1,
        frames: 0,
        done: true,
    };
    held.shared.usable() == 512 && held.step() == Ok(Ckpt::Idle) && held.logs() == logs
}

#[test]
fn a_new_view_begins_at_its_base(rt: HostRuntime) {
    assert!(rt; begins_at_its_base(rt.alloc()));
}

/// Others fill page 2 while the pin holds.
fn keeps_its_map(alloc: Global) -> bool {
    match begun(alloc) {
        Some(mut held) => {
            held.hand_over(alloc, 3, 2, 7)
                && shows(&mut held, 0, 22, 33)
                && shows_next(held, 1, 7, 33)
        }
        None => false,
    }
}

#[test]
fn a_pin_keeps_its_map_while_others_commit(rt: HostRuntime) {
    assert!(rt; keeps_its_map(rt.alloc()));
}

/// It is barred once a transaction began, until it ends, and, in the next one, until it is handed over.
fn is_barred_until_the_end(alloc: Global) -> bool {
    match begun(alloc) {
        Some(held) => is_barred_now(&held) && is_barred_again(alloc, held.end()),
        None => false,
    }
}

fn is_barred_now(held: &Held) -> bool {
    held.shared.is_barred()
}

fn is_barred_again(alloc: Global, view: Free) -> bool {
    !view.shared.is_barred()
        && match view.begin() {
            Some(mut held) => is_barred_until_handed_over(alloc, &mut held),
            None => false,
        }
}

fn is_barred_until_handed_over(alloc: Global, held: &mut Held) -> bool {
    held.read(2) == Some(22)
        && held.shared.is_barred()
        && held.hand_over(alloc, 3, 2, 7)
        && !held.shared.is_barred()
}

#[test]
fn beginning_is_barred_until_a_transaction_is_over(rt: HostRuntime) {
    assert!(rt; is_barred_until_the_end(rt.alloc()));
}

const BUSY: CommitFault = CommitFault::BusySnapshot { page: 2, commit: 1 };

/// Others fill page 2, which the owner's transaction read. It is told so, and nothing of it is seen.
fn refuses_what_was_read(alloc: Global) -> bool {
    match begun(alloc) {
        Some(mut held) => {
            held.hand_over(alloc, 3, 2, 7)
                && held.commit(alloc, 2, 3, 9) == Some(Err(BUSY))
                && shows(&mut held, 0, 22, 33)
                && shows_next(held, 1, 7, 33)
        }
        None => false,
    }
}

/// One that read page 3 alone becomes the commit behind it.
fn takes_what_was_not(alloc: Global) -> bool {
    match begun(alloc) {
        Some(mut held) => {
            held.hand_over(alloc, 3, 2, 7)
                && held.commit(alloc, 3, 3, 9) == Some(Ok(Receipt::At(2)))
                && shows(&mut held, 0, 22, 33)
                && shows_next(held, 2, 7, 9)
        }
        None => false,
    }
}

#[test]
fn a_page_that_others_wrote_since_it_was_read_is_told(rt: HostRuntime) {
    assert!(rt; refuses_what_was_read(rt.alloc()) && takes_what_was_not(rt.alloc()));
}

/// Pages 0 and 4 and the greatest number are none of the map's: they can't be asked for, committed or handed over.
fn has_three_pages(alloc: Global) -> bool {
    match begun(alloc) {
        Some(mut held) => [0, 4, u32::MAX]
            .iter()
            .all(|page| has_no_page(alloc, &mut held, *page)),
        None => false,
    }
}

fn has_no_page(alloc: Global, held: &mut Held, page: u32) -> bool {
    held.read(page).is_none()
        && held.commit(alloc, 2, page, 9).is_none()
        && !held.hand_over(alloc, 2, page, 9)
        && shows(held, 0, 22, 33)
}

#[test]
fn only_pages_of_the_base_are_there(rt: HostRuntime) {
    assert!(rt; has_three_pages(rt.alloc()));
}
