// The pages of a transaction over its snapshot.
ghost use Rattle.std.specs.Prelude.{◌≡◌, ◌∷◌};

use crate::making::make_page;
use crate::overlay::Overlay;
use crate::own::fetch_own;
use page_face::{EditPages, Engine, FetchFault, Means, Pages, PagesTells, Pin, PutPages};

/// A transaction's pages over its snapshot in an engine. It is made in place from its fields, and needs a pin that holds, of the overlay's
/// snapshot.
///
/// A page that the transaction changed or made is given as it has it. Another one is fetched from the snapshot, and only then it joins
/// the pages that were read: a page that is put without a fetch isn't read. A plain transaction takes a page of the freelist for a new one,
/// as long as there is one; a concurrent one never does. Else new pages are numbered behind the last one. A page that is given up isn't
/// given out again in the same transaction: it joins the freelist at COMMIT.
#[derive(Drop)]
pub struct Live<'a, 'b, 'c, M, E> {
    /// What the transaction read and changed.
    pub overlay: &'a mut Overlay<M>,
    /// The engine that has its snapshot.
    pub engine: &'b mut E,
    /// The pin of its snapshot.
    pub pin: &'c Pin,
}

impl<'a, 'b, 'c, M: Means, E: Engine<M>> PagesTells for Live<'a, 'b, 'c, M, E> {
    ghost use Rattle.std.proofs.Common.{refl, ◌∙◌};
    ghost use Rattle.overlay.specs.Overlay.{last_page, has_own_image, over_change};
    ghost use Rattle.overlay.specs.Live.{MayBeRead, IsOfPin};
    ghost use Rattle.overlay.specs.FreeNumbers.{IsFreeOver, IsNeatOver, SparesOver};
    ghost use Rattle.overlay.specs.Behind.{WasRead, IsStill};
    ghost use Rattle.overlay.specs.BehindLaws.{was_read_itself, was_read_on, still_itself, still_on};

    ghost tells = { λ live world. MayBeRead (E.map_at live.engine.now live.pin.now) live.overlay.now.reads world };

    ghost over = { λ live world. over_change live.overlay.now.change world };

    ghost free = { λ live world number. IsFreeOver (E.state live.engine.now).usable live.overlay.now.change world number };

    ghost neat = { λ live world. IsNeatOver (E.state live.engine.now).usable live.overlay.now.change world };

    ghost spare = { λ live world. SparesOver live.overlay.now.change world };

    ghost ready = { λ live. IsOfPin E.EngineTells live.engine.now live.pin.now live.overlay.now };

    ghost page_size = { λ live. (E.state live.engine.now).page_size };

    ghost usable = { λ live. (E.state live.engine.now).usable };

    ghost last_page = { λ live. last_page live.overlay.now.change };

    ghost has = { λ live number. has_own_image live.overlay.now.change number };

    ghost reads = { λ live. live.overlay.now.reads };

    ghost faults = { λ live. (E.state live.engine.now).faults };

    ghost loans = { λ live. live.overlay.ghost_name ∷ live.engine.ghost_name ∷ E.loans live.engine.now };

    ghost follows = { λ old new. (new.pin.now ≡ old.pin.now) × WasRead E.EngineTells old.engine.now new.engine.now × IsStill old.overlay.now new.overlay.now };

    ghost follows_itself = { λ live. (refl, was_read_itself E.EngineTells live.engine.now, still_itself live.overlay.now) };

    ghost follows_on = { λ first second third one two. (
      two.0 ∙ one.0,
      was_read_on E.EngineTells first.engine.now second.engine.now third.engine.now one.1 two.1,
      still_on first.overlay.now second.overlay.now third.overlay.now one.2 two.2,
    ) };
}

impl<'a, 'b, 'c, M: Means, E: Engine<M>> Pages for Live<'a, 'b, 'c, M, E> {
    fn page_size(&self) -> usize {
        self.engine.page_size()
    }

    fn usable(&self) -> usize {
        self.engine.usable()
    }

    fn last(&self) -> u32 {
        self.overlay.last()
    }

    fn fetch(&mut self, page: u32, buf: &mut [u8]) -> Result<(), FetchFault> {
        fetch_own(self.overlay, self.engine, self.pin, page, buf)
    }
}

impl<'a, 'b, 'c, M: Means, E: Engine<M>> PutPages for Live<'a, 'b, 'c, M, E> {
    fn put(&mut self, page: u32, bytes: &[u8]) -> Result<(), FetchFault> {
        match self.overlay.put(page, bytes) {
            Ok(()) => Ok(()),
            Err(_) => Err(FetchFault::Memory),
        }
    }
}

impl<'a, 'b, 'c, M: Means, E: Engine<M>> EditPages for Live<'a, 'b, 'c, M, E> {
    fn fresh(&mut self) -> Result<u32, FetchFault> {
        make_page(self)
    }

    fn give_up(&mut self, page: u32) -> Result<(), FetchFault> {
        match self.overlay.give_up(page) {
            Ok(()) => Ok(()),
            Err(_) => Err(FetchFault::Memory),
        }
    }
}
