// A transaction's own pages over its snapshot, read and put whatever numbers are free among them.
//
// A page is the transaction's where it changed or made it, else it is fetched from the snapshot, and only then it was read. The freelist is
// changed through these pages: while a page is taken out of it, which numbers are free isn't said.
ghost use Rattle.std.specs.Prelude.{◌≡◌, ◌≤◌, length, ◌∷◌};
ghost use Rattle.overlay.specs.Overlay.{last_page};
ghost use Rattle.overlay.specs.Live.{IsOfPin};
ghost use Rattle.overlay.specs.Own.{HasFetchedOwn};

use crate::overlay::Overlay;
use page_face::{Engine, FetchFault, Means, Pages, PagesTells, Pin, PutPages};

// Fills the buffer with a page: the transaction's own, or that of the snapshot, which is then noted.
pub(crate) fn fetch_own<M: Means, E: Engine<M>>(
    overlay: &mut Overlay<M>,
    engine: &mut E,
    pin: &Pin,
    page: u32,
    buf: &mut [u8],
) -> Result<(), FetchFault>
    requires ready { IsOfPin E.EngineTells engine.old pin.now overlay.old }
    requires page { (1 ≤ page) × (page ≤ last_page overlay.old.change) }
    requires room { length buf.old ≡ (E.state engine.old).page_size }
    ensures { HasFetchedOwn E.EngineTells engine.old pin.now overlay.old page result buf.new engine.new overlay.new }
{
    if let Some(bytes) = overlay.own(page) {
        buf.copy_from_slice(bytes);
        return Ok(());
    }
    match engine.fetch(pin, page, buf) {
        Ok(()) => match overlay.note(page) {
            Ok(()) => Ok(()),
            Err(_) => Err(FetchFault::Memory),
        },
        Err(why) => Err(why),
    }
}

/// The pages of a transaction as it reads and puts them.
#[derive(Drop)]
pub(crate) struct OwnPages<'a, 'b, 'c, M, E> {
    pub(crate) overlay: &'a mut Overlay<M>,
    pub(crate) engine: &'b mut E,
    pub(crate) pin: &'c Pin,
}

impl<'a, 'b, 'c, M: Means, E: Engine<M>> PagesTells for OwnPages<'a, 'b, 'c, M, E> {
    ghost use Rattle.std.proofs.Common.{refl, ◌∙◌};
    ghost use Rattle.overlay.specs.Overlay.{last_page, has_own_image, over_change};
    ghost use Rattle.overlay.specs.Live.{MayBeRead, IsOfPin};
    ghost use Rattle.overlay.specs.Behind.{WasRead, IsStill};
    ghost use Rattle.overlay.specs.BehindLaws.{was_read_itself, was_read_on, still_itself, still_on};

    ghost tells = { λ own world. MayBeRead (E.map_at own.engine.now own.pin.now) own.overlay.now.reads world };

    ghost over = { λ own world. over_change own.overlay.now.change world };

    ghost free = { λ _ _ _. ⊥ };

    ghost neat = { λ _ _. Unit {0} };

    ghost spare = { λ _ _. ⊥ };

    ghost ready = { λ own. IsOfPin E.EngineTells own.engine.now own.pin.now own.overlay.now };

    ghost page_size = { λ own. (E.state own.engine.now).page_size };

    ghost usable = { λ own. (E.state own.engine.now).usable };

    ghost last_page = { λ own. last_page own.overlay.now.change };

    ghost has = { λ own number. has_own_image own.overlay.now.change number };

    ghost reads = { λ own. own.overlay.now.reads };

    ghost faults = { λ own. (E.state own.engine.now).faults };

    ghost loans = { λ own. own.overlay.ghost_name ∷ own.engine.ghost_name ∷ E.loans own.engine.now };

    ghost follows = { λ old new. (new.pin.now ≡ old.pin.now) × WasRead E.EngineTells old.engine.now new.engine.now
        × IsStill old.overlay.now new.overlay.now × (new.overlay.now.change.freed ≡ old.overlay.now.change.freed) };

    ghost follows_itself = { λ own. (refl, was_read_itself E.EngineTells own.engine.now, still_itself own.overlay.now, refl) };

    ghost follows_on = { λ first second third one two. (
      two.0 ∙ one.0,
      was_read_on E.EngineTells first.engine.now second.engine.now third.engine.now one.1 two.1,
      still_on first.overlay.now second.overlay.now third.overlay.now one.2 two.2,
      two.3 ∙ one.3,
    ) };
}

impl<'a, 'b, 'c, M: Means, E: Engine<M>> Pages for OwnPages<'a, 'b, 'c, M, E> {
    fn page_size(&self) -> usize {
        self.engine.page_size()
    }

    fn usable(&self) -> usize {
        self.engine.usable()
    }

    fn last(&self) -> u32 {
        self.overlay.last()
    }

    fn fetch(&mut self, page: u32, buf: &mut [u8]) -> Result<(), FetchFault> {
        fetch_own(self.overlay, self.engine, self.pin, page, buf)
    }
}

impl<'a, 'b, 'c, M: Means, E: Engine<M>> PutPages for OwnPages<'a, 'b, 'c, M, E> {
    fn put(&mut self, page: u32, bytes: &[u8]) -> Result<(), FetchFault> {
        match self.overlay.put(page, bytes) {
            Ok(()) => Ok(()),
            Err(_) => Err(FetchFault::Memory),
        }
    }
}
