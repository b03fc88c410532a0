// A transaction's pages over the engine in memory, which show that `Pages` and `PutPages` can be met over an engine.
//
// What was put is kept by page, one place for each page of the snapshot, so that no search is needed.
ghost use Rattle.std.specs.Prelude.{◌≡◌, ◌-◌, ◌≤◌, length, MatchOption, Option};
ghost use Rattle.witnesses.specs.Live.{put_at};

use disk_face::Bytes;
use memory_engine::Plain;
use page_face::{Engine, FetchFault, Means, Pages, PagesTells, Pin, PutPages, ReadSet};
use sqlite_items::Items;
use std::alloc::Global;

/// The pages of a snapshot in an engine in memory, of which some were read and some put.
#[derive(Drop)]
pub struct Live<M> {
    alloc: Global,
    plain: Plain<M>,
    pin: Pin,
    reads: ReadSet,
    puts: Items<Option<Bytes>>,
}

// The bytes that were put in the place of a page.
fn own(puts: &[Option<Bytes>], page: u32) -> Option<&[u8]>
    requires { (1 ≤ page) × (page ≤ length puts.now) }
    ensures { MatchOption result (put_at puts.now page ≡ Option.None) (λ bytes. put_at puts.now page ≡ Option.Some bytes.now) }
{
    match &puts[page as usize - 1] {
        Some(bytes) => Some(bytes.bytes()),
        None => None,
    }
}

impl<M: Means> PagesTells for Live<M> {
    ghost use Rattle.std.specs.Prelude.{[], slice_get, is_some};
    ghost use Rattle.std.proofs.Common.{refl, ◌∙◌};
    ghost use Rattle.witnesses.specs.Live.{AgreesOn, over_world, IsReady, put_at};

    ghost tells = { λ live world. AgreesOn (slice_get live.plain.maps live.pin.n) live.reads world };

    ghost over = { λ live world. over_world live.puts world };

    ghost free = { λ _ _ _. ⊥ };

    ghost neat = { λ _ _. Unit {0} };

    ghost spare = { λ _ _. ⊥ };

    ghost ready = { λ live. IsReady live.plain live.pin live.puts };

    ghost page_size = { λ live. live.plain.page_size };

    ghost usable = { λ live. live.plain.usable };

    ghost last_page = { λ live. live.pin.size };

    ghost has = { λ live number. is_some (put_at live.puts number) };

    ghost reads = { λ live. live.reads };

    ghost faults = { λ _. 0 };

    ghost loans = { λ _. [] };

    ghost follows = { λ old new. new.pin ≡ old.pin };

    ghost follows_itself = { λ _. refl };

    ghost follows_on = { λ first second third one two. two ∙ one };
}

impl<M: Means> Pages for Live<M> {
    fn page_size(&self) -> usize {
        self.plain.page_size()
    }

    fn usable(&self) -> usize {
        self.plain.usable()
    }

    fn last(&self) -> u32 {
        self.pin.size
    }

    fn fetch(&mut self, page: u32, buf: &mut [u8]) -> Result<(), FetchFault> {
        if let Some(bytes) = own(self.puts.as_slice(), page) {
            buf.copy_from_slice(bytes);
            return Ok(());
        }
        match self.plain.fetch(&self.pin, page, buf) {
            Ok(()) => match self.reads.add(page) {
                Ok(()) => Ok(()),
                Err(_) => Err(FetchFault::Memory),
            },
            Err(why) => Err(why),
        }
    }
}

impl<M: Means> PutPages for Live<M> {
    fn put(&mut self, page: u32, bytes: &[u8]) -> Result<(), FetchFault> {
        match Bytes::of(self.alloc, bytes) {
            Ok(copy) => {
                self.puts.set(page as usize - 1, Some(copy));
                Ok(())
            }
            Err(_) => Err(FetchFault::Memory),
        }
    }
}
