// A store of pages in memory, and a run over it.
ghost use Rattle.std.specs.Prelude.{◌≡◌, ◌≤◌, [], ◌∷◌, length, IfOk};
ghost use Rattle.page_spec.specs.PageMap.{page_size_of};
ghost use Rattle.memory_engine.specs.Plain.{PlainLive, newest_of};
ghost use Rattle.page_lines.specs.World.{zeros};
ghost use Rattle.page_runs.specs.Outcome.{RunEnds};
ghost use Rattle.page_runs.specs.InMemory.{IsAnsweredInMemory};

use crate::{Sessions, Status, run_pages};
use disk_face::{Bytes, Sink, Source};
use memory_engine::Plain;
use page_lines::Raw;
use std::alloc::{AllocError, Global};

/// Runs the lines that the source gives over 16 pages of zeros in memory, each of which is answered before the next one is taken.
pub fn run_in_memory<S: Source, K: Sink>(alloc: Global, src: &mut S, out: &mut K) -> Status
    ensures run { RunEnds S.Source K.Sink IsAnsweredInMemory result src.old out.old src.new out.new }
    ensures loans { (S.loans src.new ≡ S.loans src.old) × (K.loans out.new ≡ K.loans out.old) }
{
    let Ok(plain) = engine_of_zeros(alloc) else {
        return Status::NoMemory;
    };
    let mut sessions = Sessions::new(alloc, plain);
    run_pages(alloc, &mut sessions, src, out)
}

/// The engine of a new store. The error is want of memory.
pub fn engine_of_zeros(alloc: Global) -> Result<Plain<Raw>, AllocError>
    ensures maps { IfOk result (λ plain. plain.maps ≡ zeros ∷ []) }
    ensures history { IfOk result (λ plain. plain.history ≡ []) }
    ensures page_size { IfOk result (λ plain. plain.page_size ≡ page_size_of zeros) }
    ensures pages { IfOk result (λ plain. 16 ≤ length (newest_of plain)) }
    ensures live { IfOk result (λ plain. PlainLive plain []) }
{
    let pages = zero_pages(alloc)?;
    let plain = Plain::new(alloc, pages)?;
    Ok(plain)
}

// How many pages a store has.
const PAGES: usize = 16;

// The pages of a new store.
fn zero_pages(alloc: Global) -> Result<Vec<Bytes>, AllocError>
    ensures { IfOk result (λ pages. pages.items ≡ zeros) }
{
    let page = vec![in alloc; 0; 4096]?;
    let mut pages = Vec::new(alloc);
    for _ in 0..PAGES {
        pages.push(Bytes::of(alloc, page.as_slice())?)?;
    }
    Ok(pages)
}
