// What a transaction reads and changes, and what an undo takes back. The numbers are worked by hand: a plain transaction takes the leaf 4,
// then the trunk 3, and then numbers page 5; a concurrent one numbers pages from 5 on.
ghost use Rattle.std.specs.Prelude.{◌≡◌, ◌≤◌};
ghost use Rattle.overlay.specs.Overlay.{last_page};
ghost use Rattle.overlay.specs.Live.{IsOfPin};

use crate::database::engine_over;
use memory_engine::Plain;
use overlay::{Live, Overlay};
use page_face::{EditPages, Engine, EngineTells, FetchFault, Mode, Pages, Prepared, PutPages};
use page_lines::Raw;
use sqlite_items::Items;
use std::alloc::{AllocError, Global};
use std::test::Fail;

// Three pages that are given out one after another.
fn three_made<'a, 'b, 'c>(
    live: &mut Live<'a, 'b, 'c, Raw, Plain<Raw>>,
) -> Result<[u32; 3], FetchFault>
    requires { IsOfPin ⟦<Plain<Raw> as EngineTells<Raw>>⟧ live.old.engine.now live.old.pin.now live.old.overlay.now }
{
    let first = live.fresh()?;
    let second = live.fresh()?;
    let third = live.fresh()?;
    Ok([first, second, third])
}

// The pages that a transaction is given, and what it has then.
fn given(alloc: Global, mode: Mode) -> Result<([u32; 3], Prepared<Raw>), FetchFault> {
    let Ok(mut engine) = engine_over(alloc) else {
        return Err(FetchFault::Memory);
    };
    let pin = engine.begin();
    let Ok(mut overlay) = Overlay::new(alloc, &pin, mode) else {
        return Err(FetchFault::Memory);
    };
    let mut live = Live {
        overlay: &mut overlay,
        engine: &mut engine,
        pin: &pin,
    };
    let made = three_made(&mut live)?;
    Ok((made, overlay.freeze(Items::new(alloc))))
}

// Reads page 3, makes a page, puts page 2, which isn't read by that, and gives it up.
fn change<'a, 'b, 'c>(live: &mut Live<'a, 'b, 'c, Raw, Plain<Raw>>) -> Result<(), FetchFault>
    requires ready { IsOfPin ⟦<Plain<Raw> as EngineTells<Raw>>⟧ live.old.engine.now live.old.pin.now live.old.overlay.now }
    requires size { live.old.engine.now.page_size ≡ 512 }
    requires pages { 4 ≤ last_page live.old.overlay.now.change }
    ensures { live.new.overlay.now.marked ≡ live.old.overlay.now.marked }
{
    let mut page = [0; 512];
    live.fetch(3, &mut page)?;
    live.fresh()?;
    live.put(2, &page)?;
    live.give_up(2)
}

// What a transaction has after that, where it is taken back or kept, and after it was made ready, and opened again.
fn after(alloc: Global, mode: Mode, kept: bool) -> Result<Prepared<Raw>, FetchFault> {
    let Ok(mut engine) = engine_over(alloc) else {
        return Err(FetchFault::Memory);
    };
    let pin = engine.begin();
    let Ok(mut overlay) = Overlay::new(alloc, &pin, mode) else {
        return Err(FetchFault::Memory);
    };
    let Ok(()) = overlay.mark() else {
        return Err(FetchFault::Memory);
    };
    let mut live = Live {
        overlay: &mut overlay,
        engine: &mut engine,
        pin: &pin,
    };
    change(&mut live)?;
    if kept {
        live.overlay.keep();
    } else {
        live.overlay.undo();
    }
    let (overlay, said) = Overlay::thaw(alloc, overlay.freeze(Items::new(alloc)));
    Ok(overlay.freeze(said))
}

// The numbers of the pages of some images.
fn is_of(images: &Items<engine_spec::PageImage>, pages: &[u32]) -> bool {
    images
        .as_slice()
        .iter()
        .map(|image| image.page)
        .eq(pages.iter().copied())
}

#[test]
fn a_plain_transaction_takes_pages_of_the_freelist(rt: HostRuntime) -> Result<(), Fail> {
    let (made, has) = given(rt.alloc(), Mode::Plain)?;
    assert_eq!(rt; made, [4, 3, 5]);
    assert!(rt; has.reads.pages() == [1, 3].as_slice());
    assert!(rt; is_of(&has.changed, &[1, 3]));
    assert!(rt; is_of(&has.fresh, &[5]));
    assert!(rt; !has.tail);
    Ok(())
}

#[test]
fn a_concurrent_one_takes_none(rt: HostRuntime) -> Result<(), Fail> {
    let (made, has) = given(rt.alloc(), Mode::Concurrent)?;
    assert_eq!(rt; made, [5, 6, 7]);
    assert!(rt; has.reads.pages().is_empty());
    assert!(rt; has.changed.is_empty());
    assert!(rt; is_of(&has.fresh, &[5, 6, 7]));
    Ok(())
}

#[test]
fn an_undo_takes_all_back_but_what_was_read(rt: HostRuntime) -> Result<(), Fail> {
    for (mode, reads) in [
        (Mode::Plain, [1, 3].as_slice()),
        (Mode::Concurrent, [3].as_slice()),
    ] {
        let has = after(rt.alloc(), mode, false)?;
        assert!(rt; has.reads.pages() == reads);
        assert!(rt; has.changed.is_empty());
        assert!(rt; has.fresh.is_empty());
        assert!(rt; has.freed.is_empty());
    }
    Ok(())
}

#[test]
fn what_is_kept_stays(rt: HostRuntime) -> Result<(), Fail> {
    let has = after(rt.alloc(), Mode::Plain, true)?;
    assert!(rt; is_of(&has.changed, &[1, 2, 3]));
    assert!(rt; has.fresh.is_empty());
    assert!(rt; has.freed.as_slice() == [2].as_slice());
    let has = after(rt.alloc(), Mode::Concurrent, true)?;
    assert!(rt; is_of(&has.changed, &[2]));
    assert!(rt; is_of(&has.fresh, &[5]));
    assert!(rt; has.freed.as_slice() == [2].as_slice());
    Ok(())
}
