// A page taken out of a transaction's freelist.
//
// The copy of page 1 that names the freelist was put since the mark, so after the page is taken its fields are set without memory.
ghost use Rattle.std.specs.Prelude.{◌≡◌};
ghost use Rattle.overlay.specs.Live.{IsOfPin};
ghost use Rattle.overlay.specs.Named.{IsNamedIn};
ghost use Rattle.overlay.specs.Own.{HasTakenOwn};

use crate::making::{COUNT, TRUNK};
use crate::own::OwnPages;
use be_fields::put_u32;
use disk_face::Bytes;
use freelist::{Free, take};
use page_face::{Engine, FetchFault, Means};

// Takes a page of the freelist that page 1's own copy names, and sets its fields in that copy, which takes no memory.
pub(crate) fn take_own<'a, 'b, 'c, M: Means, E: Engine<M>>(
    own: &mut OwnPages<'a, 'b, 'c, M, E>,
    mut first: Vec<u8>,
    mut free: Free,
) -> Result<u32, FetchFault>
    requires ready { IsOfPin E.EngineTells own.old.engine.now own.old.pin.now own.old.overlay.now }
    requires named { IsNamedIn own.old.overlay.now first.items free }
    ensures taken { HasTakenOwn E.EngineTells own.old.engine.now own.old.pin.now own.old.overlay.now free.trunk result own.new.engine.now own.new.overlay.now }
    ensures overlay_stays { own.new.overlay.ghost_name ≡ own.old.overlay.ghost_name }
    ensures engine_stays { own.new.engine.ghost_name ≡ own.old.engine.ghost_name }
{
    let alloc = own.overlay.alloc();
    match take(alloc, own, &mut free) {
        Ok(Some(page)) => {
            put_u32(&mut first, TRUNK, free.trunk);
            put_u32(&mut first, COUNT, free.count);
            own.overlay.replace_first(Bytes::from_vec(first));
            Ok(page)
        }
        Ok(None) => unreachable!(),
        Err(why) => Err(why),
    }
}
