// The first trunk of a freelist, looked at before the list is changed.
ghost use Rattle.std.specs.Prelude.{◌≡◌, ◌<◌, ◌⊎◌, length, IfOk, IfErr};
ghost use Rattle.page_face.specs.Pages.{ReadsAtMost, pages_read};
ghost use Rattle.freelist.specs.Walking.{ListsTooMany};
ghost use Rattle.freelist.specs.Changing.{HasFirst, BarsChange};

use crate::free::Free;
use crate::trunk::{lists_too_many, misleads};
use be_fields::get_u32;
use page_face::{FetchFault, Pages};

// Reads the first trunk of a list that has pages, and answers how many leaves it lists.
pub(crate) fn read_first<P: Pages>(
    pages: &mut P,
    free: &Free,
    buf: &mut [u8],
) -> Result<u32, FetchFault>
    requires ready { P.ready pages.old }
    requires some { 0 < free.now.count }
    requires room { length buf.old ≡ P.page_size pages.old }
    ensures first { IfOk result (λ leaves. HasFirst P.PagesTells pages.old free.now leaves buf.new pages.new) }
    ensures cause { IfErr result (λ why. BarsChange P.PagesTells pages.old free.now (ListsTooMany (P.usable pages.old) free.now.count) pages.new why) }
    ensures read { (P.reads pages.new ≡ P.reads pages.old) ⊎ (P.reads pages.new ≡ pages_read P.PagesTells pages.old free.now.trunk) }
    ensures reading { ReadsAtMost P.PagesTells pages.old pages.new }
    ensures room { length buf.new ≡ length buf.old }
{
    let usable = pages.usable();
    if misleads(free.trunk, free.count, pages.last()) {
        return Err(FetchFault::Corrupt { page: free.trunk });
    }
    match pages.fetch(free.trunk, buf) {
        Ok(()) => (),
        Err(why) => return Err(why),
    }
    if lists_too_many(buf, usable, free.count) {
        return Err(FetchFault::Corrupt { page: free.trunk });
    }
    Ok(get_u32(buf, 4))
}
