// Each call of pages made once, over pages in memory.
ghost use Rattle.std.specs.Prelude.{◌≡◌, length};

use page_face::{EditPages, FetchFault, Pages};
use std::test::Fail;
use witnesses::Shelf;

// Makes two pages, puts bytes into the second, reads the first and then the second, and gives that up.
fn used<P: EditPages>(pages: &mut P, page: &mut [u8]) -> Result<u32, FetchFault>
    requires ready { P.ready pages.old }
    requires room { length page.old ≡ P.page_size pages.old }
{
    let first = pages.fresh()?;
    let second = pages.fresh()?;
    pages.put(second, page)?;
    pages.fetch(first, page)?;
    pages.fetch(second, page)?;
    pages.give_up(second)?;
    Ok(first)
}

#[test]
fn pages_in_memory(rt: HostRuntime) -> Result<(), Fail> {
    let mut shelf = Shelf::new(rt.alloc())?;
    let mut page = [7; 512];
    let first = used(&mut shelf, &mut page);
    assert_eq!(rt; first, Ok(2));
    assert_eq!(rt; shelf.last(), 3);
    assert_eq!(rt; page[0], 7);
    Ok(())
}
