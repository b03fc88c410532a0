// The check of a small database, and of the same damaged. Counts are sqlite3's own; the faults are worked by hand.
use crate::laid::Laid;
use crate::stock::{COUNT, Edit, NONE, PAGES, ROWS};
use std::alloc::Global;
use std::test::Fail;
use tree_check::{CheckFault, Count, check_all};

// What a check of the pages answers, with these changes, and how many pages it read.
fn checked(alloc: Global, one: Edit, two: Edit) -> (Result<Count, CheckFault>, u32) {
    let mut pages = Laid {
        last: PAGES.len() as u32,
        one,
        two,
        fetched: 0,
    };
    let told = check_all(alloc, &mut pages);
    (told, pages.fetched)
}

#[test]
fn whole_database(rt: HostRuntime) -> Result<(), Fail> {
    let (told, fetched) = checked(rt.alloc(), NONE, NONE);
    assert_eq!(rt; told, Ok(COUNT));
    // each page once, and of the free ones the trunk alone
    assert_eq!(rt; fetched, COUNT.pages + 1 - COUNT.free);
    Ok(())
}

#[test]
fn damaged_databases(rt: HostRuntime) -> Result<(), Fail> {
    for row in ROWS {
        let (told, _) = checked(rt.alloc(), row.one, row.two);
        assert_eq!(rt; told, Err(row.fault));
    }
    Ok(())
}
