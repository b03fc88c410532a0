// What the index of two logs finds. Log 1 has frames of pages 5, 3 and 5, which are a commit, and of page 3, which is the next one; log 2
// has a frame of page 9 of a commit that is under way. The answers are worked by hand.
use std::alloc::{AllocError, Global};
use std::test::Fail;
use wal_index::WalIndex;

fn two_logs(alloc: Global) -> Result<WalIndex, AllocError> {
    let mut index = WalIndex::new(alloc);
    index.reserve(4)?;
    index.add(1, 5);
    index.add(1, 3);
    index.add(1, 5);
    index.seal(1, false);
    index.reserve(1)?;
    index.add(1, 3);
    index.seal(2, false);
    index.add(2, 9);
    Ok(index)
}

// Each row is a log, a page, a mark, and the page's last frame up to the mark, 0 where there is none.
const FRAMES: [(u8, u32, u32, u32); 11] = [
    (1, 5, 0, 0),
    (1, 5, 1, 1),
    (1, 5, 2, 1),
    (1, 5, 3, 3),
    (1, 5, 4_294_967_295, 3),
    (1, 3, 1, 0),
    (1, 3, 3, 2),
    (1, 3, 4, 4),
    (1, 9, 4, 0),
    (2, 9, 1, 1),
    (2, 5, 4, 0),
];

#[test]
fn last_frames(rt: HostRuntime) -> Result<(), Fail> {
    let index = two_logs(rt.alloc())?;
    for (log, page, mark, frame) in FRAMES {
        assert!(rt; log == 1 || log == 2);
        assert_eq!(rt; index.find(log, page, mark).unwrap_or(0), frame);
    }
    Ok(())
}

#[test]
fn next_pages(rt: HostRuntime) -> Result<(), Fail> {
    let mut index = two_logs(rt.alloc())?;
    assert_eq!(rt; index.next_page(1, 0), Some(3));
    assert_eq!(rt; index.next_page(1, 3), Some(5));
    assert_eq!(rt; index.next_page(1, 4), Some(5));
    assert_eq!(rt; index.next_page(1, 5), None);
    assert_eq!(rt; index.next_page(2, 0), Some(9));
    index.clear(1);
    assert_eq!(rt; index.next_page(1, 0), None);
    assert_eq!(rt; index.find(1, 3, 4), None);
    assert_eq!(rt; index.next_page(2, 0), Some(9));
    Ok(())
}

#[test]
fn first_writers(rt: HostRuntime) -> Result<(), Fail> {
    let mut index = two_logs(rt.alloc())?;
    assert_eq!(rt; index.written_since(0, 3, true), Some(1));
    assert_eq!(rt; index.written_since(1, 3, true), Some(2));
    assert_eq!(rt; index.written_since(0, 9, true), None);
    index.clear(1);
    assert_eq!(rt; index.written_since(0, 3, true), None);
    Ok(())
}
