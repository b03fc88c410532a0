// Which commit bars another one. Two commits stand in the index: commit 3 in log 2, which wrote pages 1, 7 and 2 and of page 1 its header
// alone, and commit 4 in log 1, which wrote pages 1, 9 and 7. The answers are worked by hand.
use page_face::ReadSet;
use std::alloc::{AllocError, Global};
use std::process::Abort;
use std::test::Fail;
use wal_index::WalIndex;
use wal_rules::{Conflict, least_conflict};

fn two_commits(alloc: Global) -> Result<WalIndex, AllocError> {
    let mut index = WalIndex::new(alloc);
    index.reserve(3)?;
    index.add(2, 1);
    index.add(2, 7);
    index.add(2, 2);
    index.seal(3, false);
    index.reserve(3)?;
    index.add(1, 1);
    index.add(1, 9);
    index.add(1, 7);
    index.seal(4, true);
    Ok(index)
}

// The conflict of whoever read these pages at a snapshot, and takes page 1 as a whole or not; page 0 and commit 0 where there is none.
fn found(alloc: Global, pages: &[u32], whole: bool, n: u64) -> Result<(u32, u64), AllocError> {
    let index = two_commits(alloc)?;
    let mut reads = ReadSet::new(alloc);
    for page in pages {
        reads.add(*page)?;
    }
    match least_conflict(&reads, whole, &index, n) {
        Some(Conflict { page, commit }) => Ok((page, commit)),
        None => Ok((0, 0)),
    }
}

// Each row is the pages, whether page 1 counts as a whole, the snapshot, and the page and the commit.
const READ: [(&[u32], bool, u64, (u32, u64)); 14] = [
    (&[], true, 2, (0, 0)),
    (&[8], true, 2, (0, 0)),
    (&[7], true, 2, (7, 3)),
    (&[7], true, 3, (7, 4)),
    (&[7], true, 4, (0, 0)),
    (&[2], true, 2, (2, 3)),
    (&[2], true, 3, (0, 0)),
    (&[9, 7], true, 2, (7, 3)),
    (&[9, 8], true, 2, (9, 4)),
    (&[9, 2], true, 2, (2, 3)),
    (&[1, 2], true, 2, (1, 3)),
    (&[1, 2], false, 2, (1, 4)),
    (&[1], false, 3, (1, 4)),
    (&[1], false, 4, (0, 0)),
];

#[test]
fn least_conflicts(rt: HostRuntime) -> Result<(), Fail> {
    for (pages, whole, n, expected) in READ {
        assert_eq!(rt; found(rt.alloc(), pages, whole, n), Ok(expected));
    }
    Ok(())
}
