// Pages of 512 bytes divided. The parts are worked by hand: a leaf has 504 bytes for cells and their pointers, an interior page 500. A row of 48 bytes takes 50
// with its size and its rowid, and 2 for its pointer. A part is filled up where a cell is put in at the end, and else up to half of all.
use crate::pages::Shown;
use crate::parts::{Cut, is_cut_so};
use page_form::Kind;
use std::test::Fail;

// Nine rows of 52 bytes take 468.
const ROWS: &[Shown] = &[
    (0, 2, 48),
    (0, 4, 48),
    (0, 6, 48),
    (0, 8, 48),
    (0, 10, 48),
    (0, 12, 48),
    (0, 14, 48),
    (0, 16, 48),
    (0, 18, 48),
];

// Behind a ninth row there is no room for a tenth.
const ROW_AT_THE_END: Cut<'static> = Cut {
    kind: Kind::TableLeaf,
    cells: ROWS,
    right: 0,
    at: 9,
    news: &[(0, 20, 48)],
    left: ROWS,
    left_right: 0,
    middle: &[],
    rest: &[(0, 20, 48)],
    above: &[(7, 18, 0)],
};

// Half of 520 bytes is five rows.
const ROW_IN_THE_MIDDLE: Cut<'static> = Cut {
    kind: Kind::TableLeaf,
    cells: ROWS,
    right: 0,
    at: 4,
    news: &[(0, 9, 48)],
    left: &[(0, 2, 48), (0, 4, 48), (0, 6, 48), (0, 8, 48), (0, 9, 48)],
    left_right: 0,
    middle: &[],
    rest: &[
        (0, 10, 48),
        (0, 12, 48),
        (0, 14, 48),
        (0, 16, 48),
        (0, 18, 48),
    ],
    above: &[(7, 9, 0)],
};

// A row of 477 bytes takes 480 and a pointer: no other row fits beside it.
const LARGE_ROW: Cut<'static> = Cut {
    kind: Kind::TableLeaf,
    cells: ROWS,
    right: 0,
    at: 4,
    news: &[(0, 9, 477)],
    left: &[(0, 2, 48), (0, 4, 48), (0, 6, 48), (0, 8, 48)],
    left_right: 0,
    middle: &[(0, 9, 477)],
    rest: &[
        (0, 10, 48),
        (0, 12, 48),
        (0, 14, 48),
        (0, 16, 48),
        (0, 18, 48),
    ],
    above: &[(7, 8, 0), (8, 9, 0)],
};

// Entries of 41 to 49 bytes take 48 to 56: 468 together.
const ENTRIES: &[Shown] = &[
    (11, 0, 41),
    (12, 0, 42),
    (13, 0, 43),
    (14, 0, 44),
    (15, 0, 45),
    (16, 0, 46),
    (17, 0, 47),
    (18, 0, 48),
    (19, 0, 49),
];

// With 57 bytes more they take 525. Half of that, 262, has room for 48, 49, 50, 51 and 57, and the next one goes up.
const ENTRY_IN_THE_MIDDLE: Cut<'static> = Cut {
    kind: Kind::IndexInner,
    cells: ENTRIES,
    right: 20,
    at: 4,
    news: &[(21, 0, 50)],
    left: &[
        (11, 0, 41),
        (12, 0, 42),
        (13, 0, 43),
        (14, 0, 44),
        (21, 0, 50),
    ],
    left_right: 15,
    middle: &[],
    rest: &[(16, 0, 46), (17, 0, 47), (18, 0, 48), (19, 0, 49)],
    above: &[(7, 0, 45)],
};

// The last entry alone is the rest, and the one before it goes up.
const ENTRY_AT_THE_END: Cut<'static> = Cut {
    kind: Kind::IndexInner,
    cells: ENTRIES,
    right: 20,
    at: 9,
    news: &[(21, 0, 50)],
    left: &[
        (11, 0, 41),
        (12, 0, 42),
        (13, 0, 43),
        (14, 0, 44),
        (15, 0, 45),
        (16, 0, 46),
        (17, 0, 47),
        (18, 0, 48),
    ],
    left_right: 19,
    middle: &[],
    rest: &[(21, 0, 50)],
    above: &[(7, 0, 49)],
};

#[test]
fn a_page_is_divided(rt: HostRuntime) -> Result<(), Fail> {
    assert!(rt; is_cut_so(rt.alloc(), ROW_AT_THE_END)?);
    assert!(rt; is_cut_so(rt.alloc(), ROW_IN_THE_MIDDLE)?);
    assert!(rt; is_cut_so(rt.alloc(), LARGE_ROW)?);
    assert!(rt; is_cut_so(rt.alloc(), ENTRY_IN_THE_MIDDLE)?);
    assert!(rt; is_cut_so(rt.alloc(), ENTRY_AT_THE_END)?);
    Ok(())
}
