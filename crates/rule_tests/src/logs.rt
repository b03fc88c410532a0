// Which lock a reader takes, when a page may be copied, and when a commit goes over to the other log. The answers are worked by hand: a
// reader of the current log alone bars neither the copying nor the change of logs, a reader of the other one's front bars both, and a
// reader of both bars the change alone.
use page_face::{Lock, Readers};
use std::test::Fail;
use wal_rules::{LogState, lock_of, may_copy, may_switch};

const NOBODY: Readers = Readers {
    part1: 0,
    part1_full2: 0,
    part2: 0,
    part2_full1: 0,
};

#[test]
fn locks(rt: HostRuntime) -> Result<(), Fail> {
    let (done, copied) = (true, 0);
    assert_eq!(rt;
        lock_of(&LogState {
            current: 1,
            done,
            copied
        }),
        Lock::Part1
    );
    assert_eq!(rt;
        lock_of(&LogState {
            current: 2,
            done,
            copied
        }),
        Lock::Part2
    );
    let (done, copied) = (false, 7);
    assert_eq!(rt;
        lock_of(&LogState {
            current: 1,
            done,
            copied
        }),
        Lock::Part1Full2
    );
    assert_eq!(rt;
        lock_of(&LogState {
            current: 2,
            done,
            copied
        }),
        Lock::Part2Full1
    );
    Ok(())
}

#[test]
fn copies(rt: HostRuntime) -> Result<(), Fail> {
    let (done, copied) = (false, 0);
    let first = LogState {
        current: 1,
        done,
        copied,
    };
    let second = LogState {
        current: 2,
        done,
        copied,
    };
    let ones = Readers {
        part1: 3,
        part1_full2: 5,
        ..NOBODY
    };
    let twos = Readers {
        part2: 4,
        part2_full1: 6,
        ..NOBODY
    };
    assert_eq!(rt; may_copy(&first, &ones), Ok(()));
    assert_eq!(rt; may_copy(&first, &twos), Err(4));
    assert_eq!(rt; may_copy(&second, &ones), Err(3));
    assert_eq!(rt; may_copy(&second, &twos), Ok(()));
    assert_eq!(rt;
        may_copy(
            &second,
            &Readers {
                part2_full1: 6,
                ..NOBODY
            }
        ),
        Ok(())
    );
    Ok(())
}

// Each row is the current log, the readers, how many frames that log has of the 1,000 at which it is full, its generation, and whether the
// commit goes over to the other log, all of which was copied.
const CHANGES: [(u8, Readers, u32, u32, bool); 13] = [
    (1, Readers { part1: 1, ..NOBODY }, 1000, 7, true),
    (1, Readers { part1: 9, ..NOBODY }, 4001, 3_999_999_999, true),
    (1, Readers { part1: 1, ..NOBODY }, 999, 7, false),
    (
        1,
        Readers { part1: 1, ..NOBODY },
        1000,
        4_000_000_000,
        false,
    ),
    (
        1,
        Readers { part1: 1, ..NOBODY },
        1000,
        4_000_000_001,
        false,
    ),
    (
        1,
        Readers {
            part1: 1,
            part1_full2: 1,
            ..NOBODY
        },
        1000,
        7,
        false,
    ),
    (
        1,
        Readers {
            part1_full2: 1,
            ..NOBODY
        },
        1000,
        7,
        false,
    ),
    (
        1,
        Readers {
            part1: 1,
            part2: 1,
            ..NOBODY
        },
        1000,
        7,
        false,
    ),
    (2, Readers { part2: 1, ..NOBODY }, 1000, 8, true),
    (2, Readers { part2: 1, ..NOBODY }, 999, 8, false),
    (
        2,
        Readers {
            part2: 1,
            part2_full1: 1,
            ..NOBODY
        },
        1000,
        8,
        false,
    ),
    (
        2,
        Readers {
            part2: 1,
            part1: 1,
            ..NOBODY
        },
        1000,
        8,
        false,
    ),
    (
        2,
        Readers { part2: 2, ..NOBODY },
        1000,
        4_000_000_000,
        false,
    ),
];

#[test]
fn changes_of_logs(rt: HostRuntime) -> Result<(), Fail> {
    for (current, readers, frames, generation, changes) in CHANGES {
        assert!(rt; current == 1 || current == 2);
        let copied = LogState {
            current,
            done: true,
            copied: 9,
        };
        let pending = LogState {
            current,
            done: false,
            copied: 9,
        };
        assert_eq!(rt;
            may_switch(&copied, &readers, frames, 1000, generation),
            changes
        );
        assert!(rt; !may_switch(&pending, &readers, frames, 1000, generation));
    }
    Ok(())
}
