// What settling has to leave. `bench/opening_files.py` writes it.
use crate::files::Named;
use crate::trial::Told;
use recover::StoreKind;

/// Files; what is left of Main and at the front of the logs once they are settled, and the generation of log 1; how many writes and syncs of
/// Main, log 1 and log 2 there were; and what is seen then.
#[derive(Clone, Copy)]
pub struct Settled {
    pub main: Named,
    pub one: Named,
    pub two: Named,
    pub kind: StoreKind,
    pub after: Named,
    pub header1: [u8; 32],
    pub header2: [u8; 32],
    pub generation: u32,
    pub writes: [usize; 3],
    pub syncs: [usize; 3],
    pub told: Told,
}

pub const SETTLES: &[Settled] = &[
    // a new page store
    Settled {
        main: Named::Empty,
        one: Named::Empty,
        two: Named::Empty,
        kind: StoreKind::Pages,
        after: Named::Store,
        header1: *b"7\x7f\x06\x83\x05\x8bcH\x00\x00\x02\x00\x00\x00\x00\x07\x00\x00\x00\x02\x00\x00\x00g\x26\x1dNp\xd7\xb1\x2a\xf7",
        header2: *b"7\x7f\x06\x83\x05\x8bcH\x00\x00\x02\x00\x00\x00\x00\x06\x00\x00\x00\x01\x00\x00\x00f\x26\x1dNn\xd7\xb1\x2a\xf3",
        generation: 7,
        writes: [16, 18, 1],
        syncs: [1, 3, 1],
        told: (false, [16, 512, 512, 16], 0),
    },
    // a new database of tables
    Settled {
        main: Named::Empty,
        one: Named::Empty,
        two: Named::Empty,
        kind: StoreKind::Tables,
        after: Named::NewTables,
        header1: *b"7\x7f\x06\x83\x05\x8bcH\x00\x00\x02\x00\x00\x00\x00\x07\x00\x00\x00\x02\x00\x00\x00g\x26\x1dNp\xd7\xb1\x2a\xf7",
        header2: *b"7\x7f\x06\x83\x05\x8bcH\x00\x00\x02\x00\x00\x00\x00\x06\x00\x00\x00\x01\x00\x00\x00f\x26\x1dNn\xd7\xb1\x2a\xf3",
        generation: 7,
        writes: [1, 3, 1],
        syncs: [1, 3, 1],
        told: (false, [1, 512, 512, 1], 13),
    },
    // a new page store beside headers alone
    Settled {
        main: Named::Empty,
        one: Named::Bare9,
        two: Named::Bare8,
        kind: StoreKind::Pages,
        after: Named::Store,
        header1: *b"7\x7f\x06\x83\x05\x8bcH\x00\x00\x02\x00\x00\x00\x00\x0f\x00\x00\x00\x08\x00\x00\x00g\x26\x1dN\x7e\xd7\xb1\x2b\x0d",
        header2: *b"7\x7f\x06\x83\x05\x8bcH\x00\x00\x02\x00\x00\x00\x00\x0e\x00\x00\x00\x07\x00\x00\x00f\x26\x1dN\x7c\xd7\xb1\x2b\x09",
        generation: 15,
        writes: [16, 18, 1],
        syncs: [1, 4, 2],
        told: (false, [16, 512, 512, 16], 0),
    },
    // a database of SQLite's
    Settled {
        main: Named::Stock,
        one: Named::Empty,
        two: Named::Empty,
        kind: StoreKind::Tables,
        after: Named::Ours,
        header1: *b"7\x7f\x06\x83\x05\x8bcH\x00\x00\x02\x00\x00\x00\x00\x07\x00\x00\x00\x02\x00\x00\x00g\x26\x1dNp\xd7\xb1\x2a\xf7",
        header2: *b"7\x7f\x06\x83\x05\x8bcH\x00\x00\x02\x00\x00\x00\x00\x06\x00\x00\x00\x01\x00\x00\x00f\x26\x1dNn\xd7\xb1\x2a\xf3",
        generation: 7,
        writes: [1, 3, 1],
        syncs: [1, 3, 1],
        told: (false, [3, 512, 512, 3], 13),
    },
    // one with frames in log 1, whose page 1 has SQLite's versions
    Settled {
        main: Named::Stock,
        one: Named::Migrating,
        two: Named::Empty,
        kind: StoreKind::Tables,
        after: Named::Migrated,
        header1: *b"7\x7f\x06\x83\x05\x8bcH\x00\x00\x02\x00\x00\x00\x00\x0b\x00\x00\x00\x08\x00\x00\x00g\x26\x1dNz\xd7\xb1\x2b\x05",
        header2: *b"7\x7f\x06\x83\x05\x8bcH\x00\x00\x02\x00\x00\x00\x00\x0a\x00\x00\x00\x01\x00\x00\x00f\x26\x1dNr\xd7\xb1\x2a\xfb",
        generation: 11,
        writes: [3, 3, 1],
        syncs: [2, 4, 1],
        told: (false, [4, 512, 512, 4], 5),
    },
    // frames in both logs, of which log 1 is newer
    Settled {
        main: Named::Three,
        one: Named::Newer,
        two: Named::Second,
        kind: StoreKind::Pages,
        after: Named::NewerMap,
        header1: *b"7\x7f\x06\x83\x05\x8bcH\x00\x00\x02\x00\x00\x00\x00\x09\x00\x00\x00\x07\x00\x00\x00f\x26\x1dNw\xd7\xb1\x2a\xff",
        header2: *b"7\x7f\x06\x83\x05\x8bcH\x00\x00\x02\x00\x00\x00\x00\x08\x00\x00\x00\x00\x00\x00\x00e\x26\x1dNo\xd7\xb1\x2a\xf5",
        generation: 9,
        writes: [3, 1, 1],
        syncs: [1, 2, 2],
        told: (false, [4, 512, 512, 4], 50),
    },
    // of which log 2 is newer
    Settled {
        main: Named::Three,
        one: Named::Older,
        two: Named::Second,
        kind: StoreKind::Pages,
        after: Named::SecondMap,
        header1: *b"7\x7f\x06\x83\x05\x8bcH\x00\x00\x02\x00\x00\x00\x00\x07\x00\x00\x00\x07\x00\x00\x00e\x26\x1dNu\xd7\xb1\x2a\xfa",
        header2: *b"7\x7f\x06\x83\x05\x8bcH\x00\x00\x02\x00\x00\x00\x00\x06\x00\x00\x00\x00\x00\x00\x00f\x26\x1dNm\xd7\xb1\x2a\xf2",
        generation: 7,
        writes: [2, 1, 1],
        syncs: [1, 2, 2],
        told: (false, [3, 512, 512, 3], 40),
    },
    // a page store with bare logs
    Settled {
        main: Named::Store,
        one: Named::Bare9,
        two: Named::Bare8,
        kind: StoreKind::Pages,
        after: Named::Store,
        header1: *b"7\x7f\x06\x83\x05\x8bcH\x00\x00\x02\x00\x00\x00\x00\x0d\x00\x00\x00\x07\x00\x00\x00f\x26\x1dN\x7b\xd7\xb1\x2b\x07",
        header2: *b"7\x7f\x06\x83\x05\x8bcH\x00\x00\x02\x00\x00\x00\x00\x0c\x00\x00\x00\x07\x00\x00\x00e\x26\x1dNz\xd7\xb1\x2b\x04",
        generation: 13,
        writes: [0, 1, 1],
        syncs: [0, 2, 2],
        told: (false, [16, 512, 512, 16], 0),
    },
    // a page store without logs
    Settled {
        main: Named::Store,
        one: Named::Empty,
        two: Named::Empty,
        kind: StoreKind::Pages,
        after: Named::Store,
        header1: *b"7\x7f\x06\x83\x05\x8bcH\x00\x00\x02\x00\x00\x00\x00\x03\x00\x00\x00\x01\x00\x00\x00f\x26\x1dNk\xd7\xb1\x2a\xed",
        header2: *b"7\x7f\x06\x83\x05\x8bcH\x00\x00\x02\x00\x00\x00\x00\x02\x00\x00\x00\x01\x00\x00\x00e\x26\x1dNj\xd7\xb1\x2a\xea",
        generation: 3,
        writes: [0, 1, 1],
        syncs: [0, 1, 1],
        told: (false, [16, 512, 512, 16], 0),
    },
];
