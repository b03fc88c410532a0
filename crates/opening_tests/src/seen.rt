// What a look has to see. `bench/opening_files.py` writes it.
use crate::files::Named;
use crate::trial::Told;
use db_header::HeaderFault;
use disk_face::File;
use recover::LookFault;

/// Files of which Main gets other bytes at some places and is cut by so many at its end, and what is seen of them.
#[derive(Clone, Copy)]
pub struct Look {
    pub main: Named,
    pub puts: &'static [(usize, &'static [u8])],
    pub cut: usize,
    pub one: Named,
    pub two: Named,
    pub hot: bool,
    pub told: Result<Told, LookFault>,
}

const NOTHING: Look = Look {
    main: Named::Empty,
    puts: &[],
    cut: 0,
    one: Named::Empty,
    two: Named::Empty,
    hot: false,
    told: Err(LookFault::Disk),
};

pub const LOOKS: &[Look] = &[
    // nothing there yet
    Look {
        told: Ok((true, [0, 4096, 4096, 0], 0)),
        ..NOTHING
    },
    // headers alone beside an empty database
    Look {
        one: Named::Bare9,
        two: Named::Bare8,
        told: Ok((true, [0, 4096, 4096, 0], 0)),
        ..NOTHING
    },
    // a database of SQLite's
    Look {
        main: Named::Stock,
        told: Ok((false, [3, 512, 512, 3], 13)),
        ..NOTHING
    },
    // 480 bytes in use
    Look {
        main: Named::Stock,
        puts: &[(20, b" ")],
        told: Ok((false, [3, 512, 480, 3], 13)),
        ..NOTHING
    },
    // the size doesn't count, since the change counter went on
    Look {
        main: Named::Stock,
        puts: &[(28, b"\x00\x00\x00\x09"), (92, b"\x00\x00\x00\x00")],
        told: Ok((false, [3, 512, 512, 3], 13)),
        ..NOTHING
    },
    // a page store
    Look {
        main: Named::Store,
        one: Named::Bare9,
        two: Named::Bare8,
        told: Ok((false, [16, 512, 512, 16], 0)),
        ..NOTHING
    },
    // a page of 65,536 bytes
    Look {
        main: Named::Widest,
        told: Ok((false, [1, 65536, 65536, 1], 5)),
        ..NOTHING
    },
    // SQLite's own log mode with no log
    Look {
        main: Named::Logged,
        told: Ok((false, [3, 512, 512, 3], 13)),
        ..NOTHING
    },
    // a log of another page size with no frames
    Look {
        main: Named::Stock,
        one: Named::WideBare,
        told: Ok((false, [3, 512, 512, 3], 13)),
        ..NOTHING
    },
    // the newer log 1 has the last page 1, and ends the map
    Look {
        main: Named::Three,
        one: Named::Newer,
        two: Named::Second,
        told: Ok((false, [4, 512, 512, 4], 50)),
        ..NOTHING
    },
    // the newer log 2 does
    Look {
        main: Named::Three,
        one: Named::Older,
        two: Named::Second,
        told: Ok((false, [3, 512, 512, 3], 40)),
        ..NOTHING
    },
    // log 1 alone makes the map greater
    Look {
        main: Named::Three,
        one: Named::Newer,
        told: Ok((false, [4, 512, 512, 4], 50)),
        ..NOTHING
    },
    // page 1 names another size than was recovered
    Look {
        main: Named::Three,
        one: Named::Grown,
        told: Ok((false, [4, 512, 512, 3], 1)),
        ..NOTHING
    },
    // its page 3 is in no commit
    Look {
        one: Named::Newer,
        told: Err(LookFault::Missing { page: 3 }),
        ..NOTHING
    },
    // too few bytes
    Look {
        main: Named::Zeros,
        cut: 50,
        told: Err(LookFault::Header(HeaderFault::NotADb)),
        ..NOTHING
    },
    // zero bytes
    Look {
        main: Named::Zeros,
        told: Err(LookFault::Header(HeaderFault::NotADb)),
        ..NOTHING
    },
    // a log without page 1 beside an empty database
    Look {
        one: Named::OnlyPage2,
        told: Err(LookFault::Header(HeaderFault::NotADb)),
        ..NOTHING
    },
    // another text
    Look {
        main: Named::Stock,
        puts: &[(0, b"s")],
        told: Err(LookFault::Header(HeaderFault::NotADb)),
        ..NOTHING
    },
    // the same with all later causes
    Look {
        main: Named::Stock,
        puts: &[
            (0, b"s"),
            (16, b"\x03\x00"),
            (18, b"\x01\x02"),
            (56, b"\x00\x00\x00\x02"),
            (52, b"\x00\x00\x00\x03"),
            (20, b"\x21"),
            (44, b"\x00\x00\x00\x05"),
            (28, b"\x00 \x00\x01"),
        ],
        cut: 1,
        one: Named::StockLog,
        two: Named::Wide2,
        hot: true,
        told: Err(LookFault::Header(HeaderFault::NotADb)),
        ..NOTHING
    },
    // 768 is no page size
    Look {
        main: Named::Stock,
        puts: &[(16, b"\x03\x00")],
        told: Err(LookFault::Header(HeaderFault::PageSize(768))),
        ..NOTHING
    },
    // the same with all later causes
    Look {
        main: Named::Stock,
        puts: &[
            (16, b"\x03\x00"),
            (18, b"\x01\x02"),
            (56, b"\x00\x00\x00\x02"),
            (52, b"\x00\x00\x00\x03"),
            (20, b"\x21"),
            (44, b"\x00\x00\x00\x05"),
            (28, b"\x00 \x00\x01"),
        ],
        cut: 1,
        one: Named::StockLog,
        two: Named::Wide2,
        hot: true,
        told: Err(LookFault::Header(HeaderFault::PageSize(768))),
        ..NOTHING
    },
    // versions 1 and 2
    Look {
        main: Named::Stock,
        puts: &[(18, b"\x01\x02")],
        told: Err(LookFault::Header(HeaderFault::Versions(1, 2))),
        ..NOTHING
    },
    // the same with all later causes
    Look {
        main: Named::Stock,
        puts: &[
            (18, b"\x01\x02"),
            (56, b"\x00\x00\x00\x02"),
            (52, b"\x00\x00\x00\x03"),
            (20, b"\x21"),
            (44, b"\x00\x00\x00\x05"),
            (28, b"\x00 \x00\x01"),
        ],
        cut: 1,
        one: Named::StockLog,
        two: Named::Wide2,
        hot: true,
        told: Err(LookFault::Header(HeaderFault::Versions(1, 2))),
        ..NOTHING
    },
    // UTF-16
    Look {
        main: Named::Stock,
        puts: &[(56, b"\x00\x00\x00\x02")],
        told: Err(LookFault::Header(HeaderFault::Utf16(2))),
        ..NOTHING
    },
    // the same with all later causes
    Look {
        main: Named::Stock,
        puts: &[
            (56, b"\x00\x00\x00\x02"),
            (52, b"\x00\x00\x00\x03"),
            (20, b"\x21"),
            (44, b"\x00\x00\x00\x05"),
            (28, b"\x00 \x00\x01"),
        ],
        cut: 1,
        one: Named::StockLog,
        two: Named::Wide2,
        hot: true,
        told: Err(LookFault::Header(HeaderFault::Utf16(2))),
        ..NOTHING
    },
    // auto-vacuum
    Look {
        main: Named::Stock,
        puts: &[(52, b"\x00\x00\x00\x03")],
        told: Err(LookFault::Header(HeaderFault::AutoVacuum(3))),
        ..NOTHING
    },
    // the same with all later causes
    Look {
        main: Named::Stock,
        puts: &[
            (52, b"\x00\x00\x00\x03"),
            (20, b"\x21"),
            (44, b"\x00\x00\x00\x05"),
            (28, b"\x00 \x00\x01"),
        ],
        cut: 1,
        one: Named::StockLog,
        two: Named::Wide2,
        hot: true,
        told: Err(LookFault::Header(HeaderFault::AutoVacuum(3))),
        ..NOTHING
    },
    // 479 bytes in use
    Look {
        main: Named::Stock,
        puts: &[(20, b"\x21")],
        told: Err(LookFault::Header(HeaderFault::Reserved(33))),
        ..NOTHING
    },
    // the same with all later causes
    Look {
        main: Named::Stock,
        puts: &[
            (20, b"\x21"),
            (44, b"\x00\x00\x00\x05"),
            (28, b"\x00 \x00\x01"),
        ],
        cut: 1,
        one: Named::StockLog,
        two: Named::Wide2,
        hot: true,
        told: Err(LookFault::Header(HeaderFault::Reserved(33))),
        ..NOTHING
    },
    // schema format 5
    Look {
        main: Named::Stock,
        puts: &[(44, b"\x00\x00\x00\x05")],
        told: Err(LookFault::Header(HeaderFault::Format(5))),
        ..NOTHING
    },
    // the same with all later causes
    Look {
        main: Named::Stock,
        puts: &[(44, b"\x00\x00\x00\x05"), (28, b"\x00 \x00\x01")],
        cut: 1,
        one: Named::StockLog,
        two: Named::Wide2,
        hot: true,
        told: Err(LookFault::Header(HeaderFault::Format(5))),
        ..NOTHING
    },
    // one page above 2^30 bytes
    Look {
        main: Named::Stock,
        puts: &[(28, b"\x00 \x00\x01")],
        told: Err(LookFault::Header(HeaderFault::TooLarge { pages: 2097153 })),
        ..NOTHING
    },
    // SQLite's own log mode
    Look {
        main: Named::Logged,
        one: Named::StockLog,
        told: Err(LookFault::WalMode),
        ..NOTHING
    },
    // and a hot journal
    Look {
        main: Named::Logged,
        one: Named::StockLog,
        two: Named::Wide2,
        hot: true,
        told: Err(LookFault::WalMode),
        ..NOTHING
    },
    // a hot journal
    Look {
        main: Named::Stock,
        hot: true,
        told: Err(LookFault::HotJournal),
        ..NOTHING
    },
    // a hot journal beside nothing
    Look {
        hot: true,
        told: Err(LookFault::HotJournal),
        ..NOTHING
    },
    // a hot journal and foreign logs
    Look {
        main: Named::Stock,
        one: Named::StockLog,
        two: Named::StockLog,
        hot: true,
        told: Err(LookFault::HotJournal),
        ..NOTHING
    },
    // SQLite's own log beside another mode
    Look {
        main: Named::Stock,
        one: Named::StockLog,
        told: Err(LookFault::ForeignLog {
            file: File::Log1,
            at: 4,
        }),
        ..NOTHING
    },
    // and as log 2
    Look {
        main: Named::Logged,
        two: Named::StockLog,
        told: Err(LookFault::ForeignLog {
            file: File::Log2,
            at: 4,
        }),
        ..NOTHING
    },
    // a foreign version, and nothing else right
    Look {
        main: Named::Stock,
        one: Named::Version4,
        told: Err(LookFault::ForeignLog {
            file: File::Log1,
            at: 4,
        }),
        ..NOTHING
    },
    // a foreign page size
    Look {
        main: Named::Stock,
        one: Named::Size4,
        told: Err(LookFault::ForeignLog {
            file: File::Log1,
            at: 8,
        }),
        ..NOTHING
    },
    // the other log's generation
    Look {
        main: Named::Stock,
        one: Named::Bare4,
        told: Err(LookFault::ForeignLog {
            file: File::Log1,
            at: 12,
        }),
        ..NOTHING
    },
    // no generation
    Look {
        main: Named::Stock,
        one: Named::Bare0,
        told: Err(LookFault::ForeignLog {
            file: File::Log1,
            at: 12,
        }),
        ..NOTHING
    },
    // a generation that is too great
    Look {
        main: Named::Stock,
        one: Named::Great1,
        told: Err(LookFault::ForeignLog {
            file: File::Log1,
            at: 12,
        }),
        ..NOTHING
    },
    // a foreign version, and nothing else right
    Look {
        main: Named::Stock,
        two: Named::Version5,
        told: Err(LookFault::ForeignLog {
            file: File::Log2,
            at: 4,
        }),
        ..NOTHING
    },
    // a foreign page size
    Look {
        main: Named::Stock,
        two: Named::Size5,
        told: Err(LookFault::ForeignLog {
            file: File::Log2,
            at: 8,
        }),
        ..NOTHING
    },
    // the other log's generation
    Look {
        main: Named::Stock,
        two: Named::Bare5,
        told: Err(LookFault::ForeignLog {
            file: File::Log2,
            at: 12,
        }),
        ..NOTHING
    },
    // no generation
    Look {
        main: Named::Stock,
        two: Named::Bare0,
        told: Err(LookFault::ForeignLog {
            file: File::Log2,
            at: 12,
        }),
        ..NOTHING
    },
    // a generation that is too great
    Look {
        main: Named::Stock,
        two: Named::Great2,
        told: Err(LookFault::ForeignLog {
            file: File::Log2,
            at: 12,
        }),
        ..NOTHING
    },
    // log 1 is told before log 2
    Look {
        main: Named::Stock,
        one: Named::Bare4,
        two: Named::Size5,
        told: Err(LookFault::ForeignLog {
            file: File::Log1,
            at: 12,
        }),
        ..NOTHING
    },
    // a foreign log 2 before frames of another page size
    Look {
        main: Named::Stock,
        one: Named::Wide1,
        two: Named::Bare5,
        told: Err(LookFault::ForeignLog {
            file: File::Log2,
            at: 12,
        }),
        ..NOTHING
    },
    // frames of another page size in log 1
    Look {
        main: Named::Stock,
        one: Named::Wide1,
        told: Err(LookFault::ForeignLog {
            file: File::Log1,
            at: 8,
        }),
        ..NOTHING
    },
    // in both
    Look {
        main: Named::Stock,
        one: Named::Wide1,
        two: Named::Wide2,
        told: Err(LookFault::ForeignLog {
            file: File::Log1,
            at: 8,
        }),
        ..NOTHING
    },
    // in log 2, and no whole page 3
    Look {
        main: Named::Stock,
        cut: 1,
        one: Named::Bare9,
        two: Named::Wide2,
        told: Err(LookFault::ForeignLog {
            file: File::Log2,
            at: 8,
        }),
        ..NOTHING
    },
    // no generation left
    Look {
        main: Named::Store,
        two: Named::Last0,
        told: Err(LookFault::ForeignLog {
            file: File::Log2,
            at: 12,
        }),
        ..NOTHING
    },
    // nor a whole page 16
    Look {
        main: Named::Store,
        cut: 1,
        one: Named::Bare9,
        two: Named::Last0,
        told: Err(LookFault::ForeignLog {
            file: File::Log2,
            at: 12,
        }),
        ..NOTHING
    },
    // no generation left after log 1
    Look {
        main: Named::Store,
        one: Named::Last3,
        two: Named::Bare8,
        told: Err(LookFault::ForeignLog {
            file: File::Log1,
            at: 12,
        }),
        ..NOTHING
    },
    // the last one that leaves some
    Look {
        main: Named::Store,
        two: Named::Last4,
        told: Ok((false, [16, 512, 512, 16], 0)),
        ..NOTHING
    },
    // a commit of its own needs more
    Look {
        main: Named::Stock,
        two: Named::Last6,
        told: Err(LookFault::ForeignLog {
            file: File::Log2,
            at: 12,
        }),
        ..NOTHING
    },
    // the last one that leaves enough for it
    Look {
        main: Named::Stock,
        one: Named::Last7,
        told: Ok((false, [3, 512, 512, 3], 13)),
        ..NOTHING
    },
    // so does a new database
    Look {
        two: Named::Last6,
        told: Err(LookFault::ForeignLog {
            file: File::Log2,
            at: 12,
        }),
        ..NOTHING
    },
    // page 16 isn't whole
    Look {
        main: Named::Store,
        cut: 1,
        told: Err(LookFault::Missing { page: 16 }),
        ..NOTHING
    },
    // the file ends inside page 3
    Look {
        main: Named::Stock,
        cut: 200,
        told: Err(LookFault::Missing { page: 3 }),
        ..NOTHING
    },
    // inside page 1
    Look {
        main: Named::Stock,
        cut: 1200,
        told: Err(LookFault::Missing { page: 1 }),
        ..NOTHING
    },
    // a commit names more pages than there are
    Look {
        main: Named::Three,
        one: Named::ToPage5,
        told: Err(LookFault::Missing { page: 4 }),
        ..NOTHING
    },
];
