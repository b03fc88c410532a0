use wal_frames::{Front, LogHeader, Sum, read_log_header, sum_step, write_log_header};

/// The log that sqlite3 3.40.1 writes of `PRAGMA page_size=512; PRAGMA journal_mode=WAL; CREATE TABLE t(a);`, copied
/// while the database is open: a header and two frames, in 1,104 bytes. These are its bytes that aren't 0, with the
/// offset of each row of them. The crate's `stock_log.py` makes such logs.
const STOCK: [(usize, &[u8]); 3] = [
    (
        0,
        b"\x37\x7f\x06\x82\x00\x2d\xe2\x18\x00\x00\x02\x00\x00\x00\x00\x00\x6d\x11\xfa\x76\x7e\xf7\xbc\x6e\
\x4b\xc5\x14\x80\x72\x5b\xe3\xa3\x00\x00\x00\x01\x00\x00\x00\x00\x6d\x11\xfa\x76\x7e\xf7\xbc\x6e\
\x91\x0d\xd3\x98\x1f\xdb\x5a\x90SQLite format 3\x00\x02\x00\x02\x02\x00\x40\x20\x20\x00\x00\x00\x02\
\x00\x00\x00\x02\x00\x00\x00\x00\x00\x00\x00\x00\x00\x00\x00\x01\x00\x00\x00\x04\x00\x00\x00\x00\
\x00\x00\x00\x00\x00\x00\x00\x01",
    ),
    (
        151,
        b"\x02\x00\x2e\x63\x01\x0d\x00\x00\x00\x01\x01\xdf\x00\x01\xdf",
    ),
    (
        535,
        b"\x1f\x01\x06\x17\x0f\x0f\x01\x2ftablett\x02CREATE TABLE t(a)\x00\x00\x00\x02\x00\x00\x00\x02\
\x6d\x11\xfa\x76\x7e\xf7\xbc\x6e\x31\x90\x11\x99\x3a\xba\x5d\x39\x0d\x00\x00\x00\x00\x02",
    ),
];

/// A header of log 1, summed by a plain program in another language.
const FIRST: &[u8; 32] = b"\x37\x7f\x06\x83\x05\x8b\x63\x48\x00\x00\x10\x00\x00\x00\x00\x01\
\x00\x00\x00\x01\x00\x00\x00\x05\x26\x1d\x6a\x69\xd7\xb1\x54\x88";

/// A header of log 2 with the other magic number and the greatest values, likewise.
const GREATEST: &[u8; 32] = b"\x37\x7f\x06\x82\x05\x8b\x63\x48\x00\x01\x00\x00\xee\x6b\x28\x00\
\xff\xff\xff\xfe\xff\xff\xff\xff\x62\x73\x8b\x0f\x79\x76\x8b\xab";

const FIRST_HEADER: LogHeader = LogHeader {
    big: true,
    page_size: 4096,
    generation: 1,
    salt1: 1,
    salt2: 5,
    sum: Sum {
        s0: 639461993,
        s1: 3618722952,
    },
};

const GREATEST_HEADER: LogHeader = LogHeader {
    big: false,
    page_size: 65536,
    generation: 4_000_000_000,
    salt1: 0xffff_fffe,
    salt2: 0xffff_ffff,
    sum: Sum {
        s0: 1651739407,
        s1: 2037812139,
    },
};

const ZERO: Sum = Sum { s0: 0, s1: 0 };

#[test]
fn words_are_read_in_both_orders(rt: HostRuntime) {
    let bytes = b"\x00\x00\x00\x01\x00\x00\x00\x02\x00\x00\x00\x03\x00\x00\x00\x04";
    assert_eq!(rt; sum_step(ZERO, true, bytes), Sum { s0: 7, s1: 14 });
    assert_eq!(rt;
        sum_step(ZERO, false, bytes),
        Sum {
            s0: 117440512,
            s1: 234881024
        }
    );
}

#[test]
fn a_stock_log_is_summed_frame_by_frame(rt: HostRuntime) {
    let mut log = [0u8; 1104];
    for (at, piece) in STOCK {
        assert!(rt; at + piece.len() <= log.len());
        log[at..at + piece.len()].copy_from_slice(piece);
    }
    assert_eq!(rt;
        read_log_header(&log, 1),
        Front::Foreign {
            version: 3007000,
            at: 4
        }
    );
    // The header's first bytes, then of each frame its first bytes and its page. A checksum is stored in the header and in
    // each frame.
    let parts: [(usize, usize, Option<Sum>); 5] = [
        (
            0,
            24,
            Some(Sum {
                s0: 0x4bc5_1480,
                s1: 0x725b_e3a3,
            }),
        ),
        (32, 40, None),
        (
            56,
            568,
            Some(Sum {
                s0: 0x910d_d398,
                s1: 0x1fdb_5a90,
            }),
        ),
        (568, 576, None),
        (
            592,
            1104,
            Some(Sum {
                s0: 0x3190_1199,
                s1: 0x3aba_5d39,
            }),
        ),
    ];
    let mut sum = ZERO;
    for (from, to, stored) in parts {
        assert!(rt; from <= to);
        assert!(rt; to <= log.len());
        let part = &log[from..to];
        assert!(rt; part.len() % 8 == 0);
        sum = sum_step(sum, false, part);
        if let Some(stored) = stored {
            assert_eq!(rt; sum, stored);
        }
    }
}

#[test]
fn headers_of_ours_are_written_and_read(rt: HostRuntime) {
    assert_eq!(rt;
        write_log_header(&FIRST_HEADER).as_slice(),
        FIRST.as_slice()
    );
    assert_eq!(rt;
        write_log_header(&GREATEST_HEADER).as_slice(),
        GREATEST.as_slice()
    );
    assert_eq!(rt; read_log_header(FIRST, 1), Front::Ours(FIRST_HEADER));
    assert_eq!(rt; read_log_header(GREATEST, 2), Front::Ours(GREATEST_HEADER));
}

#[test]
fn other_headers_are_nothing_or_foreign(rt: HostRuntime) {
    assert_eq!(rt; read_log_header(b"", 1), Front::Nothing);
    assert_eq!(rt; read_log_header(&FIRST[..31], 1), Front::Nothing);
    assert_eq!(rt; read_log_header(&[0u8; 32], 1), Front::Nothing);
    for at in 0..32 {
        let mut torn = *FIRST;
        torn[at] = 0xff;
        assert_eq!(rt; read_log_header(&torn, 1), Front::Nothing);
    }
    assert_eq!(rt;
        read_log_header(FIRST, 2),
        Front::Foreign {
            version: 93021000,
            at: 12
        }
    );
    assert_eq!(rt;
        read_log_header(GREATEST, 1),
        Front::Foreign {
            version: 93021000,
            at: 12
        }
    );
    let cases: [(u32, u32, u8, u64); 9] = [
        (0, 1, 1, 8),
        (3, 1, 1, 8),
        (1000, 1, 1, 8),
        (256, 1, 1, 8),
        (131072, 1, 1, 8),
        (1000, 2, 1, 8),
        (512, 0, 2, 12),
        (512, 4_000_000_001, 1, 12),
        (512, 3, 2, 12),
    ];
    for (page_size, generation, log, at) in cases {
        let mut header = FIRST_HEADER;
        header.page_size = page_size;
        header.generation = generation;
        let bytes = write_log_header(&header);
        assert_eq!(rt;
            read_log_header(&bytes, log),
            Front::Foreign {
                version: 93021000,
                at
            }
        );
    }
}
