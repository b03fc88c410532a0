//! Records that SQLite wrote, as bench/record_vectors.py cut them out of its files. Beside each stands what sqlite3 says of its
//! values, and its record with the serial types 8 and 9 as type 1, or nothing where it has none of them.
use super::told::row_text;
use std::alloc::Global;
use std::process::Abort;
use std::test::Fail;
use value_form::{read_record, write_record};

/// The record reads as these values, also where bytes follow, and is written again as said.
fn agrees(
    rt: &impl Abort,
    alloc: Global,
    record: &[u8],
    values: &[u8],
    without_constants: &[u8],
) -> Result<(), Fail> {
    assert!(rt; record.len() < 4096);
    let row = read_record(alloc, record)?;
    let text = row_text(alloc, &row)?;
    assert_eq!(rt; text.as_slice(), values);
    let mut written = Vec::from_slice(alloc, b"before")?;
    write_record(&row, &mut written)?;
    let again = if without_constants.is_empty() {
        record
    } else {
        without_constants
    };
    assert_eq!(rt; &written.as_slice()[..6], b"before".as_slice());
    assert_eq!(rt; &written.as_slice()[6..], again);
    Ok(())
}

#[test]
fn integers_of_each_width(rt: HostRuntime) -> Result<(), Fail> {
    let cases: [(&[u8], &[u8], &[u8]); 26] = [
        (b"\x02\x08", b"integer 0", b"\x02\x01\x00"),
        (b"\x02\x09", b"integer 1", b"\x02\x01\x01"),
        (b"\x02\x01\x02", b"integer 2", b""),
        (b"\x02\x01\xff", b"integer -1", b""),
        (b"\x02\x01\x7f", b"integer 127", b""),
        (b"\x02\x01\x80", b"integer -128", b""),
        (b"\x02\x02\x7f\xff", b"integer 32767", b""),
        (b"\x02\x02\x80\x00", b"integer -32768", b""),
        (b"\x02\x03\x7f\xff\xff", b"integer 8388607", b""),
        (b"\x02\x03\x80\x00\x00", b"integer -8388608", b""),
        (b"\x02\x04\x7f\xff\xff\xff", b"integer 2147483647", b""),
        (b"\x02\x04\x80\x00\x00\x00", b"integer -2147483648", b""),
        (
            b"\x02\x05\x7f\xff\xff\xff\xff\xff",
            b"integer 140737488355327",
            b"",
        ),
        (
            b"\x02\x05\x80\x00\x00\x00\x00\x00",
            b"integer -140737488355328",
            b"",
        ),
        (
            b"\x02\x06\x7f\xff\xff\xff\xff\xff\xff\xff",
            b"integer 9223372036854775807",
            b"",
        ),
        (
            b"\x02\x06\x80\x00\x00\x00\x00\x00\x00\x00",
            b"integer -9223372036854775808",
            b"",
        ),
        (b"\x02\x02\x00\x80", b"integer 128", b""),
        (b"\x02\x02\xff\x7f", b"integer -129", b""),
        (b"\x02\x03\x00\x80\x00", b"integer 32768", b""),
        (b"\x02\x03\xff\x7f\xff", b"integer -32769", b""),
        (b"\x02\x04\x00\x80\x00\x00", b"integer 8388608", b""),
        (b"\x02\x04\xff\x7f\xff\xff", b"integer -8388609", b""),
        (
            b"\x02\x05\x00\x00\x80\x00\x00\x00",
            b"integer 2147483648",
            b"",
        ),
        (
            b"\x02\x05\xff\xff\x7f\xff\xff\xff",
            b"integer -2147483649",
            b"",
        ),
        (
            b"\x02\x06\x00\x00\x80\x00\x00\x00\x00\x00",
            b"integer 140737488355328",
            b"",
        ),
        (
            b"\x02\x06\xff\xff\x7f\xff\xff\xff\xff\xff",
            b"integer -140737488355329",
            b"",
        ),
    ];
    for (record, values, without_constants) in cases {
        agrees(&rt, rt.alloc(), record, values, without_constants)?;
    }
    Ok(())
}

#[test]
fn texts_and_blobs(rt: HostRuntime) -> Result<(), Fail> {
    let cases: [(&[u8], &[u8], &[u8]); 12] = [
        (b"\x02\x0d", b"text ", b""),
        (b"\x02\x13Ada", b"text 416461", b""),
        (b"\x02\x15it's", b"text 69742773", b""),
        (b"\x02\x13a\x00b", b"text 610062", b""),
        (b"\x02\x17\xc3\xa9\xe2\x82\xac", b"text C3A9E282AC", b""),
        (b"\x02\x0c", b"blob ", b""),
        (b"\x02\x0e\x00", b"blob 00", b""),
        (b"\x02\x12\xff\x00\x7f", b"blob FF007F", b""),
        (
            b"\x02\x7fxxxxxxxxxxxxxxxxxxxxxxxxxxxxxxxxxxxxxxxxxxxxxxxxxxxxxxxxx",
            b"text 787878787878787878787878787878787878787878787878787878787878787878787878787878787878787878787878787878787878787878",
            b"",
        ),
        (
            b"\x03\x81\x01xxxxxxxxxxxxxxxxxxxxxxxxxxxxxxxxxxxxxxxxxxxxxxxxxxxxxxxxxx",
            b"text 78787878787878787878787878787878787878787878787878787878787878787878787878787878787878787878787878787878787878787878",
            b"",
        ),
        (
            b"\x03\x81\x00yyyyyyyyyyyyyyyyyyyyyyyyyyyyyyyyyyyyyyyyyyyyyyyyyyyyyyyyyy",
            b"blob 79797979797979797979797979797979797979797979797979797979797979797979797979797979797979797979797979797979797979797979",
            b"",
        ),
        (
            b"\x03\x81\x02yyyyyyyyyyyyyyyyyyyyyyyyyyyyyyyyyyyyyyyyyyyyyyyyyyyyyyyyyyy",
            b"blob 7979797979797979797979797979797979797979797979797979797979797979797979797979797979797979797979797979797979797979797979",
            b"",
        ),
    ];
    for (record, values, without_constants) in cases {
        agrees(&rt, rt.alloc(), record, values, without_constants)?;
    }
    Ok(())
}

#[test]
fn rows_of_several_columns(rt: HostRuntime) -> Result<(), Fail> {
    let cases: [(&[u8], &[u8], &[u8]); 5] = [
        (
            b"\x04\x00\x13\x02Ada\x07\x17",
            b"null, text 416461, integer 1815",
            b"",
        ),
        (b"\x04\x00\x00\x00", b"null, null, null", b""),
        (
            b"\x04\x08\x09\x01\xfe",
            b"integer 0, integer 1, integer -2",
            b"\x04\x01\x01\x01\x00\x01\xfe",
        ),
        (b"\x04\x0d\x0c\x02\x01,", b"text , blob , integer 300", b""),
        (
            b"\x04\x05\x0f\x10\x01\x00\x00\x00\x00\x00z\x01\x02",
            b"integer 1099511627776, text 7A, blob 0102",
            b"",
        ),
    ];
    for (record, values, without_constants) in cases {
        agrees(&rt, rt.alloc(), record, values, without_constants)?;
    }
    Ok(())
}

#[test]
fn records_that_overflow_their_page(rt: HostRuntime) -> Result<(), Fail> {
    let cases: [(&[u8], &[u8], &[u8]); 2] = [
        (
            b"\x04\x01\x87M\x07pppppppppppppppppppppppppppppppppppppppppppppppppppppppppppppppppppppppppppppppppppppppppppppppppppppppppppppppppppppppppppppppppppppppppppppppppppppppppppppppppppppppppppppppppppppppppppppppppppppppppppppppppppppppppppppppppppppppppppppppppppppppppppppppppppppppppppppppppppppppppppppppppppppppppppppppppppppppppppppppppppppppppppppppppppppppppppppppppppppppppppppppppppppppppppppppppppppppppppppppppppppppppppppppppppppppppppppppppppppppppppppppppppppppppppppppppppppppppppppppp",
            b"integer 7, text 707070707070707070707070707070707070707070707070707070707070707070707070707070707070707070707070707070707070707070707070707070707070707070707070707070707070707070707070707070707070707070707070707070707070707070707070707070707070707070707070707070707070707070707070707070707070707070707070707070707070707070707070707070707070707070707070707070707070707070707070707070707070707070707070707070707070707070707070707070707070707070707070707070707070707070707070707070707070707070707070707070707070707070707070707070707070707070707070707070707070707070707070707070707070707070707070707070707070707070707070707070707070707070707070707070707070707070707070707070707070707070707070707070707070707070707070707070707070707070707070707070707070707070707070707070707070707070707070707070707070707070707070707070707070707070707070707070707070707070707070707070707070707070707070707070707070707070707070707070707070707070707070707070707070707070707070707070707070707070707070",
            b"",
        ),
        (
            b"\x04\x00\x87`qqqqqqqqqqqqqqqqqqqqqqqqqqqqqqqqqqqqqqqqqqqqqqqqqqqqqqqqqqqqqqqqqqqqqqqqqqqqqqqqqqqqqqqqqqqqqqqqqqqqqqqqqqqqqqqqqqqqqqqqqqqqqqqqqqqqqqqqqqqqqqqqqqqqqqqqqqqqqqqqqqqqqqqqqqqqqqqqqqqqqqqqqqqqqqqqqqqqqqqqqqqqqqqqqqqqqqqqqqqqqqqqqqqqqqqqqqqqqqqqqqqqqqqqqqqqqqqqqqqqqqqqqqqqqqqqqqqqqqqqqqqqqqqqqqqqqqqqqqqqqqqqqqqqqqqqqqqqqqqqqqqqqqqqqqqqqqqqqqqqqqqqqqqqqqqqqqqqqqqqqqqqqqqqqqqqqqqqqqqqqqqqqqqqqqqqqqqqqqqqqqqqqqqqqqqqqqqqqqqqqqqqqqqqqqqqqqqqqqqqqqqqqqqqqqqqqqqqqqqqqqqqqqqqqqqqqqqqqqqqqqqqqqqqqq",
            b"null, blob 71717171717171717171717171717171717171717171717171717171717171717171717171717171717171717171717171717171717171717171717171717171717171717171717171717171717171717171717171717171717171717171717171717171717171717171717171717171717171717171717171717171717171717171717171717171717171717171717171717171717171717171717171717171717171717171717171717171717171717171717171717171717171717171717171717171717171717171717171717171717171717171717171717171717171717171717171717171717171717171717171717171717171717171717171717171717171717171717171717171717171717171717171717171717171717171717171717171717171717171717171717171717171717171717171717171717171717171717171717171717171717171717171717171717171717171717171717171717171717171717171717171717171717171717171717171717171717171717171717171717171717171717171717171717171717171717171717171717171717171717171717171717171717171717171717171717171717171717171717171717171717171717171717171717171717171717171717171717171717171717171717171717171717171",
            b"",
        ),
    ];
    for (record, values, without_constants) in cases {
        agrees(&rt, rt.alloc(), record, values, without_constants)?;
    }
    Ok(())
}

#[test]
fn records_of_140_columns(rt: HostRuntime) -> Result<(), Fail> {
    let cases: [(&[u8], &[u8], &[u8]); 2] = [
        (
            b"\x81\x0e\x00\x00\x00\x00\x00\x00\x00\x00\x00\x00\x00\x00\x00\x00\x00\x00\x00\x00\x00\x00\x00\x00\x00\x00\x00\x00\x00\x00\x00\x00\x00\x00\x00\x00\x00\x00\x00\x00\x00\x00\x00\x00\x00\x00\x00\x00\x00\x00\x00\x00\x00\x00\x00\x00\x00\x00\x00\x00\x00\x00\x00\x00\x00\x00\x00\x00\x00\x00\x00\x00\x00\x00\x00\x00\x00\x00\x00\x00\x00\x00\x00\x00\x00\x00\x00\x00\x00\x00\x00\x00\x00\x00\x00\x00\x00\x00\x00\x00\x00\x00\x00\x00\x00\x00\x00\x00\x00\x00\x00\x00\x00\x00\x00\x00\x00\x00\x00\x00\x00\x00\x00\x00\x00\x00\x00\x00\x00\x00\x00\x00\x00\x00\x00\x00\x00\x00\x00\x00\x00\x00",
            b"null, null, null, null, null, null, null, null, null, null, null, null, null, null, null, null, null, null, null, null, null, null, null, null, null, null, null, null, null, null, null, null, null, null, null, null, null, null, null, null, null, null, null, null, null, null, null, null, null, null, null, null, null, null, null, null, null, null, null, null, null, null, null, null, null, null, null, null, null, null, null, null, null, null, null, null, null, null, null, null, null, null, null, null, null, null, null, null, null, null, null, null, null, null, null, null, null, null, null, null, null, null, null, null, null, null, null, null, null, null, null, null, null, null, null, null, null, null, null, null, null, null, null, null, null, null, null, null, null, null, null, null, null, null, null, null, null, null, null, null",
            b"",
        ),
        (
            b"\x81\x0e\x01\x01\x01\x01\x01\x01\x01\x01\x01\x01\x01\x01\x01\x01\x01\x01\x01\x01\x01\x01\x01\x01\x01\x01\x01\x01\x01\x01\x01\x01\x01\x01\x01\x01\x01\x01\x01\x01\x01\x01\x01\x01\x01\x01\x01\x01\x01\x01\x01\x01\x01\x01\x01\x01\x01\x01\x01\x01\x01\x01\x01\x01\x01\x01\x01\x01\x01\x01\x01\x01\x08\x09\x01\x01\x01\x01\x01\x01\x01\x01\x01\x01\x01\x01\x01\x01\x01\x01\x01\x01\x01\x01\x01\x01\x01\x01\x01\x01\x01\x01\x01\x01\x01\x01\x01\x01\x01\x01\x01\x01\x01\x01\x01\x01\x01\x01\x01\x01\x01\x01\x01\x01\x01\x01\x01\x01\x01\x01\x01\x01\x01\x01\x01\x01\x01\x01\x01\x01\x01\x01\xba\xbb\xbc\xbd\xbe\xbf\xc0\xc1\xc2\xc3\xc4\xc5\xc6\xc7\xc8\xc9\xca\xcb\xcc\xcd\xce\xcf\xd0\xd1\xd2\xd3\xd4\xd5\xd6\xd7\xd8\xd9\xda\xdb\xdc\xdd\xde\xdf\xe0\xe1\xe2\xe3\xe4\xe5\xe6\xe7\xe8\xe9\xea\xeb\xec\xed\xee\xef\xf0\xf1\xf2\xf3\xf4\xf5\xf6\xf7\xf8\xf9\xfa\xfb\xfc\xfd\xfe\xff\x02\x03\x04\x05\x06\x07\x08\x09\x0a\x0b\x0c\x0d\x0e\x0f\x10\x11\x12\x13\x14\x15\x16\x17\x18\x19\x1a\x1b\x1c\x1d\x1e\x1f !\x22#$%&'()*+,-./0123456789:;<=>?@ABCDE",
            b"integer -70, integer -69, integer -68, integer -67, integer -66, integer -65, integer -64, integer -63, integer -62, integer -61, integer -60, integer -59, integer -58, integer -57, integer -56, integer -55, integer -54, integer -53, integer -52, integer -51, integer -50, integer -49, integer -48, integer -47, integer -46, integer -45, integer -44, integer -43, integer -42, integer -41, integer -40, integer -39, integer -38, integer -37, integer -36, integer -35, integer -34, integer -33, integer -32, integer -31, integer -30, integer -29, integer -28, integer -27, integer -26, integer -25, integer -24, integer -23, integer -22, integer -21, integer -20, integer -19, integer -18, integer -17, integer -16, integer -15, integer -14, integer -13, integer -12, integer -11, integer -10, integer -9, integer -8, integer -7, integer -6, integer -5, integer -4, integer -3, integer -2, integer -1, integer 0, integer 1, integer 2, integer 3, integer 4, integer 5, integer 6, integer 7, integer 8, integer 9, integer 10, integer 11, integer 12, integer 13, integer 14, integer 15, integer 16, integer 17, integer 18, integer 19, integer 20, integer 21, integer 22, integer 23, integer 24, integer 25, integer 26, integer 27, integer 28, integer 29, integer 30, integer 31, integer 32, integer 33, integer 34, integer 35, integer 36, integer 37, integer 38, integer 39, integer 40, integer 41, integer 42, integer 43, integer 44, integer 45, integer 46, integer 47, integer 48, integer 49, integer 50, integer 51, integer 52, integer 53, integer 54, integer 55, integer 56, integer 57, integer 58, integer 59, integer 60, integer 61, integer 62, integer 63, integer 64, integer 65, integer 66, integer 67, integer 68, integer 69",
            b"\x81\x0e\x01\x01\x01\x01\x01\x01\x01\x01\x01\x01\x01\x01\x01\x01\x01\x01\x01\x01\x01\x01\x01\x01\x01\x01\x01\x01\x01\x01\x01\x01\x01\x01\x01\x01\x01\x01\x01\x01\x01\x01\x01\x01\x01\x01\x01\x01\x01\x01\x01\x01\x01\x01\x01\x01\x01\x01\x01\x01\x01\x01\x01\x01\x01\x01\x01\x01\x01\x01\x01\x01\x01\x01\x01\x01\x01\x01\x01\x01\x01\x01\x01\x01\x01\x01\x01\x01\x01\x01\x01\x01\x01\x01\x01\x01\x01\x01\x01\x01\x01\x01\x01\x01\x01\x01\x01\x01\x01\x01\x01\x01\x01\x01\x01\x01\x01\x01\x01\x01\x01\x01\x01\x01\x01\x01\x01\x01\x01\x01\x01\x01\x01\x01\x01\x01\x01\x01\x01\x01\x01\x01\xba\xbb\xbc\xbd\xbe\xbf\xc0\xc1\xc2\xc3\xc4\xc5\xc6\xc7\xc8\xc9\xca\xcb\xcc\xcd\xce\xcf\xd0\xd1\xd2\xd3\xd4\xd5\xd6\xd7\xd8\xd9\xda\xdb\xdc\xdd\xde\xdf\xe0\xe1\xe2\xe3\xe4\xe5\xe6\xe7\xe8\xe9\xea\xeb\xec\xed\xee\xef\xf0\xf1\xf2\xf3\xf4\xf5\xf6\xf7\xf8\xf9\xfa\xfb\xfc\xfd\xfe\xff\x00\x01\x02\x03\x04\x05\x06\x07\x08\x09\x0a\x0b\x0c\x0d\x0e\x0f\x10\x11\x12\x13\x14\x15\x16\x17\x18\x19\x1a\x1b\x1c\x1d\x1e\x1f !\x22#$%&'()*+,-./0123456789:;<=>?@ABCDE",
        ),
    ];
    for (record, values, without_constants) in cases {
        agrees(&rt, rt.alloc(), record, values, without_constants)?;
    }
    Ok(())
}
