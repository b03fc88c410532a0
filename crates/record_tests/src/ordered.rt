//! Records in the order that sqlite3's ORDER BY gives, as bench/record_vectors.py cut them out of its files.
use std::alloc::Global;
use std::cmp::Ordering;
use std::process::Abort;
use std::test::Fail;
use value_form::{order, order_rows, read_record};

/// The first row stands before the second.
fn rises(rt: &impl Abort, alloc: Global, smaller: &[u8], larger: &[u8]) -> Result<(), Fail> {
    assert!(rt; smaller.len() < 4096);
    assert!(rt; larger.len() < 4096);
    let smaller = read_record(alloc, smaller)?;
    let larger = read_record(alloc, larger)?;
    assert_eq!(rt; order_rows(&smaller, &larger), Ordering::Less);
    assert_eq!(rt; order_rows(&larger, &smaller), Ordering::Greater);
    assert_eq!(rt; order_rows(&smaller, &smaller), Ordering::Equal);
    if let ([a], [b]) = (smaller.values(), larger.values()) {
        assert_eq!(rt; order(a, b), Ordering::Less);
        assert_eq!(rt; order(b, a), Ordering::Greater);
        assert_eq!(rt; order(a, a), Ordering::Equal);
    }
    Ok(())
}

#[test]
fn values_rise_as_order_by_has_them(rt: HostRuntime) -> Result<(), Fail> {
    let records: [&[u8]; 21] = [
        b"\x02\x00",
        b"\x02\x06\x80\x00\x00\x00\x00\x00\x00\x00",
        b"\x02\x02\xff\x7f",
        b"\x02\x01\xff",
        b"\x02\x08",
        b"\x02\x09",
        b"\x02\x01\x02",
        b"\x02\x02\x01,",
        b"\x02\x06\x7f\xff\xff\xff\xff\xff\xff\xff",
        b"\x02\x0d",
        b"\x02\x0f\x00",
        b"\x02\x0fA",
        b"\x02\x11Ab",
        b"\x02\x0fB",
        b"\x02\x0fa",
        b"\x02\x11\xc3\xa9",
        b"\x02\x0c",
        b"\x02\x0e\x00",
        b"\x02\x0eA",
        b"\x02\x0ea",
        b"\x02\x0e\xff",
    ];
    for at in 1..records.len() {
        rises(&rt, rt.alloc(), records[at - 1], records[at])?;
    }
    Ok(())
}

#[test]
fn rows_of_two_rise_as_order_by_has_them(rt: HostRuntime) -> Result<(), Fail> {
    let records: [&[u8]; 12] = [
        b"\x03\x00\x00",
        b"\x03\x00\x01\x05",
        b"\x03\x00\x0fa",
        b"\x03\x00\x0e\x01",
        b"\x03\x01\x00\xfd",
        b"\x03\x01\x01\xfd\x05",
        b"\x03\x01\x0f\xfda",
        b"\x03\x01\x0e\xfd\x01",
        b"\x03\x0f\x00x",
        b"\x03\x0f\x01x\x05",
        b"\x03\x0f\x0fxa",
        b"\x03\x0f\x0ex\x01",
    ];
    for at in 1..records.len() {
        rises(&rt, rt.alloc(), records[at - 1], records[at])?;
    }
    Ok(())
}

#[test]
fn a_row_stands_before_those_that_it_begins(rt: HostRuntime) -> Result<(), Fail> {
    rises(&rt, rt.alloc(), b"\x01", b"\x02\x00")?;
    rises(&rt, rt.alloc(), b"\x02\x01\x05", b"\x03\x01\x00\x05")
}
