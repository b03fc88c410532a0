//! Records worked by hand: those that are refused, with each cause and the order of the causes, and those that are just taken.
use super::told::row_text;
use disk_face::Txt;
use std::alloc::Global;
use std::process::Abort;
use std::test::Fail;
use value_form::{RecordFault, Row, Value, read_record, write_record};

fn refused(rt: &impl Abort, alloc: Global, bytes: &[u8], fault: RecordFault) -> Result<(), Fail> {
    assert!(rt; bytes.len() < 4096);
    let found = read_record(alloc, bytes).err();
    if found == Some(RecordFault::Memory) {
        return Err(RecordFault::Memory)?;
    }
    assert_eq!(rt; found, Some(fault));
    Ok(())
}

fn taken(rt: &impl Abort, alloc: Global, bytes: &[u8], values: &[u8]) -> Result<(), Fail> {
    assert!(rt; bytes.len() < 4096);
    let row = read_record(alloc, bytes)?;
    assert_eq!(rt; row_text(alloc, &row)?.as_slice(), values);
    Ok(())
}

#[test]
fn headers_that_break(rt: HostRuntime) -> Result<(), Fail> {
    let cases: [(&[u8], usize); 13] = [
        (b"", 0),
        (b"\x00", 0),
        (b"\x80\x01", 0),
        (b"\x81", 0),
        (b"\x02", 0),
        (b"\x03\x0a", 0),
        (b"\xff\xff\xff\xff\xff\xff\xff\xff\xff", 0),
        (b"\x02\x0a", 1),
        (b"\x02\x0b", 1),
        (b"\x02\x81\x00", 1),
        (b"\x04\x00\x80\x0a", 2),
        (b"\x04\x0f\x00\x0a", 3),
        (b"\x04\x07\x01\x0b", 3),
    ];
    for (bytes, at) in cases {
        refused(&rt, rt.alloc(), bytes, RecordFault::BadHeader { at })?;
    }
    Ok(())
}

#[test]
fn bodies_that_are_short(rt: HostRuntime) -> Result<(), Fail> {
    let cases: [(&[u8], u64); 7] = [
        (b"\x02\x07", 8),
        (b"\x02\x01", 1),
        (b"\x02\x06\x01\x02\x03\x04\x05\x06\x07", 8),
        (b"\x03\x07\x01\x00\x00\x00\x00\x00\x00\x00\x00", 9),
        (
            b"\x0a\xff\xff\xff\xff\xff\xff\xff\xff\xff",
            9223372036854775801,
        ),
        (
            b"\x13\xff\xff\xff\xff\xff\xff\xff\xff\xff\xff\xff\xff\xff\xff\xff\xff\xff\xff",
            18446744073709551602,
        ),
        (
            b"\x1c\xff\xff\xff\xff\xff\xff\xff\xff\xff\xff\xff\xff\xff\xff\xff\xff\xff\xff\xff\xff\xff\xff\xff\xff\xff\xff\xff",
            u64::MAX,
        ),
    ];
    for (bytes, need) in cases {
        refused(&rt, rt.alloc(), bytes, RecordFault::Short { need })?;
    }
    Ok(())
}

#[test]
fn floats_are_named_by_column(rt: HostRuntime) -> Result<(), Fail> {
    let alloc = rt.alloc();
    refused(
        &rt,
        alloc,
        b"\x02\x07\x00\x00\x00\x00\x00\x00\x00\x00",
        RecordFault::Float { column: 0 },
    )?;
    refused(
        &rt,
        alloc,
        b"\x05\x00\x0f\x07\x07xabcdefghABCDEFGHrest",
        RecordFault::Float { column: 2 },
    )
}

#[test]
fn records_that_are_just_taken(rt: HostRuntime) -> Result<(), Fail> {
    let alloc = rt.alloc();
    taken(&rt, alloc, b"\x01", b"")?;
    taken(&rt, alloc, b"\x01ignored", b"")?;
    taken(&rt, alloc, b"\x80\x05\x80\x08\x00", b"integer 0, null")?;
    taken(&rt, alloc, b"\x03\x0d\x0fA", b"text , text 41")
}

#[test]
fn a_row_is_written_in_the_shortest_types(rt: HostRuntime) -> Result<(), Fail> {
    let alloc = rt.alloc();
    let mut row = Row::new(alloc);
    row.push(Value::Null)?;
    row.push(Value::Text(Txt::of(alloc, b"Ada")?))?;
    let mut bytes = Vec::new(alloc);
    write_record(&row, &mut bytes)?;
    assert_eq!(rt; bytes.as_slice(), b"\x03\x00\x13\x41\x64\x61".as_slice());
    row.push(Value::Int(0))?;
    row.push(Value::Int(1))?;
    write_record(&row, &mut bytes)?;
    assert_eq!(rt;
        bytes.as_slice(),
        b"\x03\x00\x13\x41\x64\x61\x05\x00\x13\x01\x01\x41\x64\x61\x00\x01".as_slice()
    );
    Ok(())
}
