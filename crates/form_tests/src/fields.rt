use be_fields::{get_u16, get_u32, get_varint, put_u16, put_u32, put_varint};
use std::test::Fail;

#[test]
fn varints_are_those_of_the_format(rt: HostRuntime) -> Result<(), Fail> {
    let cases: [(u64, &[u8]); 10] = [
        (0, b"\x00"),
        (127, b"\x7f"),
        (128, b"\x81\x00"),
        (10013, b"\xce\x1d"),
        (18013, b"\x81\x8c\x5d"),
        (16383, b"\xff\x7f"),
        (16384, b"\x81\x80\x00"),
        ((1 << 56) - 1, b"\xff\xff\xff\xff\xff\xff\xff\x7f"),
        (1 << 56, b"\x80\xc0\x80\x80\x80\x80\x80\x80\x00"),
        (u64::MAX, b"\xff\xff\xff\xff\xff\xff\xff\xff\xff"),
    ];
    for (number, bytes) in cases {
        let mut written = Vec::new(rt.alloc());
        put_varint(&mut written, number)?;
        assert_eq!(rt; written.as_slice(), bytes);
        assert_eq!(rt; get_varint(bytes), Some((number, bytes.len())));
        put_varint(&mut written, 5)?;
        assert_eq!(rt; get_varint(written.as_slice()), Some((number, bytes.len())));
        assert_eq!(rt; get_varint(&bytes[..bytes.len() - 1]), None);
    }
    Ok(())
}

#[test]
fn a_varint_that_ends_early_is_none(rt: HostRuntime) {
    assert_eq!(rt; get_varint(b""), None);
    assert_eq!(rt; get_varint(b"\x81"), None);
    assert_eq!(rt; get_varint(b"\xff\xff\xff\xff\xff\xff\xff\xff"), None);
}

#[test]
fn fields_are_big_endian(rt: HostRuntime) {
    let mut page = [7u8; 8];
    put_u16(&mut page, 1, 0x1234);
    put_u32(&mut page, 4, 0x5678_9abc);
    assert_eq!(rt;
        page.as_slice(),
        b"\x07\x12\x34\x07\x56\x78\x9a\xbc".as_slice()
    );
    assert_eq!(rt; get_u16(&page, 1), 0x1234);
    assert_eq!(rt; get_u32(&page, 4), 0x5678_9abc);
}
