// Cells of leaves of 512 bytes, spelled. Where a payload is too large, at least 39 bytes of it are stored, and as many more as don't fill pages of a chain,
// which take 508 each.
use crate::pages::SIZE;
use node_edit::leaf_cell;
use std::alloc::Global;
use std::test::Fail;

// So many bytes, each one more than the one before it.
fn rising(alloc: Global, count: u8) -> Result<Vec<u8>, Fail> {
    let mut bytes = Vec::new(alloc);
    for byte in 0..count {
        bytes.push(byte)?;
    }
    Ok(bytes)
}

// Whether the cell of a payload, whose chain begins at page 9, has this front, so many bytes of the payload and this end.
fn is_spelled_so(
    alloc: Global,
    rowid: Option<i64>,
    payload: &[u8],
    front: &[u8],
    local: u8,
    end: &[u8],
) -> Result<bool, Fail> {
    let text = leaf_cell(alloc, SIZE, rowid, payload, 9)?;
    let mut want = Vec::new(alloc);
    want.extend_from_slice(front)?;
    want.extend_from_slice(&rising(alloc, local)?)?;
    want.extend_from_slice(end)?;
    Ok(text.bytes() == want.as_slice())
}

// Of 600 bytes 561 are left behind the first 39: they fill a page, and 53 more. An entry stores at most 102 bytes, a row 477.
#[test]
fn a_cell_is_spelled(rt: HostRuntime) -> Result<(), Fail> {
    let mut large = rising(rt.alloc(), 250)?;
    large.extend_from_slice([0u8; 350].as_slice())?;
    assert!(rt; is_spelled_so(rt.alloc(), Some(5), &[0, 1, 2], &[3, 5], 3, &[])?);
    assert!(rt; is_spelled_so(rt.alloc(), None, &[0, 1, 2], &[3], 3, &[])?);
    assert!(rt;
        is_spelled_so(
            rt.alloc(),
            Some(5),
            &large,
            &[0x84, 0x58, 5],
            92,
            &[0, 0, 0, 9]
        )?
    );
    assert!(rt; is_spelled_so(rt.alloc(), None, &large, &[0x84, 0x58], 92, &[0, 0, 0, 9])?);
    Ok(())
}
