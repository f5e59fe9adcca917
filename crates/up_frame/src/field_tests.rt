use crate::tests::assert_front;
use std::alloc::Global;
use std::process::Abort;
use std::test::Fail;
use up_base::Bytes;
use up_model::NotWhole;

/// Fronts of frames whose last byte ends a broken field of the head.
pub(crate) const BROKEN_HEADS: [&[u8]; 8] = [
    &[0x45],
    &[0x47],
    &[0x46, 0],
    &[0x46, 2],
    &[0x46, 1, 0, 65],
    &[0x46, 1, 1, 0],
    &[0x46, 1, 0, 0, 0, 0x10, 0, 1],
    &[0x46, 1, 0, 0, 1, 0, 0, 0],
];

/// Fronts of frames whose last byte ends a field of the head at its end.
pub(crate) const OPEN_HEADS: [&[u8]; 4] = [
    &[0x46],
    &[0x46, 1],
    &[0x46, 1, 0, 64],
    &[0x46, 1, 0, 0, 0, 0x10, 0, 0],
];

/// Behind the head of a frame of two attributes, bytes whose last one ends a broken field: the length of a name, a byte beside those of
/// names, a name that isn't greater than the one before, the number of a type, the length of a value, a value.
pub(crate) const BROKEN: [&[u8]; 38] = [
    &[0],
    &[65],
    &[1, 0],
    &[1, 0x20],
    &[1, 0x2c],
    &[1, 0x2f],
    &[1, 0x3a],
    &[1, 0x40],
    &[1, 0x5b],
    &[1, 0x5e],
    &[1, 0x60],
    &[1, 0x7b],
    &[1, 0x80],
    &[1, 255],
    &[2, 0x78, 0x2c],
    &[1, 0x62, 1, 0, 0, 0, 0, 1, 0x62],
    &[1, 0x62, 1, 0, 0, 0, 0, 1, 0x61],
    &[1, 0x62, 1, 0, 0, 0, 0, 2, 0x61, 0x7a],
    &[2, 0x62, 0x62, 1, 0, 0, 0, 0, 1, 0x62],
    &[2, 0x62, 0x62, 1, 0, 0, 0, 0, 2, 0x62, 0x62],
    &[1, 0x78, 0],
    &[1, 0x78, 6],
    &[1, 0x78, 1, 0, 0, 0, 1],
    &[1, 0x78, 2, 0, 0, 0, 0],
    &[1, 0x78, 2, 0, 0, 0, 2],
    &[1, 0x78, 3, 0, 0, 0, 7],
    &[1, 0x78, 3, 0, 0, 0, 9],
    &[1, 0x78, 3, 1, 0, 0, 8],
    &[1, 0x78, 4, 0, 0, 0x10, 1],
    &[1, 0x78, 4, 0, 1, 0, 0],
    &[1, 0x78, 5, 0, 0, 0x10, 1],
    &[1, 0x78, 5, 1, 0, 0, 0],
    &[1, 0x78, 2, 0, 0, 0, 1, 2],
    &[1, 0x78, 2, 0, 0, 0, 1, 255],
    &[1, 0x78, 4, 0, 0, 0, 1, 0xff],
    &[1, 0x78, 4, 0, 0, 0, 1, 0xc3],
    &[1, 0x78, 4, 0, 0, 0, 2, 0xc0, 0x80],
    &[1, 0x78, 4, 0, 0, 0, 3, 0xed, 0xa0, 0x80],
];

/// Behind the same head, bytes whose last one ends a field at its end.
pub(crate) const OPEN: [&[u8]; 21] = [
    &[1],
    &[64],
    &[1, 0x2d],
    &[1, 0x2e],
    &[1, 0x30],
    &[1, 0x39],
    &[1, 0x41],
    &[1, 0x5a],
    &[1, 0x5f],
    &[1, 0x61],
    &[1, 0x7a],
    &[1, 0x62, 1, 0, 0, 0, 0, 1, 0x63],
    &[1, 0x62, 1, 0, 0, 0, 0, 2, 0x62, 0x2d],
    &[2, 0x62, 0x62, 1, 0, 0, 0, 0, 2, 0x62, 0x63],
    &[1, 0x78, 4, 0, 0, 0x10, 0],
    &[1, 0x78, 5, 0, 0, 0x10, 0],
    &[1, 0x78, 5, 0, 0, 0, 0],
    &[1, 0x78, 2, 0, 0, 0, 1, 0],
    &[1, 0x78, 2, 0, 0, 0, 1, 1],
    &[1, 0x78, 4, 0, 0, 0, 2, 0xc3, 0xa9],
    &[1, 0x78, 4, 0, 0, 0, 4, 0xf4, 0x8f, 0xbf, 0xbf],
];

/// The head of a frame of two attributes, with these bytes behind it.
pub(crate) fn behind_head(alloc: Global, bytes: &[u8]) -> Result<Bytes, Fail> {
    let mut front = Bytes::from_slice(alloc, &[0x46, 1, 0, 2, 0, 0, 0, 0])?;
    front.append(bytes)?;
    Ok(front)
}

/// With their last byte the bytes are broken, and without it they are unfinished.
fn assert_breaks(rt: &impl Abort, bytes: &[u8]) {
    assert_front(rt, bytes, Err(NotWhole::Broken));
    match bytes.split_last() {
        Some((_, front)) => assert_front(rt, front, Err(NotWhole::Unfinished)),
        None => panic!(rt; "no bytes"),
    }
}

#[test]
fn a_field_is_broken_once_its_bytes_are_there(rt: HostRuntime) -> Result<(), Fail> {
    for bytes in BROKEN_HEADS {
        assert_breaks(&rt, bytes);
    }
    for bytes in BROKEN {
        let front = behind_head(rt.alloc(), bytes)?;
        assert_breaks(&rt, front.as_slice());
    }
    Ok(())
}

#[test]
fn a_field_at_its_end_is_taken(rt: HostRuntime) -> Result<(), Fail> {
    for bytes in OPEN_HEADS {
        assert_front(&rt, bytes, Err(NotWhole::Unfinished));
    }
    for bytes in OPEN {
        let front = behind_head(rt.alloc(), bytes)?;
        assert_front(&rt, front.as_slice(), Err(NotWhole::Unfinished));
    }
    Ok(())
}
