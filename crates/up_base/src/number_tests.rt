use crate::{Bytes, push_decimal, put_u16, put_u32, put_u64, read_u16, read_u32, read_u64};
use std::test::Fail;

#[test]
fn numbers_are_put_with_the_highest_byte_first_and_read_back(rt: HostRuntime) -> Result<(), Fail> {
    let mut out = Bytes::new(rt.alloc());
    assert_eq!(rt; put_u16(&mut out, 0x0102), Ok(()));
    assert_eq!(rt; put_u32(&mut out, 0x0304_0506), Ok(()));
    assert_eq!(rt; put_u64(&mut out, 0x0708_090a_0b0c_0d0e), Ok(()));
    let bytes = out.as_slice();
    assert_eq!(rt;
        bytes,
        [1, 2, 3, 4, 5, 6, 7, 8, 9, 10, 11, 12, 13, 14].as_slice()
    );
    assert_eq!(rt; read_u16(bytes, 0), 0x0102);
    assert_eq!(rt; read_u32(bytes, 2), 0x0304_0506);
    assert_eq!(rt; read_u64(bytes, 6), 0x0708_090a_0b0c_0d0e);
    Ok(())
}

#[test]
fn texts_digits_and_numbers_follow_each_other_in_a_byte_list(rt: HostRuntime) -> Result<(), Fail> {
    let mut out = Bytes::from_slice(rt.alloc(), b"ab")?;
    out.push(b'c')?;
    out.append(b"d")?;
    push_decimal(&mut out, 0)?;
    put_u16(&mut out, 258)?;
    put_u32(&mut out, 2)?;
    put_u64(&mut out, 7)?;
    let wanted = [
        0x61, 0x62, 0x63, 0x64, 0x30, 1, 2, 0, 0, 0, 2, 0, 0, 0, 0, 0, 0, 0, 7,
    ];
    assert_eq!(rt; out.as_slice(), wanted.as_slice());
    Ok(())
}

#[test]
fn numbers_are_printed_in_shortest_decimal_digits(rt: HostRuntime) -> Result<(), Fail> {
    let table = [
        (0, "0"),
        (9, "9"),
        (10, "10"),
        (1_099_511_627_776, "1099511627776"),
        (u64::MAX, "18446744073709551615"),
    ];
    for (number, text) in table {
        let mut out = Bytes::new(rt.alloc());
        assert_eq!(rt; push_decimal(&mut out, number), Ok(()));
        assert_eq!(rt; out.as_slice(), text.as_bytes());
    }
    Ok(())
}
