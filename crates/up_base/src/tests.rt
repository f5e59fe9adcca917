use crate::{
    AttrName, BadName, Bytes, Failed, Name, NoMemory, PipeName, Refusal, Text, WorkerName,
    read_u16, read_u32, read_u64,
};
use std::process::Abort;
use std::test::Fail;

#[test]
fn bytes_and_texts_hold_what_they_were_given(rt: HostRuntime) -> Result<(), Fail> {
    let alloc = rt.alloc();
    let mut bytes = Bytes::from_slice(alloc, b"ab")?;
    bytes.push(b'c')?;
    bytes.append(b"d")?;
    assert_eq!(rt; bytes.as_slice(), b"abcd".as_slice());
    assert_eq!(rt; Bytes::new(alloc).as_slice(), b"".as_slice());
    let text = Text::from_str(alloc, "x")?;
    assert_eq!(rt; text.as_str(), "x");
    assert_eq!(rt; text.as_slice(), b"x".as_slice());
    Ok(())
}

#[test]
fn texts_and_byte_lists_of_a_mebibyte_are_kept(rt: HostRuntime) -> Result<(), Fail> {
    let alloc = rt.alloc();
    let mut bytes = Bytes::new(alloc);
    for _ in 0..524_288 {
        bytes.append("\u{e9}".as_bytes())?;
    }
    let spelled = std::str::from_utf8(bytes.as_slice()).map_err(|_| "not UTF-8")?;
    assert_eq!(rt; spelled.len(), 1_048_576);
    let text = Text::from_str(alloc, spelled)?;
    assert_eq!(rt; text.as_str(), spelled);
    assert_eq!(rt; text.as_slice(), bytes.as_slice());
    let mut copy = Bytes::from_slice(alloc, text.as_slice())?;
    copy.push(b'x')?;
    copy.append(text.as_slice())?;
    assert_eq!(rt; copy.as_slice().len(), 2_097_153);
    assert_eq!(rt; copy.as_slice().get(1_048_576), Some(&b'x'));
    Ok(())
}

const NAME_BYTES: &[u8] = b"ABCDEFGHIJKLMNOPQRSTUVWXYZabcdefghijklmnopqrstuvwxyz0123456789._-";

/// The text was read as itself, or was refused at this place.
fn assert_read<Of>(
    rt: &impl Abort,
    text: &[u8],
    read: Result<Name<Of>, BadName>,
    wanted: Option<usize>,
) {
    match read {
        Ok(name) => {
            assert_eq!(rt; name.bytes(), text);
            assert_eq!(rt; wanted, None, "{text:?}");
        }
        Err(BadName { at }) => assert_eq!(rt; Some(at), wanted, "{text:?}"),
    }
}

fn assert_each_reads(rt: &impl Abort, text: &[u8], wanted: Option<usize>) {
    assert_read(rt, text, PipeName::read(text), wanted);
    assert_read(rt, text, WorkerName::read(text), wanted);
    assert_read(rt, text, AttrName::read(text), wanted);
}

#[test]
fn a_bad_name_is_told_by_the_first_byte_that_may_not_stand_in_it(rt: HostRuntime) {
    let texts = [
        ("", Some(0)),
        ("main", None),
        ("Video_1.pid-256", None),
        ("a b", Some(1)),
        ("a/b c", Some(1)),
        ("caf\u{e9}", Some(3)),
        ("line\n", Some(4)),
    ];
    for (text, wanted) in texts {
        assert_each_reads(&rt, text.as_bytes(), wanted);
    }
}

#[test]
fn letters_digits_point_underscore_and_hyphen_are_names(rt: HostRuntime) {
    for byte in 0..=255 {
        let wanted = if NAME_BYTES.contains(&byte) {
            None
        } else {
            Some(0)
        };
        assert_each_reads(&rt, &[byte], wanted);
    }
}

// The length of a text, the place of its blank, and the place that is told.
#[test]
fn a_name_has_at_most_64_bytes(rt: HostRuntime) {
    let texts = [
        (1, None, None),
        (64, None, None),
        (65, None, Some(65)),
        (100, None, Some(100)),
        (64, Some(63), Some(63)),
        (100, Some(63), Some(63)),
        (65, Some(64), Some(65)),
        (100, Some(64), Some(100)),
    ];
    for (len, blank, wanted) in texts {
        let mut bytes = [b'a'; 100];
        if let Some(place) = blank {
            assert!(rt; place < bytes.len());
            bytes[place] = b' ';
        }
        assert!(rt; len <= bytes.len());
        assert_each_reads(&rt, &bytes[..len], wanted);
    }
}

#[test]
fn the_first_byte_of_a_number_has_the_highest_worth(rt: HostRuntime) {
    let bytes = [
        1, 2, 3, 4, 5, 6, 7, 8, 255, 255, 255, 255, 255, 255, 255, 255, 0,
    ];
    assert_eq!(rt; read_u16(&bytes, 0), 258);
    assert_eq!(rt; read_u16(&bytes, 7), 0x08ff);
    assert_eq!(rt; read_u16(&bytes, 14), u16::MAX);
    assert_eq!(rt; read_u16(&bytes, 15), 0xff00);
    assert_eq!(rt; read_u32(&bytes, 0), 0x0102_0304);
    assert_eq!(rt; read_u32(&bytes, 5), 0x0607_08ff);
    assert_eq!(rt; read_u32(&bytes, 12), u32::MAX);
    assert_eq!(rt; read_u64(&bytes, 0), 0x0102_0304_0506_0708);
    assert_eq!(rt; read_u64(&bytes, 8), u64::MAX);
    assert_eq!(rt; read_u64(&bytes, 9), 0xffff_ffff_ffff_ff00);
}

#[test]
fn each_fault_has_its_text(rt: HostRuntime) -> Result<(), Fail> {
    let alloc = rt.alloc();
    let texts = [
        (Failed.to_string(alloc)?, "the call on the outside failed"),
        (NoMemory.to_string(alloc)?, "out of memory"),
        (
            Refusal::Failed.to_string(alloc)?,
            "the call on the outside failed",
        ),
        (Refusal::NoMemory.to_string(alloc)?, "out of memory"),
        (Refusal::from(NoMemory).to_string(alloc)?, "out of memory"),
        (BadName { at: 64 }.to_string(alloc)?, "not a name: place 64"),
    ];
    for (text, wanted) in &texts {
        assert_eq!(rt; text.as_str(), *wanted);
    }
    Ok(())
}
