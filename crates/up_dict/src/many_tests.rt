use crate::tests::{assert_attrs, assert_value, named, set};
use crate::{Dict, SetRefused};
use std::alloc::Global;
use std::process::Abort;
use std::test::Fail;
use up_base::{AttrName, Bytes, Text};
use up_model::{PlainAttrs, Value, ValueView};

/// In byte order: `-` and `.` come before digits, these before capital letters, then `_`, then small
/// letters; a name comes before those that begin with it.
const RISING: [&str; 10] = ["0", "Z", "_", "a", "a-", "a.", "a.b", "aa", "ab", "b"];

/// Set in this order, the attributes stand in the rising order of their names.
fn assert_rising(rt: &impl Abort, alloc: Global, names: &[&str]) {
    let mut dict = Dict::new(alloc);
    for name in names {
        set(rt, &mut dict, name, ValueView::Words(name));
    }
    assert_eq!(rt; dict.len(), RISING.len());
    for (place, wanted) in RISING.iter().enumerate() {
        assert!(rt; place < dict.len());
        let (name, value) = dict.at(place);
        assert_eq!(rt; name.bytes(), wanted.as_bytes());
        assert!(rt; matches!(value, ValueView::Words(text) if text == *wanted));
    }
}

#[test]
fn attributes_stand_in_the_byte_order_of_their_names(rt: HostRuntime) {
    let alloc = rt.alloc();
    let falling = ["b", "ab", "aa", "a.b", "a.", "a-", "a", "_", "Z", "0"];
    let mixed = ["a.", "b", "Z", "aa", "0", "a", "ab", "a-", "_", "a.b"];
    assert_rising(&rt, alloc, &RISING);
    assert_rising(&rt, alloc, &falling);
    assert_rising(&rt, alloc, &mixed);
}

#[test]
fn the_first_the_middle_and_the_last_are_taken_away(rt: HostRuntime) -> Result<(), Fail> {
    let alloc = rt.alloc();
    let mut dict = Dict::new(alloc);
    set(&rt, &mut dict, "c", ValueView::Words("third"));
    set(&rt, &mut dict, "a", ValueView::Unsigned(1));
    set(&rt, &mut dict, "e", ValueView::Opaque(&[5]));
    set(&rt, &mut dict, "b", ValueView::Flag(true));
    set(&rt, &mut dict, "d", ValueView::Void);
    assert!(rt; dict.remove(&named(&rt, "c")));
    let four = [
        ("a", "Unsigned(1)"),
        ("b", "Flag(true)"),
        ("d", "Void"),
        ("e", "Opaque([5])"),
    ];
    assert_attrs(&rt, alloc, &dict, &four)?;
    assert!(rt; dict.remove(&named(&rt, "a")));
    assert!(rt; dict.remove(&named(&rt, "e")));
    assert_attrs(&rt, alloc, &dict, &[("b", "Flag(true)"), ("d", "Void")])?;
    assert!(rt; !dict.remove(&named(&rt, "c")));
    assert!(rt; dict.remove(&named(&rt, "b")));
    assert!(rt; dict.remove(&named(&rt, "d")));
    assert_attrs(&rt, alloc, &dict, &[])
}

/// The name at a place of 64, in their order.
fn pair(place: u8) -> Result<AttrName, Fail> {
    Ok(AttrName::read(&[b'A' + place / 8, b'a' + place % 8])?)
}

#[test]
fn a_65th_name_is_refused_and_a_name_that_is_there_is_set(rt: HostRuntime) -> Result<(), Fail> {
    let alloc = rt.alloc();
    let mut dict = Dict::new(alloc);
    for place in (0..64u8).rev() {
        assert_eq!(rt;
            dict.set(&pair(place)?, ValueView::Unsigned(u64::from(place))),
            Ok(false)
        );
    }
    let refused = SetRefused::TooMany { count: 64 };
    assert_eq!(rt; dict.set(&named(&rt, "x"), ValueView::Void), Err(refused));
    assert_eq!(rt; dict.len(), 64);
    assert_value(&rt, alloc, &dict, "x", "None")?;
    assert_eq!(rt; dict.set(&pair(63)?, ValueView::Flag(true)), Ok(true));
    assert_value(&rt, alloc, &dict, "Hh", "Some(Flag(true))")?;
    assert!(rt; dict.remove(&named(&rt, "Aa")));
    assert_eq!(rt; dict.set(&named(&rt, "x"), ValueView::Void), Ok(false));
    assert_eq!(rt; dict.len(), 64);
    let longer = vec![in alloc; 0; 4_097]?;
    let long = SetRefused::TooLong { len: 4_097 };
    assert_eq!(rt;
        dict.set(&named(&rt, "y"), ValueView::Opaque(&longer)),
        Err(long)
    );
    assert_eq!(rt;
        dict.set(&named(&rt, "x"), ValueView::Opaque(&longer)),
        Err(long)
    );
    assert_value(&rt, alloc, &dict, "x", "Some(Void)")
}

/// A value of one of the five types.
fn made(step: u8) -> ValueView<'static> {
    match step % 6 {
        0 => ValueView::Void,
        1 => ValueView::Flag(step % 4 == 1),
        2 => ValueView::Unsigned(u64::from(step) * 0x0101_0101),
        3 => ValueView::Words("a text"),
        4 => ValueView::Words("a text that is longer than the others"),
        _ => ValueView::Opaque(&[0, 255, 1, 254, 128]),
    }
}

/// The value, on memory of its own.
fn owned(alloc: Global, value: ValueView<'_>) -> Result<Value, Fail> {
    Ok(match value {
        ValueView::Void => Value::Void,
        ValueView::Flag(flag) => Value::Flag(flag),
        ValueView::Unsigned(number) => Value::Unsigned(number),
        ValueView::Words(text) => Value::Words(Text::from_str(alloc, text)?),
        ValueView::Opaque(bytes) => Value::Opaque(Bytes::from_slice(alloc, bytes)?),
    })
}

/// Both have the same attributes in the same order.
fn assert_alike(
    rt: &impl Abort,
    alloc: Global,
    dict: &Dict,
    plain: &PlainAttrs,
) -> Result<(), Fail> {
    assert_eq!(rt; dict.len(), plain.len());
    for place in 0..plain.len() {
        assert!(rt; place < dict.len());
        assert!(rt; place < plain.len());
        let (name, value) = dict.at(place);
        let (wanted, held) = plain.at(place);
        assert_eq!(rt; name.bytes(), wanted.bytes());
        let shown = format!(in alloc; "{value:?}")?;
        let meant = format!(in alloc; "{held:?}")?;
        assert_eq!(rt; shown.as_str(), meant.as_str());
    }
    Ok(())
}

/// One more set or remove on both.
fn change(
    rt: &impl Abort,
    alloc: Global,
    dict: &mut Dict,
    plain: &mut PlainAttrs,
    step: u8,
) -> Result<(), Fail> {
    let name = named(rt, RISING[usize::from(step) * 37 / 5 % 10]);
    if step % 7 < 3 {
        assert_eq!(rt; dict.remove(&name), plain.remove(&name));
    } else {
        let there = plain
            .set(name, owned(alloc, made(step))?)
            .is_ok_and(|there| there);
        assert_eq!(rt; dict.set(&name, made(step)), Ok(there));
    }
    assert_alike(rt, alloc, dict, plain)
}

#[test]
fn two_hundred_changes_leave_what_they_leave_of_a_list(rt: HostRuntime) -> Result<(), Fail> {
    let alloc = rt.alloc();
    let mut dict = Dict::new(alloc);
    let mut plain = PlainAttrs::new(alloc);
    for step in 0..200u8 {
        change(&rt, alloc, &mut dict, &mut plain, step)?;
    }
    Ok(())
}
